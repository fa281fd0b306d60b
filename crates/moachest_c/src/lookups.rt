// Lookups: open, get, floor and range.
ghost use Rattle.std.specs.Prelude.{◌≡◌, ◌≤◌, length};
ghost use Rattle.tree.specs.Lent.{lent_of};
ghost use Rattle.tree.specs.Answers.{opened_of, opened_in, opened_leaves, got_means, got_in, got_output, got_leaves, floor_means, floored_in, floored_output, floored_leaves, range_means, ranged_in, ranged_output, ranged_length, ranged_leaves};
ghost use Rattle.tree.specs.Lookup.{get_in, floor_in, range_in};
ghost use Rattle.tree.specs.Workspace.{state_of};
ghost use Rattle.tree.specs.Trusts.{Trusts, OpenedTrusts, GotCalled, FloorCalled, RangeCalled};
ghost use Rattle.moachest.specs.Words.{tree_of, lent_numbers, on_tree, on_words};
ghost use Rattle.moachest.specs.Answers.{opened_tree, opened_back, got_tree, got_answer, got_back, floored_tree, floored_answer, floored_back, ranged_tree, ranged_answer, ranged_back};

use moachest::numbers;

// Opens the tree whose root is `root`, with keys in this order, as seen from a transaction. Accepted, `tree` holds its words.
#[unsafe(no_mangle)]
pub extern "C" fn moachest_open(
    tree: &mut [u64],
    image: &[u8],
    heads: &mut [u64],
    bytes: &mut [u8],
    size: usize,
    slots: usize,
    mapped: u64,
    map: u64,
    root: u64,
    order: u64,
    xid: u64,
) -> u64
    ensures number { result ≤ 20 }
    ensures answer { opened_of size heads.new bytes.new (opened_back result tree.new)
        ≡ on_tree tree.old (λ t. opened_in (lent_of image.now (lent_numbers size slots mapped map)) heads.old bytes.old root order xid) }
    ensures left { opened_leaves size slots heads.new bytes.new (opened_back result tree.new) }
    ensures trusts { OpenedTrusts image.now (lent_numbers size slots mapped map) heads.new bytes.new
        (opened_back result tree.new) }
    ensures words { tree.new ≡ opened_tree tree.old (opened_back result tree.new) }
{
    let lent = numbers::lent(size, slots, mapped, map);
    let called = moachest::lookups::open(tree, image, heads, bytes, lent, root, order, xid);
    numbers::number(called)
}

// What a key holds. `answer` says which, and a value is copied to the start of `out`.
#[unsafe(no_mangle)]
pub extern "C" fn moachest_get(
    tree: &mut [u64],
    image: &[u8],
    heads: &mut [u64],
    bytes: &mut [u8],
    size: usize,
    slots: usize,
    mapped: u64,
    map: u64,
    key: &[u8],
    out: &mut [u8],
    answer: &mut [u64],
) -> u64
    ensures number { result ≤ 20 }
    ensures answer { got_means size heads.new bytes.new out.new (got_back result tree.new answer.new)
        ≡ on_words tree.old answer.old (λ t. got_in (lent_of image.now (lent_numbers size slots mapped
        map)) t heads.old bytes.old (length out.old) key.now) }
    ensures output { out.new
        ≡ got_output out.old (on_words tree.old answer.old (λ t. got_in (lent_of image.now
        (lent_numbers size slots mapped map)) t heads.old bytes.old (length out.old) key.now)) }
    ensures left { got_leaves size slots (tree_of tree.old) heads.old bytes.old heads.new bytes.new (got_back result tree.new answer.new) }
    ensures words { (tree.new ≡ got_tree tree.old (got_back result tree.new answer.new))
        × (answer.new ≡ got_answer answer.old (got_back result tree.new answer.new)) }
{
    let lent = numbers::lent(size, slots, mapped, map);
    let called = moachest::lookups::get(tree, image, heads, bytes, lent, key, out, answer);
    numbers::number(called)
}

// As the call above, without its tests of what is lent (1). It trusts that `tree`, `heads` and `bytes` are as open or a trusted call on them left
// them, with the same image and numbers, and leaves them so again. Words that are too few are still refused.
#[unsafe(no_mangle)]
pub extern "C" fn moachest_get_trusted(
    tree: &mut [u64],
    image: &[u8],
    heads: &mut [u64],
    bytes: &mut [u8],
    size: usize,
    slots: usize,
    mapped: u64,
    map: u64,
    key: &[u8],
    out: &mut [u8],
    answer: &mut [u64],
) -> u64
    requires trusts { Trusts image.now (lent_numbers size slots mapped map) (tree_of tree.old) heads.old bytes.old }
    ensures number { result ≤ 20 }
    ensures answer { got_means size heads.new bytes.new out.new
        (got_back result tree.new answer.new)
        ≡ on_words tree.old answer.old (λ t. get_in (lent_of image.now (lent_numbers size slots mapped map))
        (state_of size t heads.old bytes.old) (length out.old) key.now) }
    ensures output { out.new
        ≡ got_output out.old (on_words tree.old answer.old
        (λ t. get_in (lent_of image.now (lent_numbers size slots mapped map))
        (state_of size t heads.old bytes.old) (length out.old) key.now)) }
    ensures left { GotCalled image.now (lent_numbers size slots mapped map) (tree_of tree.old)
        heads.old bytes.old heads.new bytes.new
        (got_back result tree.new answer.new) }
    ensures words { (tree.new ≡ got_tree tree.old (got_back result tree.new answer.new))
        × (answer.new ≡ got_answer answer.old (got_back result tree.new answer.new)) }
{
    let lent = numbers::lent(size, slots, mapped, map);
    let called = moachest::lookups::get_trusted(tree, image, heads, bytes, lent, key, out, answer);
    numbers::number(called)
}

// The last entry not above a key. `answer` says whether there is one, and its record is copied to the start of `out`.
#[unsafe(no_mangle)]
pub extern "C" fn moachest_floor(
    tree: &mut [u64],
    image: &[u8],
    heads: &mut [u64],
    bytes: &mut [u8],
    size: usize,
    slots: usize,
    mapped: u64,
    map: u64,
    key: &[u8],
    out: &mut [u8],
    answer: &mut [u64],
) -> u64
    ensures number { result ≤ 20 }
    ensures answer { floor_means size heads.new bytes.new out.new (floored_back result tree.new
        answer.new)
        ≡ on_words tree.old answer.old (λ t. floored_in (lent_of image.now (lent_numbers size slots mapped
        map)) t heads.old bytes.old (length out.old) key.now) }
    ensures output { out.new
        ≡ floored_output out.old (on_words tree.old answer.old
        (λ t. floored_in (lent_of image.now (lent_numbers size slots mapped map)) t heads.old bytes.old (length out.old) key.now)) }
    ensures left { floored_leaves size slots (tree_of tree.old) heads.old bytes.old heads.new bytes.new (floored_back result tree.new answer.new) }
    ensures words { (tree.new ≡ floored_tree tree.old (floored_back result tree.new answer.new))
        × (answer.new ≡ floored_answer answer.old (floored_back result tree.new answer.new)) }
{
    let lent = numbers::lent(size, slots, mapped, map);
    let called = moachest::lookups::floor(tree, image, heads, bytes, lent, key, out, answer);
    numbers::number(called)
}

// As the call above, without its tests of what is lent (1). It trusts that `tree`, `heads` and `bytes` are as open or a trusted call on them left
// them, with the same image and numbers, and leaves them so again. Words that are too few are still refused.
#[unsafe(no_mangle)]
pub extern "C" fn moachest_floor_trusted(
    tree: &mut [u64],
    image: &[u8],
    heads: &mut [u64],
    bytes: &mut [u8],
    size: usize,
    slots: usize,
    mapped: u64,
    map: u64,
    key: &[u8],
    out: &mut [u8],
    answer: &mut [u64],
) -> u64
    requires trusts { Trusts image.now (lent_numbers size slots mapped map) (tree_of tree.old) heads.old bytes.old }
    ensures number { result ≤ 20 }
    ensures answer { floor_means size heads.new bytes.new out.new
        (floored_back result tree.new answer.new)
        ≡ on_words tree.old answer.old (λ t. floor_in (lent_of image.now (lent_numbers size slots mapped map))
        (state_of size t heads.old bytes.old) (length out.old) key.now) }
    ensures output { out.new
        ≡ floored_output out.old (on_words tree.old answer.old
        (λ t. floor_in (lent_of image.now (lent_numbers size slots mapped map))
        (state_of size t heads.old bytes.old) (length out.old) key.now)) }
    ensures left { FloorCalled image.now (lent_numbers size slots mapped map) (tree_of tree.old)
        heads.old bytes.old heads.new bytes.new
        (floored_back result tree.new answer.new) }
    ensures words { (tree.new ≡ floored_tree tree.old (floored_back result tree.new answer.new))
        × (answer.new ≡ floored_answer answer.old (floored_back result tree.new answer.new)) }
{
    let lent = numbers::lent(size, slots, mapped, map);
    let called = moachest::lookups::floor_trusted(
        tree, image, heads, bytes, lent, key, out, answer,
    );
    numbers::number(called)
}

// The entries from `lo` up to `hi`, without it. `answer` says how many, and their records are copied to the start of `out`.
#[unsafe(no_mangle)]
pub extern "C" fn moachest_range(
    tree: &mut [u64],
    image: &[u8],
    heads: &mut [u64],
    bytes: &mut [u8],
    size: usize,
    slots: usize,
    mapped: u64,
    map: u64,
    lo: &[u8],
    hi: &[u8],
    out: &mut [u8],
    answer: &mut [u64],
) -> u64
    ensures number { result ≤ 20 }
    ensures answer { range_means size heads.new bytes.new out.new (ranged_back result tree.new
        answer.new)
        ≡ on_words tree.old answer.old (λ t. ranged_in (lent_of image.now (lent_numbers size slots mapped
        map)) t heads.old bytes.old (length out.old) lo.now hi.now) }
    ensures output { out.new
        ≡ ranged_output out.old (on_words tree.old answer.old
        (λ t. ranged_in (lent_of image.now (lent_numbers size slots mapped map)) t heads.old bytes.old (length out.old) lo.now hi.now)) }
    ensures long { ranged_length out.new (ranged_back result tree.new answer.new) }
    ensures left { ranged_leaves size slots (tree_of tree.old) heads.old bytes.old heads.new bytes.new (ranged_back result tree.new answer.new) }
    ensures words { (tree.new ≡ ranged_tree tree.old (ranged_back result tree.new answer.new))
        × (answer.new ≡ ranged_answer answer.old (ranged_back result tree.new answer.new)) }
{
    let lent = numbers::lent(size, slots, mapped, map);
    let called = moachest::lookups::range(tree, image, heads, bytes, lent, lo, hi, out, answer);
    numbers::number(called)
}

// As the call above, without its tests of what is lent (1). It trusts that `tree`, `heads` and `bytes` are as open or a trusted call on them left
// them, with the same image and numbers, and leaves them so again. Words that are too few are still refused.
#[unsafe(no_mangle)]
pub extern "C" fn moachest_range_trusted(
    tree: &mut [u64],
    image: &[u8],
    heads: &mut [u64],
    bytes: &mut [u8],
    size: usize,
    slots: usize,
    mapped: u64,
    map: u64,
    lo: &[u8],
    hi: &[u8],
    out: &mut [u8],
    answer: &mut [u64],
) -> u64
    requires trusts { Trusts image.now (lent_numbers size slots mapped map) (tree_of tree.old) heads.old bytes.old }
    ensures number { result ≤ 20 }
    ensures answer { range_means size heads.new bytes.new out.new
        (ranged_back result tree.new answer.new)
        ≡ on_words tree.old answer.old (λ t. range_in (lent_of image.now (lent_numbers size slots mapped map))
        (state_of size t heads.old bytes.old) (length out.old) lo.now hi.now) }
    ensures output { out.new
        ≡ ranged_output out.old (on_words tree.old answer.old
        (λ t. range_in (lent_of image.now (lent_numbers size slots mapped map))
        (state_of size t heads.old bytes.old) (length out.old) lo.now hi.now)) }
    ensures long { ranged_length out.new (ranged_back result tree.new answer.new) }
    ensures left { RangeCalled image.now (lent_numbers size slots mapped map) (tree_of tree.old)
        heads.old bytes.old heads.new bytes.new
        (ranged_back result tree.new answer.new) }
    ensures words { (tree.new ≡ ranged_tree tree.old (ranged_back result tree.new answer.new))
        × (answer.new ≡ ranged_answer answer.old (ranged_back result tree.new answer.new)) }
{
    let lent = numbers::lent(size, slots, mapped, map);
    let called = moachest::lookups::range_trusted(
        tree, image, heads, bytes, lent, lo, hi, out, answer,
    );
    numbers::number(called)
}
