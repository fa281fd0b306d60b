// Lookups: open, get, floor and range.
ghost use Rattle.std.specs.Prelude.{◌≡◌, length};
ghost use Rattle.tree.specs.Lent.{lent_of};
ghost use Rattle.tree.specs.Answers.{opened_of, opened_in, opened_leaves, got_means, got_in, got_output, got_leaves, floor_means, floored_in, floored_output, floored_leaves, range_means, ranged_in, ranged_output, ranged_length, ranged_leaves};
ghost use Rattle.tree.specs.Lookup.{get_in, floor_in, range_in};
ghost use Rattle.tree.specs.Workspace.{state_of};
ghost use Rattle.tree.specs.Trusts.{Trusts, OpenedTrusts, GotCalled, FloorCalled, RangeCalled};
ghost use Rattle.moachest.specs.Words.{tree_of, on_tree, on_words};
ghost use Rattle.moachest.specs.Answers.{returned, opened_tree, opened_back, got_tree, got_answer, got_back, floored_tree, floored_answer, floored_back, ranged_tree, ranged_answer, ranged_back};

use crate::answers::Answer;
use crate::words;
use node::order::Order;
use tree::lent::Lent;
use tree::lookup;
use tree::refusal::Refusal;
use tree::view::View;

// Opens the tree whose root is `root`, with keys in this order, as seen from a transaction. Accepted, `tree` holds its words.
#[tactic(auto, using(crate::specs::laws::CallLaws::opened), unfolding(crate::specs::Answers::opened_tree))]
pub fn open(
    tree: &mut [u64],
    image: &[u8],
    heads: &mut [u64],
    bytes: &mut [u8],
    lent: Lent,
    root: u64,
    order: u64,
    xid: u64,
) -> Result<(), Refusal>
    ensures answer { opened_of lent.size heads.new bytes.new (opened_back (returned result) tree.new)
        ≡ on_tree tree.old (λ t. opened_in (lent_of image.now lent) heads.old bytes.old root order xid) }
    ensures left { opened_leaves lent.size lent.slots heads.new bytes.new (opened_back (returned result) tree.new) }
    ensures trusts { OpenedTrusts image.now lent heads.new bytes.new
        (opened_back (returned result) tree.new) }
    ensures words { tree.new ≡ opened_tree tree.old (opened_back (returned result) tree.new) }
{
    // Open needs nothing of the words but that they are enough.
    words::load(tree)?;
    let opened = lookup::open(image, heads, bytes, lent, root, Order { code: order }, xid)?;
    words::store(tree, opened);
    Ok(())
}

// What a key holds. `answer` says which, and a value is copied to the start of `out`.
#[tactic(auto, using(crate::specs::laws::CallLaws::got), unfolding(crate::specs::Answers::got_tree, crate::specs::Answers::got_answer))]
pub fn get(
    tree: &mut [u64],
    image: &[u8],
    heads: &mut [u64],
    bytes: &mut [u8],
    lent: Lent,
    key: &[u8],
    out: &mut [u8],
    answer: &mut [u64],
) -> Result<(), Refusal>
    ensures answer { got_means lent.size heads.new bytes.new out.new (got_back (returned result) tree.new answer.new)
        ≡ on_words tree.old answer.old (λ t. got_in (lent_of image.now lent) t heads.old bytes.old (length out.old) key.now) }
    ensures output { out.new
        ≡ got_output out.old (on_words tree.old answer.old (λ t. got_in (lent_of image.now
        lent) t heads.old bytes.old (length out.old) key.now)) }
    ensures left { got_leaves lent.size lent.slots (tree_of tree.old) heads.old bytes.old heads.new bytes.new
        (got_back (returned result) tree.new answer.new) }
    ensures words { (tree.new ≡ got_tree tree.old (got_back (returned result) tree.new answer.new))
        × (answer.new ≡ got_answer answer.old (got_back (returned result) tree.new answer.new)) }
{
    let t = words::load_for(tree, answer)?;
    let (t, copied) = t.get(image, heads, bytes, lent, key, out)?;
    words::store(tree, t);
    copied.put(answer);
    Ok(())
}

// As the call above, without its tests of what is lent (1). It trusts that `tree`, `heads` and `bytes` are as open or a trusted call on them left
// them, with the same image and numbers, and leaves them so again. Words that are too few are still refused.
#[tactic(auto, using(crate::specs::laws::QuickLaws::get_trusted_laws), unfolding(crate::specs::Answers::got_tree, crate::specs::Answers::got_answer))]
pub fn get_trusted(
    tree: &mut [u64],
    image: &[u8],
    heads: &mut [u64],
    bytes: &mut [u8],
    lent: Lent,
    key: &[u8],
    out: &mut [u8],
    answer: &mut [u64],
) -> Result<(), Refusal>
    requires trusts { Trusts image.now lent (tree_of tree.old) heads.old bytes.old }
    ensures answer { got_means lent.size heads.new bytes.new out.new
        (got_back (returned result) tree.new answer.new)
        ≡ on_words tree.old answer.old (λ t. get_in (lent_of image.now lent)
        (state_of lent.size t heads.old bytes.old) (length out.old) key.now) }
    ensures output { out.new
        ≡ got_output out.old (on_words tree.old answer.old
        (λ t. get_in (lent_of image.now lent)
        (state_of lent.size t heads.old bytes.old) (length out.old) key.now)) }
    ensures left { GotCalled image.now lent (tree_of tree.old)
        heads.old bytes.old heads.new bytes.new
        (got_back (returned result) tree.new answer.new) }
    ensures words { (tree.new ≡ got_tree tree.old (got_back (returned result) tree.new answer.new))
        × (answer.new ≡ got_answer answer.old (got_back (returned result) tree.new answer.new)) }
{
    let t = words::load_for(tree, answer)?;
    // Where the whole way is loaded the tree stays as it is, and its words are not stored.
    let view = View {
        tree: t,
        heads,
        bytes,
        lent,
    };
    if let Some(leaf) = view.leaf_of(key) {
        if words::as_stored(tree) {
            let copied = view.copy_out(leaf, key, out)?;
            copied.put(answer);
            return Ok(());
        }
    }
    let (t, copied) = t.get_in(image, heads, bytes, lent, key, out)?;
    words::store(tree, t);
    copied.put(answer);
    Ok(())
}

// The last entry not above a key. `answer` says whether there is one, and its record is copied to the start of `out`.
#[tactic(auto, using(crate::specs::laws::CallLaws::floored), unfolding(crate::specs::Answers::floored_tree, crate::specs::Answers::floored_answer))]
pub fn floor(
    tree: &mut [u64],
    image: &[u8],
    heads: &mut [u64],
    bytes: &mut [u8],
    lent: Lent,
    key: &[u8],
    out: &mut [u8],
    answer: &mut [u64],
) -> Result<(), Refusal>
    ensures answer { floor_means lent.size heads.new bytes.new out.new (floored_back (returned result) tree.new
        answer.new)
        ≡ on_words tree.old answer.old (λ t. floored_in (lent_of image.now lent) t heads.old bytes.old (length out.old) key.now) }
    ensures output { out.new
        ≡ floored_output out.old (on_words tree.old answer.old
        (λ t. floored_in (lent_of image.now lent) t heads.old bytes.old (length out.old) key.now)) }
    ensures left { floored_leaves lent.size lent.slots (tree_of tree.old) heads.old bytes.old heads.new bytes.new
        (floored_back (returned result) tree.new answer.new) }
    ensures words { (tree.new ≡ floored_tree tree.old (floored_back (returned result) tree.new answer.new))
        × (answer.new ≡ floored_answer answer.old (floored_back (returned result) tree.new answer.new)) }
{
    let t = words::load_for(tree, answer)?;
    let (t, found) = t.floor(image, heads, bytes, lent, key, out)?;
    words::store(tree, t);
    found.put(answer);
    Ok(())
}

// As the call above, without its tests of what is lent (1). It trusts that `tree`, `heads` and `bytes` are as open or a trusted call on them left
// them, with the same image and numbers, and leaves them so again. Words that are too few are still refused.
#[tactic(auto, using(crate::specs::laws::CallLaws::floored), unfolding(crate::specs::Answers::floored_tree, crate::specs::Answers::floored_answer))]
pub fn floor_trusted(
    tree: &mut [u64],
    image: &[u8],
    heads: &mut [u64],
    bytes: &mut [u8],
    lent: Lent,
    key: &[u8],
    out: &mut [u8],
    answer: &mut [u64],
) -> Result<(), Refusal>
    requires trusts { Trusts image.now lent (tree_of tree.old) heads.old bytes.old }
    ensures answer { floor_means lent.size heads.new bytes.new out.new
        (floored_back (returned result) tree.new answer.new)
        ≡ on_words tree.old answer.old (λ t. floor_in (lent_of image.now lent)
        (state_of lent.size t heads.old bytes.old) (length out.old) key.now) }
    ensures output { out.new
        ≡ floored_output out.old (on_words tree.old answer.old
        (λ t. floor_in (lent_of image.now lent)
        (state_of lent.size t heads.old bytes.old) (length out.old) key.now)) }
    ensures left { FloorCalled image.now lent (tree_of tree.old)
        heads.old bytes.old heads.new bytes.new
        (floored_back (returned result) tree.new answer.new) }
    ensures words { (tree.new ≡ floored_tree tree.old (floored_back (returned result) tree.new answer.new))
        × (answer.new ≡ floored_answer answer.old (floored_back (returned result) tree.new answer.new)) }
{
    let t = words::load_for(tree, answer)?;
    let (t, found) = t.floor_in(image, heads, bytes, lent, key, out)?;
    words::store(tree, t);
    found.put(answer);
    Ok(())
}

// The entries from `lo` up to `hi`, without it. `answer` says how many, and their records are copied to the start of `out`.
#[tactic(auto, using(crate::specs::laws::CallLaws::ranged), unfolding(crate::specs::Answers::ranged_tree, crate::specs::Answers::ranged_answer))]
pub fn range(
    tree: &mut [u64],
    image: &[u8],
    heads: &mut [u64],
    bytes: &mut [u8],
    lent: Lent,
    lo: &[u8],
    hi: &[u8],
    out: &mut [u8],
    answer: &mut [u64],
) -> Result<(), Refusal>
    ensures answer { range_means lent.size heads.new bytes.new out.new (ranged_back (returned result) tree.new
        answer.new)
        ≡ on_words tree.old answer.old (λ t. ranged_in (lent_of image.now lent) t heads.old bytes.old (length out.old) lo.now hi.now) }
    ensures output { out.new
        ≡ ranged_output out.old (on_words tree.old answer.old
        (λ t. ranged_in (lent_of image.now lent) t heads.old bytes.old (length out.old) lo.now hi.now)) }
    ensures long { ranged_length out.new (ranged_back (returned result) tree.new answer.new) }
    ensures left { ranged_leaves lent.size lent.slots (tree_of tree.old) heads.old bytes.old heads.new bytes.new
        (ranged_back (returned result) tree.new answer.new) }
    ensures words { (tree.new ≡ ranged_tree tree.old (ranged_back (returned result) tree.new answer.new))
        × (answer.new ≡ ranged_answer answer.old (ranged_back (returned result) tree.new answer.new)) }
{
    let t = words::load_for(tree, answer)?;
    let ranged = t.range(image, heads, bytes, lent, lo, hi, out)?;
    words::store(tree, ranged.tree);
    ranged.put(answer);
    Ok(())
}

// As the call above, without its tests of what is lent (1). It trusts that `tree`, `heads` and `bytes` are as open or a trusted call on them left
// them, with the same image and numbers, and leaves them so again. Words that are too few are still refused.
#[tactic(auto, using(crate::specs::laws::CallLaws::ranged), unfolding(crate::specs::Answers::ranged_tree, crate::specs::Answers::ranged_answer))]
pub fn range_trusted(
    tree: &mut [u64],
    image: &[u8],
    heads: &mut [u64],
    bytes: &mut [u8],
    lent: Lent,
    lo: &[u8],
    hi: &[u8],
    out: &mut [u8],
    answer: &mut [u64],
) -> Result<(), Refusal>
    requires trusts { Trusts image.now lent (tree_of tree.old) heads.old bytes.old }
    ensures answer { range_means lent.size heads.new bytes.new out.new
        (ranged_back (returned result) tree.new answer.new)
        ≡ on_words tree.old answer.old (λ t. range_in (lent_of image.now lent)
        (state_of lent.size t heads.old bytes.old) (length out.old) lo.now hi.now) }
    ensures output { out.new
        ≡ ranged_output out.old (on_words tree.old answer.old
        (λ t. range_in (lent_of image.now lent)
        (state_of lent.size t heads.old bytes.old) (length out.old) lo.now hi.now)) }
    ensures long { ranged_length out.new (ranged_back (returned result) tree.new answer.new) }
    ensures left { RangeCalled image.now lent (tree_of tree.old)
        heads.old bytes.old heads.new bytes.new
        (ranged_back (returned result) tree.new answer.new) }
    ensures words { (tree.new ≡ ranged_tree tree.old (ranged_back (returned result) tree.new answer.new))
        × (answer.new ≡ ranged_answer answer.old (ranged_back (returned result) tree.new answer.new)) }
{
    let t = words::load_for(tree, answer)?;
    let ranged = t.range_in(image, heads, bytes, lent, lo, hi, out)?;
    words::store(tree, ranged.tree);
    ranged.put(answer);
    Ok(())
}
