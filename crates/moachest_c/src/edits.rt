// Edits: upsert, remove, omap_put and omap_drop.
ghost use Rattle.std.specs.Prelude.{◌≡◌, true, ◌*◌, ◌≤◌, length};
ghost use Rattle.tree.specs.Lent.{lent_of};
ghost use Rattle.tree.specs.Workspace.{state_of, scratch_holds, edits};
ghost use Rattle.tree.specs.Upsert.{upsert_in, upsert};
ghost use Rattle.tree.specs.Remove.{remove_in, remove};
ghost use Rattle.tree.specs.Omap.{omap_put_in, omap_put, omap_drop_in, omap_drop};
ghost use Rattle.tree.specs.Answers.{put_value, edited_of, edited_leaves, removed_of, removed_leaves};
ghost use Rattle.tree.specs.Trusts.{Trusts, EditedCalled, RemovedCalled};
ghost use Rattle.moachest.specs.Words.{yes, tree_of, lent_numbers, on_tree, on_words};
ghost use Rattle.moachest.specs.Answers.{edited_tree, edited_back, removed_tree, removed_answer, removed_back};

use moachest::numbers;

// Puts the entry of a key: the bytes of `value`, or a ghost, which has none, where `is_ghost` is not 0.
#[unsafe(no_mangle)]
pub extern "C" fn moachest_upsert(
    tree: &mut [u64],
    image: &[u8],
    heads: &mut [u64],
    bytes: &mut [u8],
    scratch: &mut [u8],
    size: usize,
    slots: usize,
    mapped: u64,
    map: u64,
    key: &[u8],
    is_ghost: u64,
    value: &[u8],
) -> u64
    ensures number { result ≤ 20 }
    ensures answer { edited_of size heads.new bytes.new (edited_back result tree.new)
        ≡ on_tree tree.old (λ t. edits size slots t heads.old bytes.old scratch.old (λ s.
        upsert (lent_of image.now (lent_numbers size slots mapped map)) s key.now (put_value (yes is_ghost) value.now))) }
    ensures left { edited_leaves size slots (tree_of tree.old) heads.old bytes.old heads.new bytes.new (edited_back result tree.new) }
    ensures words { tree.new ≡ edited_tree tree.old (edited_back result tree.new) }
{
    let lent = numbers::lent(size, slots, mapped, map);
    let value = numbers::value(is_ghost, value);
    let called = moachest::edits::upsert(tree, image, heads, bytes, scratch, lent, key, value);
    numbers::number(called)
}

// As the call above, without its tests of what is lent (1). It trusts that `tree`, `heads` and `bytes` are as open or a trusted call on them left
// them, with the same image and numbers, and leaves them so again; and that the scratch has at least two blocks' worth of bytes.
// Words that are too few are still refused.
#[unsafe(no_mangle)]
pub extern "C" fn moachest_upsert_trusted(
    tree: &mut [u64],
    image: &[u8],
    heads: &mut [u64],
    bytes: &mut [u8],
    scratch: &mut [u8],
    size: usize,
    slots: usize,
    mapped: u64,
    map: u64,
    key: &[u8],
    is_ghost: u64,
    value: &[u8],
) -> u64
    requires trusts { Trusts image.now (lent_numbers size slots mapped map) (tree_of tree.old) heads.old bytes.old }
    requires room { 2 * size ≤ length scratch.old }
    ensures number { result ≤ 20 }
    ensures answer { edited_of size heads.new bytes.new (edited_back result tree.new)
        ≡ on_tree tree.old (λ t. upsert_in (lent_of image.now (lent_numbers size slots mapped map))
        (state_of size t heads.old bytes.old) key.now (put_value (yes is_ghost) value.now)) }
    ensures left { EditedCalled image.now (lent_numbers size slots mapped map) (tree_of tree.old)
        heads.old bytes.old heads.new bytes.new (edited_back result tree.new) }
    ensures words { tree.new ≡ edited_tree tree.old (edited_back result tree.new) }
{
    let lent = numbers::lent(size, slots, mapped, map);
    let value = numbers::value(is_ghost, value);
    let called = moachest::edits::upsert_trusted(
        tree, image, heads, bytes, scratch, lent, key, value,
    );
    numbers::number(called)
}

// Takes the entry of a key out. `answer` says whether it was there.
#[unsafe(no_mangle)]
pub extern "C" fn moachest_remove(
    tree: &mut [u64],
    image: &[u8],
    heads: &mut [u64],
    bytes: &mut [u8],
    scratch: &mut [u8],
    size: usize,
    slots: usize,
    mapped: u64,
    map: u64,
    key: &[u8],
    answer: &mut [u64],
) -> u64
    ensures number { result ≤ 20 }
    ensures answer { removed_of size heads.new bytes.new (removed_back result tree.new answer.new)
        ≡ on_words tree.old answer.old (λ t. edits size slots t heads.old bytes.old scratch.old
        (λ s. remove (lent_of image.now (lent_numbers size slots mapped map)) s key.now)) }
    ensures left { removed_leaves size slots (tree_of tree.old) heads.old bytes.old heads.new bytes.new (removed_back result tree.new answer.new) }
    ensures words { (tree.new ≡ removed_tree tree.old (removed_back result tree.new answer.new))
        × (answer.new ≡ removed_answer answer.old (removed_back result tree.new answer.new)) }
{
    let lent = numbers::lent(size, slots, mapped, map);
    let called = moachest::edits::remove(tree, image, heads, bytes, scratch, lent, key, answer);
    numbers::number(called)
}

// As the call above, without its tests of what is lent (1). It trusts that `tree`, `heads` and `bytes` are as open or a trusted call on them left
// them, with the same image and numbers, and leaves them so again; and that the scratch has at least two blocks' worth of bytes.
// Words that are too few are still refused.
#[unsafe(no_mangle)]
pub extern "C" fn moachest_remove_trusted(
    tree: &mut [u64],
    image: &[u8],
    heads: &mut [u64],
    bytes: &mut [u8],
    scratch: &mut [u8],
    size: usize,
    slots: usize,
    mapped: u64,
    map: u64,
    key: &[u8],
    answer: &mut [u64],
) -> u64
    requires trusts { Trusts image.now (lent_numbers size slots mapped map) (tree_of tree.old) heads.old bytes.old }
    requires room { 2 * size ≤ length scratch.old }
    ensures number { result ≤ 20 }
    ensures answer { removed_of size heads.new bytes.new (removed_back result tree.new answer.new)
        ≡ on_words tree.old answer.old (λ t. remove_in
        (lent_of image.now (lent_numbers size slots mapped map)) (state_of size t heads.old bytes.old)
        key.now) }
    ensures left { RemovedCalled image.now (lent_numbers size slots mapped map) (tree_of tree.old)
        heads.old bytes.old heads.new bytes.new
        (removed_back result tree.new answer.new) }
    ensures words { (tree.new ≡ removed_tree tree.old (removed_back result tree.new answer.new))
        × (answer.new ≡ removed_answer answer.old (removed_back result tree.new answer.new)) }
{
    let lent = numbers::lent(size, slots, mapped, map);
    let called = moachest::edits::remove_trusted(
        tree, image, heads, bytes, scratch, lent, key, answer,
    );
    numbers::number(called)
}

// Takes the versions of an id out and puts one that maps it to an address and a length.
#[unsafe(no_mangle)]
pub extern "C" fn moachest_omap_put(
    tree: &mut [u64],
    image: &[u8],
    heads: &mut [u64],
    bytes: &mut [u8],
    scratch: &mut [u8],
    size: usize,
    slots: usize,
    mapped: u64,
    map: u64,
    id: u64,
    xid: u64,
    address: u64,
    length: u64,
) -> u64
    ensures number { result ≤ 20 }
    ensures answer { edited_of size heads.new bytes.new (edited_back result tree.new)
        ≡ on_tree tree.old (λ t. edits size slots t heads.old bytes.old scratch.old (λ s.
        omap_put (lent_of image.now (lent_numbers size slots mapped map)) s id xid address length)) }
    ensures left { edited_leaves size slots (tree_of tree.old) heads.old bytes.old heads.new bytes.new (edited_back result tree.new) }
    ensures words { tree.new ≡ edited_tree tree.old (edited_back result tree.new) }
{
    let lent = numbers::lent(size, slots, mapped, map);
    let called = moachest::edits::omap_put(
        tree, image, heads, bytes, scratch, lent, id, xid, address, length,
    );
    numbers::number(called)
}

// As the call above, without its tests of what is lent (1). It trusts that `tree`, `heads` and `bytes` are as open or a trusted call on them left
// them, with the same image and numbers, and leaves them so again; and that the scratch has exactly `(2 * slots + 2) * size` bytes.
// Words that are too few are still refused.
#[unsafe(no_mangle)]
pub extern "C" fn moachest_omap_put_trusted(
    tree: &mut [u64],
    image: &[u8],
    heads: &mut [u64],
    bytes: &mut [u8],
    scratch: &mut [u8],
    size: usize,
    slots: usize,
    mapped: u64,
    map: u64,
    id: u64,
    xid: u64,
    address: u64,
    length: u64,
) -> u64
    requires trusts { Trusts image.now (lent_numbers size slots mapped map) (tree_of tree.old) heads.old bytes.old }
    requires room { scratch_holds size slots scratch.old ≡ true }
    ensures number { result ≤ 20 }
    ensures answer { edited_of size heads.new bytes.new (edited_back result tree.new)
        ≡ on_tree tree.old (λ t. omap_put_in (lent_of image.now (lent_numbers size slots mapped map))
        (state_of size t heads.old bytes.old) id xid address length) }
    ensures left { EditedCalled image.now (lent_numbers size slots mapped map) (tree_of tree.old)
        heads.old bytes.old heads.new bytes.new (edited_back result tree.new) }
    ensures words { tree.new ≡ edited_tree tree.old (edited_back result tree.new) }
{
    let lent = numbers::lent(size, slots, mapped, map);
    let called = moachest::edits::omap_put_trusted(
        tree, image, heads, bytes, scratch, lent, id, xid, address, length,
    );
    numbers::number(called)
}

// Takes the versions of an id out.
#[unsafe(no_mangle)]
pub extern "C" fn moachest_omap_drop(
    tree: &mut [u64],
    image: &[u8],
    heads: &mut [u64],
    bytes: &mut [u8],
    scratch: &mut [u8],
    size: usize,
    slots: usize,
    mapped: u64,
    map: u64,
    id: u64,
) -> u64
    ensures number { result ≤ 20 }
    ensures answer { edited_of size heads.new bytes.new (edited_back result tree.new)
        ≡ on_tree tree.old (λ t. edits size slots t heads.old bytes.old scratch.old (λ s.
        omap_drop (lent_of image.now (lent_numbers size slots mapped map)) s id)) }
    ensures left { edited_leaves size slots (tree_of tree.old) heads.old bytes.old heads.new bytes.new (edited_back result tree.new) }
    ensures words { tree.new ≡ edited_tree tree.old (edited_back result tree.new) }
{
    let lent = numbers::lent(size, slots, mapped, map);
    let called = moachest::edits::omap_drop(tree, image, heads, bytes, scratch, lent, id);
    numbers::number(called)
}

// As the call above, without its tests of what is lent (1). It trusts that `tree`, `heads` and `bytes` are as open or a trusted call on them left
// them, with the same image and numbers, and leaves them so again; and that the scratch has exactly `(2 * slots + 2) * size` bytes.
// Words that are too few are still refused.
#[unsafe(no_mangle)]
pub extern "C" fn moachest_omap_drop_trusted(
    tree: &mut [u64],
    image: &[u8],
    heads: &mut [u64],
    bytes: &mut [u8],
    scratch: &mut [u8],
    size: usize,
    slots: usize,
    mapped: u64,
    map: u64,
    id: u64,
) -> u64
    requires trusts { Trusts image.now (lent_numbers size slots mapped map) (tree_of tree.old) heads.old bytes.old }
    requires room { scratch_holds size slots scratch.old ≡ true }
    ensures number { result ≤ 20 }
    ensures answer { edited_of size heads.new bytes.new (edited_back result tree.new)
        ≡ on_tree tree.old (λ t. omap_drop_in (lent_of image.now (lent_numbers size slots mapped map))
        (state_of size t heads.old bytes.old) id) }
    ensures left { EditedCalled image.now (lent_numbers size slots mapped map) (tree_of tree.old)
        heads.old bytes.old heads.new bytes.new (edited_back result tree.new) }
    ensures words { tree.new ≡ edited_tree tree.old (edited_back result tree.new) }
{
    let lent = numbers::lent(size, slots, mapped, map);
    let called = moachest::edits::omap_drop_trusted(tree, image, heads, bytes, scratch, lent, id);
    numbers::number(called)
}
