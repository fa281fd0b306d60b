// Edits: upsert, remove, omap_put and omap_drop.
ghost use Rattle.std.specs.Prelude.{◌≡◌, true, ◌*◌, ◌≤◌, length};
ghost use Rattle.tree.specs.Lent.{lent_of};
ghost use Rattle.tree.specs.Workspace.{state_of, scratch_holds, edits};
ghost use Rattle.tree.specs.Upsert.{upsert_in, upsert};
ghost use Rattle.tree.specs.Remove.{remove_in, remove};
ghost use Rattle.tree.specs.Omap.{omap_put_in, omap_put, omap_drop_in, omap_drop};
ghost use Rattle.tree.specs.Answers.{lent_value, edited_of, edited_leaves, removed_of, removed_leaves};
ghost use Rattle.tree.specs.Trusts.{Trusts, EditedCalled, RemovedCalled};
ghost use Rattle.moachest.specs.Words.{tree_of, on_tree, on_words};
ghost use Rattle.moachest.specs.Answers.{returned, edited_tree, edited_back, removed_tree, removed_answer, removed_back};

use crate::answers::Answer;
use crate::words;
use tree::lent::Lent;
use tree::refusal::Refusal;

// Puts the entry of a key: the bytes of `value`, or a ghost where there are none.
#[tactic(auto, using(crate::specs::laws::CallLaws::edited), unfolding(crate::specs::Answers::edited_tree))]
pub fn upsert(
    tree: &mut [u64],
    image: &[u8],
    heads: &mut [u64],
    bytes: &mut [u8],
    scratch: &mut [u8],
    lent: Lent,
    key: &[u8],
    value: Option<&[u8]>,
) -> Result<(), Refusal>
    ensures answer { edited_of lent.size heads.new bytes.new (edited_back (returned result) tree.new)
        ≡ on_tree tree.old (λ t. edits lent.size lent.slots t heads.old bytes.old scratch.old (λ s.
        upsert (lent_of image.now lent) s key.now (lent_value value.entry))) }
    ensures left { edited_leaves lent.size lent.slots (tree_of tree.old) heads.old bytes.old heads.new bytes.new
        (edited_back (returned result) tree.new) }
    ensures words { tree.new ≡ edited_tree tree.old (edited_back (returned result) tree.new) }
{
    let t = words::load(tree)?;
    let edited = t.upsert(image, heads, bytes, lent, key, value, scratch)?;
    words::store(tree, edited);
    Ok(())
}

// As the call above, without its tests of what is lent (1). It trusts that `tree`, `heads` and `bytes` are as open or a trusted call on them left
// them, with the same image and the same numbers lent, and leaves them so again; and that the scratch has at least two blocks' worth of bytes.
// Words that are too few are still refused.
#[tactic(auto, using(crate::specs::laws::CallLaws::edited), unfolding(crate::specs::Answers::edited_tree))]
pub fn upsert_trusted(
    tree: &mut [u64],
    image: &[u8],
    heads: &mut [u64],
    bytes: &mut [u8],
    scratch: &mut [u8],
    lent: Lent,
    key: &[u8],
    value: Option<&[u8]>,
) -> Result<(), Refusal>
    requires trusts { Trusts image.now lent (tree_of tree.old) heads.old bytes.old }
    requires room { 2 * lent.size ≤ length scratch.old }
    ensures answer { edited_of lent.size heads.new bytes.new (edited_back (returned result) tree.new)
        ≡ on_tree tree.old (λ t. upsert_in (lent_of image.now lent)
        (state_of lent.size t heads.old bytes.old) key.now (lent_value value.entry)) }
    ensures left { EditedCalled image.now lent (tree_of tree.old)
        heads.old bytes.old heads.new bytes.new (edited_back (returned result) tree.new) }
    ensures words { tree.new ≡ edited_tree tree.old (edited_back (returned result) tree.new) }
{
    let t = words::load(tree)?;
    let edited = t.upsert_in(image, heads, bytes, lent, key, value, scratch)?;
    words::store(tree, edited);
    Ok(())
}

// Takes the entry of a key out. `answer` says whether it was there.
#[tactic(auto, using(crate::specs::laws::CallLaws::removed), unfolding(crate::specs::Answers::removed_tree, crate::specs::Answers::removed_answer))]
pub fn remove(
    tree: &mut [u64],
    image: &[u8],
    heads: &mut [u64],
    bytes: &mut [u8],
    scratch: &mut [u8],
    lent: Lent,
    key: &[u8],
    answer: &mut [u64],
) -> Result<(), Refusal>
    ensures answer { removed_of lent.size heads.new bytes.new (removed_back (returned result) tree.new answer.new)
        ≡ on_words tree.old answer.old (λ t. edits lent.size lent.slots t heads.old bytes.old scratch.old
        (λ s. remove (lent_of image.now lent) s key.now)) }
    ensures left { removed_leaves lent.size lent.slots (tree_of tree.old) heads.old bytes.old heads.new bytes.new
        (removed_back (returned result) tree.new answer.new) }
    ensures words { (tree.new ≡ removed_tree tree.old (removed_back (returned result) tree.new answer.new))
        × (answer.new ≡ removed_answer answer.old (removed_back (returned result) tree.new answer.new)) }
{
    let t = words::load_for(tree, answer)?;
    let (t, there) = t.remove(image, heads, bytes, lent, key, scratch)?;
    words::store(tree, t);
    there.put(answer);
    Ok(())
}

// As the call above, without its tests of what is lent (1). It trusts that `tree`, `heads` and `bytes` are as open or a trusted call on them left
// them, with the same image and the same numbers lent, and leaves them so again; and that the scratch has at least two blocks' worth of bytes.
// Words that are too few are still refused.
#[tactic(auto, using(crate::specs::laws::CallLaws::removed), unfolding(crate::specs::Answers::removed_tree, crate::specs::Answers::removed_answer))]
pub fn remove_trusted(
    tree: &mut [u64],
    image: &[u8],
    heads: &mut [u64],
    bytes: &mut [u8],
    scratch: &mut [u8],
    lent: Lent,
    key: &[u8],
    answer: &mut [u64],
) -> Result<(), Refusal>
    requires trusts { Trusts image.now lent (tree_of tree.old) heads.old bytes.old }
    requires room { 2 * lent.size ≤ length scratch.old }
    ensures answer { removed_of lent.size heads.new bytes.new (removed_back (returned result) tree.new answer.new)
        ≡ on_words tree.old answer.old (λ t. remove_in
        (lent_of image.now lent) (state_of lent.size t heads.old bytes.old)
        key.now) }
    ensures left { RemovedCalled image.now lent (tree_of tree.old)
        heads.old bytes.old heads.new bytes.new
        (removed_back (returned result) tree.new answer.new) }
    ensures words { (tree.new ≡ removed_tree tree.old (removed_back (returned result) tree.new answer.new))
        × (answer.new ≡ removed_answer answer.old (removed_back (returned result) tree.new answer.new)) }
{
    let t = words::load_for(tree, answer)?;
    let (t, there) = t.remove_in(image, heads, bytes, lent, key, scratch)?;
    words::store(tree, t);
    there.put(answer);
    Ok(())
}

// Takes the versions of an id out and puts one that maps it to an address and a length.
#[tactic(auto, using(crate::specs::laws::CallLaws::edited), unfolding(crate::specs::Answers::edited_tree))]
pub fn omap_put(
    tree: &mut [u64],
    image: &[u8],
    heads: &mut [u64],
    bytes: &mut [u8],
    scratch: &mut [u8],
    lent: Lent,
    id: u64,
    xid: u64,
    address: u64,
    length: u64,
) -> Result<(), Refusal>
    ensures answer { edited_of lent.size heads.new bytes.new (edited_back (returned result) tree.new)
        ≡ on_tree tree.old (λ t. edits lent.size lent.slots t heads.old bytes.old scratch.old (λ s.
        omap_put (lent_of image.now lent) s id xid address length)) }
    ensures left { edited_leaves lent.size lent.slots (tree_of tree.old) heads.old bytes.old heads.new bytes.new
        (edited_back (returned result) tree.new) }
    ensures words { tree.new ≡ edited_tree tree.old (edited_back (returned result) tree.new) }
{
    let t = words::load(tree)?;
    let edited = t.omap_put(image, heads, bytes, lent, id, xid, address, length, scratch)?;
    words::store(tree, edited);
    Ok(())
}

// As the call above, without its tests of what is lent (1). It trusts that `tree`, `heads` and `bytes` are as open or a trusted call on them left
// them, with the same image and the same numbers lent, and leaves them so again; and that the scratch has exactly `(2 * slots + 2) * size` bytes.
// Words that are too few are still refused.
#[tactic(auto, using(crate::specs::laws::CallLaws::edited), unfolding(crate::specs::Answers::edited_tree))]
pub fn omap_put_trusted(
    tree: &mut [u64],
    image: &[u8],
    heads: &mut [u64],
    bytes: &mut [u8],
    scratch: &mut [u8],
    lent: Lent,
    id: u64,
    xid: u64,
    address: u64,
    length: u64,
) -> Result<(), Refusal>
    requires trusts { Trusts image.now lent (tree_of tree.old) heads.old bytes.old }
    requires room { scratch_holds lent.size lent.slots scratch.old ≡ true }
    ensures answer { edited_of lent.size heads.new bytes.new (edited_back (returned result) tree.new)
        ≡ on_tree tree.old (λ t. omap_put_in (lent_of image.now lent)
        (state_of lent.size t heads.old bytes.old) id xid address length) }
    ensures left { EditedCalled image.now lent (tree_of tree.old)
        heads.old bytes.old heads.new bytes.new (edited_back (returned result) tree.new) }
    ensures words { tree.new ≡ edited_tree tree.old (edited_back (returned result) tree.new) }
{
    let t = words::load(tree)?;
    let edited = t.omap_put_in(image, heads, bytes, lent, id, xid, address, length, scratch)?;
    words::store(tree, edited);
    Ok(())
}

// Takes the versions of an id out.
#[tactic(auto, using(crate::specs::laws::CallLaws::edited), unfolding(crate::specs::Answers::edited_tree))]
pub fn omap_drop(
    tree: &mut [u64],
    image: &[u8],
    heads: &mut [u64],
    bytes: &mut [u8],
    scratch: &mut [u8],
    lent: Lent,
    id: u64,
) -> Result<(), Refusal>
    ensures answer { edited_of lent.size heads.new bytes.new (edited_back (returned result) tree.new)
        ≡ on_tree tree.old (λ t. edits lent.size lent.slots t heads.old bytes.old scratch.old (λ s.
        omap_drop (lent_of image.now lent) s id)) }
    ensures left { edited_leaves lent.size lent.slots (tree_of tree.old) heads.old bytes.old heads.new bytes.new
        (edited_back (returned result) tree.new) }
    ensures words { tree.new ≡ edited_tree tree.old (edited_back (returned result) tree.new) }
{
    let t = words::load(tree)?;
    let edited = t.omap_drop(image, heads, bytes, lent, id, scratch)?;
    words::store(tree, edited);
    Ok(())
}

// As the call above, without its tests of what is lent (1). It trusts that `tree`, `heads` and `bytes` are as open or a trusted call on them left
// them, with the same image and the same numbers lent, and leaves them so again; and that the scratch has exactly `(2 * slots + 2) * size` bytes.
// Words that are too few are still refused.
#[tactic(auto, using(crate::specs::laws::CallLaws::edited), unfolding(crate::specs::Answers::edited_tree))]
pub fn omap_drop_trusted(
    tree: &mut [u64],
    image: &[u8],
    heads: &mut [u64],
    bytes: &mut [u8],
    scratch: &mut [u8],
    lent: Lent,
    id: u64,
) -> Result<(), Refusal>
    requires trusts { Trusts image.now lent (tree_of tree.old) heads.old bytes.old }
    requires room { scratch_holds lent.size lent.slots scratch.old ≡ true }
    ensures answer { edited_of lent.size heads.new bytes.new (edited_back (returned result) tree.new)
        ≡ on_tree tree.old (λ t. omap_drop_in (lent_of image.now lent)
        (state_of lent.size t heads.old bytes.old) id) }
    ensures left { EditedCalled image.now lent (tree_of tree.old)
        heads.old bytes.old heads.new bytes.new (edited_back (returned result) tree.new) }
    ensures words { tree.new ≡ edited_tree tree.old (edited_back (returned result) tree.new) }
{
    let t = words::load(tree)?;
    let edited = t.omap_drop_in(image, heads, bytes, lent, id, scratch)?;
    words::store(tree, edited);
    Ok(())
}
