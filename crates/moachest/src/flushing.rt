// flush, and flush on trusted slots.
ghost use Rattle.std.specs.Prelude.{◌≡◌, true, ◌≤◌, length};
ghost use Rattle.tree.specs.Lent.{lent_of};
ghost use Rattle.tree.specs.Trust.{trusted};
ghost use Rattle.tree.specs.Workspace.{state_of};
ghost use Rattle.tree.specs.Trusts.{Ready};
ghost use Rattle.flush.specs.Space.{space_of};
ghost use Rattle.flush.specs.Flush.{flush_in};
ghost use Rattle.flush.specs.Answers.{lists_of, flushed_means, flushed_in, flushed_leaves};
ghost use Rattle.flush.specs.internal.Calls.{FlushCalled};
ghost use Rattle.moachest.specs.Words.{tree_of, on_words};
ghost use Rattle.moachest.specs.Answers.{returned, flushed_answer, flushed_back};

use crate::answers::Answer;
use crate::words;
use tree::lent::Lent;
use tree::refusal::Refusal;

// Writes what was changed and fills the lists; the tree is ended.
#[tactic(auto, using(crate::specs::laws::CallLaws::flushed), unfolding(crate::specs::Answers::flushed_answer))]
pub fn flush(
    tree: &[u64],
    image: &mut [u8],
    bitmap: &mut [u8],
    counts: &[u32],
    free: &mut [u32],
    heads: &mut [u64],
    bytes: &[u8],
    freed: &mut [u64],
    removed: &mut [u64],
    ids: &mut [u64],
    places: &mut [u64],
    lent: Lent,
    xid: u64,
    next: u64,
    answer: &mut [u64],
) -> Result<(), Refusal>
    ensures answer { flushed_means lent.size (tree_of tree.now) image.new
        (space_of bitmap.new counts.now free.new) heads.new bytes.now freed.new removed.new ids.new
        places.new (flushed_back (returned result) answer.new)
        ≡ on_words tree.now answer.old (λ t. flushed_in (lent_of image.old lent) (space_of bitmap.old counts.now free.old)
        (lists_of freed.old removed.old ids.old places.old) t heads.old bytes.now xid next) }
    ensures left { flushed_leaves lent.size lent.slots (tree_of tree.now) image.old image.new
        (space_of bitmap.old counts.now free.old)
        (space_of bitmap.new counts.now free.new) heads.old heads.new
        bytes.now freed.old freed.new removed.old removed.new
        ids.old ids.new places.old places.new (flushed_back (returned result) answer.new) }
    ensures words { answer.new ≡ flushed_answer answer.old (flushed_back (returned result) answer.new) }
{
    let t = words::load_for(tree, answer)?;
    let flushed = flush::flush::flush(
        t, image, bitmap, counts, free, heads, bytes, freed, removed, ids, places, lent, xid, next,
    )?;
    flushed.put(answer);
    Ok(())
}

// The same where the words are enough and the slots are trusted: it leaves their refusal 1 out.
#[tactic(auto, using(crate::specs::laws::CallLaws::flushed), unfolding(crate::specs::Answers::flushed_answer))]
pub fn flush_trusted(
    tree: &[u64],
    image: &mut [u8],
    bitmap: &mut [u8],
    counts: &[u32],
    free: &mut [u32],
    heads: &mut [u64],
    bytes: &[u8],
    freed: &mut [u64],
    removed: &mut [u64],
    ids: &mut [u64],
    places: &mut [u64],
    lent: Lent,
    xid: u64,
    next: u64,
    answer: &mut [u64],
) -> Result<(), Refusal>
    requires in_bounds { (14 ≤ length tree.now) × (8 ≤ length answer.old) }
    requires ready { Ready lent.size lent.slots (tree_of tree.now).used heads.old bytes.now }
    requires bytes_value { trusted (lent_of image.old lent) (state_of lent.size (tree_of tree.now) heads.old bytes.now)
        ≡ true }
    ensures answer { flushed_means lent.size (tree_of tree.now) image.new
        (space_of bitmap.new counts.now free.new) heads.new bytes.now freed.new removed.new ids.new
        places.new (flushed_back (returned result) answer.new)
        ≡ flush_in (lent_of image.old lent) (space_of bitmap.old counts.now
        free.old) (lists_of freed.old removed.old ids.old places.old)
        (state_of lent.size (tree_of tree.now) heads.old bytes.now) xid next }
    ensures left { FlushCalled lent.size lent.slots (tree_of tree.now) image.old image.new
        (space_of bitmap.old counts.now free.old)
        (space_of bitmap.new counts.now free.new) heads.old heads.new
        bytes.now freed.old freed.new removed.old removed.new
        ids.old ids.new places.old places.new (flushed_back (returned result) answer.new) }
    ensures words { answer.new ≡ flushed_answer answer.old (flushed_back (returned result) answer.new) }
{
    let t = words::load_for(tree, answer)?;
    let flushed = flush::flush::flush_in(
        t, image, bitmap, counts, free, heads, bytes, freed, removed, ids, places, lent, xid, next,
    )?;
    flushed.put(answer);
    Ok(())
}
