// Undo: before a slot is changed for the first time in a call, it is saved in its shadow; a refused call brings back what was saved.
ghost use Rattle.std.specs.Prelude.{◌≡◌, ◌+◌, ◌*◌, ◌≤◌, ◌<◌, length, replicate};
ghost use Rattle.node.specs.Bytes.{splice};
ghost use Rattle.node.specs.Slot.{head_at};
ghost use Rattle.tree.specs.Workspace.{slot_bytes};
ghost use Rattle.tree.specs.Trusts.{live, Lies, Ready, Stays};
ghost use Rattle.tree.specs.internal.Bank.{node_in, Wrote};
ghost use Rattle.tree.specs.internal.Undo.{Follows, Saved, Shadowed, Back, BackAt, Undone};

use crate::bank;
use crate::editor::Tree;
use crate::lent::Lent;
use node::bytes;
use node::head::Head;
use node::refusal::Refusal;

// Words before the marks: a slot's and its shadow's.
const MARKS_AT: usize = 18;

// No slot in use is saved.
#[tactic(auto, using(node::specs::laws::base::Seal::part_cleared))]
pub fn clear_marks(heads: &mut [u64], slots: usize, used: usize)
    requires { (used ≤ slots) × (slots ≤ 4096) × (length heads.old ≡ slots * 19) }
    ensures { heads.new ≡ splice heads.old (slots * 18) (replicate used 0) }
{
    let at = slots * MARKS_AT;
    heads[at..at + used].fill(0);
}

// Slot `to` is what slot `from` is. Either may be a shadow.
#[tactic(auto, using(crate::specs::laws::slots::Copy::copies))]
fn copy_slot(heads: &mut [u64], bytes: &mut [u8], size: usize, from: usize, to: usize)
    requires lies { Lies size (live (head_at heads.old from)) (slot_bytes size bytes.old from) }
    requires size_bound { (size ≤ 65536) × (from ≤ 8192) × (to ≤ 8192) × (from * 9 + 9 ≤ length heads.old)
        × (to * 9 + 9 ≤ length heads.old) × (from * (4 * size) + 4 * size ≤ length bytes.old)
        × (to * (4 * size) + 4 * size ≤ length bytes.old) }
    ensures { Wrote size heads.old bytes.old heads.new bytes.new to
        (node_in size heads.old bytes.old from) }
{
    let h = Head::load(heads, from);
    let a = from * (bank::SLOT_BLOCKS * size);
    let b = to * (bank::SLOT_BLOCKS * size);
    let v = bank::live_of(h);
    bytes::shift(bytes, a, b, v.used as usize);
    h.store(heads, to);
}

// Slot n may be changed after this.
#[tactic(auto, using(crate::specs::laws::slots::Copy::save_laws))]
pub fn save(heads: &mut [u64], bytes: &mut [u8], lent: Lent, used: usize, n: usize)
    requires ready { Ready lent.size lent.slots used heads.old bytes.old }
    requires n_lt_used { n < used }
    ensures { Saved lent.size lent.slots used heads.old bytes.old heads.new bytes.new n }
{
    let at = lent.slots * MARKS_AT + n;
    if heads[at] != 0 {
        return;
    }
    copy_slot(heads, bytes, lent.size, n, lent.slots + n);
    heads[at] = 1;
}

// Slot n is what it was when the call started.
#[tactic(auto, using(crate::specs::laws::slots::Copy::brings))]
fn bring_back(heads: &mut [u64], bytes: &mut [u8], lent: Lent, used: usize, n: usize)
    requires shadowed { Shadowed lent.size lent.slots used heads.old bytes.old }
    requires n_lt_used { n < used }
    ensures { BackAt lent.size lent.slots used heads.old bytes.old heads.new bytes.new n }
{
    let at = lent.slots * MARKS_AT + n;
    if heads[at] != 0 {
        copy_slot(heads, bytes, lent.size, lent.slots + n, n);
    }
}

// Every slot in use when the call started is what it was then.
#[tactic(auto, using(crate::specs::laws::slots::Copy::restores))]
pub fn restore(heads: &mut [u64], bytes: &mut [u8], lent: Lent, used: usize)
    requires { Shadowed lent.size lent.slots used heads.old bytes.old }
    ensures { Back lent.size lent.slots used used heads.old bytes.old heads.new bytes.new }
{
    for n in 0..used {
        bring_back(heads, bytes, lent, used, n);
    }
}

impl Tree {
    // A call on slots of which none is saved yet. Refused, the tree is as it was.
    #[tactic(auto, using(crate::specs::laws::slots::CallBounds::undone_laws))]
    pub fn undone<T, F: FnMut(&mut [u64], &mut [u8]) -> Result<T, Refusal>>(
        self,
        heads: &mut [u64],
        bytes: &mut [u8],
        lent: Lent,
        call: &mut F,
    ) -> Result<T, Refusal>
        requires ready { Ready lent.size lent.slots self.used heads.old bytes.old }
        requires callable { (h b : _) → Stays lent self heads.old bytes.old h.now b.now → F.pre call.old h b }
        requires follows { (h b r h' b' f : _) → Stays lent self heads.old bytes.old h.now b.now
            → F.step call.old h b r h' b' f → Follows lent.size lent.slots self.used h.now b.now h'.now b'.now }
        ensures { (h b h' b' : _) × Stays lent self heads.old bytes.old h.now b.now
            × F.step call.old h b result h' b' call.new
            × Undone lent self heads.old bytes.old h'.now b'.now heads.new bytes.new result }
    {
        clear_marks(heads, lent.slots, self.used);
        let got = call(heads, bytes);
        if got.is_err() {
            restore(heads, bytes, lent, self.used);
        }
        got
    }
}
