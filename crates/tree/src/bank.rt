// The workspace: a slot read, a slot written. A function that writes one leaves every other as it was.
ghost use Rattle.std.specs.Prelude.{◌≡◌, true, ◌+◌, ◌*◌, ◌≤◌, ◌<◌, length};
ghost use Rattle.node.specs.Entry.{mem};
ghost use Rattle.node.specs.Find.{val_at};
ghost use Rattle.node.specs.Records.{records_length, entries_of};
ghost use Rattle.node.specs.Slot.{head_at, with_value, is_child};
ghost use Rattle.node.specs.Read.{spans_length, on_disk};
ghost use Rattle.node.specs.Bytes.{Bytes};
ghost use Rattle.tree.specs.State.{with_entries, marked_dirty};
ghost use Rattle.tree.specs.Load.{adopted};
ghost use Rattle.tree.specs.Workspace.{slot_bytes};
ghost use Rattle.tree.specs.Trusts.{live, Ready};
ghost use Rattle.tree.specs.internal.Bank.{node_in, HasEntry, Wrote, Put};
ghost use Rattle.tree.specs.internal.Undo.{Follows};

use crate::lent::Lent;
use crate::undo;
use node::head::Head;
use node::read::ReadNode;
use node::slot::Records;
use node::val::Child;
use node::{head, slot};

// A slot's bytes: so many blocks' worth.
pub const SLOT_BLOCKS: usize = 4;

// The words of a slot, without records where it is dead.
#[tactic(auto, using(crate::specs::laws::slots::Bank::live_dead, crate::specs::laws::slots::Bank::live_same))]
pub fn live_of(h: Head) -> Head
    ensures { result ≡ live h }
{
    if h.is_dead() {
        return Head {
            count: 0,
            used: 0,
            ..h
        };
    }
    h
}

// The same of slot n.
#[tactic(auto, using(crate::specs::laws::slots::Bank::live_loaded))]
pub fn live_at(heads: &[u64], n: usize) -> Head
    requires { (n + 1) * 9 ≤ length heads.now }
    ensures { result ≡ live (head_at heads.now n) }
{
    live_of(Head::load(heads, n))
}

// The bytes of slot n.
#[tactic(auto, using(crate::specs::laws::slots::OneSlot::part_is, crate::specs::laws::lookup::RangeOut::slot_known))]
pub fn slot_of(bytes: &[u8], size: usize, n: usize) -> &[u8]
    requires { (n * (4 * size) + 4 * size ≤ length bytes.now) × (size ≤ 65536) × (n ≤ 4096) }
    ensures slot { result.now ≡ slot_bytes size bytes.now n }
    ensures bytes { Bytes result.now }
{
    let a = n * (SLOT_BLOCKS * size);
    let e = a + SLOT_BLOCKS * size;
    &bytes[a..e]
}

// Entry i of a slot, a child, becomes the child in slot c. The bytes in use stay the same.
#[tactic(auto, using(crate::specs::laws::slots::OneSlot::links))]
fn link_part(slot: &mut [u8], count: u64, i: u64, c: u64)
    requires room { (records_length count slot.old ≤ length slot.old) × (i < count) }
    requires old { is_child (val_at (entries_of count slot.old) i) ≡ true }
    ensures { (records_length count slot.new ≡ records_length count slot.old)
        × (entries_of count slot.new ≡ with_value i (mem c) (entries_of count slot.old)) }
{
    let at = Records { slot, count }.offset_of(i);
    slot::relink(slot, count, i, at, Child::Mem(c));
}

// The child of entry i of slot n is in slot c now. The slot is saved.
#[tactic(auto, using(crate::specs::laws::slots::OneSlot::ready_part))]
fn link_in(heads: &[u64], bytes: &mut [u8], lent: Lent, used: usize, n: usize, i: u64, c: u64)
    requires ready { Ready lent.size lent.slots used heads.now bytes.old }
    requires entry { HasEntry used heads.now n i
        × (is_child (val_at (node_in lent.size heads.now bytes.old n).entries i) ≡ true) }
    ensures { Wrote lent.size heads.now bytes.old heads.now bytes.new n
        (with_entries (node_in lent.size heads.now bytes.old n) (with_value i (mem c) (node_in lent.size
        heads.now bytes.old n).entries)) }
{
    let h = live_at(heads, n);
    let a = n * (SLOT_BLOCKS * lent.size);
    let e = a + SLOT_BLOCKS * lent.size;
    link_part(&mut bytes[a..e], h.count, i, c);
}

// The child of entry i of slot n is in slot c now.
#[tactic(auto, using(crate::specs::laws::slots::Undo::link_laws))]
pub fn link(heads: &mut [u64], bytes: &mut [u8], lent: Lent, used: usize, n: usize, i: u64, c: u64)
    requires ready { Ready lent.size lent.slots used heads.old bytes.old }
    requires entry { HasEntry used heads.old n i
        × (is_child (val_at (node_in lent.size heads.old bytes.old n).entries i) ≡ true) }
    ensures put { Put lent.size lent.slots heads.old bytes.old heads.new bytes.new n
        (with_entries (node_in lent.size heads.old bytes.old n) (with_value i (mem c) (node_in lent.size
        heads.old bytes.old n).entries)) }
    ensures follows { Follows lent.size lent.slots used heads.old bytes.old heads.new bytes.new }
{
    undo::save(heads, bytes, lent, used, n);
    link_in(heads, bytes, lent, used, n, i, c);
}

// Slot n is dirty now.
#[tactic(auto, using(crate::specs::laws::slots::Undo::saves))]
pub fn mark_dirty(heads: &mut [u64], bytes: &mut [u8], lent: Lent, used: usize, n: usize)
    requires ready { Ready lent.size lent.slots used heads.old bytes.old }
    requires n_lt_used { n < used }
    ensures put { Put lent.size lent.slots heads.old bytes.old heads.new bytes.new n (marked_dirty (node_in lent.size heads.old bytes.old n)) }
    ensures follows { Follows lent.size lent.slots used heads.old bytes.old heads.new bytes.new }
{
    undo::save(heads, bytes, lent, used, n);
    let h = Head::load(heads, n);
    let d = Head { dirty: 1, ..h };
    d.store(heads, n);
}

// A node that was read, in slot c: its entries as records, and its words.
pub fn adopt_into(
    read: ReadNode<'_>,
    heads: &mut [u64],
    bytes: &mut [u8],
    size: usize,
    c: usize,
    by_id: bool,
    a: u64,
)
    requires few { spans_length read.node read.block.now 0 read.node.nkeys ≤ 65532 }
    requires room { (length read.block.now ≡ size) × (size ≤ 65536) × (c ≤ 4096) × (c * 9 + 9 ≤ length heads.old)
        × (c * (4 * size) + 4 * size ≤ length bytes.old) }
    ensures { Wrote size heads.old bytes.old heads.new bytes.new c
        (adopted by_id a (on_disk read.entry.node read.entry.block.now)) }
{
    let s = c * (SLOT_BLOCKS * size);
    let e = s + SLOT_BLOCKS * size;
    let used = read.adopt(&mut bytes[s..e]);
    let h = head::head_of(read.node, used, a, by_id);
    h.store(heads, c);
}
