// Writers of one slot's records: the slot is saved, its records change, then its words say so.
ghost use Rattle.std.specs.Prelude.{◌≡◌, false, ◌+◌, ◌*◌, ◌≤◌, ◌<◌, ◌^◌, length};
ghost use Rattle.node.specs.Bytes.{splice};
ghost use Rattle.node.specs.Entry.{value_length};
ghost use Rattle.node.specs.Records.{records_length};
ghost use Rattle.node.specs.Slot.{head_at, head_words, insert_at, remove_at, with_key, with_value, value_means};
ghost use Rattle.node.specs.internal.Storable.{Held};
ghost use Rattle.tree.specs.Workspace.{slot_bytes};
ghost use Rattle.tree.specs.Trusts.{live, Ready};
ghost use Rattle.tree.specs.internal.Bank.{node_in, Wrote, Put};
ghost use Rattle.tree.specs.internal.Undo.{Follows};
ghost use Rattle.tree.specs.internal.Writers.{dirty_word, recounted, edited, entry_at, SpotIn, SpotUpto, SpotAlive};

use crate::change::{Change, Insert, Rekey, Remove, Revalue};
use crate::floor::Spot;
use crate::lent::Lent;
use crate::view::View;
use crate::{bank, undo};
use node::head::Head;
use node::slot::EntryAt;
use node::val::Val;

// What an edit of a slot's records does to the slot's dirty mark.
#[derive(Clone, Copy)]
pub enum DirtyMark {
    Set,
    Kept,
}

impl DirtyMark {
    // The mark that it leaves, of the one that was there.
    #[tactic(auto, unfolding(crate::specs::internal::Writers::dirty_word))]
    fn word(self, dirty: u64) -> u64
        ensures { result ≡ dirty_word self dirty }
    {
        match self {
            DirtyMark::Set => 1,
            DirtyMark::Kept => dirty,
        }
    }
}

impl Spot {
    // The same among the records that a slot's words speak of.
    fn among(self, h: Head) -> EntryAt
        ensures { result ≡ entry_at self h }
    {
        EntryAt {
            count: h.count,
            index: self.index,
            used: h.used as usize,
            at: self.at,
        }
    }
}

// The words of slot n for other records.
#[tactic(auto, using(crate::specs::laws::slots::Writers::recount_words))]
fn recount(heads: &mut [u64], n: usize, count: u64, used: u64, mark: DirtyMark)
    requires { (n + 1) * 9 ≤ length heads.old }
    ensures { heads.new
        ≡ splice heads.old (n * 9) (head_words (recounted mark count used (head_at heads.old n))) }
{
    let h = Head::load(heads, n);
    let r = Head {
        count,
        used,
        dirty: mark.word(h.dirty),
        ..h
    };
    r.store(heads, n);
}

// The records of a slot changed at an entry. The slot is saved, or need not be.
fn change_at<C: Change>(
    heads: &mut [u64],
    bytes: &mut [u8],
    lent: Lent,
    used: usize,
    spot: Spot,
    change: C,
    mark: DirtyMark,
)
    requires ready { Ready lent.size lent.slots used heads.old bytes.old }
    requires place { SpotAlive lent.size used heads.old bytes.old spot }
    requires fits { C.fits change spot.index (live (head_at heads.old spot.slot)).count }
    requires room { (live (head_at heads.old spot.slot)).used + C.most change ≤ 4 * lent.size }
    ensures { Wrote lent.size heads.old bytes.old heads.new bytes.new spot.slot
        (edited mark (node_in lent.size heads.old bytes.old spot.slot)
        (C.leaves change spot.index (node_in lent.size heads.old bytes.old spot.slot).entries)) }
{
    let h = bank::live_at(heads, spot.slot);
    let a = spot.slot * (bank::SLOT_BLOCKS * lent.size);
    let e = a + bank::SLOT_BLOCKS * lent.size;
    let extent = change.make(&mut bytes[a..e], spot.among(h));
    recount(heads, spot.slot, extent.count, extent.used as u64, mark);
}

// The same; the slot is saved first.
#[tactic(auto, using(crate::specs::laws::slots::Writers::changes))]
fn save_and_change<C: Change>(
    heads: &mut [u64],
    bytes: &mut [u8],
    lent: Lent,
    used: usize,
    spot: Spot,
    change: C,
    mark: DirtyMark,
)
    requires ready { Ready lent.size lent.slots used heads.old bytes.old }
    requires place { SpotAlive lent.size used heads.old bytes.old spot }
    requires fits { C.fits change spot.index (live (head_at heads.old spot.slot)).count }
    requires room { (live (head_at heads.old spot.slot)).used + C.most change ≤ 4 * lent.size }
    ensures put { Put lent.size lent.slots heads.old bytes.old heads.new bytes.new spot.slot
        (edited mark (node_in lent.size heads.old bytes.old spot.slot)
        (C.leaves change spot.index (node_in lent.size heads.old bytes.old spot.slot).entries)) }
    ensures follows { Follows lent.size lent.slots used heads.old bytes.old heads.new bytes.new }
{
    undo::save(heads, bytes, lent, used, spot.slot);
    change_at(heads, bytes, lent, used, spot, change, mark);
}

// An entry put before another of a slot, or after the last.
pub fn insert_at(
    heads: &mut [u64],
    bytes: &mut [u8],
    lent: Lent,
    used: usize,
    spot: Spot,
    key: &[u8],
    value: Val<'_>,
    mark: DirtyMark,
)
    requires ready { Ready lent.size lent.slots used heads.old bytes.old }
    requires place { SpotUpto lent.size used heads.old bytes.old spot × ((node_in lent.size heads.old bytes.old spot.slot).dead ≡ false) }
    requires room { (live (head_at heads.old spot.slot)).used + (4 + length key.now + value_length (value_means value)) ≤ 4 * lent.size }
    requires stored { (length key.now < 2 ^ 16) × Held (value_means value) }
    ensures put { Put lent.size lent.slots heads.old bytes.old heads.new bytes.new spot.slot
        (edited mark (node_in lent.size heads.old bytes.old spot.slot)
        (insert_at spot.index (record { key = key.now; value = value_means value.entry })
        (node_in lent.size heads.old bytes.old spot.slot).entries)) }
    ensures follows { Follows lent.size lent.slots used heads.old bytes.old heads.new bytes.new }
{
    save_and_change(heads, bytes, lent, used, spot, Insert { key, value }, mark);
}

// An entry of a slot taken out. The slot is saved, or need not be.
#[tactic(auto, using(crate::specs::laws::slots::Writers::stands))]
pub fn take_at(
    heads: &mut [u64],
    bytes: &mut [u8],
    lent: Lent,
    used: usize,
    spot: Spot,
    mark: DirtyMark,
)
    requires ready { Ready lent.size lent.slots used heads.old bytes.old }
    requires place { SpotIn lent.size used heads.old bytes.old spot }
    ensures { Wrote lent.size heads.old bytes.old heads.new bytes.new spot.slot
        (edited mark (node_in lent.size heads.old bytes.old spot.slot)
        (remove_at spot.index (node_in lent.size heads.old bytes.old spot.slot).entries)) }
{
    change_at(heads, bytes, lent, used, spot, Remove, mark);
}

// An entry of a slot taken out; the slot is saved first.
#[tactic(auto, using(crate::specs::laws::slots::Writers::stands))]
pub fn remove_at(
    heads: &mut [u64],
    bytes: &mut [u8],
    lent: Lent,
    used: usize,
    spot: Spot,
    mark: DirtyMark,
)
    requires ready { Ready lent.size lent.slots used heads.old bytes.old }
    requires place { SpotIn lent.size used heads.old bytes.old spot }
    ensures put { Put lent.size lent.slots heads.old bytes.old heads.new bytes.new spot.slot
        (edited mark (node_in lent.size heads.old bytes.old spot.slot)
        (remove_at spot.index (node_in lent.size heads.old bytes.old spot.slot).entries)) }
    ensures follows { Follows lent.size lent.slots used heads.old bytes.old heads.new bytes.new }
{
    save_and_change(heads, bytes, lent, used, spot, Remove, mark);
}

// An entry of a slot with another key.
#[tactic(auto, using(crate::specs::laws::slots::Writers::stands))]
pub fn rekey_at(
    heads: &mut [u64],
    bytes: &mut [u8],
    lent: Lent,
    used: usize,
    spot: Spot,
    key: &[u8],
    mark: DirtyMark,
)
    requires ready { Ready lent.size lent.slots used heads.old bytes.old }
    requires place { SpotIn lent.size used heads.old bytes.old spot }
    requires room { ((live (head_at heads.old spot.slot)).used + length key.now ≤ 4 * lent.size) × (length key.now < 2 ^ 16) }
    ensures put { Put lent.size lent.slots heads.old bytes.old heads.new bytes.new spot.slot
        (edited mark (node_in lent.size heads.old bytes.old spot.slot)
        (with_key spot.index key.now (node_in lent.size heads.old bytes.old spot.slot).entries)) }
    ensures follows { Follows lent.size lent.slots used heads.old bytes.old heads.new bytes.new }
{
    save_and_change(heads, bytes, lent, used, spot, Rekey { key }, mark);
}

// An entry of a slot with another value.
#[tactic(auto, using(crate::specs::laws::slots::Writers::stands))]
pub fn revalue_at(
    heads: &mut [u64],
    bytes: &mut [u8],
    lent: Lent,
    used: usize,
    spot: Spot,
    value: Val<'_>,
    mark: DirtyMark,
)
    requires ready { Ready lent.size lent.slots used heads.old bytes.old }
    requires place { SpotIn lent.size used heads.old bytes.old spot }
    requires room { (live (head_at heads.old spot.slot)).used + value_length (value_means value) ≤ 4 * lent.size }
    requires stored { Held (value_means value) }
    ensures put { Put lent.size lent.slots heads.old bytes.old heads.new bytes.new spot.slot
        (edited mark (node_in lent.size heads.old bytes.old spot.slot)
        (with_value spot.index (value_means value.entry) (node_in lent.size heads.old bytes.old spot.slot).entries)) }
    ensures follows { Follows lent.size lent.slots used heads.old bytes.old heads.new bytes.new }
{
    save_and_change(heads, bytes, lent, used, spot, Revalue { value }, mark);
}

impl<'h, 'b> View<'h, 'b> {
    // Where entry i of slot n stands, or would stand after its last.
    pub fn spot_of(self, n: usize, i: u64) -> Spot
        requires n_lt_used { (n < self.tree.used) × (i ≤ (live (head_at self.heads.now n)).count) }
        ensures { result ≡ record { slot = n; index = i; at = records_length i (slot_bytes self.entry.lent.size self.entry.bytes.now n) } }
    {
        Spot {
            slot: n,
            index: i,
            at: self.records(n).offset_of(i),
        }
    }
}
