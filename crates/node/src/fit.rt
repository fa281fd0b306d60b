// Fitting: what a node's entries take as packed, and whether that is within its block (`layout` of btree_write.rs).
ghost use Rattle.std.specs.Prelude.{◌≡◌, true, ◌+◌, ◌≤◌, ◌<◌, ◌^◌, length};
ghost use Rattle.node.specs.Records.{records_length, entries_of};
ghost use Rattle.node.specs.Fit.{padded, packed_length, fits_sums, fits};
ghost use Rattle.node.specs.internal.SlotSteps.{lengths_of, longer_of};

use crate::info::BTreeInfo;
use crate::record::Record;
use crate::room;
use crate::room::Shape;
use crate::slot::Records;

// What the first records of a slot take: of none of them, nothing.
#[derive(Clone, Copy, Default)]
pub struct Lengths {
    // Bytes in the slot: where the next record starts.
    pub at: usize,
    // Bytes of their keys and of their values, as packed.
    pub keys: u64,
    pub values: u64,
}

impl Lengths {
    // The lengths with the record that starts after those counted.
    #[tactic(auto, using(crate::specs::laws::fit::Fit::counting))]
    pub fn longer(self, r: Record<'_>, info: BTreeInfo) -> Lengths
        requires next { r.at ≡ self.at }
        requires small { (length r.slot.now ≤ 2 ^ 20) × (self.keys < 2 ^ 32) × (self.values < 2 ^ 32) }
        ensures { result ≡ longer_of info r.entry.slot.now self }
    {
        let p = r.parts();
        Lengths {
            at: p.next,
            keys: self.keys + room::padded(info, p.klen as u64),
            values: self.values + room::padded(info, p.vlen as u64),
        }
    }
}

// A node in its slot: its records, and its shape. The slot is small, so that what the records take can be summed.
#[derive(Clone, Copy)]
pub struct SlotNode<'s> {
    pub records: Records<'s>,
    pub shape: Shape,
    ghost small: { length records.slot.now ≤ 2 ^ 20 },
}

impl Records<'_> {
    // What they take.
    #[tactic(auto, using(crate::specs::laws::fit::Fit::lengths))]
    pub fn lengths(self, info: BTreeInfo) -> Lengths
        requires { length self.slot.now ≤ 2 ^ 20 }
        ensures { (result ≡ lengths_of info self.entry.count self.entry.slot.now)
            × (result.keys + result.values < 2 ^ 24) }
    {
        let mut s = Lengths::default();
        for _ in 0..self.count {
            let r = Record {
                slot: self.slot,
                at: s.at,
            };
            s = s.longer(r, info);
        }
        s
    }
}

impl SlotNode<'_> {
    // Whether the entries fit, which take `used` bytes in the slot. Padding adds at most 7 bytes to a key and 7 to a
    // value, and a record's head has 4: where there is room for so much, their lengths need not be looked at.
    #[tactic(auto, using(crate::specs::laws::fit::Fit::fitting))]
    pub fn fits(self, used: u64) -> bool
        requires { used ≡ records_length self.records.count self.records.slot.now }
        ensures { result ≡ fits self.entry.shape.info self.entry.shape.root self.entry.shape.level
            (entries_of self.entry.records.count self.entry.records.slot.now) }
    {
        let n = self.records.count;
        if self.shape.fits_sums(n, used + 10 * n) {
            return true;
        }
        let s = self.records.lengths(self.shape.info);
        self.shape.fits_sums(n, s.keys + s.values)
    }

    // What the entries take as packed: contents, keys and values.
    #[tactic(auto, using(crate::specs::laws::fit::Fit::packing))]
    pub fn packed_length(self) -> u64
        ensures { (result ≡ packed_length self.entry.shape.info self.entry.shape.root self.entry.shape.level
            (entries_of self.entry.records.count self.entry.records.slot.now)) × (result < 2 ^ 40) }
    {
        let s = self.records.lengths(self.shape.info);
        let toc = self.shape.toc_length(self.records.count);
        toc + (s.keys + s.values)
    }
}

impl Shape {
    // Whether n entries fit whose keys and values take `room` as packed.
    #[tactic(auto, unfolding(crate::specs::Fit::fits_sums))]
    pub fn fits_sums(self, n: u64, room: u64) -> bool
        requires { (n < 2 ^ 32) × (room < 2 ^ 32) }
        ensures { result ≡ fits_sums self.info self.root self.level n room }
    {
        n <= self.toc_slots(n) && self.toc_length(n) + room <= self.data_space()
    }

    // Whether two children fit whose keys have a and b bytes.
    pub fn fits_two(self, a: u64, b: u64) -> bool
        requires { (a < 2 ^ 20) × (b < 2 ^ 20) }
        ensures { result ≡ fits_sums self.info self.root self.level 2
            (padded self.info a + padded self.info b + (padded self.info 8 + padded self.info 8)) }
    {
        let left = room::padded(self.info, a);
        let right = room::padded(self.info, b);
        let child = room::padded(self.info, 8);
        self.fits_sums(2, left + right + (child + child))
    }
}
