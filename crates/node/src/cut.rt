// The cut of a node that does not fit (`split_up` of write/tree.rs).
ghost use Rattle.std.specs.Prelude.{◌≡◌, false, ◌+◌, ◌-◌, ◌≤◌, ◌<◌, ◌^◌, IfOk};
ghost use Rattle.node.specs.Records.{records_length, entries_of};
ghost use Rattle.node.specs.Fit.{fits_sums};
ghost use Rattle.node.specs.Cut.{cut, cut_means};
ghost use Rattle.node.specs.internal.CutSteps.{left_of, further_sums, parts_fit};
ghost use Rattle.node.specs.internal.SlotSteps.{lengths_of};

use crate::fit::{Lengths, SlotNode};
use crate::record::Record;
use crate::refusal::{Refusal, check};
use crate::room::Shape;

// Where a node is cut: after its first `place` entries. The right part starts at byte `at` of the slot.
#[derive(Clone, Copy)]
pub struct CutAt {
    pub place: usize,
    pub at: usize,
}

// The left part of a cut: how many entries, and what they take.
#[derive(Clone, Copy)]
pub struct Left {
    pub place: usize,
    pub lengths: Lengths,
}

// A node that is cut, and what its records take.
#[derive(Clone, Copy)]
struct Whole<'s> {
    node: SlotNode<'s>,
    lengths: Lengths,
    ghost counted: { lengths ≡ lengths_of node.shape.info node.records.count node.records.slot.now },
}

impl Whole<'_> {
    // Whether n of the entries fit whose keys and values take `room` as packed. Neither part is a root.
    fn part_fits(self, n: u64, room: u64) -> bool
        requires { (n < 2 ^ 32) × (room < 2 ^ 32) }
        ensures { result ≡ fits_sums self.entry.node.shape.info false self.entry.node.shape.level n room }
    {
        let part = Shape {
            info: self.node.shape.info,
            root: false,
            level: self.node.shape.level,
        };
        part.fits_sums(n, room)
    }

    // The left part: up to the place of the cut.
    #[tactic(auto, using(crate::specs::laws::fit::Cut::walk))]
    fn left(self) -> Left
        requires { 1 < self.node.records.count }
        ensures left { result ≡ left_of self.entry.node.shape.info self.entry.node.shape.level
            self.entry.node.records.count self.entry.node.records.slot.now }
        ensures less { (result.place < self.entry.node.records.count)
            × (result.lengths.keys + result.lengths.values ≤ self.entry.lengths.keys + self.entry.lengths.values) }
    {
        let n = self.node.records.count as usize;
        let mut lengths = Lengths::default().longer(
            self.node.records.record(0),
            self.node.shape.info,
        );
        for place in 1..n - 1 {
            let r = Record {
                slot: self.node.records.slot,
                at: lengths.at,
            };
            let next = lengths.longer(r, self.node.shape.info);
            let left = Left { place, lengths };
            let parts = Parts { whole: self, left };
            if !parts.further(next) {
                return left;
            }
            lengths = next;
        }
        Left {
            place: n - 1,
            lengths,
        }
    }
}

// A node that is cut, with a left part that leaves something.
#[derive(Clone, Copy)]
struct Parts<'s> {
    whole: Whole<'s>,
    left: Left,
    ghost fewer: { left.place < whole.node.records.count },
    ghost less: { left.lengths.keys + left.lengths.values ≤ whole.lengths.keys + whole.lengths.values },
}

impl Parts<'_> {
    // Whether the right part fits.
    #[tactic(auto, using(crate::specs::laws::fit::Cut::whole))]
    fn right_fits(self) -> bool
        ensures { result ≡ fits_sums self.entry.whole.node.shape.info false self.entry.whole.node.shape.level
            (self.entry.whole.node.records.count - self.entry.left.place)
            (self.entry.whole.lengths.keys + self.entry.whole.lengths.values
            - (self.entry.left.lengths.keys + self.entry.left.lengths.values)) }
    {
        let all = self.whole.lengths.keys + self.whole.lengths.values;
        let taken = self.left.lengths.keys + self.left.lengths.values;
        let count = self.whole.node.records.count - self.left.place as u64;
        self.whole.part_fits(count, all - taken)
    }

    // Whether the left part takes one entry more: it fits with it, and either it is at most half then, or the right part
    // does not fit yet.
    // An entry's size is unpadded and counts 8 more than key and value: 4 more than its record.
    #[tactic(auto, using(crate::specs::laws::fit::Cut::whole), unfolding(crate::specs::internal::CutSteps::further_sums))]
    fn further(self, next: Lengths) -> bool
        requires at { next.at ≤ 2 ^ 20 }
        requires room { next.keys + next.values < 2 ^ 24 }
        ensures { result ≡ further_sums self.entry.whole.node.shape.info self.entry.whole.node.shape.level self.entry.whole.node.records.count
            self.entry.whole.lengths self.entry.left next }
    {
        let more = (self.left.place + 1) as u64;
        let half = (self.whole.lengths.at as u64 + 4 * self.whole.node.records.count) / 2;
        self.whole.part_fits(more, next.keys + next.values)
            && (next.at as u64 + 4 * more <= half || !self.right_fits())
    }

    // Whether both parts fit.
    #[tactic(auto, using(crate::specs::laws::fit::Cut::whole), unfolding(crate::specs::internal::CutSteps::parts_fit))]
    fn fit(self) -> bool
        ensures { result ≡ parts_fit self.entry.whole.node.shape.info self.entry.whole.node.shape.level self.entry.whole.node.records.count
            self.entry.whole.lengths self.entry.left }
    {
        let taken = self.left.lengths.keys + self.left.lengths.values;
        self.whole.part_fits(self.left.place as u64, taken) && self.right_fits()
    }
}

impl SlotNode<'_> {
    // The cut: 13 where a single entry is too large, 14 where no cut leaves two parts that fit.
    #[tactic(auto, using(crate::specs::laws::fit::Cut::cuts))]
    pub fn cut(self) -> Result<CutAt, Refusal>
        ensures place { cut_means result ≡ cut self.entry.shape.info self.entry.shape.level
            (entries_of self.entry.records.count self.entry.records.slot.now) }
        ensures start { IfOk result (λ c. c.at ≡ records_length c.place self.entry.records.slot.now) }
    {
        check(Refusal::Single, 1 < self.records.count)?;
        let whole = Whole {
            node: self,
            lengths: self.records.lengths(self.shape.info),
        };
        let left = whole.left();
        let parts = Parts { whole, left };
        check(Refusal::NoCut, parts.fit())?;
        Ok(CutAt {
            place: left.place,
            at: left.lengths.at,
        })
    }
}
