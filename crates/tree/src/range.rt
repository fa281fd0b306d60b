// The entries from one key to another: their nodes loaded and the answer counted first, then its records written out.
ghost use Rattle.std.specs.Prelude.{◌≡◌, true, ◌+◌, ◌*◌, ◌-◌, ◌≤◌, ◌<◌, length};
ghost use Rattle.node.specs.Bytes.{splice};
ghost use Rattle.node.specs.Records.{records_length, entries_of, records_of};
ghost use Rattle.tree.specs.State.{node_at};
ghost use Rattle.tree.specs.Lent.{lent_of};
ghost use Rattle.tree.specs.Lookup.{ends_above, between, range_enters, range_from, range_in};
ghost use Rattle.tree.specs.Trust.{trusted};
ghost use Rattle.tree.specs.Workspace.{state_of};
ghost use Rattle.tree.specs.Answers.{range_means, ranged_in, ranged_output, ranged_length, ranged_leaves};
ghost use Rattle.tree.specs.Trusts.{Ready, Roomy, Trusts, RangeCalled};
ghost use Rattle.tree.specs.internal.Bank.{ReadyBy};
ghost use Rattle.tree.specs.internal.Tree.{bounds_of, BoundsIn};
ghost use Rattle.tree.specs.internal.Undo.{Follows};
ghost use Rattle.tree.specs.internal.Range.{end_of, lies_between, next_entered, both, found_in, counted, ranged_of};
ghost use Rattle.tree.specs.internal.Range.{range_held, range_way};
ghost use Rattle.tree.specs.internal.View.{seen};

use crate::editor::{Bounds, Position, Tree, UNBOUNDED};
use crate::lent::Lent;
use crate::view::{View, view};
use crate::{kids, lent};
use node::bytes;
use node::order::Order;
use node::record::Record;
use node::refusal::{Refusal, check};
use node::slot::Records;

// Sums stop here, so that a caller can add two of them. No tree's entries come near it: its slots hold less.
const MOST: u64 = 0x4000000000000000;

// The answer of range: so many records of so many bytes together.
#[derive(Clone, Copy)]
pub struct Ranged {
    pub tree: Tree,
    pub count: u64,
    pub length: u64,
}

impl Ranged {
    // What was found, and what was found after it.
    #[tactic(auto, unfolding(crate::specs::internal::Range::at_most, crate::specs::internal::Range::both))]
    fn then(self, next: Ranged) -> Ranged
        ensures { result ≡ both self next }
    {
        Ranged {
            tree: next.tree,
            count: self.count.saturating_add(next.count).min(MOST),
            length: self.length.saturating_add(next.length).min(MOST),
        }
    }
}

// What is asked for: the keys from one on, up to an end, if there is one, without it.
#[derive(Clone, Copy)]
pub struct Asked<'l, 'h> {
    pub lo: &'l [u8],
    pub hi: Option<&'h [u8]>,
}

// Its tests are repeated where they are called: of a short range, most of the time is these tests of an index node's children, which as
// calls took half as many instructions again.
impl Asked<'_, '_> {
    // Whether a key lies below the end.
    #[inline(always)]
    #[tactic(auto, unfolding(crate::specs::Lookup::ends_above, crate::specs::internal::Range::end_of))]
    fn ends_above(self, order: Order, key: &[u8]) -> bool
        ensures { result ≡ ends_above order.code (end_of self.entry.hi) key.now }
    {
        self.hi.is_none_or(|end| order.less(key, end))
    }

    // Whether a key lies between.
    #[inline(always)]
    #[tactic(auto, unfolding(crate::specs::internal::Range::lies_between))]
    fn holds(self, order: Order, key: &[u8]) -> bool
        ensures { result ≡ lies_between order.code self.entry.lo.now (end_of self.entry.hi) key.now }
    {
        !order.less(key, self.lo) && self.ends_above(order, key)
    }

    // Whether range looks into child i, whose record is lent: its key lies below the end, and the next, if any, above lo.
    #[inline(always)]
    #[tactic(auto, using(crate::specs::laws::lookup::RangeFirstChild::entered))]
    fn enters(self, order: Order, records: Records<'_>, i: u64, r: Record<'_>) -> bool
        requires { (i < records.count) × (r.at ≡ records_length i records.slot.now) × (r.slot.now ≡ records.slot.now) }
        ensures { result
            ≡ range_enters order.code self.entry.lo.now (end_of self.entry.hi)
            (entries_of records.entry.count records.entry.slot.now) i }
    {
        let slot = records.slot;
        self.ends_above(order, r.key())
            && (records.count <= i + 1 || order.less(self.lo, Record { slot, at: r.next() }.key()))
    }
}

impl<'h, 'b> View<'h, 'b> {
    // The first child of slot n from one on that range looks into, if there is one. One walk, so that a node's children are not each
    // looked for anew.
    #[tactic(auto, using(crate::specs::laws::lookup::RangeFirstChild::next_entered_laws))]
    fn next_entered(self, n: usize, from: u64, asked: Asked<'_, '_>) -> Option<u64>
        ensures { result
            ≡ next_entered self.entry.tree.order.code asked.entry.lo.now (end_of asked.entry.hi)
            (node_at (seen self.entry) n).entries
            (length (node_at (seen self.entry) n).entries - from) from }
    {
        let order = self.tree.order;
        let records = self.records(n);
        if records.count < from {
            return None;
        }
        for (i, r) in records.walk_from(from, records.offset_of(from)) {
            if asked.enters(order, records, i, r) {
                return Some(i);
            }
        }
        None
    }

    // Of the entries of slot n, those between.
    #[tactic(auto, using(crate::specs::laws::lookup::Between::count_start))]
    fn ranged_at(self, n: usize, asked: Asked<'_, '_>) -> Ranged
        ensures { result
            ≡ found_in self.entry.tree (between self.entry.tree.order.code asked.entry.lo.now
            (end_of asked.entry.hi) (node_at (seen self.entry) n).entries) }
    {
        let order = self.tree.order;
        let mut count: u64 = 0;
        let mut length: u64 = 0;
        for (_, r) in self.records(n).walk() {
            if asked.holds(order, r.key()) {
                count += 1;
                length += (r.next() - r.at) as u64;
            }
        }
        Ranged {
            tree: self.tree,
            count,
            length,
        }
    }

    // The same entries' records written out from a place on. The answer is where they end.
    #[tactic(auto, using(crate::specs::laws::lookup::Between::length_taken))]
    fn write_between(self, n: usize, asked: Asked<'_, '_>, out: &mut [u8], from: usize) -> usize
        requires room { from + length (records_of (between self.tree.order.code asked.lo.now
            (end_of asked.hi) (node_at (seen self) n).entries)) ≤ length out.old }
        ensures end { result
            ≡ from + length (records_of (between self.entry.tree.order.code asked.entry.lo.now
            (end_of asked.entry.hi) (node_at (seen self.entry) n).entries)) }
        ensures output { out.new
            ≡ splice out.old from (records_of (between self.entry.tree.order.code asked.entry.lo.now
            (end_of asked.entry.hi) (node_at (seen self.entry) n).entries)) }
    {
        let order = self.tree.order;
        let mut end = from;
        for (_, r) in self.records(n).walk() {
            if asked.holds(order, r.key()) {
                let next = r.next();
                bytes::copy_to(&r.slot[r.at..next], out, end);
                end += next - r.at;
            }
        }
        end
    }

    // The records of the range d levels below slot n, all of its nodes loaded, written out from a place on. The answer is where they end.
    #[tactic(auto, using(crate::specs::laws::lookup::RangeOut::leaf_out))]
    pub fn range_out(
        self,
        n: usize,
        d: u64,
        asked: Asked<'_, '_>,
        out: &mut [u8],
        from: usize,
    ) -> usize
        requires room { from + length (records_of (range_held d (seen self) asked.lo.now
            (end_of asked.hi) n)) ≤ length out.old }
        ensures end { result
            ≡ from + length (records_of (range_held d (seen self.entry)
            asked.entry.lo.now (end_of asked.entry.hi) n)) }
        ensures output { out.new
            ≡ splice out.old from (records_of (range_held d (seen self.entry) asked.entry.lo.now (end_of asked.entry.hi) n)) }
    {
        if d == 0 {
            return self.write_between(n, asked, out, from);
        }
        let order = self.tree.order;
        let records = self.records(n);
        let mut end = from;
        for (i, r) in records.walk() {
            if asked.enters(order, records, i, r)
                && let Some(c) = kids::kid_of(r)
            {
                end = self.range_out(c, d - 1, asked, out, end);
            }
        }
        end
    }
}

impl Tree {
    // The range d levels below slot n: nodes loaded, entries counted.
    #[tactic(auto, using(crate::specs::laws::slots::Undo::follows_same, crate::specs::laws::lookup::RangeCountCode::range_from_laws))]
    pub fn range_from(
        self,
        image: &[u8],
        heads: &mut [u64],
        bytes: &mut [u8],
        lent: Lent,
        b: Bounds<Position>,
        n: usize,
        d: u64,
        asked: Asked<'_, '_>,
    ) -> Result<Ranged, Refusal>
        requires ready_2 { Ready lent.size lent.slots self.used heads.old bytes.old }
        requires bounds_in { BoundsIn self.used b }
        ensures answer { ranged_of lent.size heads.new bytes.new result
            ≡ counted (range_from d (lent_of image.now lent) asked.entry.lo.now (end_of asked.entry.hi)
            (state_of lent.size self heads.old bytes.old)
            (bounds_of (state_of lent.size self heads.old bytes.old) b) n) }
        ensures ready { ReadyBy (λ r. r.tree) lent.size lent.slots heads.new bytes.new result }
        ensures follows { Follows lent.size lent.slots self.used heads.old bytes.old heads.new bytes.new }
    {
        if d == 0 {
            return Ok(view!(self, heads, bytes, lent).ranged_at(n, asked));
        }
        let mut found = Ranged {
            tree: self,
            count: 0,
            length: 0,
        };
        let mut from = 0;
        // Loading a child writes into its parent's slot, so that no walk over the children lasts from one to the next.
        while let Some(i) = view!(found.tree, heads, bytes, lent).next_entered(n, from, asked) {
            let inner = view!(found.tree, heads, bytes, lent).child_bounds(b, n, i);
            let (t, c) = found.tree.load_child(image, heads, bytes, lent, b, n, i)?;
            let below = t.range_from(image, heads, bytes, lent, inner, c, d - 1, asked)?;
            found = found.then(below);
            from = i + 1;
        }
        Ok(found)
    }

    // Of range, what follows 12: the loads, 20, the records. Refused, it may leave slots changed.
    #[tactic(auto, using(crate::specs::laws::base::Refused::handed_on, crate::specs::laws::lookup::RangeCall::range_way_laws))]
    fn range_way(
        self,
        image: &[u8],
        heads: &mut [u64],
        bytes: &mut [u8],
        lent: Lent,
        lo: &[u8],
        hi: &[u8],
        out: &mut [u8],
    ) -> Result<Ranged, Refusal>
        requires ready_2 { Ready lent.size lent.slots self.used heads.old bytes.old }
        requires bytes_value { trusted (lent_of image.now lent) (state_of lent.size self heads.old bytes.old) ≡ true }
        requires roomy { Roomy (2 * lent.size) (state_of lent.size self heads.old bytes.old) }
        ensures answer { range_means lent.size heads.new bytes.new out.new result
            ≡ range_way (lent_of image.now lent) (state_of lent.size self heads.old bytes.old) (length out.old) lo.now hi.now }
        ensures output { out.new
            ≡ ranged_output out.old (range_way (lent_of image.now lent) (state_of lent.size self
            heads.old bytes.old) (length out.old) lo.now hi.now) }
        ensures long { ranged_length out.new result }
        ensures ready { ReadyBy (λ r. r.tree) lent.size lent.slots heads.new bytes.new result }
        ensures follows { Follows lent.size lent.slots self.used heads.old bytes.old heads.new bytes.new }
    {
        let root = self.root;
        let asked = Asked { lo, hi: Some(hi) };
        let level = view!(self, heads, bytes, lent).level_at(root);
        let found = self.range_from(image, heads, bytes, lent, UNBOUNDED, root, level, asked)?;
        let t = found.tree;
        check(Refusal::Output, found.length <= out.len() as u64)?;
        view!(t, heads, bytes, lent).range_out(t.root, level, asked, out, 0);
        Ok(found)
    }

    // range on slots that are trusted: 12 of both ends; the loads; 20. Refused, every slot is as it was.
    #[tactic(auto, using(crate::specs::laws::lookup::RangeCall::range_in_laws, crate::specs::laws::lookup::RangeLeaves::ranged_undone))]
    pub fn range_in(
        self,
        image: &[u8],
        heads: &mut [u64],
        bytes: &mut [u8],
        lent: Lent,
        lo: &[u8],
        hi: &[u8],
        out: &mut [u8],
    ) -> Result<Ranged, Refusal>
        requires trusts { Trusts image.now lent self heads.old bytes.old }
        ensures answer { range_means lent.size heads.new bytes.new out.new result
            ≡ range_in (lent_of image.now lent) (state_of lent.size self heads.old bytes.old) (length out.old) lo.now hi.now }
        ensures output { out.new
            ≡ ranged_output out.old (range_in (lent_of image.now lent) (state_of lent.size self
            heads.old bytes.old) (length out.old) lo.now hi.now) }
        ensures long { ranged_length out.new result }
        ensures left { RangeCalled image.now lent self heads.old bytes.old
            heads.new bytes.new result }
    {
        let order = self.order;
        check(Refusal::Argument, order.keyed(lo.len()))?;
        check(Refusal::Argument, order.keyed(hi.len()))?;
        self.undone(
            heads,
            bytes,
            lent,
            &mut |heads, bytes| self.range_way(image, heads, bytes, lent, lo, hi, out),
        )
    }

    // The entries from one key up to another, without it; their records are copied to the output's start.
    #[tactic(auto, using(crate::specs::laws::lookup::RangeLeaves::range_laws, crate::specs::laws::refusal1::Calls::called_trusts))]
    pub fn range(
        self,
        image: &[u8],
        heads: &mut [u64],
        bytes: &mut [u8],
        lent: Lent,
        lo: &[u8],
        hi: &[u8],
        out: &mut [u8],
    ) -> Result<Ranged, Refusal>
        ensures answer { range_means lent.size heads.new bytes.new out.new result
            ≡ ranged_in (lent_of image.now lent) self heads.old bytes.old (length out.old) lo.now hi.now }
        ensures output { out.new
            ≡ ranged_output out.old (ranged_in (lent_of image.now lent) self heads.old
            bytes.old (length out.old) lo.now hi.now) }
        ensures long { ranged_length out.new result }
        ensures left { ranged_leaves lent.size lent.slots self heads.old bytes.old
            heads.new bytes.new result }
    {
        check(
            Refusal::Lent,
            lent::lent_holds(self, image, heads, bytes, lent),
        )?;
        self.range_in(image, heads, bytes, lent, lo, hi, out)
    }
}
