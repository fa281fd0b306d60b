// The last entry not above a key: found on its way down, leftward only if the leaf has none.
ghost use Rattle.std.specs.Prelude.{◌≡◌, length, IfSome};
ghost use Rattle.node.specs.Records.{records_length};
ghost use Rattle.tree.specs.Lent.{lent_of};
ghost use Rattle.tree.specs.Lookup.{last_from, floor_from, floor_in};
ghost use Rattle.tree.specs.Workspace.{slot_bytes, state_of};
ghost use Rattle.tree.specs.Answers.{floor_means, floored_in, floored_output, floored_leaves};
ghost use Rattle.tree.specs.Trusts.{Ready, Trusts, FloorCalled};
ghost use Rattle.tree.specs.internal.Bank.{ReadyAfter};
ghost use Rattle.tree.specs.internal.Tree.{bounds_of, BoundsIn};
ghost use Rattle.tree.specs.internal.Undo.{Follows};
ghost use Rattle.tree.specs.internal.Floor.{entry_in, got_last, last_means, EntryReady, AtEntry, LastReady, last_at, floor_at, left_from};
ghost use Rattle.tree.specs.internal.Floor.{floored_of, floor_way, SpotIs};
ghost use Rattle.tree.specs.internal.View.{seen};

use crate::editor::{Bounds, Position, Tree, UNBOUNDED};
use crate::lent::Lent;
use crate::view::{View, view};
use crate::{bank, lent};
use node::bytes;
use node::order::Order;
use node::record::Record;
use node::refusal::{Refusal, check};
use node::slot::RecordAt;

// An entry of a slot, and where its record starts.
#[derive(Clone, Copy)]
pub struct Spot {
    pub slot: usize,
    pub index: u64,
    pub at: usize,
}

impl Spot {
    // The entry of a slot that a record is.
    pub fn of(slot: usize, r: RecordAt) -> Spot
        ensures { result ≡ record { slot = slot; index = r.index; at = r.at } }
    {
        Spot {
            slot,
            index: r.index,
            at: r.at,
        }
    }
}

impl<'h, 'b> View<'h, 'b> {
    // The last entry of slot n.
    #[tactic(auto, using(crate::specs::laws::lookup::FloorLeaf::last_at_laws))]
    fn last_at(self, n: usize) -> Option<Position>
        ensures answer { got_last (seen self.entry) result ≡ last_at (seen self.entry) n }
        ensures entry { IfSome result (AtEntry self.entry.lent.size self.entry.lent.slots self.entry.tree self.entry.heads.now self.entry.bytes.now) }
    {
        let index = self.count_at(n).checked_sub(1)?;
        Some(Position { slot: n, index })
    }

    // The last entry of slot n that is not above a key.
    #[tactic(auto, using(crate::specs::laws::lookup::FloorLeaf::floor_at_laws))]
    fn floor_at(self, n: usize, key: &[u8]) -> Option<Position>
        ensures answer { got_last (seen self.entry) result ≡ floor_at (seen self.entry) n key.now }
        ensures entry { IfSome result (AtEntry self.entry.lent.size self.entry.lent.slots self.entry.tree self.entry.heads.now self.entry.bytes.now) }
    {
        let order = self.tree.order;
        let last = self.records(n).not_above(order, key);
        let index = last.count.checked_sub(1)?;
        Some(Position { slot: n, index })
    }

    // An entry copied out as its record: 20.
    #[tactic(auto, using(crate::specs::laws::lookup::LoadedCalls::copy_at_laws, crate::specs::laws::slots::OneSlot::ready_slot))]
    fn copy_at(self, spot: Spot, out: &mut [u8]) -> Result<(Tree, Option<usize>), Refusal>
        requires entry_ready { EntryReady self.lent.size self.lent.slots self.tree self.heads.now self.bytes.now spot.slot spot.index }
        requires at_value { spot.at ≡ records_length spot.index (slot_bytes self.lent.size self.bytes.now spot.slot) }
        ensures answer { floor_means self.entry.lent.size self.entry.heads.now self.entry.bytes.now out.new result
            ≡ floored_of (length out.old)
            (entry_in (seen self.entry) spot.slot spot.index) }
        ensures output { out.new
            ≡ floored_output out.old (floored_of (length out.old)
            (entry_in (seen self.entry) spot.slot spot.index)) }
        ensures ready { ReadyAfter self.entry.lent.size self.entry.lent.slots self.entry.heads.now self.entry.bytes.now result }
    {
        let part = bank::slot_of(self.bytes, self.lent.size, spot.slot);
        let at = spot.at;
        let end = Record { slot: part, at }.next();
        check(Refusal::Output, end - at <= out.len())?;
        bytes::copy_to(&part[at..end], out, 0);
        Ok((self.tree, Some(end - at)))
    }

    // Entry i of slot n copied out as its record: 20.
    #[tactic(auto, using(crate::specs::laws::lookup::LoadedCalls::spot_at))]
    fn copy_record(self, n: usize, i: u64, out: &mut [u8]) -> Result<(Tree, Option<usize>), Refusal>
        requires { EntryReady self.lent.size self.lent.slots self.tree self.heads.now self.bytes.now n i }
        ensures answer { floor_means self.entry.lent.size self.entry.heads.now self.entry.bytes.now out.new result
            ≡ floored_of (length out.old)
            (entry_in (seen self.entry) n i) }
        ensures output { out.new
            ≡ floored_output out.old (floored_of (length out.old)
            (entry_in (seen self.entry) n i)) }
        ensures ready { ReadyAfter self.entry.lent.size self.entry.lent.slots self.entry.heads.now self.entry.bytes.now result }
    {
        let spot = Spot {
            slot: n,
            index: i,
            at: self.records(n).offset_of(i),
        };
        self.copy_at(spot, out)
    }

    // The last entry not above a key in the leaf of its way, where every child on the way is loaded.
    #[tactic(auto, using(crate::specs::laws::lookup::LoadedCalls::spot_is))]
    fn floor_loaded(self, key: &[u8]) -> Option<Spot>
        ensures { IfSome result (SpotIs self.entry.lent.size self.entry.lent.slots self.entry.tree self.entry.heads.now
            self.entry.bytes.now key.now) }
    {
        let leaf = self.leaf_of(key)?;
        let order = self.tree.order;
        let last = self.records(leaf).not_above(order, key);
        Some(Spot {
            slot: leaf,
            index: last.count.checked_sub(1)?,
            at: last.at,
        })
    }
}

impl Tree {
    // The last entry d levels below slot n.
    #[tactic(auto, using(crate::specs::laws::base::Refused::handed_on, crate::specs::laws::lookup::FloorDown::last_from_laws))]
    fn last_from(
        self,
        image: &[u8],
        heads: &mut [u64],
        bytes: &mut [u8],
        lent: Lent,
        b: Bounds<Position>,
        n: usize,
        d: u64,
    ) -> Result<(Tree, Option<Position>), Refusal>
        requires ready_2 { Ready lent.size lent.slots self.used heads.old bytes.old }
        requires bounds_in { BoundsIn self.used b }
        ensures answer { last_means lent.size heads.new bytes.new result
            ≡ last_from d (lent_of image.now lent)
            (state_of lent.size self heads.old bytes.old)
            (bounds_of (state_of lent.size self heads.old bytes.old) b)
            n }
        ensures ready { LastReady lent.size lent.slots heads.new bytes.new result }
        ensures follows { Follows lent.size lent.slots self.used heads.old
            bytes.old heads.new bytes.new }
    {
        if d == 0 {
            return Ok((self, view!(self, heads, bytes, lent).last_at(n)));
        }
        let count = view!(self, heads, bytes, lent).count_at(n);
        let i = count.saturating_sub(1);
        let inner = view!(self, heads, bytes, lent).child_bounds(b, n, i);
        let (t, c) = self.load_child(image, heads, bytes, lent, b, n, i)?;
        t.last_from(image, heads, bytes, lent, inner, c, d - 1)
    }

    // Left of child i of slot n, where no entry below it answered: the last entry d levels below child i - 1,
    // unless the key is below child i's.
    #[tactic(auto, using(crate::specs::laws::base::Refused::handed_on, crate::specs::laws::lookup::FloorDown::floor_left_laws))]
    fn floor_left(
        self,
        image: &[u8],
        heads: &mut [u64],
        bytes: &mut [u8],
        lent: Lent,
        b: Bounds<Position>,
        n: usize,
        i: u64,
        d: u64,
        key: &[u8],
    ) -> Result<(Tree, Option<Position>), Refusal>
        requires ready_2 { Ready lent.size lent.slots self.used heads.old bytes.old }
        requires bounds_in { BoundsIn self.used b }
        ensures answer { last_means lent.size heads.new bytes.new result
            ≡ left_from d (lent_of image.now lent)
            (state_of lent.size self heads.old bytes.old)
            (bounds_of (state_of lent.size self heads.old bytes.old) b)
            n i key.now }
        ensures ready { LastReady lent.size lent.slots heads.new bytes.new result }
        ensures follows { Follows lent.size lent.slots self.used heads.old
            bytes.old heads.new bytes.new }
    {
        if i == 0 {
            return Ok((self, None));
        }
        let order = self.order;
        let above = order.less(key, view!(self, heads, bytes, lent).key_at(n, i));
        if above {
            return Ok((self, None));
        }
        let inner = view!(self, heads, bytes, lent).child_bounds(b, n, i - 1);
        let (t, c) = self.load_child(image, heads, bytes, lent, b, n, i - 1)?;
        t.last_from(image, heads, bytes, lent, inner, c, d)
    }

    // The last entry not above a key, d levels below slot n.
    #[tactic(auto, using(crate::specs::laws::base::Refused::handed_on, crate::specs::laws::lookup::FloorDown::floor_from_laws))]
    fn floor_from(
        self,
        image: &[u8],
        heads: &mut [u64],
        bytes: &mut [u8],
        lent: Lent,
        b: Bounds<Position>,
        n: usize,
        d: u64,
        key: &[u8],
    ) -> Result<(Tree, Option<Position>), Refusal>
        requires ready_2 { Ready lent.size lent.slots self.used heads.old bytes.old }
        requires bounds_in { BoundsIn self.used b }
        ensures answer { last_means lent.size heads.new bytes.new result
            ≡ floor_from d (lent_of image.now lent)
            (state_of lent.size self heads.old bytes.old)
            (bounds_of (state_of lent.size self heads.old bytes.old) b)
            n key.now }
        ensures ready { LastReady lent.size lent.slots heads.new bytes.new result }
        ensures follows { Follows lent.size lent.slots self.used heads.old
            bytes.old heads.new bytes.new }
    {
        if d == 0 {
            return Ok((self, view!(self, heads, bytes, lent).floor_at(n, key)));
        }
        let i = view!(self, heads, bytes, lent).way_index(n, key);
        let inner = view!(self, heads, bytes, lent).child_bounds(b, n, i);
        let (t, c) = self.load_child(image, heads, bytes, lent, b, n, i)?;
        let (u, found) = t.floor_from(image, heads, bytes, lent, inner, c, d - 1, key)?;
        match found {
            Some(_) => Ok((u, found)),
            None => u.floor_left(image, heads, bytes, lent, b, n, i, d - 1, key),
        }
    }

    // Of floor, what follows 12: the lookup, 20. Refused, it may leave slots changed.
    #[tactic(auto, using(crate::specs::laws::base::Refused::handed_on, crate::specs::laws::lookup::FloorCall::floor_way_laws))]
    fn floor_way(
        self,
        image: &[u8],
        heads: &mut [u64],
        bytes: &mut [u8],
        lent: Lent,
        key: &[u8],
        out: &mut [u8],
    ) -> Result<(Tree, Option<usize>), Refusal>
        requires { Ready lent.size lent.slots self.used heads.old bytes.old }
        ensures answer { floor_means lent.size heads.new bytes.new out.new result
            ≡ floor_way (lent_of image.now lent) (state_of lent.size self heads.old bytes.old) (length out.old) key.now }
        ensures output { out.new
            ≡ floored_output out.old (floor_way (lent_of image.now lent) (state_of lent.size self
            heads.old bytes.old) (length out.old) key.now) }
        ensures ready { ReadyAfter lent.size lent.slots heads.new bytes.new result }
        ensures follows { Follows lent.size lent.slots self.used heads.old
            bytes.old heads.new bytes.new }
    {
        let level = view!(self, heads, bytes, lent).level_at(self.root);
        let root = self.root;
        let (t, found) = self.floor_from(image, heads, bytes, lent, UNBOUNDED, root, level, key)?;
        match found {
            None => Ok((t, None)),
            Some(e) => view!(t, heads, bytes, lent).copy_record(e.slot, e.index, out),
        }
    }

    // floor on slots that are trusted, whatever of the way is loaded.
    #[tactic(auto, using(crate::specs::laws::lookup::FloorCall::floor_down_laws))]
    fn floor_down(
        self,
        image: &[u8],
        heads: &mut [u64],
        bytes: &mut [u8],
        lent: Lent,
        key: &[u8],
        out: &mut [u8],
    ) -> Result<(Tree, Option<usize>), Refusal>
        requires trusts { Trusts image.now lent self heads.old bytes.old }
        ensures answer { floor_means lent.size heads.new bytes.new out.new result
            ≡ floor_in (lent_of image.now lent) (state_of lent.size self heads.old bytes.old) (length out.old) key.now }
        ensures output { out.new
            ≡ floored_output out.old (floor_in (lent_of image.now lent) (state_of lent.size self
            heads.old bytes.old) (length out.old) key.now) }
        ensures left { FloorCalled image.now lent self heads.old bytes.old
            heads.new bytes.new result }
    {
        let order = self.order;
        check(Refusal::Argument, order.keyed(key.len()))?;
        self.undone(
            heads,
            bytes,
            lent,
            &mut |heads, bytes| self.floor_way(image, heads, bytes, lent, key, out),
        )
    }

    // floor on slots that are trusted: 12; the lookup; 20. Refused, every slot is as it was.
    pub fn floor_in(
        self,
        image: &[u8],
        heads: &mut [u64],
        bytes: &mut [u8],
        lent: Lent,
        key: &[u8],
        out: &mut [u8],
    ) -> Result<(Tree, Option<usize>), Refusal>
        requires trusts { Trusts image.now lent self heads.old bytes.old }
        ensures answer { floor_means lent.size heads.new bytes.new out.new result
            ≡ floor_in (lent_of image.now lent) (state_of lent.size self heads.old bytes.old) (length out.old) key.now }
        ensures output { out.new
            ≡ floored_output out.old (floor_in (lent_of image.now lent) (state_of lent.size self
            heads.old bytes.old) (length out.old) key.now) }
        ensures left { FloorCalled image.now lent self heads.old bytes.old
            heads.new bytes.new result }
    {
        match view!(self, heads, bytes, lent).floor_loaded(key) {
            Some(spot) => view!(self, heads, bytes, lent).copy_at(spot, out),
            None => self.floor_down(image, heads, bytes, lent, key, out),
        }
    }

    // The last entry not above a key; its record is copied to the output's start.
    #[tactic(auto, using(crate::specs::laws::lookup::FloorCall::floor_laws, crate::specs::laws::refusal1::Calls::called_trusts))]
    pub fn floor(
        self,
        image: &[u8],
        heads: &mut [u64],
        bytes: &mut [u8],
        lent: Lent,
        key: &[u8],
        out: &mut [u8],
    ) -> Result<(Tree, Option<usize>), Refusal>
        ensures answer { floor_means lent.size heads.new bytes.new out.new result
            ≡ floored_in (lent_of image.now lent) self heads.old bytes.old (length out.old) key.now }
        ensures output { out.new
            ≡ floored_output out.old (floored_in (lent_of image.now lent) self heads.old
            bytes.old (length out.old) key.now) }
        ensures left { floored_leaves lent.size lent.slots self heads.old bytes.old
            heads.new bytes.new result }
    {
        check(
            Refusal::Lent,
            lent::lent_holds(self, image, heads, bytes, lent),
        )?;
        // All slots were looked at, so that a short way would save nothing.
        self.floor_down(image, heads, bytes, lent, key, out)
    }
}
