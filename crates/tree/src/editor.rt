// An open tree: its numbers by value, its nodes in slots. A child loaded.
ghost use Rattle.std.specs.Prelude.{◌≡◌, true, ◌+◌, ◌≤◌, ◌<◌, ◌*◌, ◌^◌, length, IfOk, Some};
ghost use Rattle.node.specs.Bytes.{window};
ghost use Rattle.node.specs.declared.val.Child.TheVariants.{Disk};
ghost use Rattle.node.specs.Find.{key_at, val_at};
ghost use Rattle.node.specs.Slot.{is_child};
ghost use Rattle.node.specs.Read.{spans_length, on_disk, read_of, map_ok};
ghost use Rattle.tree.specs.Lent.{block_at, lent_of};
ghost use Rattle.tree.specs.State.{node_at};
ghost use Rattle.tree.specs.Load.{tighter_lower, tighter_upper, child_bounds, load_child};
ghost use Rattle.tree.specs.Trusts.{Ready};
ghost use Rattle.tree.specs.internal.Bank.{HasEntry, ReadyAfter};
ghost use Rattle.tree.specs.internal.Brought.{brought};
ghost use Rattle.tree.specs.internal.Undo.{Follows};
ghost use Rattle.tree.specs.Workspace.{state_of};
ghost use Rattle.node.specs.internal.Children.{child_of};
ghost use Rattle.tree.specs.internal.Tree.{bound_of, edge_of, BoundIn, BoundsIn, bounds_of, read_child, fetched_at, loaded_of};
ghost use Rattle.tree.specs.internal.View.{seen};

use crate::bank;
use crate::lent::Lent;
use crate::mapped::Blocks;
use crate::view::{View, view};
use node::head::Head;
use node::info::BTreeInfo;
use node::order::Order;
use node::read::{Parent, Place, ReadNode};
use node::refusal::{Refusal, check};
use node::val::Child;

#[derive(Clone, Copy)]
pub struct Tree {
    pub root: usize,
    // Slots in use.
    pub used: usize,
    pub info: BTreeInfo,
    pub by_id: bool,
    pub subtype: u64,
    pub order: Order,
    // The opened transaction.
    pub xid: u64,
}

// An entry of a slot; as a bound, the key that it has there.
#[derive(Clone, Copy, Default, Drop)]
pub struct Position {
    pub slot: usize,
    pub index: u64,
}

// The bounds of a node's keys; the first node of the first has no lower one, the last of the last no upper one.
#[derive(Clone, Copy)]
pub struct Bounds<K> {
    pub lower: Option<K>,
    pub upper: Option<K>,
}

// No bounds: a root's.
pub const UNBOUNDED: Bounds<Position> = Bounds {
    lower: None,
    upper: None,
};

impl<'h, 'b> View<'h, 'b> {
    // The key of an entry of a slot; none where there is no such slot or entry.
    #[tactic(auto, using(crate::specs::laws::slots::Records::key_past))]
    pub fn key_at(self, n: usize, i: u64) -> &'b [u8]
        ensures { result.now
            ≡ key_at (node_at (seen self.entry) n).entries i }
    {
        match self.records(n).get(i) {
            Some(r) => r.key(),
            None => &[],
        }
    }

    // The child of an entry of a slot.
    #[tactic(auto, using(crate::specs::laws::slots::Records::child_past, crate::specs::laws::slots::Records::value_found))]
    pub fn child_at(self, n: usize, i: u64) -> Option<Child>
        ensures { result
            ≡ child_of (val_at (node_at (seen self.entry) n).entries i) }
    {
        self.records(n).get(i)?.value().child()
    }

    // How many entries a slot holds; none where there is no such slot.
    #[tactic(auto, using(crate::specs::laws::slots::Records::count_is))]
    pub fn count_at(self, n: usize) -> u64
        ensures { (result
            ≡ length (node_at (seen self.entry) n).entries)
            × (result < 2 ^ 32) }
    {
        self.records(n).count
    }

    // The level of a slot's node.
    #[tactic(auto, using(crate::specs::laws::load::Fetch::level_out, crate::specs::laws::load::Fetch::level_is))]
    pub fn level_at(self, n: usize) -> u64
        ensures { result ≡ (node_at (seen self.entry) n).level }
    {
        if self.tree.used <= n {
            return 0;
        }
        let h = Head::load(self.heads, n);
        h.level
    }

    // The key of a bound, if there is one.
    #[tactic(auto, using(crate::specs::laws::load::Fetch::bound_keys))]
    fn bound_key(self, b: Option<Position>) -> Option<&'b [u8]>
        ensures { edge_of result ≡ bound_of (seen self.entry) b }
    {
        let bound = b?;
        Some(self.key_at(bound.slot, bound.index))
    }

    // The higher of a lower bound and the key of entry i of slot n.
    #[tactic(auto, using(crate::specs::laws::load::Fetch::tighter))]
    fn tighter_lower(self, b: Option<Position>, n: usize, i: u64) -> Option<Position>
        ensures bound { bound_of (seen self.entry) result
            ≡ tighter_lower self.entry.tree.order.code (bound_of (seen self.entry) b)
            (key_at (node_at (seen self.entry) n).entries i) }
        ensures within { BoundIn self.entry.tree.used b → n < self.entry.tree.used → BoundIn self.entry.tree.used result }
    {
        let order = self.tree.order;
        match self.bound_key(b) {
            Some(old) if !order.less(old, self.key_at(n, i)) => b,
            _ => Some(Position { slot: n, index: i }),
        }
    }

    // The lower of an upper bound and the key of entry i of slot n.
    #[tactic(auto, using(crate::specs::laws::load::Fetch::tighter))]
    fn tighter_upper(self, b: Option<Position>, n: usize, i: u64) -> Option<Position>
        ensures bound { bound_of (seen self.entry) result
            ≡ tighter_upper self.entry.tree.order.code (bound_of (seen self.entry) b)
            (key_at (node_at (seen self.entry) n).entries i) }
        ensures within { BoundIn self.entry.tree.used b → n < self.entry.tree.used → BoundIn self.entry.tree.used result }
    {
        let order = self.tree.order;
        match self.bound_key(b) {
            Some(old) if !order.less(self.key_at(n, i), old) => b,
            _ => Some(Position { slot: n, index: i }),
        }
    }

    // The bounds of child i of slot n.
    #[tactic(auto, using(crate::specs::laws::load::Fetch::inner_bounds))]
    pub fn child_bounds(self, b: Bounds<Position>, n: usize, i: u64) -> Bounds<Position>
        ensures bounds { bounds_of (seen self.entry) result
            ≡ child_bounds self.entry.tree.order.code (bounds_of (seen self.entry) b)
            (node_at (seen self.entry) n).entries i }
        ensures within { BoundsIn self.entry.tree.used b → n < self.entry.tree.used → BoundsIn self.entry.tree.used result }
    {
        let lower = self.tighter_lower(b.lower, n, i);
        if self.count_at(n).saturating_sub(1) <= i {
            return Bounds {
                lower,
                upper: b.upper,
            };
        }
        let upper = self.tighter_upper(b.upper, n, i + 1);
        Bounds { lower, upper }
    }

    // The block at an address, read as the child r of slot n: 2 to 9.
    #[tactic(auto, using(crate::specs::laws::load::Fetch::read_child_lem))]
    fn read_child<'i>(
        self,
        image: &'i [u8],
        b: Bounds<Position>,
        n: usize,
        r: u64,
        a: u64,
    ) -> Result<ReadNode<'i>, Refusal>
        ensures answer { read_of (block_at (lent_of image.now self.entry.lent) a) (map_ok (λ r. r.node) result)
            ≡ read_child (lent_of image.now self.entry.lent) (seen self.entry)
            (bounds_of (seen self.entry) b) n r a }
        ensures block { IfOk result (λ r. r.block.now ≡ window (a * self.entry.lent.size) self.entry.lent.size image.now) }
    {
        let lower = self.bound_key(b.lower);
        let upper = self.bound_key(b.upper);
        let info = self.tree.info;
        let parent = Parent {
            level: self.level_at(n),
            ksize: info.key_size,
            vsize: info.val_size,
            lower,
        };
        let place = Place {
            oid: r,
            parent: Some(parent),
            upper,
        };
        let lent = self.lent;
        Blocks { image, lent }.load_block(self.tree.order, place, a)
    }
}

impl Tree {
    // A node that was read, brought into the next slot as child i of slot n.
    #[tactic(auto, using(crate::specs::laws::slots::Tree::bring_laws, crate::specs::laws::slots::OneSlot::bring_laws))]
    pub fn bring(
        mut self,
        read: ReadNode<'_>,
        heads: &mut [u64],
        bytes: &mut [u8],
        lent: Lent,
        n: usize,
        i: u64,
        a: u64,
    ) -> Tree
        requires ready_2 { Ready lent.size lent.slots self.used heads.old bytes.old }
        requires nkeys_bound { (spans_length read.node read.block.now 0 read.node.nkeys ≤ 65532) × (length read.block.now ≡ lent.size)
            × (self.used < lent.slots) × HasEntry self.used heads.old n i
            × (is_child (val_at (node_at (state_of lent.size self heads.old bytes.old) n).entries i) ≡ true) }
        ensures after { state_of lent.size result heads.new bytes.new
            ≡ (brought (state_of lent.size self heads.old bytes.old) n i (on_disk read.entry.node read.entry.block.now) a).state }
        ensures ready { Ready lent.size lent.slots result.used heads.new bytes.new }
        ensures follows { Follows lent.size lent.slots self.used heads.old bytes.old heads.new bytes.new }
    {
        let c = self.used;
        bank::link(heads, bytes, lent, c, n, i, c as u64);
        bank::adopt_into(read, heads, bytes, lent.size, c, self.by_id, a);
        self.used = c + 1;
        self
    }

    // The child r of slot n, read at an address and brought.
    #[tactic(auto, using(crate::specs::laws::load::Fetch::fetching, crate::specs::laws::slots::Undo::follows_same))]
    fn fetch(
        self,
        image: &[u8],
        heads: &mut [u64],
        bytes: &mut [u8],
        lent: Lent,
        b: Bounds<Position>,
        n: usize,
        i: u64,
        r: u64,
        a: u64,
    ) -> Result<(Tree, usize), Refusal>
        requires ready_2 { Ready lent.size lent.slots self.used heads.old bytes.old }
        requires used_lt_slots { (self.used < lent.slots)
            × (child_of (val_at (node_at (state_of lent.size self heads.old bytes.old) n).entries i)
            ≡ Some (Disk r)) }
        ensures answer { loaded_of lent.size heads.new bytes.new result
            ≡ fetched_at (lent_of image.now lent) (state_of lent.size self heads.old bytes.old)
            (bounds_of (state_of lent.size self heads.old bytes.old) b) n i r a }
        ensures ready { ReadyAfter lent.size lent.slots heads.new bytes.new result }
        ensures follows { Follows lent.size lent.slots self.used heads.old bytes.old heads.new bytes.new }
    {
        let read = view!(self, heads, bytes, lent).read_child(image, b, n, r, a)?;
        let c = self.used;
        let t = self.bring(read, heads, bytes, lent, n, i, a);
        Ok((t, c))
    }

    // Child i of slot n: loaded already, or loaded now into the next slot.
    #[tactic(auto, using(crate::specs::laws::load::Fetch::loading, crate::specs::laws::slots::Undo::follows_same))]
    pub fn load_child(
        self,
        image: &[u8],
        heads: &mut [u64],
        bytes: &mut [u8],
        lent: Lent,
        b: Bounds<Position>,
        n: usize,
        i: u64,
    ) -> Result<(Tree, usize), Refusal>
        requires { Ready lent.size lent.slots self.used heads.old bytes.old }
        ensures answer { loaded_of lent.size heads.new bytes.new result
            ≡ load_child (lent_of image.now lent) (state_of lent.size self heads.old bytes.old)
            (bounds_of (state_of lent.size self heads.old bytes.old) b) n i }
        ensures ready { ReadyAfter lent.size lent.slots heads.new bytes.new result }
        ensures follows { Follows lent.size lent.slots self.used heads.old bytes.old heads.new bytes.new }
    {
        match view!(self, heads, bytes, lent).child_at(n, i) {
            None => Err(Refusal::Lent),
            Some(Child::Mem(c)) => Ok((self, c as usize)),
            Some(Child::Disk(r)) => {
                check(Refusal::NoSlot, self.used < lent.slots)?;
                let a = Blocks { image, lent }.address_of(self.xid, r)?;
                let inner = view!(self, heads, bytes, lent).child_bounds(b, n, i);
                self.fetch(image, heads, bytes, lent, inner, n, i, r, a)
            }
        }
    }
}
