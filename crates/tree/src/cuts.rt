// Cuts (`split_up` of write/tree.rs): on a way, bottom up, each node that does not fit is cut in two.
ghost use Rattle.std.specs.Prelude.{◌≡◌, [], true, ◌+◌, ◌≤◌, ◌<◌, ◌^◌, length};
ghost use Rattle.node.specs.Fit.{Sized, fits};
ghost use Rattle.tree.specs.Lent.{lent_of};
ghost use Rattle.tree.specs.State.{node_at};
ghost use Rattle.tree.specs.Edit.{parted, grow_root, new_root_holds, cut_at, cut_node, cuts};
ghost use Rattle.tree.specs.Workspace.{state_of};
ghost use Rattle.tree.specs.Answers.{edited_of};
ghost use Rattle.tree.specs.Trusts.{Ready};
ghost use Rattle.tree.specs.internal.Undo.{Follows};
ghost use Rattle.tree.specs.internal.Index.{Rewritten};
ghost use Rattle.tree.specs.internal.Way.{steps_in};
ghost use Rattle.tree.specs.internal.Edits.{CutFits, CutsFit, EditedFrom};
ghost use Rattle.tree.specs.internal.Cutting.{up_of, room_of, counted, stays_whole, child_put, ChildFits, root_added, RootFits, CutIs};
ghost use Rattle.tree.specs.internal.View.{seen};

use crate::editor::{Position, Tree};
use crate::floor::Spot;
use crate::lent::Lent;
use crate::view::{View, view};
use crate::writers::DirtyMark;
use crate::{bank, undo, writers};
use node::head::Head;
use node::read::MAX_DEPTH;
use node::refusal::{Refusal, check};
use node::room::Shape;
use node::val::{Child, Val};

impl<'h, 'b> View<'h, 'b> {
    // Whether the node of a slot fits, as a root or not.
    #[tactic(auto, using(crate::specs::laws::slots::Records::node_used))]
    pub fn fits(self, n: usize, root: bool) -> bool
        requires { (n < self.tree.used) × (Sized self.tree.info) }
        ensures { result
            ≡ fits self.entry.tree.info root (node_at (seen self.entry) n).level
            (node_at (seen self.entry) n).entries }
    {
        let h = bank::live_at(self.heads, n);
        self.slot_node(n, root).fits(h.used)
    }

    // Whether the node of a slot needs no cut: it is dead, or it fits.
    #[tactic(auto, using(crate::specs::laws::slots::Records::node_used, crate::specs::laws::cut::Asked::fits_at_laws))]
    pub fn fits_at(self, n: usize) -> bool
        requires sized { Sized self.tree.info × (n < self.tree.used) }
        ensures { result ≡ stays_whole (seen self.entry) n }
    {
        bank::live_at(self.heads, n).is_dead() || self.fits(n, n == self.tree.root)
    }

    // 15: whether a root above slot n, cut after so many entries, fits and is not at level 33.
    #[tactic(auto, using(crate::specs::laws::cut::NewRoot::new_root_holds_laws))]
    fn new_root_holds(self, n: usize, place: u64) -> bool
        requires sized { Sized self.tree.info × (n < self.tree.used) × (1 ≤ place) }
        ensures { result ≡ new_root_holds (parted (seen self.entry) n place) n self.entry.tree.used }
    {
        let level = self.level_at(n);
        if MAX_DEPTH <= level {
            return false;
        }
        let left = self.key_at(n, 0);
        let right = self.key_at(n, place);
        let above = Shape {
            info: self.tree.info,
            root: true,
            level: level + 1,
        };
        above.fits_two(left.len() as u64, right.len() as u64)
    }
}

impl Tree {
    // 17 and 11: whether node count and slots have room for n nodes made.
    fn room_for(self, slots: usize, n: usize) -> Result<(), Refusal>
        requires { (self.used ≤ slots) × (slots ≤ 4096) × (n ≤ 2) }
        ensures { result ≡ room_of self.info.node_count self.used slots n }
    {
        check(Refusal::Count, self.info.node_count <= u64::MAX - n as u64)?;
        check(Refusal::NoSlot, self.used + n <= slots)
    }

    // So many nodes more in the node count.
    fn more_nodes(mut self, n: u64) -> Tree
        requires { self.info.node_count + n < 2 ^ 64 }
        ensures { result ≡ counted self n }
    {
        self.info.node_count += n;
        self
    }

    // Before entry i of slot n, the child in slot c under its first key; slot n is dirty.
    fn link_child(
        self,
        heads: &mut [u64],
        bytes: &mut [u8],
        lent: Lent,
        n: usize,
        i: u64,
        c: usize,
        scratch: &mut [u8],
    )
        requires ready { Ready lent.size lent.slots self.used heads.old bytes.old }
        requires room { ChildFits lent.size (state_of lent.size self heads.old bytes.old) n i c (length scratch.old) }
        ensures { Rewritten lent.size lent.slots self heads.old bytes.old heads.new bytes.new
            (child_put (state_of lent.size self heads.old bytes.old) n i c) }
    {
        let len = view!(self, heads, bytes, lent).first_key(c, scratch);
        let spot = view!(self, heads, bytes, lent).spot_of(n, i);
        writers::insert_at(
            heads,
            bytes,
            lent,
            self.used,
            spot,
            &scratch[..len],
            Val::Child(Child::Mem(c as u64)),
            DirtyMark::Set,
        );
    }

    // The next slot, without entries, one level above slot n, takes its id and block and is the root.
    #[tactic(auto, using(crate::specs::laws::cut::AddRoot::root_above))]
    fn add_root(mut self, heads: &mut [u64], bytes: &mut [u8], lent: Lent, n: usize) -> Tree
        requires ready_2 { Ready lent.size lent.slots self.used heads.old bytes.old }
        requires used_lt_slots { (self.used < lent.slots) × (n < self.used) × ((node_at (state_of lent.size self heads.old bytes.old) n).level < 32) }
        ensures after { state_of lent.size result heads.new bytes.new
            ≡ root_added (state_of lent.size self heads.old bytes.old) n }
        ensures ready { Ready lent.size lent.slots result.used heads.new bytes.new }
        ensures follows { Follows lent.size lent.slots self.used heads.old bytes.old heads.new bytes.new }
    {
        undo::save(heads, bytes, lent, self.used, n);
        let c = self.used;
        let h = Head::load(heads, n);
        let top = Head {
            level: h.level + 1,
            count: 0,
            used: 0,
            dirty: 1,
            dead: 0,
            ..h
        };
        top.store(heads, c);
        h.with_block(None).with_id(None).store(heads, n);
        self.root = c;
        self.used = c + 1;
        self
    }

    // A new root above slots n and r in the next slot.
    fn grow_root(
        self,
        heads: &mut [u64],
        bytes: &mut [u8],
        lent: Lent,
        n: usize,
        r: usize,
        scratch: &mut [u8],
    ) -> Tree
        requires ready { Ready lent.size lent.slots self.used heads.old bytes.old × (self.used < lent.slots) }
        requires room { RootFits lent.size (state_of lent.size self heads.old bytes.old) n r (length scratch.old) }
        ensures after { state_of lent.size result heads.new bytes.new
            ≡ grow_root (state_of lent.size self heads.old bytes.old) n r }
        ensures ready { Ready lent.size lent.slots result.used heads.new bytes.new }
        ensures follows { Follows lent.size lent.slots self.used heads.old bytes.old heads.new bytes.new }
    {
        let t = self.add_root(heads, bytes, lent, n);
        t.link_child(heads, bytes, lent, t.root, 0, n, scratch);
        t.link_child(heads, bytes, lent, t.root, 1, r, scratch);
        t
    }

    // The root cut at a spot: 15, 17, 11.
    #[tactic(auto, using(crate::specs::laws::base::Refused::handed_on, crate::specs::laws::cut::CutAt::cut_root_laws))]
    fn cut_root(
        self,
        heads: &mut [u64],
        bytes: &mut [u8],
        lent: Lent,
        spot: Spot,
        scratch: &mut [u8],
    ) -> Result<Tree, Refusal>
        requires ready { (Ready lent.size lent.slots self.used heads.old bytes.old) × (lent.size ≤ length scratch.old) }
        requires room { (CutFits lent.size (state_of lent.size self heads.old bytes.old) [] spot.slot)
            × (CutIs lent.size self heads.old bytes.old spot.slot spot.index spot.at) }
        ensures answer { edited_of lent.size heads.new bytes.new result
            ≡ cut_at (lent_of [] lent) [] spot.slot spot.index (state_of lent.size self heads.old bytes.old) }
        ensures left { EditedFrom lent.size lent.slots self.used heads.old bytes.old heads.new bytes.new result }
    {
        let holds = view!(self, heads, bytes, lent).new_root_holds(spot.slot, spot.index);
        check(Refusal::NewRoot, holds)?;
        self.room_for(lent.slots, 2)?;
        let r = self.used;
        let t = self.part(heads, bytes, lent, spot);
        let top = t.grow_root(heads, bytes, lent, spot.slot, r, scratch);
        Ok(top.more_nodes(2))
    }

    // A child cut at a spot: 17, 11. Its right part stands after it.
    #[tactic(auto, using(crate::specs::laws::base::Refused::handed_on, crate::specs::laws::cut::CutAt::child_full))]
    fn cut_child(
        self,
        heads: &mut [u64],
        bytes: &mut [u8],
        lent: Lent,
        up: Position,
        spot: Spot,
        scratch: &mut [u8],
    ) -> Result<Tree, Refusal>
        requires ready { (Ready lent.size lent.slots self.used heads.old bytes.old) × (lent.size ≤ length scratch.old) }
        requires room { (CutFits lent.size (state_of lent.size self heads.old bytes.old) (up_of (Some up)) spot.slot)
            × (CutIs lent.size self heads.old bytes.old spot.slot spot.index spot.at) }
        ensures answer { edited_of lent.size heads.new bytes.new result
            ≡ cut_at (lent_of [] lent) (up_of (Some up)) spot.slot spot.index (state_of lent.size self heads.old bytes.old) }
        ensures left { EditedFrom lent.size lent.slots self.used heads.old bytes.old heads.new bytes.new result }
    {
        self.room_for(lent.slots, 1)?;
        let r = self.used;
        let t = self.part(heads, bytes, lent, spot);
        t.link_child(heads, bytes, lent, up.slot, up.index + 1, r, scratch);
        Ok(t.more_nodes(1))
    }

    // A node that does not fit is cut: 13, 14, at the root 15, 17, 11.
    #[tactic(auto, using(crate::specs::laws::base::Refused::handed_on, crate::specs::laws::cut::CutNode::cut_node_laws))]
    fn cut_node(
        self,
        heads: &mut [u64],
        bytes: &mut [u8],
        lent: Lent,
        up: Option<Position>,
        n: usize,
        scratch: &mut [u8],
    ) -> Result<Tree, Refusal>
        requires ready { (Ready lent.size lent.slots self.used heads.old bytes.old) × (lent.size ≤ length scratch.old) }
        requires room { CutFits lent.size (state_of lent.size self heads.old bytes.old) (up_of up) n }
        ensures answer { edited_of lent.size heads.new bytes.new result
            ≡ cut_node (lent_of [] lent) (up_of up) n (state_of lent.size self heads.old bytes.old) }
        ensures left { EditedFrom lent.size lent.slots self.used heads.old bytes.old heads.new bytes.new result }
    {
        if view!(self, heads, bytes, lent).fits_at(n) {
            return Ok(self);
        }
        let node = view!(self, heads, bytes, lent).slot_node(n, n == self.root);
        let found = node.cut()?;
        let spot = Spot {
            slot: n,
            index: found.place as u64,
            at: found.at,
        };
        match up {
            None => self.cut_root(heads, bytes, lent, spot, scratch),
            Some(up) => self.cut_child(heads, bytes, lent, up, spot, scratch),
        }
    }

    // On a way, bottom up, each node that does not fit is cut.
    #[tactic(auto, using(crate::specs::laws::base::Refused::handed_on, crate::specs::laws::cut::Cuts::cuts_laws))]
    pub fn cuts(
        self,
        heads: &mut [u64],
        bytes: &mut [u8],
        lent: Lent,
        way: &[Position],
        scratch: &mut [u8],
    ) -> Result<Tree, Refusal>
        requires ready { Ready lent.size lent.slots self.used heads.old bytes.old }
        requires room { (CutsFit (lent_of [] lent) (state_of lent.size self heads.old bytes.old) way.now)
            × (lent.size ≤ length scratch.old) }
        ensures answer { edited_of lent.size heads.new bytes.new result
            ≡ cuts (lent_of [] lent) [] (steps_in way.now) (state_of lent.size self
            heads.old bytes.old) }
        ensures left { EditedFrom lent.size lent.slots self.used heads.old bytes.old heads.new bytes.new result }
    {
        let mut t = self;
        for [up, step] in way.array_windows::<2>().rev() {
            t = t.cut_node(heads, bytes, lent, Some(*up), step.slot, scratch)?;
        }
        match way.first() {
            Some(root) => t.cut_node(heads, bytes, lent, None, root.slot, scratch),
            None => Ok(t),
        }
    }
}
