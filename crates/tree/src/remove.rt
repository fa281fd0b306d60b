// Remove: the entry of a key taken out, emptied nodes dropped, the root's place handed down.
ghost use Rattle.std.specs.Prelude.{◌≡◌, true, ◌-◌, ◌*◌, ◌≤◌, ◌<◌, length};
ghost use Rattle.std.specs.Int.{from_bool};
ghost use Rattle.node.specs.Slot.{node_of};
ghost use Rattle.tree.specs.Lent.{lent_of};
ghost use Rattle.tree.specs.Trust.{trusted};
ghost use Rattle.tree.specs.Remove.{drop_node, drop_emptied, leveled_root, has_only_child, hand_down, removed, remove_in, remove};
ghost use Rattle.tree.specs.Workspace.{slot_bytes, state_of, edits};
ghost use Rattle.tree.specs.Answers.{edited_of, removed_of, removed_leaves};
ghost use Rattle.tree.specs.Trusts.{live, Lies, Ready, Trusts, RemovedCalled};
ghost use Rattle.tree.specs.internal.Bank.{Put, ReadyAfter};
ghost use Rattle.tree.specs.internal.Undo.{Follows};
ghost use Rattle.tree.specs.internal.Way.{steps_in, nth_step, WayIn};
ghost use Rattle.tree.specs.internal.Index.{Rewritten};
ghost use Rattle.tree.specs.internal.Edits.{EditedFrom};
ghost use Rattle.tree.specs.internal.Removing.{dead_put, child_dropped, DropFits, DropRoom, Emptied, taken_on, shrunk_at, removed_at, OnWay, SameUsed, Handed};
ghost use Rattle.tree.specs.internal.View.{seen};
ghost use Rattle.tree.specs.internal.Writers.{SpotIn};

use crate::editor::{Position, Tree, UNBOUNDED};
use crate::floor::Spot;
use crate::lent::Lent;
use crate::view::{View, view};
use crate::writers::DirtyMark;
use crate::{bank, lent, undo, writers};
use node::head::Head;
use node::order::Order;
use node::refusal::{Refusal, check};

impl<'h, 'b> View<'h, 'b> {
    // An index root with one child.
    #[tactic(auto, using(crate::specs::laws::remove::Reads::only_none, crate::specs::laws::remove::Reads::only_count))]
    pub fn has_only_child(self) -> bool
        ensures { result ≡ has_only_child (seen self.entry) }
    {
        self.level_at(self.tree.root) != 0 && self.count_at(self.tree.root) == 1
    }
}

impl Tree {
    // The words of slot n replaced, its records left as they are.
    fn put_words(self, heads: &mut [u64], bytes: &mut [u8], lent: Lent, n: usize, d: Head)
        requires ready { Ready lent.size lent.slots self.used heads.old bytes.old }
        requires place { (n < self.used) × (Lies lent.size (live d) (slot_bytes lent.size bytes.old n)) }
        ensures put { Put lent.size lent.slots heads.old bytes.old heads.new bytes.new n
            (node_of d (slot_bytes lent.size bytes.old n)) }
        ensures follows { Follows lent.size lent.slots self.used heads.old bytes.old heads.new bytes.new }
    {
        undo::save(heads, bytes, lent, self.used, n);
        d.store(heads, n);
    }

    // Slot n is dead, and has no entries.
    #[tactic(auto, using(crate::specs::laws::remove::Words::dying_lies, crate::specs::laws::remove::Words::died))]
    fn mark_dead(self, heads: &mut [u64], bytes: &mut [u8], lent: Lent, n: usize)
        requires { (Ready lent.size lent.slots self.used heads.old bytes.old) × (n < self.used) }
        ensures { Rewritten lent.size lent.slots self heads.old bytes.old heads.new bytes.new
            (dead_put (state_of lent.size self heads.old bytes.old) n) }
    {
        let h = Head::load(heads, n);
        let d = Head {
            count: 0,
            used: 0,
            dead: 1,
            ..h
        };
        self.put_words(heads, bytes, lent, n, d);
    }

    // On a way, bottom up: emptied nodes are dropped, never the root. The answer is how many.
    #[tactic(auto, using(crate::specs::laws::remove::Drops::drop_emptied_laws, crate::specs::laws::cut::Pairs::drop_emptied_laws))]
    fn drop_emptied(self, heads: &mut [u64], bytes: &mut [u8], lent: Lent, way: &[Position]) -> u64
        requires ready { (Ready lent.size lent.slots self.used heads.old bytes.old) × (WayIn self.used way.now) }
        requires room { DropRoom (state_of lent.size self heads.old bytes.old) way.now }
        ensures { Emptied lent.size lent.slots self heads.old bytes.old heads.new bytes.new
            (drop_emptied (steps_in way.now) (state_of lent.size self heads.old bytes.old)) result }
    {
        let mut dropped: u64 = 0;
        for [above, below] in way.array_windows::<2>().rev() {
            let empty = self.drop_if_empty(heads, bytes, lent, above.slot, above.index, below.slot);
            dropped += u64::from(empty);
        }
        dropped
    }

    // Slot c, if it is empty, is dead, and slot n loses child i. The answer is whether it was.
    #[tactic(auto, using(crate::specs::laws::remove::Drops::none_dropped, crate::specs::laws::remove::Drops::one_dropped))]
    fn drop_if_empty(
        self,
        heads: &mut [u64],
        bytes: &mut [u8],
        lent: Lent,
        n: usize,
        i: u64,
        c: usize,
    ) -> bool
        requires ready { Ready lent.size lent.slots self.used heads.old bytes.old }
        requires place { (n < self.used) × (c < self.used) × (DropFits (state_of lent.size self heads.old bytes.old) n i c) }
        ensures { Emptied lent.size lent.slots self heads.old bytes.old heads.new bytes.new
            (drop_node (record { slot = n; child = i }) c
            (record { state = state_of lent.size self heads.old bytes.old; nodes = 0 })) (from_bool result) }
    {
        let count = view!(self, heads, bytes, lent).count_at(c);
        if count != 0 {
            return false;
        }
        self.drop_node(heads, bytes, lent, n, i, c);
        true
    }

    // Slot c is dead, and slot n loses child i.
    #[tactic(auto, using(crate::specs::laws::remove::Drops::drop_upto, crate::specs::laws::remove::Drops::drop_done))]
    fn drop_node(self, heads: &mut [u64], bytes: &mut [u8], lent: Lent, n: usize, i: u64, c: usize)
        requires ready { Ready lent.size lent.slots self.used heads.old bytes.old }
        requires place { (n < self.used) × (c < self.used) × (DropFits (state_of lent.size self heads.old bytes.old) n i c) }
        ensures { Rewritten lent.size lent.slots self heads.old bytes.old heads.new bytes.new
            (child_dropped (state_of lent.size self heads.old bytes.old) n i c) }
    {
        self.mark_dead(heads, bytes, lent, c);
        let spot = view!(self, heads, bytes, lent).spot_of(n, i);
        writers::remove_at(heads, bytes, lent, self.used, spot, DirtyMark::Set);
    }

    // An emptied root is a leaf.
    #[tactic(auto, using(crate::specs::laws::remove::Words::level_kept, crate::specs::laws::remove::Words::level_done))]
    fn level_root(self, heads: &mut [u64], bytes: &mut [u8], lent: Lent)
        requires { (Ready lent.size lent.slots self.used heads.old bytes.old) × (self.root < self.used) }
        ensures { Rewritten lent.size lent.slots self heads.old bytes.old heads.new bytes.new
            (leveled_root (state_of lent.size self heads.old bytes.old)) }
    {
        let count = view!(self, heads, bytes, lent).count_at(self.root);
        if count != 0 {
            return;
        }
        let h = Head::load(heads, self.root);
        let d = Head { level: 0, ..h };
        self.put_words(heads, bytes, lent, self.root, d);
    }

    // Slot c takes the root's place: ids exchanged, blocks not; it is dirty, the old root dead.
    #[tactic(auto, using(crate::specs::laws::remove::Words::handed_down_laws))]
    fn handed_down(mut self, heads: &mut [u64], bytes: &mut [u8], lent: Lent, c: usize) -> Tree
        requires ready { Ready lent.size lent.slots self.used heads.old bytes.old }
        requires place { (self.root < self.used) × (c < self.used) × (c ≡ self.root → ⊥) × (0 < self.info.node_count) }
        ensures { Handed lent.size lent.slots self heads.old bytes.old heads.new bytes.new c result }
    {
        let r = self.root;
        let old = Head::load(heads, r);
        let new = Head::load(heads, c);
        let dead = Head {
            count: 0,
            used: 0,
            named: new.named,
            id: new.id,
            dead: 1,
            ..old
        };
        self.put_words(heads, bytes, lent, r, dead);
        let top = Head {
            named: old.named,
            id: old.id,
            dirty: 1,
            ..new
        };
        self.put_words(heads, bytes, lent, c, top);
        self.info.node_count -= 1;
        self.root = c;
        self
    }

    // While an index root has one child: its load, and the root's place goes down to it, at most n times.
    #[tactic(auto, using(crate::specs::laws::remove::HandDown::hand_down_laws))]
    fn hand_down(
        self,
        image: &[u8],
        heads: &mut [u64],
        bytes: &mut [u8],
        lent: Lent,
        n: u64,
    ) -> Result<Tree, Refusal>
        requires ready { Ready lent.size lent.slots self.used heads.old bytes.old }
        requires trust { trusted (lent_of image.now lent) (state_of lent.size self heads.old bytes.old) ≡ true }
        ensures answer { edited_of lent.size heads.new bytes.new result
            ≡ hand_down n (lent_of image.now lent) (state_of lent.size self heads.old bytes.old) }
        ensures left { EditedFrom lent.size lent.slots self.used heads.old bytes.old heads.new bytes.new result }
    {
        let mut t = self;
        for _i in 0..n {
            if !view!(t, heads, bytes, lent).has_only_child() {
                return Ok(t);
            }
            let (u, c) = t.load_child(image, heads, bytes, lent, UNBOUNDED, t.root, 0)?;
            if !view!(u, heads, bytes, lent).fits(c, true) {
                return Ok(u);
            }
            check(Refusal::Count, 0 < u.info.node_count)?;
            t = u.handed_down(heads, bytes, lent, c);
        }
        Ok(t)
    }

    // The leaf edited, emptied nodes dropped: 17.
    #[tactic(auto, using(crate::specs::laws::base::Refused::handed_on, crate::specs::laws::remove::Shrink::shrink_laws))]
    fn shrink(
        mut self,
        heads: &mut [u64],
        bytes: &mut [u8],
        lent: Lent,
        way: &[Position],
        spot: Spot,
    ) -> Result<Tree, Refusal>
        requires ready { (Ready lent.size lent.slots self.used heads.old bytes.old) × (WayIn self.used way.now) }
        requires steps { (1 ≤ length way.now) × (self.root < self.used) }
        requires leaf { (spot.slot ≡ (nth_step way.now (length way.now - 1)).slot) × SpotIn lent.size self.used heads.old bytes.old spot }
        requires room { DropRoom (taken_on spot.index (steps_in way.now) (state_of lent.size self heads.old bytes.old))
            way.now }
        ensures answer { edited_of lent.size heads.new bytes.new result
            ≡ shrunk_at spot.index (record {
              state = state_of lent.size self heads.old bytes.old;
              steps = steps_in way.now;
            }) }
        ensures used { SameUsed self.used result }
        ensures left { EditedFrom lent.size lent.slots self.used heads.old bytes.old heads.new bytes.new result }
    {
        self.touch(heads, bytes, lent, way);
        writers::remove_at(heads, bytes, lent, self.used, spot, DirtyMark::Kept);
        let dropped = self.drop_emptied(heads, bytes, lent, way);
        let info = self.info;
        self.info.key_count = info.key_count.checked_sub(1).ok_or(Refusal::Count)?;
        self.info.node_count = info.node_count.checked_sub(dropped).ok_or(Refusal::Count)?;
        self.level_root(heads, bytes, lent);
        Ok(self)
    }

    // The edit on a way that is loaded and has the key: index keys and cuts follow, then the root's place goes down.
    #[tactic(auto, using(crate::specs::laws::base::Refused::handed_on, crate::specs::laws::remove::Steps::remove_on_laws))]
    fn remove_on(
        self,
        image: &[u8],
        heads: &mut [u64],
        bytes: &mut [u8],
        lent: Lent,
        way: &[Position],
        spot: Spot,
        scratch: &mut [u8],
    ) -> Result<Tree, Refusal>
        requires ready { Ready lent.size lent.slots self.used heads.old bytes.old }
        requires way { OnWay (lent_of image.now lent) (state_of lent.size self heads.old bytes.old)
            (steps_in way.now) spot.index }
        requires leaf { (spot.slot ≡ (nth_step way.now (length way.now - 1)).slot) × SpotIn lent.size self.used heads.old bytes.old spot }
        requires room { 2 * lent.size ≤ length scratch.old }
        ensures answer { edited_of lent.size heads.new bytes.new result
            ≡ removed_at (lent_of image.now lent) spot.index (record {
              state = state_of lent.size self heads.old bytes.old;
              steps = steps_in way.now;
            }) }
        ensures left { EditedFrom lent.size lent.slots self.used heads.old bytes.old heads.new bytes.new result }
    {
        let t = self.shrink(heads, bytes, lent, way, spot)?;
        t.index_keys(heads, bytes, lent, way, scratch);
        let u = t.cuts(heads, bytes, lent, way, scratch)?;
        let level = view!(u, heads, bytes, lent).level_at(u.root);
        u.hand_down(image, heads, bytes, lent, level)
    }

    // Load; absent answers no; the edit. Refused, it may leave slots changed.
    #[tactic(auto, using(crate::specs::laws::base::Refused::handed_on, crate::specs::laws::remove::Call::removed_laws))]
    pub fn removed(
        self,
        image: &[u8],
        heads: &mut [u64],
        bytes: &mut [u8],
        lent: Lent,
        key: &[u8],
        scratch: &mut [u8],
    ) -> Result<(Tree, bool), Refusal>
        requires trusts { Trusts image.now lent self heads.old bytes.old }
        requires room { 2 * lent.size ≤ length scratch.old }
        ensures answer { removed_of lent.size heads.new bytes.new result
            ≡ removed (lent_of image.now lent) (state_of lent.size self heads.old bytes.old)
            key.now }
        ensures ready { ReadyAfter lent.size lent.slots heads.new bytes.new result }
        ensures follows { Follows lent.size lent.slots self.used heads.old bytes.old heads.new bytes.new }
    {
        let level = view!(self, heads, bytes, lent).level_at(self.root);
        let w = self.way(image, heads, bytes, lent, level, key)?;
        let t = w.tree;
        let Ok(spot) = view!(t, heads, bytes, lent).found_at(w.leaf(), key) else {
            return Ok((t, false));
        };
        let u = t.remove_on(image, heads, bytes, lent, w.steps.as_slice(), spot, scratch)?;
        Ok((u, true))
    }

    // remove on slots that are trusted, whatever it changes.
    #[tactic(auto, using(crate::specs::laws::remove::Call::call_argument, crate::specs::laws::refusal1::EditCalls::stays_trusts))]
    fn remove_down(
        self,
        image: &[u8],
        heads: &mut [u64],
        bytes: &mut [u8],
        lent: Lent,
        key: &[u8],
        scratch: &mut [u8],
    ) -> Result<(Tree, bool), Refusal>
        requires trusts { Trusts image.now lent self heads.old bytes.old }
        requires room { 2 * lent.size ≤ length scratch.old }
        ensures answer { removed_of lent.size heads.new bytes.new result
            ≡ remove_in (lent_of image.now lent) (state_of lent.size self heads.old bytes.old)
            key.now }
        ensures left { RemovedCalled image.now lent self heads.old bytes.old
            heads.new bytes.new result }
    {
        let order = self.order;
        check(Refusal::Argument, order.keyed(key.len()))?;
        self.undone(
            heads,
            bytes,
            lent,
            &mut |heads, bytes| self.removed(image, heads, bytes, lent, key, scratch),
        )
    }

    // remove on slots that are trusted: 12; the edit. Refused, every slot is as it was.
    #[tactic(auto, using(crate::specs::laws::remove::LeafAloneSteps::remove_in_laws))]
    pub fn remove_in(
        self,
        image: &[u8],
        heads: &mut [u64],
        bytes: &mut [u8],
        lent: Lent,
        key: &[u8],
        scratch: &mut [u8],
    ) -> Result<(Tree, bool), Refusal>
        requires trusts { Trusts image.now lent self heads.old bytes.old }
        requires room { 2 * lent.size ≤ length scratch.old }
        ensures answer { removed_of lent.size heads.new bytes.new result
            ≡ remove_in (lent_of image.now lent) (state_of lent.size self heads.old bytes.old)
            key.now }
        ensures left { RemovedCalled image.now lent self heads.old bytes.old
            heads.new bytes.new result }
    {
        match self.remove_still(heads, bytes, lent, key) {
            Some(t) => Ok((t, true)),
            None => self.remove_down(image, heads, bytes, lent, key, scratch),
        }
    }

    // The entry of a key taken out.
    pub fn remove(
        self,
        image: &[u8],
        heads: &mut [u64],
        bytes: &mut [u8],
        lent: Lent,
        key: &[u8],
        scratch: &mut [u8],
    ) -> Result<(Tree, bool), Refusal>
        ensures answer { removed_of lent.size heads.new bytes.new result
            ≡ edits lent.size lent.slots self heads.old bytes.old scratch.old
            (λ s. remove (lent_of image.now lent) s key.now) }
        ensures left { removed_leaves lent.size lent.slots self heads.old bytes.old
            heads.new bytes.new result }
    {
        let holds = lent::edit_holds(self, image, heads, bytes, lent, scratch);
        check(Refusal::Lent, holds)?;
        // All slots were looked at, so that a short way would save nothing.
        self.remove_down(image, heads, bytes, lent, key, scratch)
    }
}
