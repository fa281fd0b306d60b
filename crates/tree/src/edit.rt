// What edits share: dirty marks, a node cut in two.
ghost use Rattle.std.specs.Prelude.{◌≡◌, ◌+◌, ◌*◌, ◌^◌, ◌≤◌, ◌<◌, length, take};
ghost use Rattle.node.specs.Find.{key_at};
ghost use Rattle.node.specs.Slot.{head_at};
ghost use Rattle.tree.specs.Workspace.{state_of};
ghost use Rattle.tree.specs.State.{node_at};
ghost use Rattle.tree.specs.Edit.{parted, set_index_key, index_keys};
ghost use Rattle.tree.specs.Trusts.{live, Ready};
ghost use Rattle.tree.specs.internal.Bank.{HasEntry};
ghost use Rattle.tree.specs.internal.Undo.{saved_at, Follows};
ghost use Rattle.tree.specs.internal.Writers.{SpotUpto};
ghost use Rattle.tree.specs.internal.Way.{steps_in, WayIn, Dirtied, Touched};
ghost use Rattle.tree.specs.internal.Index.{key_differs, key_put, Rewritten, KeyRoom, IndexRoom};
ghost use Rattle.tree.specs.internal.View.{seen};

use crate::editor::{Position, Tree};
use crate::floor::Spot;
use crate::lent::Lent;
use crate::view::{View, view};
use crate::writers::DirtyMark;
use crate::{bank, undo, writers};
use node::bytes;
use node::head::Head;

impl<'h, 'b> View<'h, 'b> {
    // Whether the index key of child i of slot n is another than the first key of slot c.
    #[tactic(auto, using(crate::specs::laws::cut::IndexKey::key_differs_laws, node::specs::laws::order::OrderSteps::unlike))]
    fn key_differs(self, n: usize, i: u64, c: usize) -> bool
        ensures { result ≡ key_differs (seen self.entry) n i c }
    {
        self.count_at(c) != 0 && i < self.count_at(n) && self.key_at(n, i) != self.key_at(c, 0)
    }

    // The first key of a slot, copied to the scratch's start. The answer is its length. It doesn't lend that part: what the scratch holds after a
    // loan of it could not be said.
    #[tactic(auto, using(crate::specs::laws::cut::IndexKey::first_key_laws))]
    pub fn first_key(self, c: usize, scratch: &mut [u8]) -> usize
        requires { length (key_at (node_at (seen self) c).entries 0) ≤ length scratch.old }
        ensures long { result ≤ length scratch.new }
        ensures key { take result scratch.new ≡ key_at (node_at (seen self.entry) c).entries 0 }
    {
        let key = self.key_at(c, 0);
        bytes::copy_to(key, scratch, 0);
        key.len()
    }
}

impl Tree {
    // Every slot of a way dirty.
    #[tactic(auto, using(crate::specs::laws::slots::Touch::mark_way_laws))]
    pub fn mark_way(self, heads: &mut [u64], bytes: &mut [u8], lent: Lent, way: &[Position])
        requires { (Ready lent.size lent.slots self.used heads.old bytes.old) × (WayIn self.used way.now) }
        ensures { Dirtied lent.size lent.slots self way.now (length way.now) heads.old bytes.old
            heads.new bytes.new }
    {
        for step in way {
            bank::mark_dirty(heads, bytes, lent, self.used, step.slot);
        }
    }

    // The leaf and the root; in a physical tree the whole way.
    #[tactic(auto, using(crate::specs::laws::slots::Touch::touch_laws))]
    pub fn touch(self, heads: &mut [u64], bytes: &mut [u8], lent: Lent, way: &[Position])
        requires ready { (Ready lent.size lent.slots self.used heads.old bytes.old) × (WayIn self.used way.now) }
        requires root_lt_used { (self.root < self.used) × (1 ≤ length way.now) }
        ensures { Touched lent.size lent.slots self way.now heads.old bytes.old
            heads.new bytes.new }
    {
        if !self.by_id {
            self.mark_way(heads, bytes, lent, way);
            return;
        }
        bank::mark_dirty(heads, bytes, lent, self.used, self.root);
        let leaf = way[way.len() - 1].slot;
        bank::mark_dirty(heads, bytes, lent, self.used, leaf);
    }

    // As `part`, of a slot that is saved.
    #[tactic(auto, using(crate::specs::laws::cut::Part::part_in_laws))]
    fn part_in(mut self, heads: &mut [u64], bytes: &mut [u8], lent: Lent, spot: Spot) -> Tree
        requires ready_2 { Ready lent.size lent.slots self.used heads.old bytes.old }
        requires fact { saved_at lent.slots heads.old spot.slot ≡ 0 → ⊥ }
        requires used_lt_slots { (self.used < lent.slots) × SpotUpto lent.size self.used heads.old bytes.old spot }
        ensures after { state_of lent.size result heads.new bytes.new
            ≡ parted (state_of lent.size self heads.old bytes.old) spot.slot spot.index }
        ensures ready { Ready lent.size lent.slots result.used heads.new bytes.new }
        ensures follows { Follows lent.size lent.slots self.used heads.old bytes.old heads.new bytes.new }
    {
        let c = self.used;
        let h = bank::live_at(heads, spot.slot);
        let w = bank::SLOT_BLOCKS * lent.size;
        let rest = h.used as usize - spot.at;
        bytes::shift(bytes, spot.slot * w + spot.at, c * w, rest);
        let right = Head {
            count: h.count - spot.index,
            used: rest as u64,
            dirty: 1,
            dead: 0,
            ..h
        };
        right.with_block(None).with_id(None).store(heads, c);
        let left = Head {
            count: spot.index,
            used: spot.at as u64,
            dirty: 1,
            ..h
        };
        left.store(heads, spot.slot);
        self.used = c + 1;
        self
    }
    // A slot keeps the entries before one of them, the next slot takes the rest; both are dirty.
    #[tactic(auto, using(crate::specs::laws::slots::CallBounds::saved_state, crate::specs::laws::slots::Undo::part_laws))]
    pub fn part(self, heads: &mut [u64], bytes: &mut [u8], lent: Lent, spot: Spot) -> Tree
        requires ready_2 { Ready lent.size lent.slots self.used heads.old bytes.old }
        requires used_lt_slots { (self.used < lent.slots) × SpotUpto lent.size self.used heads.old bytes.old spot }
        ensures after { state_of lent.size result heads.new bytes.new
            ≡ parted (state_of lent.size self heads.old bytes.old) spot.slot spot.index }
        ensures ready { Ready lent.size lent.slots result.used heads.new bytes.new }
        ensures follows { Follows lent.size lent.slots self.used heads.old bytes.old heads.new bytes.new }
    {
        undo::save(heads, bytes, lent, self.used, spot.slot);
        self.part_in(heads, bytes, lent, spot)
    }
    // Entry i of slot n with another key; the slot is dirty.
    #[tactic(auto, using(crate::specs::laws::cut::IndexKey::rekey_done))]
    pub fn rekey(
        self,
        heads: &mut [u64],
        bytes: &mut [u8],
        lent: Lent,
        n: usize,
        i: u64,
        key: &[u8],
    )
        requires ready { Ready lent.size lent.slots self.used heads.old bytes.old }
        requires place { HasEntry self.used heads.old n i }
        requires room { ((live (head_at heads.old n)).used + length key.now ≤ 4 * lent.size) × (length key.now < 2 ^ 16) }
        ensures { Rewritten lent.size lent.slots self heads.old bytes.old heads.new bytes.new
            (key_put (state_of lent.size self heads.old bytes.old) n i key.now) }
    {
        let spot = view!(self, heads, bytes, lent).spot_of(n, i);
        writers::rekey_at(heads, bytes, lent, self.used, spot, key, DirtyMark::Set);
    }

    // The index key of child i of slot n set to the first key of slot c; n is dirty if that changes it.
    #[tactic(auto, using(crate::specs::laws::cut::IndexKey::set_index_key_laws, crate::specs::laws::base::Tests::negated))]
    pub fn set_index_key(
        self,
        heads: &mut [u64],
        bytes: &mut [u8],
        lent: Lent,
        n: usize,
        i: u64,
        c: usize,
        scratch: &mut [u8],
    )
        requires ready { Ready lent.size lent.slots self.used heads.old bytes.old }
        requires room { KeyRoom lent.size self heads.old bytes.old n c (length scratch.old) }
        ensures { Rewritten lent.size lent.slots self heads.old bytes.old heads.new bytes.new
            (set_index_key (state_of lent.size self heads.old bytes.old) n i c) }
    {
        if view!(self, heads, bytes, lent).key_differs(n, i, c) {
            let len = view!(self, heads, bytes, lent).first_key(c, scratch);
            self.rekey(heads, bytes, lent, n, i, &scratch[..len]);
        }
    }
    // On a way, bottom up: each index key is its child's first key.
    #[tactic(auto, using(crate::specs::laws::cut::IndexKeys::index_keys_laws, crate::specs::laws::cut::Pairs::index_keys_laws))]
    pub fn index_keys(
        self,
        heads: &mut [u64],
        bytes: &mut [u8],
        lent: Lent,
        way: &[Position],
        scratch: &mut [u8],
    )
        requires ready { (Ready lent.size lent.slots self.used heads.old bytes.old) × (WayIn self.used way.now) }
        requires room { IndexRoom lent.size self heads.old bytes.old way.now (length scratch.old) }
        ensures { Rewritten lent.size lent.slots self heads.old bytes.old heads.new bytes.new
            (index_keys (steps_in way.now) (state_of lent.size self heads.old bytes.old)) }
    {
        for [above, below] in way.array_windows::<2>().rev() {
            self.set_index_key(
                heads,
                bytes,
                lent,
                above.slot,
                above.index,
                below.slot,
                scratch,
            );
        }
    }
}
