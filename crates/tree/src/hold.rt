// Refusal 1 of the slots: each slot's words, its records in one pass, its children; no slot is reached twice (a mark for each slot).
ghost use Rattle.std.specs.Prelude.{◌≡◌, ◌&&◌, ◌+◌, ◌*◌, ◌≤◌, ◌<◌, ◌^◌, length, drop};
ghost use Rattle.node.specs.Fit.{Sized};
ghost use Rattle.node.specs.Records.{entry_of, entries_of};
ghost use Rattle.tree.specs.Workspace.{state_of, slots_hold};
ghost use Rattle.tree.specs.Hold.{hold_together};
ghost use Rattle.tree.specs.Trusts.{number_holds, words_hold};
ghost use Rattle.tree.specs.internal.Marks.{mark_slot, mark_of};
ghost use Rattle.tree.specs.internal.Holding.{Laid, count_holds, place_holds, body_holds, child_stands, link_value, link_entries, hold_slot, hold_slots};

use crate::editor::Tree;
use crate::lent::Lent;
use crate::{bank, kids};
use node::head::Head;
use node::order::Order;
use node::read::MAX_DEPTH;
use node::record::Record;
use node::room::Shape;
use node::slot::Records;
use node::stands;

// A number without its mark is 0.
#[tactic(auto, unfolding(crate::specs::Trusts::number_holds))]
fn number_holds(mark: u64, x: u64) -> bool
    ensures { result ≡ number_holds mark x }
{
    mark == 1 || x == 0
}

// A slot's words: marks are 0 or 1, a number without its mark is 0.
#[tactic(auto, unfolding(crate::specs::Trusts::words_hold))]
fn words_hold(h: Head) -> bool
    ensures { result ≡ words_hold h }
{
    h.placed <= 1
        && h.named <= 1
        && h.dirty <= 1
        && h.dead <= 1
        && number_holds(h.placed, h.block)
        && number_holds(h.named, h.id)
}

// An index has entries.
#[tactic(auto, unfolding(crate::specs::internal::Holding::count_holds))]
fn count_holds(level: u64, count: u64) -> bool
    ensures { result ≡ count_holds level count }
{
    level == 0 || count != 0
}

// An open tree and its slots before refusal 1 has looked at them: words and bytes are laid out for so many slots, the tree's numbers in range.
#[derive(Clone, Copy)]
pub struct Slots<'h, 'b> {
    pub tree: Tree,
    pub heads: &'h [u64],
    pub bytes: &'b [u8],
    pub lent: Lent,
    ghost laid: { Laid lent.size lent.slots tree.used heads.now bytes.now },
    ghost sized: { Sized tree.info },
}

impl<'h, 'b> Slots<'h, 'b> {
    // A dirty node fits, its keys and values taking so much room; a clean one has a block and, if virtual, an id.
    #[tactic(auto, unfolding(crate::specs::internal::Holding::place_holds))]
    fn place_holds(self, root: bool, h: Head, room: u64) -> bool
        requires { (h.count < 2 ^ 32) × (room < 2 ^ 32) }
        ensures { result ≡ place_holds self.entry.tree root h room }
    {
        if h.is_dirty() {
            let shape = Shape {
                info: self.tree.info,
                root,
                level: h.level,
            };
            return shape.fits_sums(h.count, room);
        }
        h.placed == 1 && (!self.tree.by_id || h.named == 1)
    }

    // The node of a live slot but for its children: its level, its records in one pass, its place on disk.
    #[tactic(auto, using(crate::specs::laws::refusal1::Links::body_holds_laws))]
    fn body_holds(self, part: &[u8], h: Head, n: usize) -> bool
        requires { length part.now ≤ 2 ^ 20 }
        ensures { result ≡ body_holds self.entry.tree n h part.now }
    {
        if MAX_DEPTH < h.level {
            return false;
        }
        if !count_holds(h.level, h.count) {
            return false;
        }
        let info = self.tree.info;
        let order = self.tree.order;
        let checked = stands::check(part, h.count, h.used, order, info, h.level == 0);
        match checked {
            None => false,
            Some(s) => self.place_holds(n == self.tree.root, h, s.keys + s.values),
        }
    }

    // A child in a slot: in use, not dead, one level lower.
    #[tactic(auto, using(crate::specs::laws::refusal1::Pass::laid_words), unfolding(crate::specs::internal::Holding::child_stands))]
    fn child_holds(self, level: u64, c: u64) -> bool
        ensures { result ≡ child_stands self.entry.heads.now self.entry.tree.used level c }
    {
        if self.tree.used as u64 <= c {
            return false;
        }
        let h = Head::load(self.heads, c as usize);
        !h.is_dead() && level != 0 && h.level == level - 1
    }

    // Slot k marked, if it is one in use; false where it is marked already.
    #[tactic(auto, using(crate::specs::laws::refusal1::Marks::mark_slot_laws))]
    fn mark_slot(self, k: usize, marks: &mut [u8; 4096]) -> bool
        ensures { mark_of result marks.new ≡ mark_slot self.entry.tree.used k marks.old }
    {
        if self.tree.used <= k {
            return true;
        }
        if marks[k] != 0 {
            return false;
        }
        marks[k] = 1;
        true
    }

    // The child in a slot that a record names, if it names one, holds and is marked; false where it does not, or is marked already.
    #[tactic(auto, using(crate::specs::laws::refusal1::Links::link_value_laws))]
    fn link_value(self, r: Record<'_>, level: u64, marks: &mut [u8; 4096]) -> bool
        ensures { mark_of result marks.new
            ≡ link_value self.entry.heads.now self.entry.tree.used level (entry_of (drop r.entry.at r.entry.slot.now)).value marks.old }
    {
        match kids::kid_of(r) {
            None => true,
            Some(s) => self.child_holds(level, s as u64) && self.mark_slot(s, marks),
        }
    }

    // The same of the entries of a slot.
    #[tactic(auto, using(crate::specs::laws::refusal1::Links::link_entries_laws))]
    fn link_entries(self, records: Records<'_>, level: u64, marks: &mut [u8; 4096]) -> bool
        ensures { mark_of result marks.new
            ≡ link_entries self.entry.heads.now self.entry.tree.used level (entries_of records.entry.count records.entry.slot.now) marks.old }
    {
        for (_, r) in records.walk() {
            if !self.link_value(r, level, marks) {
                return false;
            }
        }
        true
    }

    // Slot n holds; unless it is dead, its node holds, and its children are marked. A leaf has none.
    #[tactic(auto, using(crate::specs::laws::refusal1::Pass::hold_slot_laws))]
    fn hold_slot(self, n: usize, marks: &mut [u8; 4096]) -> bool
        requires { n < self.tree.used }
        ensures { mark_of result marks.new
            ≡ hold_slot self.entry.lent.size self.entry.heads.now self.entry.bytes.now
            (state_of self.entry.lent.size self.entry.tree self.entry.heads.now self.entry.bytes.now) self.entry.tree.used n marks.old }
    {
        let h = Head::load(self.heads, n);
        if !words_hold(h) {
            return false;
        }
        if h.is_dead() {
            return true;
        }
        let most = (2 * self.lent.size) as u64;
        if most < h.used {
            return false;
        }
        let part = bank::slot_of(self.bytes, self.lent.size, n);
        if !self.body_holds(part, h, n) {
            return false;
        }
        if h.level == 0 {
            return true;
        }
        let records = Records {
            slot: part,
            count: h.count,
        };
        self.link_entries(records, h.level, marks)
    }

    // The same of every slot in use.
    #[tactic(auto, using(crate::specs::laws::refusal1::Pass::hold_slots_laws))]
    fn hold_slots(self, marks: &mut [u8; 4096]) -> bool
        ensures { mark_of result marks.new
            ≡ hold_slots self.entry.lent.size self.entry.heads.now self.entry.bytes.now
            (state_of self.entry.lent.size self.entry.tree self.entry.heads.now self.entry.bytes.now)
            self.entry.tree.used self.entry.tree.used 0 marks.old }
    {
        for n in 0..self.tree.used {
            if !self.hold_slot(n, marks) {
                return false;
            }
        }
        true
    }

    // 1: the slots in use are nodes, and hold together.
    #[tactic(auto, using(crate::specs::laws::refusal1::Pass::hold_together_laws))]
    pub fn hold_together(self) -> bool
        ensures { result ≡ slots_hold self.entry.lent.size self.entry.heads.now self.entry.bytes.now self.entry.tree.used 0
            && hold_together (state_of self.entry.lent.size self.entry.tree self.entry.heads.now self.entry.bytes.now) }
    {
        let root = self.tree.root;
        if self.tree.used <= root {
            return false;
        }
        let h = Head::load(self.heads, root);
        if h.is_dead() {
            return false;
        }
        let mut marks = [0u8; 4096];
        marks[root] = 1;
        self.hold_slots(&mut marks)
    }
}
