// What a key holds: found in its leaf, copied out.
ghost use Rattle.std.specs.Prelude.{◌≡◌, true, length};
ghost use Rattle.node.specs.Records.{entries_of};
ghost use Rattle.node.specs.Slot.{suits};
ghost use Rattle.tree.specs.Lent.{lent_of};
ghost use Rattle.tree.specs.State.{node_at};
ghost use Rattle.tree.specs.Trust.{trusted};
ghost use Rattle.tree.specs.Lookup.{held, get_in};
ghost use Rattle.tree.specs.Workspace.{state_of};
ghost use Rattle.tree.specs.Answers.{got_means, got_in, got_output, got_leaves};
ghost use Rattle.tree.specs.Trusts.{Ready, Trusts, GotCalled};
ghost use Rattle.tree.specs.internal.Bank.{ReadyAfter};
ghost use Rattle.tree.specs.internal.Undo.{Follows};
ghost use Rattle.tree.specs.internal.Get.{held_means, got_at, got_way, got_of};
ghost use Rattle.tree.specs.internal.View.{seen};

use crate::editor::Tree;
use crate::lent;
use crate::lent::Lent;
use crate::view::{View, view};
use node::bytes;
use node::order::Order;
use node::record::Record;
use node::refusal::{Refusal, check};
use node::slot::Records;
use node::val::Val;

// What get copied out: a ghost, which has nothing to copy, or a value of so many bytes, which stand at the output's start.
#[derive(Clone, Copy)]
pub enum Copied {
    Ghost,
    Value(usize),
}

// What a key holds among the records of a leaf.
#[tactic(auto, using(crate::specs::laws::lookup::GetLeaf::holding))]
fn held_in<'s>(records: Records<'s>, order: Order, key: &[u8]) -> Option<Val<'s>>
    ensures { held_means result
        ≡ held order.code key.now (entries_of records.entry.count records.entry.slot.now) }
{
    let here = records.below(order, key).ok()?;
    let r = Record {
        slot: records.slot,
        at: here.at,
    };
    Some(r.value())
}

impl<'h, 'b> View<'h, 'b> {
    // What a key holds in the leaf of slot n, copied out. The tree's words stay where they are: of all of them only two are looked at.
    #[tactic(auto, using(crate::specs::laws::lookup::GetLeaf::copy_out_laws))]
    pub fn copy_out(self, n: usize, key: &[u8], out: &mut [u8]) -> Result<Option<Copied>, Refusal>
        requires n_value { suits true (node_at (seen self) n).entries ≡ true }
        ensures answer { got_means self.entry.lent.size self.entry.heads.now self.entry.bytes.now out.new (got_of self.entry.tree result)
            ≡ got_at (seen self.entry) (length out.old) n
            key.now }
        ensures output { out.new
            ≡ got_output out.old (got_at (seen self.entry)
            (length out.old) n key.now) }
        ensures ready { ReadyAfter self.entry.lent.size self.entry.lent.slots self.entry.heads.now self.entry.bytes.now
            (got_of self.entry.tree result) }
    {
        let order = self.tree.order;
        let records = self.records(n);
        let Some(held) = held_in(records, order, key) else {
            return Ok(None);
        };
        // A leaf holds no children.
        let Val::Leaf(value) = held else {
            return Ok(Some(Copied::Ghost));
        };
        check(Refusal::Output, value.len() <= out.len())?;
        bytes::copy_to(value, out, 0);
        Ok(Some(Copied::Value(value.len())))
    }

    // The same with the tree.
    fn copy_held(
        self,
        n: usize,
        key: &[u8],
        out: &mut [u8],
    ) -> Result<(Tree, Option<Copied>), Refusal>
        requires n_value { suits true (node_at (seen self) n).entries ≡ true }
        ensures answer { got_means self.entry.lent.size self.entry.heads.now self.entry.bytes.now out.new result
            ≡ got_at (seen self.entry) (length out.old) n
            key.now }
        ensures output { out.new
            ≡ got_output out.old (got_at (seen self.entry)
            (length out.old) n key.now) }
        ensures ready { ReadyAfter self.entry.lent.size self.entry.lent.slots self.entry.heads.now self.entry.bytes.now result }
    {
        let copied = self.copy_out(n, key, out)?;
        Ok((self.tree, copied))
    }
}

impl Tree {
    // Of get, what follows 12: the way, 20. Refused, it may leave slots changed.
    #[tactic(auto, using(crate::specs::laws::base::Refused::handed_on, crate::specs::laws::lookup::GetCall::get_way_laws))]
    fn get_way(
        self,
        image: &[u8],
        heads: &mut [u64],
        bytes: &mut [u8],
        lent: Lent,
        key: &[u8],
        out: &mut [u8],
    ) -> Result<(Tree, Option<Copied>), Refusal>
        requires ready_2 { Ready lent.size lent.slots self.used heads.old bytes.old }
        requires bytes_value { trusted (lent_of image.now lent) (state_of lent.size self heads.old bytes.old) ≡ true }
        ensures answer { got_means lent.size heads.new bytes.new out.new result
            ≡ got_way (lent_of image.now lent) (state_of lent.size self heads.old bytes.old) (length out.old) key.now }
        ensures output { out.new
            ≡ got_output out.old (got_way (lent_of image.now lent) (state_of lent.size self
            heads.old bytes.old) (length out.old) key.now) }
        ensures ready { ReadyAfter lent.size lent.slots heads.new bytes.new result }
        ensures follows { Follows lent.size lent.slots self.used heads.old bytes.old heads.new bytes.new }
    {
        let level = view!(self, heads, bytes, lent).level_at(self.root);
        let w = self.way(image, heads, bytes, lent, level, key)?;
        view!(w.tree, heads, bytes, lent).copy_held(w.leaf(), key, out)
    }

    // get on slots that are trusted, whatever of the way is loaded.
    #[tactic(auto, using(crate::specs::laws::lookup::GetCall::get_down_laws))]
    fn get_down(
        self,
        image: &[u8],
        heads: &mut [u64],
        bytes: &mut [u8],
        lent: Lent,
        key: &[u8],
        out: &mut [u8],
    ) -> Result<(Tree, Option<Copied>), Refusal>
        requires trusts { Trusts image.now lent self heads.old bytes.old }
        ensures answer { got_means lent.size heads.new bytes.new out.new result
            ≡ get_in (lent_of image.now lent) (state_of lent.size self heads.old bytes.old) (length out.old) key.now }
        ensures output { out.new
            ≡ got_output out.old (get_in (lent_of image.now lent) (state_of lent.size self
            heads.old bytes.old) (length out.old) key.now) }
        ensures left { GotCalled image.now lent self heads.old bytes.old
            heads.new bytes.new result }
    {
        let order = self.order;
        check(Refusal::Argument, order.keyed(key.len()))?;
        self.undone(
            heads,
            bytes,
            lent,
            &mut |heads, bytes| self.get_way(image, heads, bytes, lent, key, out),
        )
    }

    // get on slots that are trusted: 12; the way; 20. Refused, every slot is as it was.
    #[tactic(auto, using(crate::specs::laws::lookup::LoadedCalls::leaf_suits))]
    pub fn get_in(
        self,
        image: &[u8],
        heads: &mut [u64],
        bytes: &mut [u8],
        lent: Lent,
        key: &[u8],
        out: &mut [u8],
    ) -> Result<(Tree, Option<Copied>), Refusal>
        requires trusts { Trusts image.now lent self heads.old bytes.old }
        ensures answer { got_means lent.size heads.new bytes.new out.new result
            ≡ get_in (lent_of image.now lent) (state_of lent.size self heads.old bytes.old) (length out.old) key.now }
        ensures output { out.new
            ≡ got_output out.old (get_in (lent_of image.now lent) (state_of lent.size self
            heads.old bytes.old) (length out.old) key.now) }
        ensures left { GotCalled image.now lent self heads.old bytes.old
            heads.new bytes.new result }
    {
        match view!(self, heads, bytes, lent).leaf_of(key) {
            Some(leaf) => view!(self, heads, bytes, lent).copy_held(leaf, key, out),
            None => self.get_down(image, heads, bytes, lent, key, out),
        }
    }

    // What a key holds; its value is copied to the output's start.
    #[tactic(auto, using(crate::specs::laws::lookup::GetCall::get_laws, crate::specs::laws::refusal1::Calls::called_trusts))]
    pub fn get(
        self,
        image: &[u8],
        heads: &mut [u64],
        bytes: &mut [u8],
        lent: Lent,
        key: &[u8],
        out: &mut [u8],
    ) -> Result<(Tree, Option<Copied>), Refusal>
        ensures answer { got_means lent.size heads.new bytes.new out.new result
            ≡ got_in (lent_of image.now lent) self heads.old bytes.old (length out.old) key.now }
        ensures output { out.new
            ≡ got_output out.old (got_in (lent_of image.now lent) self heads.old
            bytes.old (length out.old) key.now) }
        ensures left { got_leaves lent.size lent.slots self heads.old bytes.old
            heads.new bytes.new result }
    {
        check(
            Refusal::Lent,
            lent::lent_holds(self, image, heads, bytes, lent),
        )?;
        // All slots were looked at, so that a short way would save nothing.
        self.get_down(image, heads, bytes, lent, key, out)
    }
}
