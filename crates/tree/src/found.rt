// The records of a slot, and where a key stands among them.
ghost use Rattle.std.specs.Prelude.{◌≡◌, ◌≤◌, ◌<◌, ◌^◌, length};
ghost use Rattle.node.specs.Fit.{Sized};
ghost use Rattle.node.specs.Records.{entries_of};
ghost use Rattle.node.specs.Slot.{head_at};
ghost use Rattle.node.specs.Bytes.{Bytes};
ghost use Rattle.tree.specs.State.{node_at};
ghost use Rattle.tree.specs.Workspace.{slot_bytes};
ghost use Rattle.tree.specs.Trusts.{live};
ghost use Rattle.tree.specs.internal.Found.{FoundAt};
ghost use Rattle.tree.specs.internal.View.{seen};

use crate::bank;
use crate::editor::Tree;
use crate::floor::Spot;
use crate::view::View;
use node::fit::SlotNode;
use node::order::Order;
use node::room::Shape;
use node::slot::Records;

impl<'h, 'b> View<'h, 'b> {
    // The records of slot n; none where there is no such slot.
    #[tactic(auto, using(crate::specs::laws::slots::Records::entries_here))]
    pub fn records(self, n: usize) -> Records<'b>
        ensures entries { (node_at (seen self.entry) n).entries ≡ entries_of result.count result.slot.now }
        ensures place { n < self.entry.tree.used → (result.count ≡ (live (head_at self.entry.heads.now n)).count)
            × (result.slot.now ≡ slot_bytes self.entry.lent.size self.entry.bytes.now n) }
        ensures bytes { Bytes result.slot.now }
        ensures room { (result.count < 2 ^ 32) × (length result.slot.now ≤ 2 ^ 20) }
    {
        if self.tree.used <= n {
            return Records {
                slot: &self.bytes[..0],
                count: 0,
            };
        }
        let h = bank::live_at(self.heads, n);
        Records {
            slot: bank::slot_of(self.bytes, self.lent.size, n),
            count: h.count,
        }
    }

    // The node of slot n, as a root or not.
    pub fn slot_node(self, n: usize, root: bool) -> SlotNode<'b>
        requires { Sized self.tree.info }
        ensures shape { (result.shape.info ≡ self.entry.tree.info) × (result.shape.root ≡ root)
            × (result.shape.level ≡ (node_at (seen self.entry) n).level) }
        ensures entries { (node_at (seen self.entry) n).entries
            ≡ entries_of result.records.count result.records.slot.now }
        ensures place { n < self.entry.tree.used → (result.records.count ≡ (live (head_at self.entry.heads.now n)).count)
            × (result.records.slot.now ≡ slot_bytes self.entry.lent.size self.entry.bytes.now n) }
    {
        let shape = Shape {
            info: self.tree.info,
            root,
            level: self.level_at(n),
        };
        SlotNode {
            records: self.records(n),
            shape,
        }
    }

    // The entry of slot n that has a key, or else where it would stand.
    pub fn found_at(self, n: usize, key: &[u8]) -> Result<Spot, Spot>
        requires { (n < self.tree.used) }
        ensures { FoundAt self.entry.lent.size (seen self.entry) self.entry.heads.now
            self.entry.bytes.now n key.now result }
    {
        let order = self.tree.order;
        match self.records(n).below(order, key) {
            Ok(r) => Ok(Spot::of(n, r)),
            Err(r) => Err(Spot::of(n, r)),
        }
    }
}
