// A key searched in a node's block: a lookup that needs no slot.
ghost use Rattle.std.specs.Prelude.{◌≡◌, ◌≤◌};
ghost use Rattle.node.specs.Read.{entries_from};
ghost use Rattle.node.specs.Find.{not_above};

use crate::order::Order;
use crate::read::ReadNode;

impl ReadNode<'_> {
    // How many leading entries have a key that is not above a key.
    pub fn not_above(self, order: Order, key: &[u8]) -> u64
        ensures { (result ≡ not_above order.code key.now
            (entries_from self.entry.node self.entry.block.now 0 self.entry.node.nkeys))
            × (result ≤ self.entry.node.nkeys) }
    {
        let n = self.node.nkeys;
        (0..n)
            .find(|i| order.less(key, self.entry(*i as usize).key()))
            .unwrap_or(n)
    }
}
