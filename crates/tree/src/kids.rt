// The slots of loaded children.
ghost use Rattle.std.specs.Prelude.{◌≡◌, drop};
ghost use Rattle.node.specs.Records.{entry_of};
ghost use Rattle.node.specs.Slot.{value_means};
ghost use Rattle.tree.specs.internal.Kids.{kid_means, slots_of};

use node::record::Record;
use node::val::{Child, Val};

// The slot of the child that a value is, if it is one that is loaded.
#[tactic(auto, using(crate::specs::laws::slots::Kids::kid_none, crate::specs::laws::slots::Kids::kid_disk))]
pub fn slot_of(v: Val<'_>) -> Option<usize>
    ensures { kid_means result ≡ slots_of (value_means v.entry) }
{
    match v.child()? {
        Child::Mem(s) => Some(s as usize),
        Child::Disk(_) => None,
    }
}

// The slot of a record's child, if its value is a child that is loaded.
pub fn kid_of(r: Record<'_>) -> Option<usize>
    ensures { kid_means result ≡ slots_of (entry_of (drop r.entry.at r.entry.slot.now)).value }
{
    slot_of(r.value())
}
