// A key's way where every child on it is loaded: walked without bounds, one scan of each node, and nothing is written.
ghost use Rattle.std.specs.Prelude.{◌≤◌, Some};
ghost use Rattle.node.specs.Records.{entries_of};
ghost use Rattle.tree.specs.State.{node_at};
ghost use Rattle.tree.specs.internal.Loaded.{TakenOf, TakenBy, LedLeaf, LeafIs, Walked};
ghost use Rattle.tree.specs.internal.View.{seen};

use crate::editor::{Position, Tree};
use crate::kids;
use crate::steps::Steps;
use crate::view::View;
use crate::way::Way;
use node::order::Order;
use node::record::Record;
use node::slot::Records;

// The entry that a key goes on by, and the slot of its child.
#[derive(Clone, Copy)]
pub struct Taken {
    pub index: u64,
    pub slot: usize,
}

// The entry of a node that a key goes on by, and its record, if its child is loaded.
#[tactic(auto, using(crate::specs::laws::load::LoadedWay::taken_in_laws))]
fn taken_in<'s>(records: Records<'s>, order: Order, key: &[u8]) -> Option<(Record<'s>, Taken)>
    ensures { TakenBy order.code key.now (entries_of records.entry.count records.entry.slot.now) result }
{
    if records.count == 0 {
        return None;
    }
    let last = records.not_above(order, key);
    let r = Record {
        slot: records.slot,
        at: last.at,
    };
    let slot = kids::slot_of(r.value())?;
    let t = Taken {
        index: last.count.saturating_sub(1),
        slot,
    };
    Some((r, t))
}

impl<'h, 'b> View<'h, 'b> {
    // The same of slot n.
    pub fn taken_by(self, n: usize, key: &[u8]) -> Option<(Record<'b>, Taken)>
        ensures { TakenBy self.entry.tree.order.code key.now
            (node_at (seen self.entry) n).entries result }
    {
        let order = self.tree.order;
        taken_in(self.records(n), order, key)
    }

    // The same without the record.
    #[tactic(auto, using(crate::specs::laws::load::LoadedWay::taken_laws))]
    fn taken(self, n: usize, key: &[u8]) -> Option<Taken>
        ensures { TakenOf self.entry.tree.order.code key.now
            (node_at (seen self.entry) n).entries result }
    {
        let (_, t) = self.taken_by(n, key)?;
        Some(t)
    }

    // The leaf that a key's way ends in, if each of its steps is one that the closure gives; none where one is not, or where the key is not one of
    // the tree's order.
    pub fn leaf_by<F: Fn(usize) -> Option<Taken>>(self, key: &[u8], step: F) -> Option<usize>
        requires { F.IsAlwaysCallable step }
        ensures { LedLeaf (λ n t. F.post step n (Some t)) self.entry.tree.used (seen self.entry) key.now result }
    {
        let order = self.tree.order;
        if !order.keyed(key.len()) {
            return None;
        }
        let level = self.level_at(self.tree.root);
        let mut n = self.tree.root;
        for _i in 0..level {
            let t = step(n)?;
            n = t.slot;
        }
        (n < self.tree.used).then_some(n)
    }

    // The leaf, if every child on the way is loaded.
    #[tactic(auto, using(crate::specs::laws::load::LoadedWay::leaf_is), unfolding(crate::specs::Workspace::state_of))]
    pub fn leaf_of(self, key: &[u8]) -> Option<usize>
        ensures { LeafIs self.entry.tree.used (seen self.entry)
            key.now result }
    {
        self.leaf_by(
            key,
            |n|
                ensures { TakenOf self.entry.tree.order.code key.entry.now (node_at (seen self.entry) n).entries result }
            { self.taken(n, key) },
        )
    }

    // The whole way; none where a child on it is not loaded.
    #[tactic(auto, using(crate::specs::laws::load::LoadedWay::way_loaded_laws))]
    pub fn way_loaded(self, level: u64, key: &[u8]) -> Option<Way>
        requires level_bound { level ≤ 32 }
        ensures { Walked self.entry.lent.size self.entry.tree self.entry.heads.now self.entry.bytes.now level key.now result }
    {
        let mut n = self.tree.root;
        let mut steps = Steps::new();
        for _k in 0..level {
            let t = self.taken(n, key)?;
            steps.push(Position {
                slot: n,
                index: t.index,
            });
            n = t.slot;
        }
        steps.push(Position { slot: n, index: 0 });
        Some(Way {
            tree: self.tree,
            steps,
        })
    }
}
