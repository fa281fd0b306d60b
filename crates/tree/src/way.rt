// The way to a key: from the root down, children loaded as they are met.
ghost use Rattle.std.specs.Prelude.{◌≡◌, ◌-◌, ◌≤◌, length};
ghost use Rattle.node.specs.Find.{way_index};
ghost use Rattle.tree.specs.Lent.{lent_of};
ghost use Rattle.tree.specs.State.{node_at};
ghost use Rattle.tree.specs.Load.{unbounded};
ghost use Rattle.tree.specs.Lookup.{way_from};
ghost use Rattle.tree.specs.Trusts.{Ready};
ghost use Rattle.tree.specs.Workspace.{state_of};
ghost use Rattle.tree.specs.internal.Bank.{ReadyBy};
ghost use Rattle.tree.specs.internal.Undo.{Follows};
ghost use Rattle.tree.specs.internal.Steps.{positions};
ghost use Rattle.tree.specs.internal.Way.{nth_step, way_of};
ghost use Rattle.tree.specs.internal.View.{seen};

use crate::editor::{Position, Tree, UNBOUNDED};
use crate::lent::Lent;
pub use crate::steps::STEPS;
use crate::steps::Steps;
use crate::view::{View, view};
use node::order::Order;
use node::refusal::Refusal;

// A way: the tree, what was loaded on it, and the steps, each the entry of a slot that the key goes on by.
#[derive(Clone, Copy)]
pub struct Way {
    pub tree: Tree,
    pub steps: Steps,
}

impl Way {
    // The slot that it ends in.
    pub fn leaf(&self) -> usize
        requires { 1 ≤ length (positions self.now.steps) }
        ensures { result ≡ (nth_step (positions self.now.steps) (length (positions self.now.steps) - 1)).slot }
    {
        let way = self.steps.as_slice();
        way[way.len() - 1].slot
    }
}

impl<'h, 'b> View<'h, 'b> {
    #[tactic(auto, using(crate::specs::laws::load::Way::index_of))]
    pub fn way_index(self, n: usize, key: &[u8]) -> u64
        ensures { result
            ≡ way_index self.entry.tree.order.code key.now (node_at (seen self.entry) n).entries }
    {
        let order = self.tree.order;
        let last = self.records(n).not_above(order, key);
        last.count.saturating_sub(1)
    }
}

impl Tree {
    // The way, whatever of it is loaded: children are loaded as they are met.
    #[tactic(auto, using(crate::specs::laws::slots::Undo::handed_back, crate::specs::laws::load::Way::way_down_laws))]
    fn way_down(
        self,
        image: &[u8],
        heads: &mut [u64],
        bytes: &mut [u8],
        lent: Lent,
        level: u64,
        key: &[u8],
    ) -> Result<Way, Refusal>
        requires ready_2 { Ready lent.size lent.slots self.used heads.old bytes.old }
        requires level_bound { level ≤ 32 }
        ensures answer { way_of lent.size heads.new bytes.new result
            ≡ way_from level (lent_of image.now lent) (state_of lent.size self heads.old bytes.old) unbounded self.root key.now }
        ensures ready { ReadyBy (λ w. w.tree) lent.size lent.slots heads.new bytes.new result }
        ensures follows { Follows lent.size lent.slots self.used heads.old bytes.old heads.new bytes.new }
    {
        let mut b = UNBOUNDED;
        let mut t = self;
        let mut n = self.root;
        let mut steps = Steps::new();
        for _k in 0..level {
            let i = view!(t, heads, bytes, lent).way_index(n, key);
            let inner = view!(t, heads, bytes, lent).child_bounds(b, n, i);
            steps.push(Position { slot: n, index: i });
            let (u, c) = t.load_child(image, heads, bytes, lent, b, n, i)?;
            t = u;
            n = c;
            b = inner;
        }
        steps.push(Position { slot: n, index: 0 });
        Ok(Way { tree: t, steps })
    }

    // The way from the root down, so many levels; what is loaded is walked first.
    #[tactic(auto, using(crate::specs::laws::lookup::LoadedCalls::way_laws))]
    pub fn way(
        self,
        image: &[u8],
        heads: &mut [u64],
        bytes: &mut [u8],
        lent: Lent,
        level: u64,
        key: &[u8],
    ) -> Result<Way, Refusal>
        requires ready_2 { Ready lent.size lent.slots self.used heads.old bytes.old }
        requires level_bound { level ≤ 32 }
        ensures answer { way_of lent.size heads.new bytes.new result
            ≡ way_from level (lent_of image.now lent) (state_of lent.size self heads.old bytes.old) unbounded self.root key.now }
        ensures ready { ReadyBy (λ w. w.tree) lent.size lent.slots heads.new bytes.new result }
        ensures follows { Follows lent.size lent.slots self.used heads.old bytes.old heads.new bytes.new }
    {
        match view!(self, heads, bytes, lent).way_loaded(level, key) {
            Some(way) => Ok(way),
            None => self.way_down(image, heads, bytes, lent, level, key),
        }
    }
}
