// A remove that changes an entry of its leaf and nothing else on the way. That is seen before anything is written, so that nothing has to be undone.
ghost use Rattle.std.specs.Prelude.{◌≡◌, true, ◌+◌, ◌*◌, ◌≤◌, ◌<◌, length};
ghost use Rattle.node.specs.Fit.{Sized};
ghost use Rattle.tree.specs.Trust.{stand_together};
ghost use Rattle.tree.specs.Workspace.{state_of};
ghost use Rattle.tree.specs.Trusts.{Ready};
ghost use Rattle.tree.specs.internal.Bank.{node_in};
ghost use Rattle.tree.specs.internal.Still.{Settled, StillOf, StillLeaf, StaysAbove, StillRemoved};
ghost use Rattle.tree.specs.internal.View.{seen};

use crate::editor::Tree;
use crate::lent::Lent;
use crate::loaded::Taken;
use crate::view::{View, view};
use crate::writers;
use crate::writers::DirtyMark;
use node::head::Head;

// A view whose slots stand together, and whose tree's numbers the code can compute with.
#[derive(Clone, Copy)]
struct Standing<'h, 'b> {
    view: View<'h, 'b>,
    ghost together: { stand_together (seen view) ≡ true },
    ghost sized: { Sized view.tree.info },
}

impl<'h, 'b> View<'h, 'b> {
    // Whether slot n is dirty.
    #[tactic(auto, using(crate::specs::laws::remove::LeafAloneSteps::dirty_word))]
    fn dirty_at(self, n: usize) -> bool
        requires { (n + 1) * 9 ≤ length self.heads.now }
        ensures { result ≡ (node_in self.entry.lent.size self.entry.heads.now self.entry.bytes.now n).dirty }
    {
        Head::load(self.heads, n).is_dirty()
    }

    // Whether a remove changes nothing above leaf n, from which it takes entry i: the leaf's first entry stays, leaf and root are dirty, a key is
    // counted, and the root keeps its place.
    fn still_above(self, n: usize, i: u64) -> bool
        requires { (n < self.tree.used) × (self.tree.root < self.tree.used) }
        ensures { result ≡ true → StaysAbove (seen self.entry) n i }
    {
        i != 0
            && self.dirty_at(n)
            && self.dirty_at(self.tree.root)
            && self.tree.info.key_count != 0
            && !self.has_only_child()
    }
}

impl<'h, 'b> Standing<'h, 'b> {
    // Whether slot n of a way needs no cut and, in a physical tree, no dirty mark. A dirty node fits, and is not looked at.
    #[tactic(auto, using(crate::specs::laws::remove::LeafAloneSteps::settling))]
    fn settled(self, n: usize) -> bool
        requires { n < self.view.tree.used }
        ensures { result ≡ true → Settled (seen self.entry.view) n }
    {
        self.view.dirty_at(n) || (self.view.tree.by_id && self.view.fits_at(n))
    }

    // The child of slot n that a key goes on by, if it is loaded, its index key is its first key, and slot n is settled.
    #[tactic(auto, using(crate::specs::laws::remove::LeafAloneSteps::still_at_laws, node::specs::laws::order::OrderSteps::unlike))]
    fn still_at(self, n: usize, key: &[u8]) -> Option<Taken>
        ensures { StillOf (seen self.entry.view) key.now n result }
    {
        if self.view.tree.used <= n || !self.settled(n) {
            return None;
        }
        let (r, t) = self.view.taken_by(n, key)?;
        if r.key() != self.view.key_at(t.slot, 0) {
            return None;
        }
        Some(t)
    }

    // The leaf that a key's way ends in, if the way stays as it is.
    #[tactic(auto, using(crate::specs::laws::remove::LeafAloneSteps::still_leaf))]
    fn still_leaf_of(self, key: &[u8]) -> Option<usize>
        ensures { StillLeaf self.entry.view.tree.used (seen self.entry.view)
            key.now result }
    {
        self.view.leaf_by(
            key,
            |n|
                ensures { StillOf (seen self.entry.view) key.entry.now n result }
            { self.still_at(n, key) },
        )
    }
}

impl Tree {
    // The remove, if it changes nothing but an entry of its leaf; else nothing is written.
    #[tactic(auto, using(crate::specs::laws::remove::LeafAloneSteps::remove_still_laws), unfolding(crate::specs::State::with_counts))]
    pub fn remove_still(
        mut self,
        heads: &mut [u64],
        bytes: &mut [u8],
        lent: Lent,
        key: &[u8],
    ) -> Option<Tree>
        requires ready { Ready lent.size lent.slots self.used heads.old bytes.old }
        requires bytes_value { (stand_together (state_of lent.size self heads.old bytes.old) ≡ true) × (Sized self.info) }
        ensures { StillRemoved lent.size lent.slots self heads.old bytes.old
            heads.new bytes.new key.now result }
    {
        let standing = Standing {
            view: view!(self, heads, bytes, lent),
        };
        let n = standing.still_leaf_of(key)?;
        let spot = view!(self, heads, bytes, lent).found_at(n, key).ok()?;
        if !view!(self, heads, bytes, lent).still_above(n, spot.index) {
            return None;
        }
        writers::take_at(heads, bytes, lent, self.used, spot, DirtyMark::Kept);
        self.info.key_count -= 1;
        Some(self)
    }
}
