// An open tree and its slots as they are read.
ghost use Rattle.tree.specs.Trusts.{Ready};

use crate::editor::Tree;
use crate::lent::Lent;

// A tree with the words and the bytes of its slots, which stand in a workspace.
#[derive(Clone, Copy)]
pub struct View<'h, 'b> {
    pub tree: Tree,
    pub heads: &'h [u64],
    pub bytes: &'b [u8],
    pub lent: Lent,
    ghost ready: { Ready lent.size lent.slots tree.used heads.now bytes.now },
}

// The view of a tree whose slots may be written again after it. A macro and no function: a proof sees the fields of a struct that is
// made in place, and would have to rewrite by what a function says of them.
macro_rules! view {
    ($tree:expr, $heads:expr, $bytes:expr, $lent:expr) => {
        View {
            tree: $tree,
            heads: $heads,
            bytes: $bytes,
            lent: $lent,
        }
    };
}

pub(crate) use view;
