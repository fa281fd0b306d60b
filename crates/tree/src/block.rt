// A slot's node on its way to a block: its records packed, its words after that. What flush calls, which sees this crate and not `node`.
ghost use Rattle.std.specs.Prelude.{◌≡◌, true, ◌+◌, ◌*◌, ◌≤◌, ◌<◌, ◌^◌, length, eqb};
ghost use Rattle.node.specs.Bytes.{splice};
ghost use Rattle.node.specs.Fit.{Sized, fits, data_space, packed_length};
ghost use Rattle.node.specs.Slot.{head_at, head_words};
ghost use Rattle.tree.specs.State.{node_at};
ghost use Rattle.tree.specs.internal.Bank.{node_in};
ghost use Rattle.tree.specs.internal.Block.{written_head, written_with_id, packed_slot};
ghost use Rattle.tree.specs.internal.View.{seen};

use crate::editor::Tree;
use crate::view::View;
use node::build::NodeBuild;
use node::head::Head;
use node::{pack, room};

// The node of slot n was written: its new block, the mark of an id and the id, clean.
#[tactic(auto, unfolding(crate::specs::internal::Block::written_head))]
pub fn rewrite(heads: &mut [u64], n: usize, a: u64, named: u64, id: u64)
    requires { (n + 1) * 9 ≤ length heads.old }
    ensures { heads.new
        ≡ splice heads.old (n * 9) (head_words (written_head (head_at heads.old n) a named id)) }
{
    let h = Head::load(heads, n);
    let w = Head {
        named,
        id,
        dirty: 0,
        ..h
    };
    w.with_block(Some(a)).store(heads, n);
}

// The same with an id that it has, or none.
pub fn rewrite_with_id(heads: &mut [u64], n: usize, a: u64, id: Option<u64>)
    requires { (n + 1) * 9 ≤ length heads.old }
    ensures { heads.new
        ≡ splice heads.old (n * 9) (head_words (written_with_id (head_at heads.old n) a id)) }
{
    match id {
        Some(id) => rewrite(heads, n, a, 1, id),
        None => rewrite(heads, n, a, 0, 0),
    }
}

impl<'h, 'b> View<'h, 'b> {
    // The node of slot n packed and sealed into the first bytes of a part of the image, children in slots by their numbers.
    #[tactic(auto, using(crate::specs::laws::slots::Block::block_fits))]
    pub fn pack_slot(self, dst: &mut [u8], n: usize, oid: u64, xid: u64, otype: u64)
        requires sized { Sized self.tree.info × (n < self.tree.used) × (self.tree.info.node_size ≤ length dst.old) }
        requires n_value { fits self.tree.info (eqb n self.tree.root) (node_in self.lent.size self.heads.now self.bytes.now n).level
            (node_in self.lent.size self.heads.now self.bytes.now n).entries ≡ true }
        ensures { dst.new
            ≡ splice dst.old 0 (packed_slot self.entry.tree self.entry.lent.size self.entry.heads.now self.entry.bytes.now n oid xid otype) }
    {
        let build = NodeBuild {
            oid,
            xid,
            otype,
            subtype: self.tree.subtype,
            level: self.level_at(n),
            root: n == self.tree.root,
            info: self.tree.info,
        };
        pack::pack(dst, self.records(n), self.heads, self.tree.by_id, build);
    }

    // What the root takes as packed: contents, keys and values.
    pub fn root_length(self) -> u64
        requires sized { Sized self.tree.info × (self.tree.root < self.tree.used) }
        ensures { (result ≡ packed_length self.entry.tree.info true
            (node_at (seen self.entry) self.entry.tree.root).level
            (node_at (seen self.entry) self.entry.tree.root).entries) × (result < 2 ^ 40) }
    {
        self.slot_node(self.tree.root, true).packed_length()
    }
}

impl Tree {
    // The data space of a root.
    pub fn root_space(self) -> u64
        requires { Sized self.info }
        ensures { (result ≡ data_space self.info.node_size true) × (0 < result) }
    {
        room::data_space(self.info.node_size, true)
    }
}
