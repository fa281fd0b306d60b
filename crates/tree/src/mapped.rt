// What a lookup in the object map reads from, and what it is lent from there: a node that was read, and an entry.
ghost use Rattle.std.specs.Prelude.{◌≡◌, ◌≤◌, length};
ghost use Rattle.tree.specs.internal.Mapped.{leaf_length};

use crate::lent::Lent;
use node::read::ReadNode;
use node::val::Val;

// An image of blocks that a node can have the size of, with what else is lent.
#[derive(Clone, Copy)]
pub struct Blocks<'i> {
    pub image: &'i [u8],
    pub lent: Lent,
    ghost least: { 512 ≤ lent.size },
    ghost most: { lent.size ≤ 65536 },
}

// A node of the map: its keys and values have fixed lengths.
#[derive(Clone, Copy)]
pub struct MapNode<'i> {
    pub read: ReadNode<'i>,
    ghost ksize: { read.node.ksize ≡ 16 },
    ghost vsize: { read.node.vsize ≡ 16 },
}

// An entry of the map: a leaf's key and value have those lengths.
#[derive(Clone, Copy)]
pub struct Mapped<'i> {
    pub key: &'i [u8],
    pub value: Val<'i>,
    ghost key_long: { length key.now ≡ 16 },
    ghost value_long: { leaf_length value ≡ 16 },
}
