// One node, read and packed: `node::read`, `node::adopt` and `node::pack` for arguments of any kind.
ghost use Rattle.std.specs.Prelude.{◌≡◌, cond, ◌≤◌, ◌<◌, ◌^◌, true, false, length, MatchOption};
ghost use Rattle.node.specs.Fit.{Sized};
ghost use Rattle.node.specs.Refusals.{number_of};
ghost use Rattle.speed.specs.OneNode.{answered, answer_of, read_into, build_like, lent, sizes_hold, records_fit, packable, pack_into};

use node::build::NodeBuild;
use node::fit::SlotNode;
use node::info::BTreeInfo;
use node::order::Order;
use node::read::{Block, Node, Place};
use node::refusal::Refusal;
use node::room::Shape;
use node::slot::Records;
use node::{pack, read, slot};

// A refusal's answer: more than the bytes of any slot.
fn refused(refusal: Refusal) -> u64
    ensures { result ≡ answer_of (number_of refusal) }
{
    0xFFFF_FFFF_FFFF_FFFF - u64::from(refusal)
}

// A block of a node's size, and a slot that holds its entries in any case.
#[tactic(auto, unfolding(crate::specs::OneNode::lent))]
fn lent(block: &[u8], slot: &[u8]) -> bool
    ensures { result ≡ lent block.now slot.now }
{
    let size = block.len();
    (512..=65536).contains(&size) && 2 * size <= slot.len()
}

// Reads a block as a root with this id and copies its entries to the slot: the bytes that they take there, or a refusal's answer.
#[tactic(auto, unfolding(crate::specs::OneNode::lent, crate::specs::OneNode::read_into, node::specs::Read::read_of, node::specs::Read::on_disk))]
pub fn rattle_read_node(block: &[u8], slot: &mut [u8], order: u64, oid: u64) -> u64
    ensures { answered result slot.new ≡ read_into order oid block.now slot.old }
{
    if !lent(block, slot) {
        return refused(Refusal::Lent);
    }
    let block = Block { held: block };
    let read = read::read_node(block, Order { code: order }, Place::root(oid));
    match read {
        Err(x) => refused(x),
        Ok(read) => read.adopt(slot) as u64,
    }
}

// What a root is packed from: the numbers of a root's block.
#[tactic(auto, unfolding(crate::specs::OneNode::build_like))]
fn build_like(like: Block<'_>) -> NodeBuild
    ensures { (result ≡ build_like like.entry.held.now) × (result.info.key_size < 2 ^ 32) × (result.info.val_size < 2 ^ 32) }
{
    let v = Node::parse(like, Place::root(0));
    let info = BTreeInfo::parse(like.held);
    NodeBuild {
        oid: v.oid,
        xid: v.xid,
        otype: v.otype,
        subtype: v.subtype,
        level: v.level,
        root: true,
        info,
    }
}

// Whether the sizes of a node, of the slice that it goes to and of a slot hold.
#[tactic(auto, unfolding(crate::specs::OneNode::sizes_hold))]
fn sizes_hold(b: NodeBuild, dst: &[u8], slot: &[u8]) -> bool
    ensures { result ≡ sizes_hold b dst.now slot.now }
{
    let size = b.info.node_size;
    (512..=65536).contains(&size) && size <= dst.len() as u64 && slot.len() <= 1048576
}

// The n records of a slot, `used` bytes, where they lie in it and fit.
#[tactic(auto, unfolding(crate::specs::OneNode::records_fit, node::specs::Slot::records_hold))]
fn fitting(b: NodeBuild, slot: &[u8], n: usize, used: u64) -> Option<Records<'_>>
    requires { Sized b.info × (length slot.now ≤ 2 ^ 20) }
    ensures { MatchOption result (records_fit b n used slot.now ≡ false)
        (λ r. (records_fit b n used slot.now ≡ true) × (r.slot.now ≡ slot.now) × (r.count ≡ n)) }
{
    let count = n as u64;
    if !slot::records_hold(slot, count, used) {
        return None;
    }
    let records = Records { slot, count };
    let shape = Shape {
        info: b.info,
        root: b.root,
        level: b.level,
    };
    SlotNode { records, shape }.fits(used).then_some(records)
}

// Packs the n records of a slot, `used` bytes, as a root with the numbers of the root block `like`: false where they are not n records, or do
// not fit.
#[tactic(auto, unfolding(crate::specs::OneNode::packable, crate::specs::OneNode::sizes_hold, crate::specs::OneNode::records_fit))]
pub fn rattle_pack_node(
    dst: &mut [u8],
    slot: &[u8],
    n: usize,
    used: u64,
    heads: &[u64],
    like: &[u8],
) -> bool
    ensures { (result ≡ packable n used like.now dst.old slot.now)
        × (dst.new ≡ cond result (pack_into n heads.now like.now dst.old slot.now)
        dst.old) }
{
    if like.len() < 512 {
        return false;
    }
    let b = build_like(Block { held: like });
    if !sizes_hold(b, dst, slot) {
        return false;
    }
    let Some(records) = fitting(b, slot, n, used) else {
        return false;
    };
    pack::pack(dst, records, heads, false, b);
    true
}
