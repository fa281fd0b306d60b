// A tree opened.
ghost use Rattle.std.specs.Prelude.{◌≡◌, ◌+◌, ◌*◌, ◌≤◌, length};
ghost use Rattle.tree.specs.Lent.{lent_of};
ghost use Rattle.tree.specs.Lookup.{opened};
ghost use Rattle.tree.specs.Answers.{opened_of, opened_in, opened_leaves};
ghost use Rattle.tree.specs.Trusts.{OpenedTrusts};
ghost use Rattle.tree.specs.internal.Bank.{ReadyTree};
ghost use Rattle.tree.specs.internal.Open.{opened_root};

use crate::editor::Tree;
use crate::lent::Lent;
use crate::mapped::Blocks;
use crate::{bank, lent};
use node::order::Order;
use node::read::Place;
use node::refusal::{Refusal, check};

// The tree whose root is r, at an address: the load line from 2, then 10.
#[tactic(auto, using(crate::specs::laws::load::Open::opening))]
fn open_at(
    blocks: Blocks<'_>,
    heads: &mut [u64],
    bytes: &mut [u8],
    r: u64,
    order: Order,
    xid: u64,
    a: u64,
) -> Result<Tree, Refusal>
    requires le_size { (1 ≤ blocks.lent.slots) × (blocks.lent.slots ≤ 4096) }
    requires heads_len { (length heads.old ≡ blocks.lent.slots * 19) × (length bytes.old
        ≡ (blocks.lent.slots + blocks.lent.slots) * (4 * blocks.lent.size)) }
    ensures answer { opened_of blocks.entry.lent.size heads.new bytes.new result
        ≡ opened_root (lent_of blocks.entry.image.now blocks.entry.lent) r order.code xid a }
    ensures ready { ReadyTree blocks.entry.lent.size blocks.entry.lent.slots heads.new bytes.new result }
{
    let read = blocks.load_block(order, Place::root(r), a)?;
    let by_id = blocks.lent.map.is_some();
    let info = blocks.root_info(a, by_id, read.node)?;
    bank::adopt_into(read, heads, bytes, blocks.lent.size, 0, by_id, a);
    Ok(Tree {
        root: 0,
        used: 1,
        info,
        by_id,
        subtype: read.node.subtype,
        order,
        xid,
    })
}

// The tree whose root is r, in a workspace for so many slots.
#[tactic(auto, using(crate::specs::laws::base::Refused::handed_on, crate::specs::laws::load::Open::open_in_laws))]
pub fn open_in(
    image: &[u8],
    heads: &mut [u64],
    bytes: &mut [u8],
    lent: Lent,
    r: u64,
    order: Order,
    xid: u64,
) -> Result<Tree, Refusal>
    requires { (length heads.old ≡ lent.slots * 19) × (length bytes.old
        ≡ (lent.slots + lent.slots) * (4 * lent.size)) }
    ensures answer { opened_of lent.size heads.new bytes.new result
        ≡ opened (lent_of image.now lent) r order.code xid }
    ensures trusts { OpenedTrusts image.now lent heads.new bytes.new result }
{
    check(Refusal::Lent, lent::sizes_hold(image, lent))?;
    check(Refusal::Lent, order.known())?;
    let blocks = Blocks { image, lent };
    let a = blocks.address_of(xid, r)?;
    open_at(blocks, heads, bytes, r, order, xid, a)
}

// The same of any workspace: 1 where it is none for so many slots.
#[tactic(auto, using(crate::specs::laws::load::Open::open_laws))]
pub fn open(
    image: &[u8],
    heads: &mut [u64],
    bytes: &mut [u8],
    lent: Lent,
    r: u64,
    order: Order,
    xid: u64,
) -> Result<Tree, Refusal>
    ensures answer { opened_of lent.size heads.new bytes.new result
        ≡ opened_in (lent_of image.now lent) heads.old bytes.old r order.code xid }
    ensures left { opened_leaves lent.size lent.slots heads.new bytes.new result }
    ensures trusts { OpenedTrusts image.now lent heads.new bytes.new result }
{
    check(Refusal::Lent, lent::sizes_hold(image, lent))?;
    check(Refusal::Lent, lent::room_holds(heads, bytes, 0, lent))?;
    open_in(image, heads, bytes, lent, r, order, xid)
}
