// A tree of blocks of 512 bytes, and its calls.
ghost use Rattle.std.specs.Prelude.{◌≡◌, ◌<◌};
ghost use Rattle.node.specs.Fit.{Sized};

use node::build::NodeBuild;
use node::head::Head;
use node::info::BTreeInfo;
use node::order::Order;
use node::pack;
use seal::obj::{OBJ_PHYSICAL, OBJECT_TYPE_BTREE, OBJECT_TYPE_OMAP};
use tree::editor::Tree;
use tree::lent::Lent;
use tree::mapped::Blocks;
use tree::refusal::Refusal;
use tree::{lent, lookup};

const SIZE: usize = 512;

// 32 blocks.
const IMAGE: usize = 32 * SIZE;

const SLOTS: usize = 64;

// Words of the slots, bytes of the slots and of the scratch.
const HEADS: usize = SLOTS * lent::WORDS_EACH;

const BYTES: usize = SLOTS * lent::BLOCKS_EACH * SIZE;

const SCRATCH: usize = (SLOTS + 1) * lent::SCRATCH_EACH * SIZE;

const LENT: Lent = Lent {
    size: SIZE,
    slots: SLOTS,
    map: None,
};

// The numbers of an empty tree: keys and values of these lengths, 0 for variable ones.
pub fn empty(each: u64) -> BTreeInfo
    ensures { result ≡ record {
      flags = 0;
      node_size = 512;
      key_size = each;
      val_size = each;
      longest_key = 0;
      longest_val = 0;
      key_count = 0;
      node_count = 1;
    } }
{
    BTreeInfo {
        node_size: SIZE as u64,
        key_size: each,
        val_size: each,
        ..BTreeInfo::EMPTY
    }
}

// What is lent to the calls. One for `dock` too would be a library, whose contracts would say again what those of the calls say.
#[derive(Drop)]
pub struct Desk {
    image: [u8; IMAGE],
    heads: [u64; HEADS],
    bytes: [u8; BYTES],
    scratch: [u8; SCRATCH],
}

impl Desk {
    pub fn new() -> Desk {
        Desk {
            image: [0; IMAGE],
            heads: [0; HEADS],
            bytes: [0; BYTES],
            scratch: [0; SCRATCH],
        }
    }

    // A new tree: physical, empty, of variable lengths in byte order.
    pub fn byte_tree(&mut self) -> Result<Tree, Refusal> {
        self.begin(empty(0), Order::BYTE_ORDER)
    }

    // The same of fixed lengths in pair order.
    pub fn pair_tree(&mut self) -> Result<Tree, Refusal> {
        self.begin(empty(16), Order::PAIR_ORDER)
    }

    // An empty root leaf at block 0, opened.
    fn begin(&mut self, info: BTreeInfo, order: Order) -> Result<Tree, Refusal>
        requires size { info.node_size ≡ 512 }
        requires tree { Sized info }
    {
        let root = NodeBuild {
            oid: 0,
            xid: 0,
            otype: OBJ_PHYSICAL | OBJECT_TYPE_BTREE,
            subtype: OBJECT_TYPE_OMAP,
            level: 0,
            root: true,
            info,
        };
        self.image = [0; IMAGE];
        pack::pack_empty(&mut self.image, root);
        lookup::open(
            &self.image,
            &mut self.heads,
            &mut self.bytes,
            LENT,
            0,
            order,
            1,
        )
    }

    // An entry put.
    pub fn upsert(&mut self, tree: Tree, key: &[u8], value: &[u8]) -> Result<Tree, Refusal> {
        tree.upsert(
            &self.image,
            &mut self.heads,
            &mut self.bytes,
            LENT,
            key,
            Some(value),
            &mut self.scratch,
        )
    }

    // An id's mapping at a transaction put: the address is the transaction.
    pub fn put(&mut self, tree: Tree, id: u64, xid: u64) -> Result<Tree, Refusal> {
        self.upsert(
            tree,
            &Order::pair_key(id, xid),
            &Order::pair_key((SIZE as u64) << 32, xid),
        )
    }

    // An id's mapping at 1 taken out.
    pub fn take(&mut self, tree: Tree, id: u64) -> Result<Tree, Refusal> {
        let (tree, _) = tree.remove(
            &self.image,
            &mut self.heads,
            &mut self.bytes,
            LENT,
            &Order::pair_key(id, 1),
            &mut self.scratch,
        )?;
        Ok(tree)
    }

    // The root's block after a flush with the bitmap bytes 0xFF 0xFE of a chunk of 16 blocks.
    pub fn flush(&mut self, tree: Tree, xid: u64) -> Result<u64, Refusal> {
        let mut bitmap = [0; SIZE];
        bitmap[0] = 0xFF;
        bitmap[1] = 0xFE;
        let flushed = flush::flush::flush(
            tree,
            &mut self.image,
            &mut bitmap,
            &[16],
            &mut [1],
            &mut self.heads,
            &self.bytes,
            &mut [0; SLOTS],
            &mut [0; SLOTS],
            &mut [0; SLOTS],
            &mut [0; SLOTS],
            LENT,
            xid,
            0,
        )?;
        Ok(flushed.root)
    }

    // Where an id is in a map, seen from a transaction.
    pub fn address_of(&self, root: u64, xid: u64, id: u64) -> Result<u64, Refusal> {
        let lent = Lent {
            map: Some(root),
            ..LENT
        };
        Blocks {
            image: &self.image,
            lent,
        }
        .address_of(xid, id)
    }

    // The level of a tree's root.
    pub fn level(&self, tree: Tree) -> u64 {
        if tree.root < SLOTS {
            self.head(tree.root).level
        } else {
            0
        }
    }

    // How many entries a slot holds.
    pub fn count(&self, slot: usize) -> u64
        requires { slot < 64 }
    {
        self.head(slot).count
    }

    fn head(&self, slot: usize) -> Head
        requires { slot < 64 }
    {
        Head::load(&self.heads, slot)
    }
}
