// The image with its block accounts, what is lent to the calls, and the open tree.
use crate::line::Line;
use flush::flush::Flushed;
use node::build::NodeBuild;
use node::info::BTreeInfo;
use node::order::Order;
use node::pack;
use script::out::Out;
use seal::obj::{OBJ_PHYSICAL, OBJECT_TYPE_BTREE, OBJECT_TYPE_OMAP};
use tree::editor::Tree;
use tree::lent::Lent;
use tree::{lent, lookup};

const BLOCKS: u32 = 32;

const SIZE: usize = 512;

const IMAGE: usize = BLOCKS as usize * SIZE;

// More than blocks: a tree of 32 blocks cannot use them up before it is full.
const SLOTS: usize = 64;

// Words of the slots, bytes of the slots and of the scratch.
const HEADS: usize = SLOTS * lent::WORDS_EACH;

const BYTES: usize = SLOTS * lent::BLOCKS_EACH * SIZE;

const SCRATCH: usize = (SLOTS + 1) * lent::SCRATCH_EACH * SIZE;

const LENT: Lent = Lent {
    size: SIZE,
    slots: SLOTS,
    map: None,
};

// An empty root leaf.
const EMPTY: NodeBuild = NodeBuild {
    oid: 0,
    xid: 0,
    otype: OBJ_PHYSICAL | OBJECT_TYPE_BTREE,
    subtype: OBJECT_TYPE_OMAP,
    level: 0,
    root: true,
    info: BTreeInfo {
        node_size: SIZE as u64,
        key_size: 16,
        val_size: 16,
        ..BTreeInfo::EMPTY
    },
};

#[derive(Drop)]
pub struct Desk {
    image: [u8; IMAGE],
    // The block accounts: a chunk of all blocks.
    bitmap: [u8; SIZE],
    counts: [u32; 1],
    free: [u32; 1],
    // The workspace.
    heads: [u64; HEADS],
    bytes: [u8; BYTES],
    scratch: [u8; SCRATCH],
    // The lists of a flush.
    freed: [u64; SLOTS],
    removed: [u64; SLOTS],
    ids: [u64; SLOTS],
    places: [u64; SLOTS],
    tree: Option<Tree>,
}

impl Desk {
    // Nothing there yet, and no tree.
    pub fn new() -> Desk {
        Desk {
            image: [0; IMAGE],
            bitmap: [0; SIZE],
            counts: [BLOCKS],
            free: [BLOCKS],
            heads: [0; HEADS],
            bytes: [0; BYTES],
            scratch: [0; SCRATCH],
            freed: [0; SLOTS],
            removed: [0; SLOTS],
            ids: [0; SLOTS],
            places: [0; SLOTS],
            tree: None,
        }
    }

    // What a line does, and its answer.
    pub fn answer(&mut self, line: Option<Line>, out: &mut Out) {
        match (line, self.tree) {
            (None, _) => error(
                out,
                b"this line is none of (new), (put ID XID ADDR), (flush XID)",
            ),
            (Some(Line::New), _) => self.make(out),
            (Some(Line::Put { id, xid, address }), Some(tree)) => {
                self.put(tree, id, xid, address, out);
            }
            (Some(Line::Flush { xid }), Some(tree)) => self.flush(tree, xid, out),
            (Some(_), None) => error(out, b"there is no tree, (new) makes one"),
        }
    }

    // An image with an empty tree, and its block accounts: block 0 is used, no other is.
    fn make(&mut self, out: &mut Out) {
        self.image = [0; IMAGE];
        self.bitmap = [0; SIZE];
        self.bitmap[0] = 1;
        self.free = [BLOCKS - 1];
        pack::pack_empty(&mut self.image, EMPTY);
        out.two(b"image", BLOCKS as u64, SIZE as u64);
        self.open(0, 0);
    }

    // The tree opened from its root's address; without it there is none.
    fn open(&mut self, root: u64, xid: u64) {
        let opened = lookup::open(
            &self.image,
            &mut self.heads,
            &mut self.bytes,
            LENT,
            root,
            Order::PAIR_ORDER,
            xid,
        );
        self.tree = opened.ok();
    }

    fn put(&mut self, tree: Tree, id: u64, xid: u64, address: u64, out: &mut Out) {
        let got = tree.omap_put(
            &self.image,
            &mut self.heads,
            &mut self.bytes,
            LENT,
            id,
            xid,
            address,
            SIZE as u64,
            &mut self.scratch,
        );
        let (refusal, tree) = match got {
            Ok(edited) => (0, edited),
            Err(x) => (u64::from(x), tree),
        };
        self.tree = Some(tree);
        out.two(b"put", refusal, tree.info.key_count);
    }

    // An accepted flush opens the tree again.
    fn flush(&mut self, tree: Tree, xid: u64, out: &mut Out) {
        let got = flush::flush::flush(
            tree,
            &mut self.image,
            &mut self.bitmap,
            &self.counts,
            &mut self.free,
            &mut self.heads,
            &self.bytes,
            &mut self.freed,
            &mut self.removed,
            &mut self.ids,
            &mut self.places,
            LENT,
            xid,
            0,
        );
        match got {
            Ok(flushed) => {
                report(flushed, out);
                self.open(flushed.root, xid);
            }
            Err(x) => out.one(b"flush", u64::from(x)),
        }
    }
}

// The answer of an accepted flush.
fn report(flushed: Flushed, out: &mut Out) {
    out.two_open(b"flush", 0, flushed.root);
    out.number(flushed.done.allocated);
    out.number(flushed.done.freed as u64);
    out.number(flushed.keys);
    out.number(flushed.fill);
    out.close();
}

// The answer of a line that is not taken, and why.
fn error(out: &mut Out, why: &[u8]) {
    out.text(b"(error: ");
    out.text(why);
    out.close();
}
