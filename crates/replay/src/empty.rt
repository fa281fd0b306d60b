// The line that packs an empty root leaf.
ghost use Rattle.std.specs.Prelude.{◌≡◌, ◌≤◌};
ghost use Rattle.node.specs.Fit.{Sized};

use crate::fault::Fault;
use crate::state::State;
use node::build::NodeBuild;
use node::info::BTreeInfo;
use node::pack;
use seal::obj::{OBJ_PHYSICAL, OBJ_VIRTUAL, OBJECT_TYPE_BTREE};

// Where nodes have their ids from.
#[derive(Clone, Copy, PartialEq, Eq)]
pub enum Storage {
    // Their blocks' addresses.
    Physical,
    // An object map.
    Virtual,
}

// What the line says of the root.
#[derive(Clone, Copy)]
pub struct Root {
    pub address: u64,
    pub storage: Storage,
    pub id: u64,
    pub xid: u64,
    pub subtype: u32,
    pub flags: u32,
    pub key_size: u32,
    pub val_size: u32,
}

impl Root {
    // Its tree's numbers.
    fn info(self, size: usize) -> BTreeInfo
        requires { (512 ≤ size) × (size ≤ 65536) }
        ensures sized { Sized result }
        ensures size { result.node_size ≡ size }
    {
        BTreeInfo {
            flags: u64::from(self.flags),
            node_size: size as u64,
            key_size: u64::from(self.key_size),
            val_size: u64::from(self.val_size),
            ..BTreeInfo::EMPTY
        }
    }

    // Packs it, a node with no entries, which fits a block of any size that a node has.
    fn pack(self, block: &mut [u8]) -> Result<(), Fault> {
        let size = block.len();
        if !(512..=65536).contains(&size) {
            return Err(Fault::NotTaken);
        }
        let info = self.info(size);
        // A physical root's id is its address.
        let (oid, otype) = match self.storage {
            Storage::Physical => (self.address, OBJ_PHYSICAL | OBJECT_TYPE_BTREE),
            Storage::Virtual => (self.id, OBJ_VIRTUAL | OBJECT_TYPE_BTREE),
        };
        let build = NodeBuild {
            oid,
            xid: self.xid,
            otype,
            subtype: u64::from(self.subtype),
            level: 0,
            root: true,
            info,
        };
        pack::pack_empty(block, build);
        Ok(())
    }
}

impl State<'_> {
    // (empty ADDR STORAGE ID XID SUBTYPE FLAGS KEY VALUE)
    pub fn empty(&mut self, root: Root) -> Result<(), Fault> {
        let a = root.address;
        let block = self.memory.block(a)?;
        root.pack(block)?;
        self.memory.mark(a as usize);
        self.out.one(b"empty", a);
        Ok(())
    }
}
