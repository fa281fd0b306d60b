// The header that every APFS object starts with (`obj_phys_t`), and object types (obj.rs).
ghost use Rattle.std.specs.Prelude.{◌≡◌, ◌≤◌, ◌<◌, ◌^◌, length};
ghost use Rattle.seal.specs.Bytes.{splice};
ghost use Rattle.seal.specs.Obj.{o_oid, header_at, header_bytes, kind_of, storage_of};

use crate::bytes::{field_at, put_field};

// Where the fields of `obj_phys_t` lie, and where it ends: specs/Obj.antt has the same table.
const O_CKSUM: usize = 0;

const O_OID: usize = 8;

const O_XID: usize = 16;

const O_TYPE: usize = 24;

const O_SUBTYPE: usize = 28;

pub const OBJ_HEADER_SIZE: usize = 32;

pub const OBJECT_TYPE_MASK: u64 = 0x0000_ffff;

pub const OBJ_STORAGETYPE_MASK: u64 = 0xc000_0000;

pub const OBJ_VIRTUAL: u64 = 0x0000_0000;

pub const OBJ_PHYSICAL: u64 = 0x4000_0000;

pub const OBJECT_TYPE_BTREE: u64 = 0x02;

pub const OBJECT_TYPE_BTREE_NODE: u64 = 0x03;

pub const OBJECT_TYPE_OMAP: u64 = 0x0b;

// Every field is a u64, as `bytes` reads and writes them; on disk the type and the subtype have 4 bytes.
#[derive(Clone, Copy)]
pub struct ObjHeader {
    pub cksum: u64,
    pub oid: u64,
    pub xid: u64,
    pub obj_type: u64,
    pub subtype: u64,
}

impl ObjHeader {
    pub fn parse(b: &[u8]) -> ObjHeader
        requires { 32 ≤ length b.now }
        ensures { (result ≡ header_at b.now) × (result.obj_type < 2 ^ 32) × (result.subtype < 2 ^ 32) }
    {
        ObjHeader {
            cksum: field_at::<8>(b, O_CKSUM),
            oid: field_at::<8>(b, O_OID),
            xid: field_at::<8>(b, O_XID),
            obj_type: field_at::<4>(b, O_TYPE),
            subtype: field_at::<4>(b, O_SUBTYPE),
        }
    }

    // Stores all but the checksum: that is the seal's, which comes when the object is whole.
    #[tactic(auto, using(crate::specs::laws::ObjLaws::write_law))]
    pub fn write(self, b: &mut [u8])
        requires { 32 ≤ length b.old }
        ensures { b.new ≡ splice b.old o_oid.offset (header_bytes self) }
    {
        put_field::<8>(b, O_OID, self.oid);
        put_field::<8>(b, O_XID, self.xid);
        put_field::<4>(b, O_TYPE, self.obj_type);
        put_field::<4>(b, O_SUBTYPE, self.subtype);
    }
}

// What an object is, by its type: the bits under OBJECT_TYPE_MASK.
// A number and no enum: a type word holds any of 65,536 kinds, few of them have names, and a header stores each.
#[tactic(auto, using(crate::specs::laws::ObjLaws::kind_masked))]
pub fn kind_of(obj_type: u64) -> u64
    ensures { result ≡ kind_of obj_type }
{
    obj_type & OBJECT_TYPE_MASK
}

// How an object is found, by its type: the bits under OBJ_STORAGETYPE_MASK.
// A number and no enum: a type word holds any of four classes, one of them has no name, and a header stores each.
#[tactic(auto, using(crate::specs::laws::ObjLaws::storage_masked))]
pub fn storage_of(obj_type: u64) -> u64
    ensures { result ≡ storage_of obj_type }
{
    obj_type & OBJ_STORAGETYPE_MASK
}
