// What a node is packed from, beside its entries (`NodeBuild` of btree_write.rs).
use crate::info::BTreeInfo;

#[derive(Clone, Copy)]
pub struct NodeBuild {
    pub oid: u64,
    pub xid: u64,
    // Type with storage flags (`obj_type`).
    pub otype: u64,
    pub subtype: u64,
    pub level: u64,
    pub root: bool,
    pub info: BTreeInfo,
}
