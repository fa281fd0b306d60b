// Tree-wide numbers, as `btree_info_t` stores them in a root (BTreeInfo of btree.rs).
ghost use Rattle.std.specs.Prelude.{◌≡◌, ◌≤◌, ◌<◌, ◌^◌, length};
ghost use Rattle.node.specs.Obj.{info_size};
ghost use Rattle.node.specs.Fit.{fixed};
ghost use Rattle.node.specs.Read.{info_at};

use crate::layout;
use seal::bytes;

#[derive(Clone, Copy, PartialEq, Eq)]
pub struct BTreeInfo {
    pub flags: u64,
    pub node_size: u64,
    pub key_size: u64,
    pub val_size: u64,
    pub longest_key: u64,
    pub longest_val: u64,
    pub key_count: u64,
    pub node_count: u64,
}

impl BTreeInfo {
    // The numbers of a tree of one node with no entries, but for the sizes that it is made with.
    pub const EMPTY: BTreeInfo = BTreeInfo {
        flags: 0,
        node_size: 0,
        key_size: 0,
        val_size: 0,
        longest_key: 0,
        longest_val: 0,
        key_count: 0,
        node_count: 1,
    };

    // Whether keys and values have fixed lengths.
    #[tactic(auto, unfolding(crate::specs::Fit::fixed))]
    pub fn is_fixed(self) -> bool
        ensures { result ≡ fixed self }
    {
        self.key_size != 0
    }

    // A root's last 40 bytes.
    #[tactic(auto, unfolding(crate::specs::Read::info_at))]
    pub fn parse(block: &[u8]) -> BTreeInfo
        requires { info_size ≤ length block.now }
        ensures { (result ≡ info_at block.now)
            × (result.key_size < 2 ^ 32) × (result.val_size < 2 ^ 32) }
    {
        let i = block.len() - layout::BTREE_INFO_SIZE;
        BTreeInfo {
            flags: bytes::field_at::<4>(block, i + layout::BT_FLAGS),
            node_size: bytes::field_at::<4>(block, i + layout::BT_NODE_SIZE),
            key_size: bytes::field_at::<4>(block, i + layout::BT_KEY_SIZE),
            val_size: bytes::field_at::<4>(block, i + layout::BT_VAL_SIZE),
            longest_key: bytes::field_at::<4>(block, i + layout::BT_LONGEST_KEY),
            longest_val: bytes::field_at::<4>(block, i + layout::BT_LONGEST_VAL),
            key_count: bytes::field_at::<8>(block, i + layout::BT_KEY_COUNT),
            node_count: bytes::field_at::<8>(block, i + layout::BT_NODE_COUNT),
        }
    }
}
