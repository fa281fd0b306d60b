// Where the fields of a node's block lie (`btree_node_phys_t`, `btree_info_t`): specs/Obj.antt has the same table. And
// flags.
ghost use Rattle.std.specs.Prelude.{◌≡◌, ◌<◌};
ghost use Rattle.node.specs.Fit.{flag};

pub const BTN_FLAGS: usize = 32;

pub const BTN_LEVEL: usize = 34;

pub const BTN_NKEYS: usize = 36;

// The contents (`btn_table_space`): offset after the header, and length.
pub const BTN_TABLE_OFF: usize = 40;

pub const BTN_TABLE_LEN: usize = 42;

// The free space (`btn_free_space`), as the contents.
pub const BTN_FREE_OFF: usize = 44;

pub const BTN_FREE_LEN: usize = 46;

// The free lists of keys and of values: each an offset and a length.
pub const BTN_KEY_FREE_OFF: usize = 48;

pub const BTN_KEY_FREE_LEN: usize = 50;

pub const BTN_VAL_FREE_OFF: usize = 52;

pub const BTN_VAL_FREE_LEN: usize = 54;

// Where the header ends (`btn_data`).
pub const BTN_DATA: usize = 56;

// An offset that is none: a ghost's value, the head of an empty list.
pub const BTOFF_INVALID: u64 = 0xFFFF;

// btree_info_t: its fields, and its length.
pub const BT_FLAGS: usize = 0;

pub const BT_NODE_SIZE: usize = 4;

pub const BT_KEY_SIZE: usize = 8;

pub const BT_VAL_SIZE: usize = 12;

pub const BT_LONGEST_KEY: usize = 16;

pub const BT_LONGEST_VAL: usize = 20;

pub const BT_KEY_COUNT: usize = 24;

pub const BT_NODE_COUNT: usize = 32;

pub const BTREE_INFO_SIZE: usize = 40;

// The flags of a node (`btn_flags`).
pub const BTNODE_ROOT: u64 = 1;

pub const BTNODE_LEAF: u64 = 2;

pub const BTNODE_FIXED_KV_SIZE: u64 = 4;

pub const BTNODE_HASHED: u64 = 8;

// The flag of a tree (`bt_flags`) whose keys and values are not padded.
pub const BTREE_KV_NONALIGNED: u64 = 0x40;

// Whether a flag is set in a word of flags.
// A quotient and no mask, as the definition has it: for `&` each call would have to show which power of two f is.
#[tactic(auto, unfolding(crate::specs::Fit::flag))]
pub fn flag(word: u64, f: u64) -> bool
    requires { 0 < f }
    ensures { result ≡ flag word f }
{
    word / f % 2 == 1
}
