// What is lent to a call beside the image and the slots; of refusal 1, its sizes and the tree's numbers.
ghost use Rattle.std.specs.Prelude.{◌≡◌, List, cond, ◌&&◌, ℕ, ◌+◌, ◌*◌, ◌≤◌, leb, eqb, length, option_to_list};
ghost use Rattle.tree.specs.Lent.{is_size, sizes_hold, lent_of};
ghost use Rattle.tree.specs.Hold.{info_holds, numbers_hold, lent_holds};
ghost use Rattle.tree.specs.Workspace.{state_of, workspace_holds, scratch_holds};
ghost use Rattle.tree.specs.internal.Holding.{room_holds};

use crate::bank;
use crate::editor::Tree;
use crate::hold::Slots;
use node::info::BTreeInfo;
use node::order::Order;

// Blocks of an image, and slots: at most.
pub const MOST_BLOCKS: usize = 0x100000;

pub const MOST_SLOTS: usize = 4096;

// Words of a slot, of its shadow, and its mark.
pub const WORDS_EACH: usize = 19;

// Blocks of a slot's bytes and of its shadow's.
pub const BLOCKS_EACH: usize = 2 * bank::SLOT_BLOCKS;

// Blocks of the scratch for each slot, and for one slot more.
pub const SCRATCH_EACH: usize = 2;

// What a root stores as u32 is below this.
const U32_END: u64 = 0x100000000;

#[derive(Clone, Copy)]
pub struct Lent {
    // The block size.
    pub size: usize,
    // How many slots there are.
    pub slots: usize,
    // The address of the root of the object map, if one is lent.
    pub map: Option<u64>,
}

// A power of two from 512 to 65,536.
#[tactic(auto, unfolding(crate::specs::Lent::is_size))]
pub fn is_size(n: usize) -> bool
    ensures { result ≡ is_size n }
{
    matches!(n, 512 | 1024 | 2048 | 4096 | 8192 | 16384 | 32768 | 65536)
}

// So many slots as a call takes.
pub fn is_slots(slots: usize) -> bool
    ensures { result ≡ leb 1 slots && leb slots 4096 }
{
    (1..=MOST_SLOTS).contains(&slots)
}

// Words of so many slots.
pub fn head_words(slots: usize) -> usize
    requires { slots ≤ 4096 }
    ensures { result ≡ slots * 19 }
{
    slots * WORDS_EACH
}

// Bytes of so many slots and their shadows.
pub fn slot_bytes(slots: usize, size: usize) -> usize
    requires { (slots ≤ 4096) × (size ≤ 65536) }
    ensures { result ≡ (slots + slots) * (4 * size) }
{
    (slots + slots) * (bank::SLOT_BLOCKS * size)
}

// Bytes of the scratch for so many slots.
pub fn scratch_bytes(slots: usize, size: usize) -> usize
    requires { (slots ≤ 4096) × (size ≤ 65536) }
    ensures { result ≡ (2 * slots + 2) * size }
{
    (SCRATCH_EACH * slots + SCRATCH_EACH) * size
}

// 1: lent sizes.
#[tactic(auto, unfolding(crate::specs::Lent::sizes_hold, crate::specs::Lent::blocks, crate::specs::Lent::lent_of))]
pub fn sizes_hold(image: &[u8], lent: Lent) -> bool
    ensures { result ≡ sizes_hold (lent_of image.now lent) }
{
    let size = lent.size;
    is_size(size)
        && image.len() % size == 0
        && (1..=MOST_BLOCKS).contains(&(image.len() / size))
        && is_slots(lent.slots)
}

// 1: the tree's lengths and flags are u32.
#[tactic(auto, unfolding(crate::specs::Hold::info_holds))]
pub fn info_holds(info: BTreeInfo) -> bool
    ensures { result ≡ info_holds info }
{
    info.flags < U32_END
        && info.key_size < U32_END
        && info.val_size < U32_END
        && info.longest_key < U32_END
        && info.longest_val < U32_END
}

// A map is lent to a virtual tree and to no other.
#[tactic(auto, using(crate::specs::laws::refusal1::Lent::map_long))]
fn map_holds(map: Option<u64>, by_id: bool) -> bool
    ensures { result ≡ eqb (length (option_to_list map)) (cond by_id 1 0) }
{
    map.is_some() == by_id
}

// 1: sizes, order, the tree's numbers; whatever the slots hold.
#[tactic(auto, using(crate::specs::laws::refusal1::Lent::numbers_is))]
pub fn numbers_hold(t: Tree, image: &[u8], lent: Lent) -> bool
    ensures { (heads bytes : List ℕ)
        → result ≡ numbers_hold (lent_of image.now lent) (state_of lent.size t heads bytes) }
{
    let order = t.order;
    sizes_hold(image, lent)
        && t.info.node_size == lent.size as u64
        && order.known()
        && info_holds(t.info)
        && map_holds(lent.map, t.by_id)
        && t.used <= lent.slots
}

// Words and bytes for the slots and their shadows, a mark a slot; no more slots in use than there are.
#[tactic(auto, unfolding(crate::specs::internal::Holding::room_holds))]
pub fn room_holds(heads: &[u64], bytes: &[u8], used: usize, lent: Lent) -> bool
    requires { (lent.size ≤ 65536) × (lent.slots ≤ 4096) }
    ensures { result ≡ room_holds lent.size lent.slots used heads.now bytes.now }
{
    heads.len() == head_words(lent.slots)
        && bytes.len() == slot_bytes(lent.slots, lent.size)
        && used <= lent.slots
}

// 1, of the workspace and of a call that is lent no bitmap.
#[tactic(auto, using(crate::specs::laws::refusal1::Ready::checked), unfolding(crate::specs::Hold::lent_holds))]
pub fn lent_holds(t: Tree, image: &[u8], heads: &[u64], bytes: &[u8], lent: Lent) -> bool
    ensures { result ≡ workspace_holds lent.size lent.slots t.used heads.now bytes.now
        && lent_holds (lent_of image.now lent) (state_of lent.size t heads.now bytes.now) }
{
    numbers_hold(t, image, lent)
        && room_holds(heads, bytes, t.used, lent)
        && Slots {
            tree: t,
            heads,
            bytes,
            lent,
        }
        .hold_together()
}

// 1, of an edit: also the scratch, for a key on its way from slot to slot and for what a drop removes.
#[tactic(auto, using(crate::specs::laws::refusal1::EditCalls::scratched), unfolding(crate::specs::Workspace::scratch_holds))]
pub fn edit_holds(
    t: Tree,
    image: &[u8],
    heads: &[u64],
    bytes: &[u8],
    lent: Lent,
    scratch: &[u8],
) -> bool
    ensures { result ≡ (workspace_holds lent.size lent.slots t.used heads.now bytes.now
        && lent_holds (lent_of image.now lent) (state_of lent.size t heads.now bytes.now))
        && scratch_holds lent.size lent.slots scratch.now }
{
    lent_holds(t, image, heads, bytes, lent)
        && scratch.len() == scratch_bytes(lent.slots, lent.size)
}
