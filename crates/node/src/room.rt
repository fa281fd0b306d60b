// What keys, values and contents take in a block, as packed (`layout` of btree_write.rs).
ghost use Rattle.std.specs.Prelude.{◌≡◌, ◌+◌, ◌≤◌, ◌<◌, ◌^◌};
ghost use Rattle.node.specs.Fit.{Sized, padded, data_space, slot_width, fixed_value, toc_slots, toc_length};

use crate::info::BTreeInfo;
use crate::layout;

// A length as packed (`pad` of `layout`): 0x40 is BTREE_KV_NONALIGNED.
#[tactic(auto, unfolding(crate::specs::Fit::padded, crate::specs::Fit::align8))]
pub fn padded(info: BTreeInfo, n: u64) -> u64
    requires { n < 2 ^ 32 }
    ensures { (result ≡ padded info n) × (result ≤ n + 7) }
{
    if layout::flag(info.flags, layout::BTREE_KV_NONALIGNED) {
        n
    } else {
        n.next_multiple_of(8)
    }
}

#[tactic(auto, unfolding(crate::specs::Fit::data_space))]
pub fn data_space(node_size: u64, root: bool) -> u64
    requires { 512 ≤ node_size }
    ensures { (result ≡ data_space node_size root) × (0 < result) × (result ≤ node_size) }
{
    let tail = if root { layout::BTREE_INFO_SIZE } else { 0 };
    node_size - (layout::BTN_DATA + tail) as u64
}

// A contents slot: offsets alone where lengths are fixed (`kvoff_t`), else offsets and lengths (`kvloc_t`).
#[tactic(auto, unfolding(crate::specs::Fit::slot_width))]
pub fn slot_width(info: BTreeInfo) -> u64
    ensures { (result ≡ slot_width info) × (result ≤ 8) }
{
    if info.is_fixed() { 4 } else { 8 }
}

// What says how much a node holds: its tree's numbers, which the code can compute with, whether it is the root, and its
// level.
#[derive(Clone, Copy)]
pub struct Shape {
    pub info: BTreeInfo,
    pub root: bool,
    pub level: u64,
    ghost sized: { Sized info },
}

impl Shape {
    // The fixed length of a value.
    #[tactic(auto, unfolding(crate::specs::Fit::fixed_value))]
    fn fixed_value(self) -> u64
        ensures { (result ≡ fixed_value self.info self.level) × (result < 2 ^ 32) }
    {
        if self.level == 0 {
            self.info.val_size
        } else {
            8
        }
    }

    pub fn data_space(self) -> u64
        ensures { (result ≡ data_space self.info.node_size self.root) × (result ≤ self.info.node_size) }
    {
        data_space(self.info.node_size, self.root)
    }

    // Slots of the contents of n entries.
    #[tactic(auto, unfolding(crate::specs::Fit::toc_slots, crate::specs::Fit::greater, crate::specs::Fit::align8))]
    pub fn toc_slots(self, n: u64) -> u64
        requires { n < 2 ^ 32 }
        ensures { (result ≡ toc_slots self.info self.root self.level n) × (result < 2 ^ 33) }
    {
        if self.info.is_fixed() {
            (self.data_space() / (4 + self.info.key_size + self.fixed_value())).next_multiple_of(8)
        } else {
            n.next_multiple_of(8).max(16)
        }
    }

    #[tactic(auto, unfolding(crate::specs::Fit::toc_length))]
    pub fn toc_length(self, n: u64) -> u64
        requires { n < 2 ^ 32 }
        ensures { (result ≡ toc_length self.info self.root self.level n) × (result < 2 ^ 36) }
    {
        self.toc_slots(n) * slot_width(self.info)
    }
}
