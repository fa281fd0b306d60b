// How much the caller is to lend for so many slots of a block size: 0 where open takes no such slots or size.
ghost use Rattle.std.specs.Prelude.{◌≡◌};
ghost use Rattle.moachest.specs.Sizes.{workspace_words, workspace_bytes, scratch_bytes};

use tree::lent;

// Words of the workspace.
#[tactic(auto, using(crate::specs::laws::SizeLaws::sized), unfolding(crate::specs::Sizes::workspace_words))]
pub fn workspace_words(slots: usize) -> u64
    ensures { result ≡ workspace_words slots }
{
    if lent::is_slots(slots) {
        lent::head_words(slots) as u64
    } else {
        0
    }
}

// Bytes of the workspace.
#[tactic(auto, using(crate::specs::laws::SizeLaws::sized), unfolding(crate::specs::Sizes::workspace_bytes))]
pub fn workspace_bytes(slots: usize, size: usize) -> u64
    ensures { result ≡ workspace_bytes slots size }
{
    if lent::is_slots(slots) && lent::is_size(size) {
        lent::slot_bytes(slots, size) as u64
    } else {
        0
    }
}

// Bytes of the scratch.
#[tactic(auto, using(crate::specs::laws::SizeLaws::sized), unfolding(crate::specs::Sizes::scratch_bytes))]
pub fn scratch_bytes(slots: usize, size: usize) -> u64
    ensures { result ≡ scratch_bytes slots size }
{
    if lent::is_slots(slots) && lent::is_size(size) {
        lent::scratch_bytes(slots, size) as u64
    } else {
        0
    }
}
