// How much of the memory an image and the slots take.
ghost use Rattle.std.specs.Prelude.{◌≡◌, ◌*◌, ◌≤◌};

use crate::limits;
use tree::lent;
use tree::lent::Lent;

// Slots until a line says how many.
const FIRST_SLOTS: usize = 64;

// The image's blocks and their size, which is a node's; the slots.
#[derive(Clone, Copy)]
pub struct Sizes {
    pub blocks: usize,
    pub size: usize,
    pub slots: usize,
    ghost least: { 512 ≤ size },
    ghost most: { size ≤ 65536 },
    ghost room: { blocks * size ≤ 4194304 },
    ghost few: { slots ≤ 4096 },
}

impl Sizes {
    // Those of an image, where there is room for it.
    #[tactic(auto, using(tree::specs::laws::refusal1::Sizes::size_bounds))]
    pub fn of_image(blocks: usize, size: usize) -> Option<Sizes> {
        let fits = blocks.saturating_mul(size) <= limits::IMAGE;
        if blocks == 0 || !lent::is_size(size) || !fits {
            return None;
        }
        Some(Sizes {
            blocks,
            size,
            slots: FIRST_SLOTS,
        })
    }

    // The same with other slots.
    pub fn with_slots(self, slots: usize) -> Sizes
        requires { slots ≤ 4096 }
    {
        Sizes {
            blocks: self.blocks,
            size: self.size,
            slots,
        }
    }

    // What a call on a tree is lent, with a map or without.
    pub fn lent(self, map: Option<u64>) -> Lent
        ensures { result.size ≡ self.size }
    {
        Lent {
            size: self.size,
            slots: self.slots,
            map,
        }
    }

    // Blocks of a chunk: a bit each in a block.
    pub fn chunk(self) -> usize
        ensures { result ≡ self.size * 8 }
    {
        self.size * 8
    }

    // Chunks of the bitmap.
    pub fn chunks(self) -> usize
        ensures { result ≤ self.blocks }
    {
        self.blocks.div_ceil(self.chunk())
    }

    // Bytes of the bitmap: a block a chunk.
    pub fn bitmap_bytes(self) -> usize {
        self.chunks() * self.size
    }

    // Bytes of the image.
    pub fn image_bytes(self) -> usize
        ensures { result ≡ self.blocks * self.size }
    {
        self.blocks * self.size
    }

    // Words of the slots.
    pub fn head_words(self) -> usize
        ensures { result ≡ self.slots * 19 }
    {
        lent::head_words(self.slots)
    }

    // Bytes of the slots and their shadows.
    pub fn slot_bytes(self) -> usize {
        lent::slot_bytes(self.slots, self.size)
    }

    // Bytes of the scratch.
    pub fn scratch_bytes(self) -> usize {
        lent::scratch_bytes(self.slots, self.size)
    }
}
