// What fits in the program's fixed memory (main.rt says it in words).
use tree::lent;

// Bytes of an image.
pub const IMAGE: usize = 4194304;

// Slots times block size, at most.
pub const ROOM: usize = 262144;

// Slots, at most: as many as there are of the smallest block.
pub const SLOTS: usize = 512;

// Words and bytes of the workspace for so many slots, and of the scratch.
pub const HEADS: usize = SLOTS * lent::WORDS_EACH;

pub const WORK: usize = lent::BLOCKS_EACH * ROOM;

pub const SCRATCH: usize = 655360;

// A bitmap's bytes, and its chunks: two of the smallest block.
pub const BITMAP: usize = 65536;

pub const CHUNKS: usize = 2;

// Bytes of a line, and of a key or a value on it.
pub const LINE: usize = 132096;

pub const BYTES: usize = 66048;
