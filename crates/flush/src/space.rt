// Blocks: the bitmap's bits, the choice of a block, the usable blocks (`alloc` of write/space.rs).
// A chunk's block count and free count are u32, as they are lent (RULES: lent).
ghost use Rattle.std.specs.Prelude.{◌≡◌, [], cond, ◌&&◌, leb, ◌+◌, ◌*◌, ◌/◌, ◌%◌, ◌≤◌, ◌<◌, ◌^◌, length, get_or, eqb, option_to_list};
ghost use Rattle.flush.specs.Space.{chunk_blocks, is_used, mark_used, first_zero, first_free, zeros_below, zeros, choose, choice_means, space_of, allocated, lesser, usable, chunks_hold, space_holds, Held};

// The block that an allocation takes, and its chunk.
#[derive(Clone, Copy)]
pub struct Choice {
    pub chunk: usize,
    pub block: usize,
}

// The lowest 0 bit of a byte, 8 if there is none.
#[tactic(auto, using(crate::specs::laws::SpaceSteps::ones_first))]
pub fn first_zero(byte: u8) -> usize
    ensures { result ≡ first_zero byte }
{
    byte.trailing_ones() as usize
}

// Whether a block is used: its bit is 1.
#[tactic(auto, using(crate::specs::laws::SpaceSteps::used_is))]
pub fn is_used(bitmap: &[u8], a: usize) -> bool
    requires { a / 8 < length bitmap.now }
    ensures { result ≡ is_used bitmap.now a }
{
    bitmap[a / 8] >> (a % 8) & 1 == 1
}

// Sets a block's bit, and no other.
#[tactic(auto, using(crate::specs::laws::SpaceSteps::marked_is))]
pub fn mark_used(bitmap: &mut [u8], a: usize)
    requires { a / 8 < length bitmap.old }
    ensures { bitmap.new ≡ mark_used bitmap.old a }
{
    bitmap[a / 8] |= 1 << (a % 8);
}

// The lowest of n blocks from a on that is free, a whole byte at a time: a chunk's bits start at a byte.
#[tactic(auto, using(crate::specs::laws::SpaceSteps::first))]
pub fn first_free(bitmap: &[u8], a: usize, n: usize) -> Option<usize>
    requires { (a % 8 ≡ 0) × (a + n ≤ 8 * length bitmap.now) × (length bitmap.now ≤ 2 ^ 25) }
    ensures { option_to_list result ≡ first_free bitmap.now n a }
{
    for i in (0..n).step_by(8) {
        let z = first_zero(bitmap[(a + i) / 8]);
        if z < 8 {
            return (i + z < n).then_some(a + i + z);
        }
    }
    None
}

// How many of the lowest m bits of a byte are 0.
#[tactic(auto, using(crate::specs::laws::SpaceSteps::counting))]
fn zeros_in(byte: u8, m: usize) -> usize
    requires { m ≤ 8 }
    ensures { (result ≡ zeros_below m byte) × (result ≤ 8) }
{
    let mask = (1u32 << m) - 1;
    m - u32::count_ones(byte as u32 & mask) as usize
}

// How many of n blocks from a on are free, a whole byte at a time.
pub fn zeros(bitmap: &[u8], a: usize, n: usize) -> usize
    requires { (a % 8 ≡ 0) × (a + n ≤ 8 * length bitmap.now) × (length bitmap.now ≤ 2 ^ 25) }
    ensures { (result ≡ zeros bitmap.now n a) × (result ≤ n) }
{
    (0..n.div_ceil(8))
        .map(|k| zeros_in(bitmap[a / 8 + k], (n - 8 * k).min(8)))
        .sum()
}

// The chunks that are lent: a block of the bitmap for each, and its two counts. They hold.
#[derive(Clone, Copy)]
pub struct Chunks<'a> {
    pub bitmap: &'a [u8],
    pub counts: &'a [u32],
    pub free: &'a [u32],
    pub size: usize,
    ghost held: { Held size (space_of bitmap.now counts.now free.now) },
}

impl<'a> Chunks<'a> {
    // The lowest free block of a chunk; none where its free count is 0.
    #[tactic(auto, using(crate::specs::laws::SpaceSteps::finding))]
    fn free_in(self, c: usize) -> Option<usize>
        requires { c < length self.counts.now }
        ensures { option_to_list result
            ≡ cond (eqb (get_or self.entry.free.now c 0) 0) []
            (first_free self.entry.bitmap.now (get_or self.entry.counts.now c 0) (c * chunk_blocks self.entry.size)) }
    {
        if self.free[c] == 0 {
            return None;
        }
        first_free(self.bitmap, c * (8 * self.size), self.counts[c] as usize)
    }

    // The block to take: the lowest free one of the first chunk that has one and a free count.
    #[tactic(auto, using(crate::specs::laws::SpaceSteps::choosing))]
    pub fn choose(self) -> Option<Choice>
        ensures { choice_means result ≡ choose self.entry.size (space_of self.entry.bitmap.now self.entry.counts.now self.entry.free.now) }
    {
        for c in 0..self.counts.len() {
            if let Some(block) = self.free_in(c) {
                return Some(Choice { chunk: c, block });
            }
        }
        None
    }

    // The usable blocks of a chunk: the smaller of its free count and its 0 bits.
    #[tactic(auto, using(crate::specs::laws::SpaceSteps::using_up))]
    fn usable_in(self, c: usize) -> usize
        requires { c < length self.counts.now }
        ensures { (result
            ≡ lesser (get_or self.entry.free.now c 0)
            (zeros self.entry.bitmap.now (get_or self.entry.counts.now c 0) (c * chunk_blocks self.entry.size))) × (result ≤ 8 * self.entry.size) }
    {
        let all = zeros(self.bitmap, c * (8 * self.size), self.counts[c] as usize);
        all.min(self.free[c] as usize)
    }

    // The usable blocks of all chunks.
    pub fn usable(self) -> u64
        ensures { result ≡ usable self.entry.size (space_of self.entry.bitmap.now self.entry.counts.now self.entry.free.now) }
    {
        let sum: usize = (0..self.counts.len()).map(|c| self.usable_in(c)).sum();
        sum as u64
    }
}

// Takes the block chosen: its bit set, its chunk's free count less one.
#[tactic(auto, using(crate::specs::laws::SpaceSteps::taking))]
pub fn alloc(bitmap: &mut [u8], counts: &[u32], free: &mut [u32], size: usize) -> Option<Choice>
    requires { Held size (space_of bitmap.old counts.now free.old) }
    ensures answer { choice_means result ≡ choose size (space_of bitmap.old counts.now free.old) }
    ensures after { space_of bitmap.new counts.now free.new
        ≡ allocated size (space_of bitmap.old counts.now free.old) }
{
    let chunks = Chunks {
        bitmap,
        counts,
        free,
        size,
    };
    let choice = chunks.choose()?;
    mark_used(bitmap, choice.block);
    free[choice.chunk] -= 1;
    Some(choice)
}

// Whether a chunk's block count is at most a chunk's blocks, and its blocks lie in the image. Nothing is asked of size and blocks,
// so the chunk's first block is no product: that may not fit.
#[tactic(auto, using(crate::specs::laws::SpaceSteps::chunking))]
fn chunk_holds(c: usize, n: usize, size: usize, blocks: usize) -> bool
    ensures { result ≡ leb n (chunk_blocks size) && leb (c * chunk_blocks size + n) blocks }
{
    n.div_ceil(8) <= size && n <= blocks && (size == 0 || c <= (blocks - n) / 8 / size)
}

// The same of each chunk.
pub fn chunks_hold(counts: &[u32], size: usize, blocks: usize) -> bool
    ensures { result ≡ chunks_hold size blocks 0 counts.now }
{
    counts
        .iter()
        .enumerate()
        .all(|(c, &n)| chunk_holds(c, n as usize, size, blocks))
}

// Whether the bitmap has a block, and there are two counts, for each chunk, and the chunks hold. The chunks come first: the product fits then.
#[tactic(auto, using(crate::specs::laws::SpaceSteps::holding))]
pub fn space_holds(bitmap: &[u8], counts: &[u32], free: &[u32], size: usize, blocks: usize) -> bool
    ensures { result ≡ space_holds size blocks (space_of bitmap.now counts.now free.now) }
{
    chunks_hold(counts, size, blocks)
        && free.len() == counts.len()
        && bitmap.len() == counts.len() * size
}
