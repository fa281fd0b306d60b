// Lines that set up the image, the slots and the object map.
use crate::fault::Fault;
use crate::limits;
use crate::memory::{Memory, first_mut};
use crate::sizes::Sizes;
use crate::state::State;
use tree::lent;

impl Memory<'_> {
    // Each chunk's block count what remains for it, its free count the same.
    fn count_chunks(&mut self, blocks: u32, each: u32) {
        let mut rest = blocks;
        for count in self.counts.iter_mut() {
            *count = rest.min(each);
            rest -= *count;
        }
        *self.free = *self.counts;
    }

    // An image of zeros, and its block accounts.
    fn wipe(&mut self, sizes: Sizes) -> Result<(), Fault> {
        self.sizes = Some(sizes);
        first_mut(self.image, sizes.image_bytes())?.fill(0);
        self.bitmap.fill(0);
        self.count_chunks(sizes.blocks as u32, sizes.chunk() as u32);
        Ok(())
    }
}

impl State<'_> {
    // (image BLOCKS SIZE)
    pub fn image(&mut self, blocks: u64, size: u64) -> Result<(), Fault> {
        let sizes = Sizes::of_image(blocks as usize, size as usize).ok_or(Fault::NotTaken)?;
        self.memory.wipe(sizes)?;
        self.map = None;
        self.opened = None;
        self.walked = None;
        self.out.two(b"image", blocks, size);
        Ok(())
    }

    // (slots N)
    pub fn slots(&mut self, n: u64) -> Result<(), Fault> {
        let slots = n as usize;
        let size = self.memory.sizes.map_or(0, |s| s.size);
        if !lent::is_slots(slots) || limits::ROOM < slots.saturating_mul(size) {
            return Err(Fault::NotTaken);
        }
        if let Some(sizes) = self.memory.sizes {
            self.memory.sizes = Some(sizes.with_slots(slots));
        }
        self.opened = None;
        self.out.one(b"slots", n);
        Ok(())
    }

    // (map ADDR), or (map -) for none
    pub fn map(&mut self, map: Option<u64>) -> Result<(), Fault> {
        self.map = map;
        match map {
            Some(a) => self.out.one(b"map", a),
            None => self.out.text(b"(map -)\n"),
        }
        Ok(())
    }
}
