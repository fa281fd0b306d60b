// Lines that store bytes, seals, bits and counts of the image as they are given.
use crate::fault::Fault;
use crate::memory::Memory;
use crate::state::State;
use flush::space;
use script::words::ByteString;
use seal::checksum;

impl Memory<'_> {
    // A block's bit set, the free count of its chunk lowered if the bit was 0; a count of 0 stays.
    pub fn mark(&mut self, a: usize) {
        let Some(sizes) = self.sizes else {
            return;
        };
        if self.bitmap.len() <= a / 8 || space::is_used(self.bitmap, a) {
            return;
        }
        space::mark_used(self.bitmap, a);
        if let Some(free) = self.free.get_mut(a / sizes.chunk()) {
            *free = free.saturating_sub(1);
        }
    }
}

impl State<'_> {
    // (block ADDR xHEX)
    pub fn block(&mut self, a: u64, bytes: ByteString) -> Result<(), Fault> {
        let rest = self.memory.image_from(a)?;
        if rest.len() < bytes.len() {
            return Err(Fault::NotTaken);
        }
        bytes.decode(rest);
        self.out.one(b"block", a);
        Ok(())
    }

    // (seal ADDR)
    pub fn seal(&mut self, a: u64) -> Result<(), Fault> {
        let block = self.memory.block(a)?;
        if block.len() < 8 {
            return Err(Fault::NotTaken);
        }
        checksum::seal(block);
        self.out.one(b"seal", a);
        Ok(())
    }

    // (mark ADDR COUNT)
    pub fn mark(&mut self, a: u64, n: u64) -> Result<(), Fault> {
        let blocks = self.memory.sizes()?.blocks as u64;
        if blocks < a || blocks - a < n {
            return Err(Fault::NotTaken);
        }
        for b in a..a + n {
            self.memory.mark(b as usize);
        }
        self.out.two(b"mark", a, n);
        Ok(())
    }

    // (count CHUNK BLOCKS FREE)
    pub fn count(&mut self, chunk: u64, blocks: u64, free: u64) -> Result<(), Fault> {
        let n = u32::try_from(blocks)?;
        let f = u32::try_from(free)?;
        let c = chunk as usize;
        if self.memory.sizes()?.chunks() <= c || self.memory.counts.len() <= c {
            return Err(Fault::NotTaken);
        }
        self.memory.counts[c] = n;
        self.memory.free[c] = f;
        self.out.two_open(b"count", chunk, blocks);
        self.out.number(free);
        self.out.close();
        Ok(())
    }
}
