// The program's memory: arrays of fixed lengths, made once, and the parts of them that a call is lent.
use crate::fault::Fault;
use crate::limits;
use crate::sizes::Sizes;
use tree::lent::Lent;

// The arrays are lent: a struct that held them would stand on the stack twice while it is made, past its 8 MiB.
#[derive(Drop)]
pub struct Memory<'a> {
    // None where there is no image yet.
    pub sizes: Option<Sizes>,
    pub image: &'a mut [u8; limits::IMAGE],
    pub bitmap: &'a mut [u8; limits::BITMAP],
    // A chunk's blocks, and how many of them are free.
    pub counts: &'a mut [u32; limits::CHUNKS],
    pub free: &'a mut [u32; limits::CHUNKS],
    // The slots' words, and the bytes of the slots and their shadows.
    pub heads: &'a mut [u64; limits::HEADS],
    pub work: &'a mut [u8; limits::WORK],
    pub scratch: &'a mut [u8; limits::SCRATCH],
    // The lists of a flush. Those of ids and of where each was written stay until the next.
    pub freed: &'a mut [u64; limits::SLOTS],
    pub removed: &'a mut [u64; limits::SLOTS],
    pub ids: &'a mut [u64; limits::SLOTS],
    pub places: &'a mut [u64; limits::SLOTS],
}

// What is lent to a call on the open tree, as long as it is to be.
#[derive(Drop)]
pub struct Workspace<'a> {
    pub image: &'a mut [u8],
    pub heads: &'a mut [u64],
    pub bytes: &'a mut [u8],
    pub scratch: &'a mut [u8],
    pub lent: Lent,
}

// The first n of an array, if it has so many.
pub fn first_mut<T, const N: usize>(s: &mut [T; N], n: usize) -> Result<&mut [T], Fault> {
    s.get_mut(..n).ok_or(Fault::NotTaken)
}

impl Memory<'_> {
    // The sizes, of an image that is there.
    pub fn sizes(&self) -> Result<Sizes, Fault> {
        self.sizes.ok_or(Fault::NotTaken)
    }

    // The image from a block on.
    pub fn image_from(&mut self, a: u64) -> Result<&mut [u8], Fault> {
        let s = self.sizes()?;
        if s.blocks as u64 <= a {
            return Err(Fault::NotTaken);
        }
        let start = a as usize * s.size;
        let Memory { image, .. } = self;
        let whole = first_mut(image, s.image_bytes())?;
        whole.get_mut(start..).ok_or(Fault::NotTaken)
    }

    // A block of the image.
    pub fn block(&mut self, a: u64) -> Result<&mut [u8], Fault> {
        let size = self.sizes()?.size;
        let rest = self.image_from(a)?;
        rest.get_mut(..size).ok_or(Fault::NotTaken)
    }

    // What is lent to a call on the open tree, or to the one that opens it, with a map or without: an image there has
    // to be.
    pub fn workspace(&mut self, map: Option<u64>) -> Result<Workspace<'_>, Fault> {
        let s = self.sizes()?;
        let Memory {
            image,
            heads,
            work,
            scratch,
            ..
        } = self;
        Ok(Workspace {
            image: first_mut(image, s.image_bytes())?,
            heads: first_mut(heads, s.head_words())?,
            bytes: first_mut(work, s.slot_bytes())?,
            scratch: first_mut(scratch, s.scratch_bytes())?,
            lent: s.lent(map),
        })
    }
}
