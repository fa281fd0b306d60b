// Flush: what is lent to it, as long as it is to be.
use crate::fault::Fault;
use crate::memory::{Memory, first_mut};
use crate::report;
use crate::state::{Opened, Place, State};
use flush::flush::Flushed;
use tree::editor::Tree;

impl Memory<'_> {
    // A flush on what is lent of the memory.
    fn flush(
        &mut self,
        tree: Tree,
        map: Option<u64>,
        xid: u64,
        next: u64,
    ) -> Result<Flushed, Fault> {
        let s = self.sizes()?;
        let flushed = flush::flush::flush(
            tree,
            first_mut(self.image, s.image_bytes())?,
            first_mut(self.bitmap, s.bitmap_bytes())?,
            first_mut(self.counts, s.chunks())?,
            first_mut(self.free, s.chunks())?,
            first_mut(self.heads, s.head_words())?,
            first_mut(self.work, s.slot_bytes())?,
            first_mut(self.freed, s.slots)?,
            first_mut(self.removed, s.slots)?,
            first_mut(self.ids, s.slots)?,
            first_mut(self.places, s.slots)?,
            s.lent(map),
            xid,
            next,
        )?;
        Ok(flushed)
    }
}

impl State<'_> {
    // (flush XID NEXT): the tree has ended; its root is where the flush put it.
    pub fn flush(&mut self, xid: u64, next: u64) -> Result<(), Fault> {
        let Opened { tree, place } = self.opened()?;
        let old = *self.memory.bitmap;
        let f = self.memory.flush(tree, place.map, xid, next)?;
        self.opened = None;
        self.walked = Some(Place {
            root: f.root,
            moved: f.done.moved,
            ..place
        });
        report::flushed(&mut self.out, &self.memory, &old, f);
        Ok(())
    }
}
