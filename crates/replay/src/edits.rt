// The edits.
use crate::fault::Fault;
use crate::memory::Workspace;
use crate::state::{Opened, State};
use crate::{keys, limits};
use script::words::ByteString;

impl State<'_> {
    // (upsert KEY VALUE), or (upsert KEY -) for a ghost
    pub fn upsert(&mut self, key: ByteString, value: Option<ByteString>) -> Result<(), Fault> {
        let Opened { tree, place } = self.opened()?;
        let mut key_room = [0; limits::BYTES];
        let mut value_room = [0; limits::BYTES];
        let key = keys::read(key, &mut key_room)?;
        let value = value
            .map(|word| keys::read(word, &mut value_room))
            .transpose()?;
        let Workspace {
            image,
            heads,
            bytes,
            scratch,
            lent,
        } = self.memory.workspace(place.map)?;
        let tree = tree.upsert(image, heads, bytes, lent, key, value, scratch)?;
        self.accept(Opened { tree, place }, b"upsert 0");
        Ok(())
    }

    // (remove KEY)
    pub fn remove(&mut self, key: ByteString) -> Result<(), Fault> {
        let Opened { tree, place } = self.opened()?;
        let mut room = [0; limits::BYTES];
        let key = keys::read(key, &mut room)?;
        let Workspace {
            image,
            heads,
            bytes,
            scratch,
            lent,
        } = self.memory.workspace(place.map)?;
        let (tree, found) = tree.remove(image, heads, bytes, lent, key, scratch)?;
        let answer: &[u8] = if found {
            b"remove 0 yes"
        } else {
            b"remove 0 no"
        };
        self.accept(Opened { tree, place }, answer);
        Ok(())
    }

    // (put ID XID ADDR)
    pub fn put(&mut self, id: u64, xid: u64, a: u64) -> Result<(), Fault> {
        let Opened { tree, place } = self.opened()?;
        let size = self.memory.sizes()?.size as u64;
        let Workspace {
            image,
            heads,
            bytes,
            scratch,
            lent,
        } = self.memory.workspace(place.map)?;
        let tree = tree.omap_put(image, heads, bytes, lent, id, xid, a, size, scratch)?;
        self.accept(Opened { tree, place }, b"put 0");
        Ok(())
    }

    // (drop ID)
    pub fn drop_id(&mut self, id: u64) -> Result<(), Fault> {
        let Opened { tree, place } = self.opened()?;
        let Workspace {
            image,
            heads,
            bytes,
            scratch,
            lent,
        } = self.memory.workspace(place.map)?;
        let tree = tree.omap_drop(image, heads, bytes, lent, id, scratch)?;
        self.accept(Opened { tree, place }, b"drop 0");
        Ok(())
    }
}
