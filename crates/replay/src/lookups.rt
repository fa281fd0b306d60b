// Open and the lookups.
use crate::fault::Fault;
use crate::memory::Workspace;
use crate::state::{Opened, Place, State};
use crate::{answers, keys, limits};
use node::order::Order;
use script::words::ByteString;
use tree::get::Copied;
use tree::lookup;
use tree::range::Ranged;

impl State<'_> {
    // (open ROOT ORDER XID): a refused open keeps the old tree.
    pub fn open(&mut self, root: u64, order: Order, xid: u64) -> Result<(), Fault> {
        let place = Place {
            root,
            order,
            xid,
            map: self.map,
            moved: 0,
        };
        let Workspace {
            image,
            heads,
            bytes,
            scratch: _,
            lent,
        } = self.memory.workspace(place.map)?;
        let tree = lookup::open(image, heads, bytes, lent, root, order, xid)?;
        self.walked = Some(place);
        self.accept(Opened { tree, place }, b"open 0");
        Ok(())
    }

    // (get KEY)
    pub fn get(&mut self, key: ByteString) -> Result<(), Fault> {
        let Opened { tree, place } = self.opened()?;
        let mut room = [0; limits::BYTES];
        let key = keys::read(key, &mut room)?;
        let Workspace {
            image,
            heads,
            bytes,
            scratch,
            lent,
        } = self.memory.workspace(place.map)?;
        let (tree, found) = tree.get(image, heads, bytes, lent, key, scratch)?;
        self.opened = Some(Opened { tree, place });
        match found {
            None => self.out.text(b"(get 0 none)\n"),
            Some(Copied::Ghost) => self.out.text(b"(get 0 -)\n"),
            Some(Copied::Value(n)) => {
                self.out.open(b"get 0");
                answers::part(&mut self.out, scratch, 0, n);
                self.out.close();
            }
        }
        Ok(())
    }

    // (floor KEY)
    pub fn floor(&mut self, key: ByteString) -> Result<(), Fault> {
        let Opened { tree, place } = self.opened()?;
        let mut room = [0; limits::BYTES];
        let key = keys::read(key, &mut room)?;
        let Workspace {
            image,
            heads,
            bytes,
            scratch,
            lent,
        } = self.memory.workspace(place.map)?;
        let (tree, found) = tree.floor(image, heads, bytes, lent, key, scratch)?;
        self.opened = Some(Opened { tree, place });
        match found {
            None => self.out.text(b"(floor 0 none)\n"),
            Some(_) => {
                self.out.open(b"floor 0");
                answers::record(&mut self.out, scratch);
                self.out.close();
            }
        }
        Ok(())
    }

    // (range LO HI)
    pub fn range(&mut self, low: ByteString, high: ByteString) -> Result<(), Fault> {
        let Opened { tree, place } = self.opened()?;
        let mut low_room = [0; limits::BYTES];
        let mut high_room = [0; limits::BYTES];
        let low = keys::read(low, &mut low_room)?;
        let high = keys::read(high, &mut high_room)?;
        let Workspace {
            image,
            heads,
            bytes,
            scratch,
            lent,
        } = self.memory.workspace(place.map)?;
        let Ranged { tree, count, .. } = tree.range(image, heads, bytes, lent, low, high, scratch)?;
        self.opened = Some(Opened { tree, place });
        self.out.open(b"range 0");
        self.out.number(count);
        answers::records(&mut self.out, scratch, count);
        self.out.close();
        Ok(())
    }
}
