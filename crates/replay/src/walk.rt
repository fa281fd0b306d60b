// A walk over the leaves from the root last opened or flushed, each node read where it lies in the image.
ghost use Rattle.std.specs.Prelude.{◌<◌, ◌/◌, length, OnOk};

use crate::fault::Fault;
use crate::memory::{Memory, first_mut};
use crate::state::{Place, State};
use node::read;
use node::read::{Parent, ReadEntry, ReadNode};
use node::val::{Child, Val};
use tree::editor::Bounds;
use tree::map::UNBOUNDED;
use tree::mapped::Blocks;
use tree::refusal::Refusal;

// What a walk reads: the image, what is lent to a call on its tree, the root, and the lists of where the last flush
// moved ids.
#[derive(Clone, Copy)]
pub struct Walk<'a> {
    blocks: Blocks<'a>,
    place: Place,
    ids: &'a [u64],
    places: &'a [u64],
}

impl<'a> Walk<'a> {
    // The address of a reference: of an id that the last flush moved its new one.
    fn address(self, r: u64) -> Result<u64, Fault> {
        if self.place.map.is_some() {
            let mut moved = self.ids.iter().zip(self.places);
            if let Some((_, a)) = moved.find(|(id, _)| **id == r) {
                return Ok(*a);
            }
        }
        Ok(self.blocks.address_of(self.place.xid, r)?)
    }

    // The node at an address, in its place.
    fn load(self, place: read::Place, a: u64) -> Result<ReadNode<'a>, Fault>
        ensures { OnOk result (a < length self.entry.blocks.image.now / self.entry.blocks.lent.size) }
    {
        let order = self.place.order;
        Ok(self.blocks.load_block(order, place, a)?)
    }

    // The bounds of an entry's child: its key, and the next one, or where there is none its parent's.
    fn bounds(self, entry: ReadEntry<'a>, b: Bounds<&'a [u8]>) -> Bounds<&'a [u8]> {
        let next = entry.index + 1;
        let upper = if next < entry.read.node.nkeys as usize {
            Some(entry.read.entry(next).key())
        } else {
            b.upper
        };
        Bounds {
            lower: Some(entry.key()),
            upper,
        }
    }

    // The child of an entry, within its bounds.
    fn child(self, entry: ReadEntry<'a>, b: Bounds<&'a [u8]>) -> Result<ReadNode<'a>, Fault> {
        let Val::Child(Child::Disk(r)) = entry.value() else {
            return Err(Fault::Refused(Refusal::Lent));
        };
        let v = entry.read.node;
        let Bounds { lower, upper } = b;
        let parent = Parent {
            level: v.level,
            ksize: v.ksize,
            vsize: v.vsize,
            lower,
        };
        let place = read::Place {
            oid: r,
            parent: Some(parent),
            upper,
        };
        self.load(place, self.address(r)?)
    }

    // The root, held to 10 as open has it.
    fn root(self) -> Result<ReadNode<'a>, Fault> {
        let root = self.place.root;
        let a = self.address(root)?;
        let read = self.load(read::Place::root(root), a)?;
        let by_id = self.place.map.is_some();
        self.blocks.root_info(a, by_id, read.node)?;
        Ok(read)
    }

    // The leaves below a node, d levels down, each handed on.
    fn below<F: FnMut(ReadNode)>(
        self,
        read: ReadNode<'a>,
        b: Bounds<&'a [u8]>,
        d: u64,
        to: &mut F,
    ) -> Result<(), Fault>
        requires { (state : F) (x : _) → F.pre state x }
    {
        if d == 0 {
            to(read);
            return Ok(());
        }
        for i in 0..read.node.nkeys as usize {
            let entry = read.entry(i);
            let inner = self.bounds(entry, b);
            let child = self.child(entry, inner)?;
            self.below(child, inner, d - 1, to)?;
        }
        Ok(())
    }

    // The leaves from the root on, each handed on.
    pub fn leaves<F: FnMut(ReadNode)>(self, mut to: F) -> Result<(), Fault>
        requires { (state : F) (x : _) → F.pre state x }
    {
        let root = self.root()?;
        self.below(root, UNBOUNDED, root.node.level, &mut to)
    }
}

impl Memory<'_> {
    // What is read by a walk from a root.
    pub fn walk(&mut self, place: Place) -> Result<Walk<'_>, Fault> {
        let s = self.sizes()?;
        let lent = s.lent(place.map);
        let Memory {
            image,
            ids,
            places,
            ..
        } = self;
        let image = first_mut(image, s.image_bytes())?;
        Ok(Walk {
            blocks: Blocks { image, lent },
            place,
            ids: first_mut(ids, place.moved)?,
            places: first_mut(places, place.moved)?,
        })
    }
}
