// What the program remembers from line to line, its memory, and where it answers.
use crate::fault::Fault;
use crate::memory::Memory;
use node::order::Order;
use script::out::Out;
use std::io::Stdout;
use tree::editor::Tree;

// A root, and how it is found: with the map that is lent, if one is, and with the blocks that a flush moved ids to.
#[derive(Clone, Copy)]
pub struct Place {
    pub root: u64,
    pub order: Order,
    pub xid: u64,
    pub map: Option<u64>,
    // How many ids the lists of the last flush say.
    pub moved: usize,
}

// The open tree, and where it was opened.
#[derive(Clone, Copy)]
pub struct Opened {
    pub tree: Tree,
    pub place: Place,
}

#[derive(Drop)]
pub struct State<'a> {
    pub memory: Memory<'a>,
    pub out: Out,
    // The map lent from the next open on.
    pub map: Option<u64>,
    pub opened: Option<Opened>,
    // The root last opened or flushed.
    pub walked: Option<Place>,
}

impl<'a> State<'a> {
    // No tree and no map.
    pub fn new(memory: Memory<'a>, to: Stdout) -> State<'a> {
        State {
            memory,
            out: Out::new(to),
            map: None,
            opened: None,
            walked: None,
        }
    }

    // The open tree.
    pub fn opened(&self) -> Result<Opened, Fault> {
        self.opened.ok_or(Fault::NotTaken)
    }

    // An edit or an open is accepted: the tree that it leaves, and an answer that ends in its counts.
    pub fn accept(&mut self, opened: Opened, answer: &[u8]) {
        self.opened = Some(opened);
        let info = opened.tree.info;
        self.out.two(answer, info.key_count, info.node_count);
    }
}
