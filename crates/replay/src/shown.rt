// The line that shows the entries from the root last opened or flushed.
use crate::answers;
use crate::fault::Fault;
use crate::state::State;
use node::read::ReadNode;
use script::out::Out;

// The entries of a node.
fn entries(o: &mut Out, read: ReadNode) {
    for i in 0..read.node.nkeys as usize {
        let entry = read.entry(i);
        answers::entry(o, entry.key(), entry.value());
    }
}

impl State<'_> {
    // (walk): walked twice, since the answer starts with how many entries there are.
    pub fn walk(&mut self) -> Result<(), Fault> {
        let place = self.walked.ok_or(Fault::NotTaken)?;
        let walk = self.memory.walk(place)?;
        let mut count = 0u64;
        walk.leaves(|read| count = count.saturating_add(read.node.nkeys))?;
        let out = &mut self.out;
        out.open(b"walk");
        out.number(count);
        walk.leaves(|read| entries(out, read))?;
        out.close();
        Ok(())
    }
}
