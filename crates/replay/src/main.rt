// Reads a script from standard input, a call a line, and prints the answers; a refusal has its number.
//
// Memory is fixed, so a line past one of these prints (error): an image of 4 MiB; slots times block size 256 KiB (64
// slots of 4,096 bytes, 512 of 512; an image of larger blocks starts with 64 slots, so `open` prints (error) until
// `slots` says fewer); a line of 132,096 bytes.
#![tactic(auto)]

mod answers;
mod blocks;
mod edits;
mod empty;
mod fault;
mod flushing;
mod keys;
mod limits;
mod line;
mod lookups;
mod memory;
mod report;
mod setup;
mod shown;
mod sizes;
mod state;
mod walk;

use fault::Fault;
use line::{Call, Line, SetUp};
use memory::Memory;
use script::input::{Lines, TooLong};
use state::State;
use std::io;

impl State<'_> {
    fn set_up(&mut self, line: SetUp) -> Result<(), Fault> {
        match line {
            SetUp::Image { blocks, size } => self.image(blocks, size),
            SetUp::Slots(n) => self.slots(n),
            SetUp::Block { address, bytes } => self.block(address, bytes),
            SetUp::Seal(address) => self.seal(address),
            SetUp::Mark { address, count } => self.mark(address, count),
            SetUp::Count {
                chunk,
                blocks,
                free,
            } => self.count(chunk, blocks, free),
            SetUp::Empty(root) => self.empty(root),
            SetUp::Map(map) => self.map(map),
        }
    }

    // A call, answered: by its number where it is refused.
    fn call(&mut self, call: Call) -> Result<(), Fault> {
        let answered = match call {
            Call::Open { root, order, xid } => self.open(root, order, xid),
            Call::Get(key) => self.get(key),
            Call::Floor(key) => self.floor(key),
            Call::Range { low, high } => self.range(low, high),
            Call::Upsert { key, value } => self.upsert(key, value),
            Call::Remove(key) => self.remove(key),
            Call::Put { id, xid, address } => self.put(id, xid, address),
            Call::Drop(id) => self.drop_id(id),
            Call::Flush { xid, next } => self.flush(xid, next),
            Call::Walk => self.walk(),
        };
        match answered {
            Err(Fault::Refused(x)) => {
                self.out.one(call.name(), u64::from(x));
                Ok(())
            }
            taken => taken,
        }
    }

    // A line, answered.
    fn answer(&mut self, line: Option<Line>) {
        let answered = match line {
            Some(Line::Passed) => Ok(()),
            Some(Line::SetUp(s)) => self.set_up(s),
            Some(Line::Call(c)) => self.call(c),
            None => Err(Fault::NotTaken),
        };
        if answered.is_err() {
            self.out.error();
        }
    }

    // Line after line, until there is none.
    fn run(&mut self, lines: &mut Lines, room: &mut [u8]) {
        for _ in 0..u64::MAX {
            match lines.next(room) {
                None => break,
                Some(Ok(n)) => self.answer(line::parse(&room[..n])),
                Some(Err(TooLong)) => self.answer(line::parse_long(room)),
            }
        }
        self.out.flush();
    }
}

// Each array is made once, here, and lent from then on.
fn main(rt: HostRuntime) -> io::Result<()> {
    let mut image = [0; limits::IMAGE];
    let mut bitmap = [0; limits::BITMAP];
    let mut counts = [0; limits::CHUNKS];
    let mut free = [0; limits::CHUNKS];
    let mut heads = [0; limits::HEADS];
    let mut work = [0; limits::WORK];
    let mut scratch = [0; limits::SCRATCH];
    let mut freed = [0; limits::SLOTS];
    let mut removed = [0; limits::SLOTS];
    let mut ids = [0; limits::SLOTS];
    let mut places = [0; limits::SLOTS];
    let memory = Memory {
        sizes: None,
        image: &mut image,
        bitmap: &mut bitmap,
        counts: &mut counts,
        free: &mut free,
        heads: &mut heads,
        work: &mut work,
        scratch: &mut scratch,
        freed: &mut freed,
        removed: &mut removed,
        ids: &mut ids,
        places: &mut places,
    };
    let mut state = State::new(memory, rt.stdout());
    let mut lines = Lines::new(rt.stdin());
    let mut room = [0; limits::LINE];
    state.run(&mut lines, &mut room);
    lines.done()?;
    state.out.done()
}
