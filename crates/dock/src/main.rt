// An object map of 32 blocks of 512, edited by lines of standard input.
//   (new)                makes the image: an empty physical pair tree, keys and values of 16 bytes, at block 0
//   (put ID XID ADDR)    prints (put REFUSAL ENTRIES)
//   (flush XID)          prints (flush 0 ROOT ALLOCATED FREED ENTRIES FILL) or (flush REFUSAL); the tree is opened again
// A refused call and a line that is none of these leave everything as it is. An empty line is passed over.
#![tactic(auto)]

mod desk;
mod line;

use desk::Desk;
use line::Line;
use script::input::{Lines, TooLong};
use script::out::Out;
use std::io;

// Room for a line.
const ROOM: usize = 256;

// Line after line, until there is none.
fn run(desk: &mut Desk, lines: &mut Lines, out: &mut Out) {
    let mut room = [0u8; ROOM];
    for _turn in 0..u64::MAX {
        match lines.next(&mut room) {
            None => break,
            Some(Ok(0)) => {}
            Some(Ok(n)) => desk.answer(Line::read(&room[..n]), out),
            Some(Err(TooLong)) => desk.answer(None, out),
        }
    }
    out.flush();
}

fn main(rt: HostRuntime) -> io::Result<()> {
    let mut desk = Desk::new();
    let mut lines = Lines::new(rt.stdin());
    let mut out = Out::new(rt.stdout());
    run(&mut desk, &mut lines, &mut out);
    lines.done()?;
    out.done()
}
