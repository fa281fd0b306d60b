// The cases P1 to P12 of docs/RULES.md, run: a line a row, with what was computed and whether it is as demanded, and last how many are.
#![tactic(auto)]

mod desk;
mod rows;

use desk::Desk;
use script::out::Out;
use std::io;
use tree::refusal::Refusal;

// A row's line, and whether its numbers are as demanded.
fn row<const N: usize>(
    out: &mut Out,
    name: &[u8],
    got: Result<[u64; N], Refusal>,
    demanded: [u64; N],
) -> bool {
    out.text(name);
    if let Ok(numbers) = &got {
        for x in numbers {
            out.number(*x);
        }
    }
    let good = got == Ok(demanded);
    out.text(if good {
        b" as demanded\n"
    } else {
        b" NOT as demanded\n"
    });
    good
}

// Every row, and what the document demands of it; how many are as demanded.
fn all(desk: &mut Desk, out: &mut Out) -> usize {
    let good = [
        row(out, b"P1", Ok([rows::sum(0)]), [0xFFFFFFFFFFFFFFFF]),
        row(out, b"P2", Ok([rows::sum(1)]), [0x00000006FFFFFFF8]),
        row(out, b"P3", Ok(rows::leaf()), [1, 0, 1, 0]),
        row(out, b"P4", Ok(rows::index()), [1, 0, 1, 0]),
        row(out, b"P5", rows::single(desk), [0, 13]),
        row(out, b"P6", Ok(rows::contents()), [1, 0, 1, 0]),
        row(out, b"P7", rows::twelfth(desk), [1, 3, 6, 6]),
        row(out, b"P8", rows::stays(desk), [2, 1, 1, 0]),
        row(out, b"P9", rows::between(desk), [0, 14]),
        row(out, b"P10", rows::long_keys(desk), [0, 15]),
        row(out, b"P11", rows::chosen(desk), [8]),
        row(out, b"P12", rows::seen(desk), [0, 3]),
    ];
    good.iter().filter(|good| **good).count()
}

fn main(rt: HostRuntime) -> io::Result<()> {
    let mut desk = Desk::new();
    let mut out = Out::new(rt.stdout());
    let good = all(&mut desk, &mut out);
    out.text(b"as demanded:");
    out.number(good as u64);
    out.text(b" of 12\n");
    out.flush();
    out.done()
}
