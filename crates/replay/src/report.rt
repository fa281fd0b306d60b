// The lines of an accepted flush.
use crate::memory::Memory;
use crate::sizes::Sizes;
use crate::{answers, limits};
use flush::flush::Flushed;
use flush::space;
use script::out::Out;

// A line of the first n numbers of a list.
fn list(o: &mut Out, name: &[u8], numbers: &[u64], n: usize) {
    o.open(name);
    for x in numbers.iter().take(n) {
        o.number(*x);
    }
    o.close();
}

// The line of the first n ids and where each was written.
fn moved(o: &mut Out, ids: &[u64], places: &[u64], n: usize) {
    o.open(b"moved");
    for (id, place) in ids.iter().zip(places).take(n) {
        o.number(*id);
        o.number(*place);
    }
    o.close();
}

// Whether a block's bit was 0 and is 1.
fn is_new(bitmap: &[u8], old: &[u8; limits::BITMAP], a: usize) -> bool {
    a / 8 < bitmap.len().min(old.len()) && !space::is_used(old, a) && space::is_used(bitmap, a)
}

// The blocks written, in the order written: blocks are chosen by rising address.
fn written(o: &mut Out, m: &Memory, old: &[u8; limits::BITMAP]) {
    let Some(Sizes { blocks, size, .. }) = m.sizes else {
        return;
    };
    for a in (0..blocks).filter(|a| is_new(m.bitmap, old, *a)) {
        let start = a.saturating_mul(size);
        o.open(b"wrote");
        o.number(a as u64);
        answers::part(o, m.image, start, start.saturating_add(size));
        o.close();
    }
}

// The first line.
fn first(o: &mut Out, f: Flushed) {
    let d = f.done;
    o.two_open(b"flush", 0, f.root);
    for x in [d.allocated, d.freed as u64, f.keys, f.fill, d.next] {
        o.number(x);
    }
    o.close();
}

// What a flush answered: its numbers, its lists, and the blocks that it wrote, by the bitmap as it was before.
pub fn flushed(o: &mut Out, m: &Memory, old: &[u8; limits::BITMAP], f: Flushed) {
    let d = f.done;
    first(o, f);
    list(o, b"freed", m.freed, d.freed);
    list(o, b"removed", m.removed, d.removed);
    moved(o, m.ids, m.places, d.moved);
    written(o, m, old);
}
