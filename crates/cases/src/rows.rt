// What the rows give: up to four numbers each, or why a tree that they need was refused.
ghost use Rattle.std.specs.Prelude.{◌≤◌};

use crate::desk;
use crate::desk::Desk;
use node::room::Shape;
use seal::checksum;
use tree::editor::Tree;
use tree::refusal::Refusal;

// P1, P2: the sum that a seal stores over 24 bytes, zeros but for the first of them.
pub fn sum(first: u8) -> u64 {
    let mut object = [0u8; 32];
    object[8] = first;
    checksum::compute(&object)
}

// Whether n entries that take so many bytes fit: 1 or 0.
fn fits(each: u64, root: bool, level: u64, n: u64, room: u64) -> u64
    requires each { each ≤ 16 }
    requires entries { n ≤ 1024 }
    requires room { room ≤ 65536 }
{
    let shape = Shape {
        info: desk::empty(each),
        root,
        level,
    };
    u64::from(shape.fits_sums(n, room))
}

// P3: 11 and 12 entries of 32 bytes in a root leaf, 12 and 13 in another.
pub fn leaf() -> [u64; 4] {
    [
        fits(16, true, 0, 11, 352),
        fits(16, true, 0, 12, 384),
        fits(16, false, 0, 12, 384),
        fits(16, false, 0, 13, 416),
    ]
}

// P4: 14 and 15 entries of 24 bytes in an index root, 16 and 17 in another index.
pub fn index() -> [u64; 4] {
    [
        fits(16, true, 1, 14, 336),
        fits(16, true, 1, 15, 360),
        fits(16, false, 1, 16, 384),
        fits(16, false, 1, 17, 408),
    ]
}

// P6: in a root's 416 bytes contents of 128 leave 288 and not 289, contents of 192 leave 224 and not 225.
pub fn contents() -> [u64; 4] {
    [
        fits(0, true, 0, 16, 288),
        fits(0, true, 0, 16, 289),
        fits(0, true, 0, 17, 224),
        fits(0, true, 0, 17, 225),
    ]
}

// The refusal's number, 0 where there is none.
fn number(edited: Result<Tree, Refusal>) -> u64 {
    edited.err().map_or(0, u64::from)
}

// P5: a value of 280 and one of 281, with a key of 8 that is the tree's only one.
pub fn single(desk: &mut Desk) -> Result<[u64; 2], Refusal> {
    let key = [97; 8];
    let tree = desk.byte_tree()?;
    let fits = desk.upsert(tree, &key, &[118; 280]);
    let tree = desk.byte_tree()?;
    let over = desk.upsert(tree, &key, &[118; 281]);
    Ok([number(fits), number(over)])
}

// A tree of pairs with the ids below an end, put at 1, the least first.
fn filled(desk: &mut Desk, end: u64) -> Result<Tree, Refusal> {
    let mut tree = desk.pair_tree()?;
    for id in 0..end {
        tree = desk.put(tree, id, 1)?;
    }
    Ok(tree)
}

// P7: the twelfth entry: nodes before and after, entries of both parts.
pub fn twelfth(desk: &mut Desk) -> Result<[u64; 4], Refusal> {
    let whole = filled(desk, 11)?;
    let cut = desk.put(whole, 11, 1)?;
    Ok([
        whole.info.node_count,
        cut.info.node_count,
        desk.count(0),
        desk.count(1),
    ])
}

// Leaves of 6 and more entries, of which the first is emptied, its first entry last: nodes and the root's level.
fn emptied(desk: &mut Desk, end: u64) -> Result<[u64; 2], Refusal> {
    let mut tree = filled(desk, end)?;
    for id in (0..6).rev() {
        tree = desk.take(tree, id)?;
    }
    Ok([tree.info.node_count, desk.level(tree)])
}

// P8: with 12 entries in the second leaf, and with 11.
pub fn stays(desk: &mut Desk) -> Result<[u64; 4], Refusal> {
    let [nodes, level] = emptied(desk, 18)?;
    let [fewer_nodes, fewer_level] = emptied(desk, 17)?;
    Ok([nodes, level, fewer_nodes, fewer_level])
}

// P9: values of 128 and 128, and one of 312 between.
pub fn between(desk: &mut Desk) -> Result<[u64; 2], Refusal> {
    let small = [118; 128];
    let tree = desk.byte_tree()?;
    let tree = desk.upsert(tree, &[97; 8], &small)?;
    let last = desk.upsert(tree, &[99; 8], &small);
    let between = desk.upsert(last.unwrap_or(tree), &[98; 8], &[118; 312]);
    Ok([number(last), number(between)])
}

// P10: two keys of 200.
pub fn long_keys(desk: &mut Desk) -> Result<[u64; 2], Refusal> {
    let tree = desk.byte_tree()?;
    let first = desk.upsert(tree, &[97; 200], &[]);
    let second = desk.upsert(first.unwrap_or(tree), &[98; 200], &[]);
    Ok([number(first), number(second)])
}

// Id 5 put at 3 and at 9, and flushed at 2: the root's block.
fn flushed(desk: &mut Desk) -> Result<u64, Refusal> {
    let tree = desk.pair_tree()?;
    let tree = desk.put(tree, 5, 3)?;
    let tree = desk.put(tree, 5, 9)?;
    desk.flush(tree, 2)
}

// P11: the block that the flush chose.
pub fn chosen(desk: &mut Desk) -> Result<[u64; 1], Refusal> {
    Ok([flushed(desk)?])
}

// P12: the map that the flush wrote, seen from 8: no refusal, and where id 5 is.
pub fn seen(desk: &mut Desk) -> Result<[u64; 2], Refusal> {
    let map = flushed(desk)?;
    Ok([0, desk.address_of(map, 8, 5)?])
}
