// Packing a node that fits (`build` of btree_write.rs): straight into the block that is lent from its start.
ghost use Rattle.std.specs.Prelude.{◌≡◌, [], true, map, ◌+◌, ◌*◌, ◌≤◌, ◌<◌, ◌^◌, length, drop};
ghost use Rattle.seal.specs.Bytes.{splice};
ghost use Rattle.seal.specs.Obj.{o_oid};
ghost use Rattle.node.specs.Obj.{btn_flags, btn_lists, node_header, info_size};
ghost use Rattle.node.specs.Records.{entries_of, entry_of};
ghost use Rattle.node.specs.Fit.{Sized, fits, slot_width, keys_length, values_length};
ghost use Rattle.node.specs.Slot.{value_means};
ghost use Rattle.node.specs.Pack.{child_number, numbered_value, numbered, value_offset, node_flags, info_bytes, pack_node};
ghost use Rattle.node.specs.internal.PackSteps.{marked_at, slot_bytes, put_entry, put_entries, spot_after, Room, Rooms, node_bytes, no_lists, head_of, filled, Packs};

use crate::build::NodeBuild;
use crate::head::HEAD_WORDS;
use crate::info::BTreeInfo;
use crate::record::Record;
use crate::room::Shape;
use crate::slot::Records;
use crate::val::{Child, Val};
use crate::{layout, room};
use seal::obj::ObjHeader;
use seal::{bytes, checksum};

// Which of a slot's words says that its node has a block, and which that it has an id. The number follows.
const HEAD_PLACED: usize = 3;

const HEAD_NAMED: usize = 5;

// What is packed: a slot's records. The words of all slots have the numbers of children in slots.
#[derive(Clone, Copy)]
struct Packed<'a> {
    records: Records<'a>,
    heads: &'a [u64],
    // Whether the tree is virtual: then a child's number is its id, else its block.
    by_id: bool,
}

// What a block is laid out by: its tree's numbers, where its keys start, and where its values end.
#[derive(Clone, Copy)]
struct Areas {
    info: BTreeInfo,
    keys: usize,
    vals: usize,
}

// How far packing has come.
#[derive(Clone, Copy)]
pub struct Spot {
    // Where the next contents slot goes, and where the next record starts.
    pub toc: usize,
    pub at: usize,
    // The keys packed so far, and the values (`koff`, `voff`).
    pub key: usize,
    pub val: usize,
}

// The number after a mark among the words of slot s; 0 without the mark, or where there are no such words.
#[tactic(auto, unfolding(crate::specs::internal::PackSteps::marked_at))]
fn marked_at(heads: &[u64], s: usize, mark: usize) -> u64
    requires { mark ≤ 8 }
    ensures { result ≡ marked_at heads.now s mark }
{
    if heads.len() / HEAD_WORDS < s {
        return 0;
    }
    let words = &heads[s * HEAD_WORDS..];
    if mark + 1 < words.len() && words[mark] == 1 {
        words[mark + 1]
    } else {
        0
    }
}

// The number of the child in slot s: of a virtual tree (by_id) its id, else its block. 0 where it has none, or there is
// no such slot.
// No Option: the definition gives 0 there too, since what is packed is a number in any case.
#[tactic(auto, using(crate::specs::laws::pack::Steps::child_id, crate::specs::laws::pack::Steps::child_block))]
pub fn child_number(heads: &[u64], s: u64, by_id: bool) -> u64
    ensures { result ≡ child_number heads.now by_id s }
{
    let mark = if by_id { HEAD_NAMED } else { HEAD_PLACED };
    marked_at(heads, s as usize, mark)
}

impl<'a> Packed<'a> {
    // A value as it is packed: a child in a slot by its number.
    #[tactic(auto, unfolding(crate::specs::Pack::numbered_value, crate::specs::Slot::value_means, crate::specs::Slot::child_means))]
    fn numbered(self, value: Val<'a>) -> Val<'a>
        ensures { value_means result
            ≡ numbered_value (child_number self.entry.heads.now self.entry.by_id) (value_means value.entry) }
    {
        match value {
            Val::Child(Child::Mem(s)) => {
                let number = child_number(self.heads, s, self.by_id);
                Val::Child(Child::Disk(number))
            }
            Val::Child(Child::Disk(_)) | Val::Leaf(_) | Val::Ghost => value,
        }
    }
}

// The offset that the contents give a value: a ghost has none.
#[tactic(auto, unfolding(crate::specs::Pack::value_offset, crate::specs::Slot::value_means, crate::specs::Slot::child_means))]
fn value_offset(value: Val<'_>, val: u64) -> u64
    ensures { result ≡ value_offset (value_means value.entry) val }
{
    match value {
        Val::Ghost => layout::BTOFF_INVALID,
        _ => val,
    }
}

// A contents slot at p: offset and length of the key, then of the value (`kvloc_t`); the offsets alone (`kvoff_t`)
// where lengths are the tree's.
#[tactic(auto, using(crate::specs::laws::pack::Steps::slot_laws), unfolding(crate::specs::Fit::slot_width))]
fn put_slot(block: &mut [u8], p: usize, t: BTreeInfo, ko: u64, kl: u64, vo: u64, vl: u64)
    requires { p + slot_width t ≤ length block.old }
    ensures { block.new ≡ splice block.old p (slot_bytes t ko kl vo vl) }
{
    bytes::put_field::<2>(block, p, ko);
    if t.is_fixed() {
        bytes::put_field::<2>(block, p + 2, vo);
    } else {
        bytes::put_field::<2>(block, p + 2, kl);
        bytes::put_field::<2>(block, p + 4, vo);
        bytes::put_field::<2>(block, p + 6, vl);
    }
}

// The record at s.at: its key after the keys, its value before the values, its contents slot.
#[tactic(auto, using(crate::specs::laws::pack::Steps::sums), unfolding(crate::specs::internal::SlotSteps::parts_at))]
fn put_entry(block: &mut [u8], from: Packed, areas: Areas, s: Spot) -> Spot
    requires { Room areas.info areas.keys areas.vals s from.records.slot.now block.old }
    ensures { (block.new ≡ put_entry areas.info areas.keys areas.vals s.toc s.key result.val
        (numbered (child_number from.entry.heads.now from.entry.by_id) (entry_of (drop s.at from.entry.records.slot.now)))
        block.old)
        × (result ≡ spot_after areas.info from.entry.records.slot.now s) }
{
    let t = areas.info;
    let r = Record {
        slot: from.records.slot,
        at: s.at,
    };
    let p = r.parts();
    let klen = p.klen as u64;
    let vlen = p.vlen as u64;
    let key = s.key + room::padded(t, klen) as usize;
    let val = s.val + room::padded(t, vlen) as usize;
    bytes::copy_to(r.key(), block, areas.keys + s.key);
    let value = from.numbered(r.value());
    value.store(block, areas.vals - val);
    let vo = value_offset(value, val as u64);
    put_slot(block, s.toc, t, s.key as u64, klen, vo, vlen);
    Spot {
        toc: s.toc + room::slot_width(t) as usize,
        at: p.next,
        key,
        val,
    }
}

// All records, one after another: keys from `keys` up, values from `vals` down.
#[tactic(auto, using(crate::specs::laws::pack::Steps::going_laws))]
fn put_entries(block: &mut [u8], from: Packed, areas: Areas) -> Spot
    requires { Rooms areas.info areas.keys areas.vals from.records.count from.records.slot.now block.old }
    ensures { (block.new ≡ put_entries areas.info areas.keys areas.vals node_header 0 0
        (map (numbered (child_number from.entry.heads.now from.entry.by_id))
        (entries_of from.entry.records.count from.entry.records.slot.now)) block.old)
        × (result.key ≡ keys_length areas.info (entries_of from.entry.records.count from.entry.records.slot.now))
        × (result.val ≡ values_length areas.info (entries_of from.entry.records.count from.entry.records.slot.now)) }
{
    let mut s = Spot {
        toc: layout::BTN_DATA,
        at: 0,
        key: 0,
        val: 0,
    };
    for _ in 0..from.records.count {
        s = put_entry(block, from, areas, s);
    }
    s
}

// btn_flags.
#[tactic(auto, unfolding(crate::specs::Pack::node_flags))]
fn node_flags(b: NodeBuild) -> u64
    ensures { result ≡ node_flags b }
{
    let root = if b.root { layout::BTNODE_ROOT } else { 0 };
    let leaf = if b.level == 0 { layout::BTNODE_LEAF } else { 0 };
    let fixed = if b.info.is_fixed() {
        layout::BTNODE_FIXED_KV_SIZE
    } else {
        0
    };
    root + leaf + fixed
}

// btree_node_phys_t, up to its free lists.
#[tactic(auto, using(crate::specs::laws::pack::Steps::node_law))]
fn put_node(block: &mut [u8], flags: u64, level: u64, n: u64, toc: u64, keys: u64, free: u64)
    requires { node_header ≤ length block.old }
    ensures { block.new ≡ splice block.old btn_flags.offset
        (node_bytes flags level n toc keys free) }
{
    bytes::put_field::<2>(block, layout::BTN_FLAGS, flags);
    bytes::put_field::<2>(block, layout::BTN_LEVEL, level);
    bytes::put_field::<4>(block, layout::BTN_NKEYS, n);
    bytes::put_field::<2>(block, layout::BTN_TABLE_OFF, 0);
    bytes::put_field::<2>(block, layout::BTN_TABLE_LEN, toc);
    bytes::put_field::<2>(block, layout::BTN_FREE_OFF, keys);
    bytes::put_field::<2>(block, layout::BTN_FREE_LEN, free);
}

// Its free lists: a node that is packed whole has none.
#[tactic(auto, using(crate::specs::laws::pack::Steps::lists_law))]
fn put_lists(block: &mut [u8])
    requires { node_header ≤ length block.old }
    ensures { block.new ≡ splice block.old btn_lists no_lists }
{
    bytes::put_field::<2>(block, layout::BTN_KEY_FREE_OFF, layout::BTOFF_INVALID);
    bytes::put_field::<2>(block, layout::BTN_KEY_FREE_LEN, 0);
    bytes::put_field::<2>(block, layout::BTN_VAL_FREE_OFF, layout::BTOFF_INVALID);
    bytes::put_field::<2>(block, layout::BTN_VAL_FREE_LEN, 0);
}

// The header: obj_phys_t after the sum, then btree_node_phys_t.
#[tactic(auto, using(crate::specs::laws::pack::Steps::head_law))]
fn put_head(block: &mut [u8], b: NodeBuild, n: u64, toc: u64, keys: u64, free: u64)
    requires { node_header ≤ length block.old }
    ensures { block.new ≡ splice block.old o_oid.offset (head_of b n toc keys free) }
{
    let h = ObjHeader {
        cksum: 0,
        oid: b.oid,
        xid: b.xid,
        obj_type: b.otype,
        subtype: b.subtype,
    };
    h.write(block);
    put_node(block, node_flags(b), b.level, n, toc, keys, free);
    put_lists(block);
}

// btree_info_t at p.
#[tactic(auto, using(crate::specs::laws::pack::Steps::info_law))]
fn put_info(block: &mut [u8], p: usize, t: BTreeInfo)
    requires { p + info_size ≤ length block.old }
    ensures { block.new ≡ splice block.old p (info_bytes t) }
{
    bytes::put_field::<4>(block, p + layout::BT_FLAGS, t.flags);
    bytes::put_field::<4>(block, p + layout::BT_NODE_SIZE, t.node_size);
    bytes::put_field::<4>(block, p + layout::BT_KEY_SIZE, t.key_size);
    bytes::put_field::<4>(block, p + layout::BT_VAL_SIZE, t.val_size);
    bytes::put_field::<4>(block, p + layout::BT_LONGEST_KEY, t.longest_key);
    bytes::put_field::<4>(block, p + layout::BT_LONGEST_VAL, t.longest_val);
    bytes::put_field::<8>(block, p + layout::BT_KEY_COUNT, t.key_count);
    bytes::put_field::<8>(block, p + layout::BT_NODE_COUNT, t.node_count);
}

// A whole block but for its sum.
#[tactic(auto, using(crate::specs::laws::pack::Block::fill_laws))]
fn fill(block: &mut [u8], from: Packed, b: NodeBuild)
    requires { Packs b from.records.count from.records.slot.now block.old }
    ensures { block.new ≡ filled b
        (map (numbered (child_number from.entry.heads.now from.entry.by_id))
        (entries_of from.entry.records.count from.entry.records.slot.now)) }
{
    let t = b.info;
    let n = from.records.count;
    let size = t.node_size as usize;
    let shape = Shape {
        info: t,
        root: b.root,
        level: b.level,
    };
    let space = shape.data_space() as usize;
    let toc = shape.toc_length(n) as usize;
    bytes::clear(block, 0, size);
    let areas = Areas {
        info: t,
        keys: layout::BTN_DATA + toc,
        vals: layout::BTN_DATA + space,
    };
    let s = put_entries(block, from, areas);
    let free = space - toc - s.key - s.val;
    put_head(block, b, n, toc as u64, s.key as u64, free as u64);
    if b.root {
        put_info(block, size - layout::BTREE_INFO_SIZE, t);
    }
}

// Packs the entries of a slot into the first node_size bytes of `dst`, and seals them.
#[tactic(auto, using(crate::specs::laws::pack::Block::part_laws))]
pub fn pack(dst: &mut [u8], records: Records<'_>, heads: &[u64], by_id: bool, b: NodeBuild)
    requires tree { Sized b.info }
    requires block { b.info.node_size ≤ length dst.old }
    requires small { length records.slot.now ≤ 2 ^ 20 }
    requires fit { fits b.info b.root b.level (entries_of records.count records.slot.now) ≡ true }
    ensures { dst.new ≡ splice dst.old 0
        (pack_node b (map (numbered (child_number heads.now by_id)) (entries_of records.entry.count records.entry.slot.now))) }
{
    let block = &mut dst[..b.info.node_size as usize];
    let from = Packed {
        records,
        heads,
        by_id,
    };
    fill(block, from, b);
    checksum::seal(block);
}

// Packs a node with no entries, which fits a block of any size that a node has.
#[tactic(auto, using(crate::specs::laws::fit::Fit::fits_none), unfolding(crate::specs::Records::entries_of, crate::specs::Records::records_length))]
pub fn pack_empty(dst: &mut [u8], b: NodeBuild)
    requires tree { Sized b.info }
    requires block { b.info.node_size ≤ length dst.old }
    ensures { dst.new ≡ splice dst.old 0 (pack_node b []) }
{
    let none = Records {
        slot: &[0; 8],
        count: 0,
    };
    pack(dst, none, &[0; HEAD_WORDS], false, b);
}
