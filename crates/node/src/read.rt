// A node's block, read (`Node` of btree.rs). The bytes stay in the block.
ghost use Rattle.std.specs.Prelude.{◌≡◌, true, not, ◌&&◌, ◌||◌, ◌+◌, ◌-◌, ◌≤◌, ◌<◌, ◌^◌, length, is_some, is_none, IfOk};
ghost use Rattle.seal.specs.Bytes.{window};
ghost use Rattle.node.specs.Bytes.{Bytes};
ghost use Rattle.node.specs.Obj.{is_node};
ghost use Rattle.node.specs.Order.{keyed};
ghost use Rattle.node.specs.Entry.{disk};
ghost use Rattle.node.specs.Slot.{value_means};
ghost use Rattle.node.specs.Place.{place_of, lent_root, lower_of, lent_key};
ghost use Rattle.node.specs.Read.{parsed, is_fixed, flags_hold, layout_holds, span_at, is_ghost, span_holds, span_length, entries_hold, entry_at, entries_from, in_bounds, keys_rise, keys_within, read_node, read_of, map_ok};
ghost use Rattle.node.specs.internal.ReadSteps.{Laid, Sound};

use crate::info::BTreeInfo;
use crate::order::Order;
use crate::refusal::{Refusal, check};
use crate::val::{Child, Val};
use crate::{layout, room, stands};
use seal::obj::{OBJECT_TYPE_BTREE, OBJECT_TYPE_BTREE_NODE, ObjHeader};
use seal::{bytes, checksum, obj};

// The highest level of a node.
pub const MAX_DEPTH: u64 = 32;

#[derive(Clone, Copy)]
pub struct Node {
    pub oid: u64,
    pub xid: u64,
    // Type with storage flags (`obj_type`).
    pub otype: u64,
    pub subtype: u64,
    pub flags: u64,
    pub level: u64,
    pub nkeys: u64,
    // Where the contents start (`toc_start`), the key area starts (`key_start`) and the value area ends (`val_end`).
    pub toc: usize,
    pub keys: usize,
    pub vals: usize,
    // The tree's fixed lengths; a key length of 0 means that lengths differ.
    pub ksize: u64,
    pub vsize: u64,
}

// Where an entry's key starts and how long it is; how far before the value area's end its value starts, and how long
// that is.
// The contents' own words, also a ghost's 0xFFFF, and no Option: `span_holds` has to test both before they are a value.
#[derive(Clone, Copy)]
pub struct Span {
    pub key: usize,
    pub klen: usize,
    pub voff: usize,
    pub vlen: usize,
}

// What a parent gives of the place of its child.
#[derive(Clone, Copy)]
pub struct Parent<'b> {
    pub level: u64,
    // The tree's fixed lengths.
    pub ksize: u64,
    pub vsize: u64,
    // The lower bound of the child's keys, if there is one.
    pub lower: Option<&'b [u8]>,
}

// Where a node is to stand in its tree.
#[derive(Clone, Copy)]
pub struct Place<'b> {
    // The id wanted: of a physical node its address.
    pub oid: u64,
    // A root has none, and its own lengths.
    pub parent: Option<Parent<'b>>,
    // The upper bound of its keys, which a last child of last children has not.
    pub upper: Option<&'b [u8]>,
}

// Whether a bound, if there is one, is one of the order's keys.
#[tactic(auto, unfolding(crate::specs::Order::keyed))]
fn is_key(order: Order, bound: Option<&[u8]>) -> bool
    ensures keys { result ≡ (is_none bound.entry || keyed order.code (lent_key bound.entry)) }
    ensures bytes { Bytes (lent_key bound.entry) }
{
    let key = bound.unwrap_or(&[]);
    bound.is_none() || order.keyed(key.len())
}

impl<'b> Place<'b> {
    // The place of a root with this id: no bounds.
    pub fn root(oid: u64) -> Place<'b>
        ensures { result ≡ lent_root oid }
    {
        Place {
            oid,
            parent: None,
            upper: None,
        }
    }

    // The lower bound of its keys, which a root has not.
    fn lower(self) -> Option<&'b [u8]>
        ensures { result ≡ lower_of self.entry }
    {
        self.parent.and_then(|parent| parent.lower)
    }

    // Not below the lower bound, if there is one, and below the upper, if there is one.
    #[tactic(auto, using(crate::specs::laws::order::Order::none_below), unfolding(crate::specs::Read::in_bounds))]
    fn bounds(self, order: Order, key: &[u8]) -> bool
        ensures { result ≡ in_bounds order.code (place_of self.entry) (lent_key (lower_of self.entry)) (lent_key self.entry.upper) key.now }
    {
        self.lower().is_none_or(|lower| !order.less(key, lower))
            && self.upper.is_none_or(|upper| order.less(key, upper))
    }

    // Whether each bound that there is is one of the order's keys.
    fn bounds_are_keys(self, order: Order) -> bool
        ensures keys { result ≡ ((is_none (lower_of self.entry) || keyed order.code (lent_key (lower_of self.entry)))
            && (not (is_some self.entry.upper) || keyed order.code (lent_key self.entry.upper))) }
        ensures bytes { Bytes (lent_key (lower_of self.entry)) × Bytes (lent_key self.entry.upper) }
    {
        let lower = is_key(order, self.lower());
        let upper = is_key(order, self.upper);
        lower && upper
    }
}

// A node's block, of at least the least size of one. That it holds bytes is a fact here, since a proof knows it of a slice that is lent,
// and not of one in a struct.
#[derive(Clone, Copy)]
pub struct Block<'b> {
    pub held: &'b [u8],
    ghost bytes: { Bytes held.now },
    ghost long: { 512 ≤ length held.now },
}

impl<'b> Block<'b> {
    // The block that a slice is. A slice is lent to this function wherever its caller has it from, so no caller owes that it holds bytes.
    #[tactic(auto, using(crate::specs::laws::base::Bytes::bytes_known))]
    pub fn of(held: &'b [u8]) -> Block<'b>
        requires { 512 ≤ length held.now }
        ensures { result.held ≡ held.entry }
    {
        Block { held }
    }
}

impl Node {
    // The header's fields and the places that follow from them; nothing is checked.
    #[tactic(auto, unfolding(crate::specs::Read::parsed))]
    pub fn parse(block: Block<'_>, place: Place<'_>) -> Node
        ensures { (result ≡ parsed (place_of place.entry) block.entry.held.now)
            × (result.flags < 2 ^ 16) × (result.level < 2 ^ 16) × (result.nkeys < 2 ^ 32)
            × (result.toc ≤ result.keys) × (result.vals ≤ length block.entry.held.now) }
    {
        let block = block.held;
        let h = ObjHeader::parse(block);
        let info = BTreeInfo::parse(block);
        let toc = layout::BTN_DATA + bytes::field_at::<2>(block, layout::BTN_TABLE_OFF) as usize;
        let (tail, ksize, vsize) = match place.parent {
            None => (layout::BTREE_INFO_SIZE, info.key_size, info.val_size),
            Some(parent) => (0, parent.ksize, parent.vsize),
        };
        Node {
            oid: h.oid,
            xid: h.xid,
            otype: h.obj_type,
            subtype: h.subtype,
            flags: bytes::field_at::<2>(block, layout::BTN_FLAGS),
            level: bytes::field_at::<2>(block, layout::BTN_LEVEL),
            nkeys: bytes::field_at::<4>(block, layout::BTN_NKEYS),
            toc,
            keys: toc + bytes::field_at::<2>(block, layout::BTN_TABLE_LEN) as usize,
            vals: block.len() - tail,
            ksize,
            vsize,
        }
    }

    // Whether lengths are fixed (`is_fixed`, held against the flag by 6).
    #[tactic(auto, unfolding(crate::specs::Read::is_fixed))]
    fn is_fixed(self) -> bool
        ensures { result ≡ is_fixed self }
    {
        self.ksize != 0
    }
}

// Root, leaf and fixed flags against the node's place.
#[tactic(auto, unfolding(crate::specs::Read::flags_hold))]
fn flags_hold(place: Place<'_>, node: Node) -> bool
    ensures { result ≡ flags_hold (place_of place.entry) node }
{
    layout::flag(node.flags, layout::BTNODE_LEAF) == (node.level == 0)
        && layout::flag(node.flags, layout::BTNODE_ROOT) == place.parent.is_none()
        && layout::flag(node.flags, layout::BTNODE_FIXED_KV_SIZE) == node.is_fixed()
}

// 6 of the load line.
#[tactic(auto, unfolding(crate::specs::Read::layout_holds))]
fn layout_holds(place: Place<'_>, node: Node) -> bool
    requires { (node.nkeys < 2 ^ 32) × (node.toc ≤ node.keys) }
    ensures { result ≡ layout_holds (place_of place.entry) node }
{
    let width = if node.is_fixed() { 4 } else { 8 };
    node.keys <= node.vals
        && node.level <= MAX_DEPTH
        && flags_hold(place, node)
        && node.nkeys * width <= (node.keys - node.toc) as u64
        && node.oid == place.oid
}

// Entry i of the contents.
#[tactic(auto, unfolding(crate::specs::Read::span_at))]
pub fn span_at(block: &[u8], node: Node, i: usize) -> Span
    requires laid { Laid node (length block.now) }
    requires i_lt_nkeys { i < node.nkeys }
    ensures { result ≡ span_at node block.now i }
{
    if node.is_fixed() {
        let e = node.toc + i * 4;
        Span {
            key: node.keys + bytes::field_at::<2>(block, e) as usize,
            klen: node.ksize as usize,
            voff: bytes::field_at::<2>(block, e + 2) as usize,
            vlen: if node.level == 0 {
                node.vsize as usize
            } else {
                8
            },
        }
    } else {
        let e = node.toc + i * 8;
        Span {
            key: node.keys + bytes::field_at::<2>(block, e) as usize,
            klen: bytes::field_at::<2>(block, e + 2) as usize,
            voff: bytes::field_at::<2>(block, e + 4) as usize,
            vlen: bytes::field_at::<2>(block, e + 6) as usize,
        }
    }
}

// An entry without a value.
#[tactic(auto, unfolding(crate::specs::Read::is_ghost))]
pub fn is_ghost(s: Span) -> bool
    ensures { result ≡ is_ghost s }
{
    s.voff == layout::BTOFF_INVALID as usize
}

// Whether an entry lies in a block of this size, and a child is one. No sum is made that could wrap: lengths are not
// trusted.
#[tactic(auto, unfolding(crate::specs::Read::span_holds, crate::specs::Read::is_ghost))]
fn span_holds(node: Node, size: usize, s: Span) -> bool
    ensures { result ≡ span_holds node size s }
{
    s.klen <= size
        && s.key <= size - s.klen
        && if is_ghost(s) {
            node.level == 0
        } else {
            s.voff <= node.vals
                && s.vlen <= size
                && node.vals - s.voff <= size - s.vlen
                && (node.level == 0 || s.vlen == 8)
        }
}

impl Span {
    // The bytes of an entry's key and value.
    #[tactic(auto, unfolding(crate::specs::Read::span_length))]
    fn length(self) -> usize
        requires { span_length self < 2 ^ 64 }
        ensures { result ≡ span_length self }
    {
        if is_ghost(self) {
            self.klen
        } else {
            self.klen + self.vlen
        }
    }
}

// 8 of the load line, in one pass: it ends at the first entry that is wrong or makes the sum too long.
#[tactic(auto, using(crate::specs::laws::read::Read::entries))]
fn entries_hold(block: Block<'_>, node: Node, place: Place<'_>) -> bool
    requires { Laid node (length block.held.now) }
    ensures { result ≡ entries_hold (place_of place.entry) node block.entry.held.now }
{
    let block = block.held;
    let n = node.nkeys as usize;
    if n == 0 {
        return place.parent.is_none() && node.level == 0;
    }
    let space = room::data_space(block.len() as u64, place.parent.is_none()) as usize;
    let mut sum = 0;
    for i in 0..n {
        let s = span_at(block, node, i);
        if !span_holds(node, block.len(), s) {
            return false;
        }
        sum += s.length();
        if space < sum {
            return false;
        }
    }
    true
}

// The key of an entry that lies in the block.
#[tactic(auto, unfolding(seal::specs::Bytes::window))]
pub fn key_in(block: &[u8], s: Span) -> &[u8]
    requires { s.key + s.klen ≤ length block.now }
    ensures { result.now ≡ window s.key s.klen block.now }
{
    &block[s.key..s.key + s.klen]
}

// A node that was read, in its block, in which its entries lie.
#[derive(Clone, Copy)]
pub struct ReadNode<'b> {
    pub block: &'b [u8],
    pub node: Node,
    ghost bytes: { Bytes block.now },
    ghost sound: { Sound node block.now },
}

// An entry of a node that was read.
#[derive(Clone, Copy)]
pub struct ReadEntry<'b> {
    pub read: ReadNode<'b>,
    // Which it is.
    pub index: usize,
    ghost there: { index < read.node.nkeys },
}

impl<'b> ReadEntry<'b> {
    // Where it lies.
    pub fn span(self) -> Span
        ensures { result ≡ span_at self.entry.read.node self.entry.read.block.now self.entry.index }
    {
        span_at(self.read.block, self.read.node, self.index)
    }

    // Its key.
    #[tactic(auto, using(crate::specs::laws::read::Keys::sound_key, crate::specs::laws::read::Keys::key_of))]
    pub fn key(self) -> &'b [u8]
        ensures { result.now ≡ (entry_at self.entry.read.node self.entry.read.block.now self.entry.index).key }
    {
        key_in(self.read.block, self.span())
    }

    // Its value, in place: a leaf's bytes in the block, or the child's number.
    #[tactic(auto, using(crate::specs::laws::read::Keys::value))]
    pub fn value(self) -> Val<'b>
        ensures { value_means result ≡ (entry_at self.entry.read.node self.entry.read.block.now self.entry.index).value }
    {
        let s = self.span();
        if is_ghost(s) {
            return Val::Ghost;
        }
        let start = self.read.node.vals - s.voff;
        if self.read.node.level == 0 {
            Val::Leaf(&self.read.block[start..start + s.vlen])
        } else {
            Val::Child(Child::Disk(bytes::field_at::<8>(self.read.block, start)))
        }
    }

    // Its child: it is one of an index node.
    #[tactic(auto, using(crate::specs::laws::read::Keys::child))]
    pub fn child(self) -> u64
        requires { 1 ≤ self.read.node.level }
        ensures { (entry_at self.entry.read.node self.entry.read.block.now self.entry.index).value ≡ disk result }
    {
        let s = self.span();
        let start = self.read.node.vals - s.voff;
        bytes::field_at::<8>(self.read.block, start)
    }
}

impl<'b> ReadNode<'b> {
    // A node in its block, whose entries are known to lie there; as with a block, no caller owes that the slice holds bytes.
    #[tactic(auto, using(crate::specs::laws::base::Bytes::bytes_known))]
    pub fn of(block: &'b [u8], node: Node) -> ReadNode<'b>
        requires { Sound node block.now }
        ensures { (result.block ≡ block.entry) × (result.node ≡ node) }
    {
        ReadNode { block, node }
    }

    // Entry i.
    pub fn entry(self, i: usize) -> ReadEntry<'b>
        requires { i < self.node.nkeys }
        ensures { (result.read ≡ self.entry) × (result.index ≡ i) }
    {
        ReadEntry {
            read: self,
            index: i,
        }
    }

    // Of 9 of the load line: keys that the order can hold, and that rise.
    #[tactic(auto, using(crate::specs::laws::read::Keys::keys_rise_laws))]
    fn keys_rise(self, order: Order) -> bool
        ensures { result ≡ keys_rise order.code (entries_from self.entry.node self.entry.block.now 0 self.entry.node.nkeys) }
    {
        let mut last = None;
        for i in 0..self.node.nkeys as usize {
            let key = self.entry(i).key();
            if !order.keyed(key.len()) || !stands::rises(order, last, key) {
                return false;
            }
            last = Some(key);
        }
        true
    }

    // Of 9 of the load line: keys within the bounds. Of keys that rise the first and the last speak for all, if the bounds
    // are keys too.
    #[tactic(auto, using(crate::specs::laws::read::Keys::bounds))]
    fn bounds_hold(self, order: Order, place: Place<'_>) -> bool
        requires { keys_rise order.code (entries_from self.node self.block.now 0 self.node.nkeys) ≡ true }
        ensures { result ≡ keys_within order.code (place_of place.entry) (lent_key (lower_of place.entry)) (lent_key place.entry.upper)
            (entries_from self.entry.node self.entry.block.now 0 self.entry.node.nkeys) }
    {
        let n = self.node.nkeys as usize;
        if n == 0 {
            return true;
        }
        if place.bounds_are_keys(order) {
            place.bounds(order, self.entry(0).key()) && place.bounds(order, self.entry(n - 1).key())
        } else {
            (0..n).all(|i| place.bounds(order, self.entry(i).key()))
        }
    }
}

// A root or another node.
fn is_node(otype: u64) -> bool
    ensures { result ≡ is_node otype }
{
    matches!(
        obj::kind_of(otype),
        OBJECT_TYPE_BTREE | OBJECT_TYPE_BTREE_NODE
    )
}

// The load line from 3 to 9.
#[tactic(auto, using(crate::specs::laws::read::LoadLine::loads), unfolding(crate::specs::Read::read_node, crate::specs::Read::read_of))]
pub fn read_node<'b>(
    block: Block<'b>,
    order: Order,
    place: Place<'_>,
) -> Result<ReadNode<'b>, Refusal>
    requires { length block.held.now ≤ 65536 }
    ensures answer { read_of block.entry.held.now (map_ok (λ r. r.node) result)
        ≡ read_node order.code (place_of place.entry) (lent_key (lower_of place.entry)) (lent_key place.entry.upper) block.entry.held.now }
    ensures block { IfOk result (λ r. r.block.now ≡ block.entry.held.now) }
{
    check(Refusal::Fletcher, checksum::verify(block.held))?;
    let node = Node::parse(block, place);
    check(Refusal::Kind, is_node(node.otype))?;
    check(
        Refusal::Hashed,
        !layout::flag(node.flags, layout::BTNODE_HASHED),
    )?;
    check(Refusal::Layout, layout_holds(place, node))?;
    check(
        Refusal::Level,
        place.parent.is_none_or(|p| node.level + 1 == p.level),
    )?;
    check(Refusal::Entry, entries_hold(block, node, place))?;
    let read = ReadNode {
        block: block.held,
        node,
    };
    check(Refusal::Keys, read.keys_rise(order))?;
    check(Refusal::Keys, read.bounds_hold(order, place))?;
    Ok(read)
}
