// The object map: a physical tree of pairs, its nodes read where they lie in the image.
ghost use Rattle.std.specs.Prelude.{◌≡◌, ◌*◌, ◌/◌, ◌≤◌, ◌<◌, length, take, drop, ◌-◌, IfOk, OnOk, MatchResult, true, false, unwrap_or};
ghost use Rattle.node.specs.Bytes.{window, Bytes};
ghost use Rattle.node.specs.Order.{pair};
ghost use Rattle.node.specs.Find.{key_at, val_at};
ghost use Rattle.node.specs.Place.{place_of, lower_of, lent_key};
ghost use Rattle.node.specs.Read.{read_of, map_ok, on_disk, info_at};
ghost use Rattle.node.specs.declared.refusal.Refusal.TheVariants.{Root};
ghost use Rattle.tree.specs.Lent.{block_at, lent_of};
ghost use Rattle.tree.specs.Load.{disk_number, tighter_lower, tighter_upper, child_bounds, root_holds, map_last, map_floor, mapping, map_address, address_of};
ghost use Rattle.tree.specs.internal.Tree.{edge_of, edges_of};
ghost use Rattle.tree.specs.internal.Map.{load_at, map_read, map_child_at, map_loaded_of, leftward, found_of, spotted_of, address_at, looked_up};

use crate::editor::Bounds;
use crate::lent::Lent;
use crate::mapped::{Blocks, MapNode, Mapped};
use node::info::BTreeInfo;
use node::obj::OBJ_PHYSICAL;
use node::order::Order;
use node::read::{Block, Node, Parent, Place, ReadNode};
use node::refusal::{Refusal, check};
use node::val::Val;
use node::{bytes, flag, read};

// Fixed lengths of the map's keys and values (`omap_key_t`, `omap_val_t`).
pub const PAIR_SIZE: u64 = 16;

// No bounds of keys: a root's, as `editor::UNBOUNDED` of positions. An associated constant of both would be a call in a proof.
pub const UNBOUNDED: Bounds<&[u8]> = Bounds {
    lower: None,
    upper: None,
};

// A mapping's flag for an encrypted object.
const OMAP_VAL_ENCRYPTED: u64 = 4;

// The block at an address.
#[tactic(auto, using(crate::specs::laws::load::MapNode::in_image))]
pub fn block_of(image: &[u8], size: usize, a: u64) -> &[u8]
    requires { a < length image.now / size }
    ensures { (result.now ≡ window (a * size) size image.now) × Bytes result.now }
{
    let start = a as usize * size;
    let end = start + size;
    &image[start..end]
}

// 10: the numbers that a root stores, if its storage class and its node size hold. A class is how often OBJ_PHYSICAL goes into a
// type: 0 virtual, 1 physical. Of blocks of any size, also one that is too large for a node.
#[tactic(auto, using(crate::specs::laws::load::MapAddress::roots))]
pub fn root_info(
    image: &[u8],
    lent: Lent,
    a: u64,
    by_id: bool,
    v: Node,
) -> Result<BTreeInfo, Refusal>
    requires { (a < length image.now / lent.size) × (512 ≤ lent.size) }
    ensures { MatchResult result
        (λ info. (root_holds (lent_of image.now lent) a by_id (on_disk v (block_at (lent_of image.now lent) a)) ≡ true)
        × (info ≡ info_at (block_at (lent_of image.now lent) a)))
        (λ refusal. (root_holds (lent_of image.now lent) a by_id (on_disk v (block_at (lent_of image.now lent) a)) ≡ false)
        × (refusal ≡ Root)) }
{
    check(Refusal::Root, v.otype / OBJ_PHYSICAL == u64::from(!by_id))?;
    let size = lent.size;
    let info = BTreeInfo::parse(block_of(image, size, a));
    check(Refusal::Root, info.node_size == size as u64)?;
    Ok(info)
}

impl<'i> Blocks<'i> {
    // 2 to 9: the node at an address, in its place.
    #[tactic(auto, using(crate::specs::laws::load::MapNode::loads))]
    pub fn load_block(self, order: Order, place: Place<'_>, a: u64) -> Result<ReadNode<'i>, Refusal>
        ensures answer { read_of (block_at (lent_of self.entry.image.now self.entry.lent) a) (map_ok (λ r. r.node) result)
            ≡ load_at (lent_of self.entry.image.now self.entry.lent) order.code (place_of place.entry)
            (lent_key (lower_of place.entry)) (lent_key place.entry.upper) a }
        ensures block { IfOk result (λ r. r.block.now ≡ window (a * self.entry.lent.size) self.entry.lent.size self.entry.image.now) }
        ensures inside { OnOk result (a < length self.entry.image.now / self.entry.lent.size) }
    {
        let size = self.lent.size;
        check(Refusal::Address, a < (self.image.len() / size) as u64)?;
        let block = Block {
            held: block_of(self.image, size, a),
        };
        read::read_node(block, order, place)
    }

    // 10: what the function `root_info` answers, of an image of blocks that a node can have the size of.
    pub fn root_info(self, a: u64, by_id: bool, v: Node) -> Result<BTreeInfo, Refusal>
        requires { a < length self.image.now / self.lent.size }
        ensures { MatchResult result
            (λ info. (root_holds (lent_of self.entry.image.now self.entry.lent) a by_id
            (on_disk v (block_at (lent_of self.entry.image.now self.entry.lent) a)) ≡ true)
            × (info ≡ info_at (block_at (lent_of self.entry.image.now self.entry.lent) a)))
            (λ refusal. (root_holds (lent_of self.entry.image.now self.entry.lent) a by_id
            (on_disk v (block_at (lent_of self.entry.image.now self.entry.lent) a)) ≡ false) × (refusal ≡ Root)) }
    {
        root_info(self.image, self.lent, a, by_id, v)
    }
}

// The higher of a lower bound and a key.
#[tactic(auto, using(crate::specs::laws::load::MapNode::tighter))]
fn tighter_lower<'i>(old: Option<&'i [u8]>, key: &'i [u8]) -> Option<&'i [u8]>
    ensures { edge_of result ≡ tighter_lower pair (edge_of old.entry) key.now }
{
    match old {
        Some(bound) if !Order::PAIR_ORDER.less(bound, key) => old,
        _ => Some(key),
    }
}

// The lower of an upper bound and a key.
#[tactic(auto, using(crate::specs::laws::load::MapNode::tighter))]
fn tighter_upper<'i>(old: Option<&'i [u8]>, key: &'i [u8]) -> Option<&'i [u8]>
    ensures { edge_of result ≡ tighter_upper pair (edge_of old.entry) key.now }
{
    match old {
        Some(bound) if !Order::PAIR_ORDER.less(key, bound) => old,
        _ => Some(key),
    }
}

impl<'i> MapNode<'i> {
    // The key of an entry; nothing where there is no such entry.
    #[tactic(auto, using(crate::specs::laws::load::MapNode::keys))]
    fn key_at(self, i: u64) -> &'i [u8]
        ensures { result.now ≡ key_at (map_read self.entry).entries i }
    {
        if self.read.node.nkeys <= i {
            return &[];
        }
        self.read.entry(i as usize).key()
    }

    // The number of a child, if there is one.
    #[tactic(auto, using(crate::specs::laws::load::MapNode::numbers))]
    fn number_at(self, i: u64) -> Option<u64>
        ensures { unwrap_or result 0 ≡ disk_number (val_at (map_read self.entry).entries i) }
    {
        if self.read.node.nkeys <= i || self.read.node.level == 0 {
            return None;
        }
        Some(self.read.entry(i as usize).child())
    }

    // The last of the first n entries, if there is one.
    #[tactic(auto, using(crate::specs::laws::load::MapNode::entries))]
    fn last_of(self, n: u64) -> Option<Mapped<'i>>
        requires { n ≤ self.read.node.nkeys }
        ensures { found_of result ≡ drop (n - 1) (take n (map_read self.entry).entries) }
    {
        let i = n.checked_sub(1)?;
        let last = self.read.entry(i as usize);
        Some(Mapped {
            key: last.key(),
            value: last.value(),
        })
    }

    // The bounds of child i.
    #[tactic(auto, using(crate::specs::laws::load::MapNode::bounds))]
    fn child_bounds(self, b: Bounds<&'i [u8]>, i: u64) -> Bounds<&'i [u8]>
        ensures { edges_of result
            ≡ child_bounds pair (edges_of b.entry) (map_read self.entry).entries i }
    {
        let lower = tighter_lower(b.lower, self.key_at(i));
        if self.read.node.nkeys.saturating_sub(1) <= i {
            return Bounds {
                lower,
                upper: b.upper,
            };
        }
        let upper = tighter_upper(b.upper, self.key_at(i + 1));
        Bounds { lower, upper }
    }
}

impl<'i> Blocks<'i> {
    // Child i of a node, within its bounds.
    #[tactic(auto, using(crate::specs::laws::load::MapFloor::child))]
    fn child(self, d: MapNode<'i>, b: Bounds<&'i [u8]>, i: u64) -> Result<MapNode<'i>, Refusal>
        ensures { map_loaded_of result
            ≡ map_child_at (lent_of self.entry.image.now self.entry.lent) d.entry.read.node.level (edges_of b.entry)
            (disk_number (val_at (map_read d.entry).entries i)) }
    {
        let a = d.number_at(i).unwrap_or(0);
        let parent = Parent {
            level: d.read.node.level,
            ksize: PAIR_SIZE,
            vsize: PAIR_SIZE,
            lower: b.lower,
        };
        let place = Place {
            oid: a,
            parent: Some(parent),
            upper: b.upper,
        };
        let read = self.load_block(Order::PAIR_ORDER, place, a)?;
        Ok(MapNode { read })
    }

    // The last entry below a node.
    #[tactic(auto, using(crate::specs::laws::load::MapFloor::last))]
    fn map_last(
        self,
        d: MapNode<'i>,
        b: Bounds<&'i [u8]>,
        level: u64,
    ) -> Result<Option<Mapped<'i>>, Refusal>
        ensures { spotted_of result
            ≡ map_last level (lent_of self.entry.image.now self.entry.lent) (map_read d.entry) (edges_of b.entry) }
    {
        let n = d.read.node.nkeys;
        if level == 0 {
            return Ok(d.last_of(n));
        }
        let i = n.saturating_sub(1);
        let inner = d.child_bounds(b, i);
        let c = self.child(d, inner, i)?;
        self.map_last(c, inner, level - 1)
    }

    // The last entry of the child before child i, where the key does not lie before child i.
    #[tactic(auto, using(crate::specs::laws::load::MapFloor::left))]
    fn map_left(
        self,
        d: MapNode<'i>,
        b: Bounds<&'i [u8]>,
        key: &[u8],
        i: u64,
        level: u64,
    ) -> Result<Option<Mapped<'i>>, Refusal>
        ensures { spotted_of result
            ≡ leftward level (lent_of self.entry.image.now self.entry.lent) (map_read d.entry) (edges_of b.entry)
            key.now i }
    {
        if i == 0 || Order::PAIR_ORDER.less(key, d.key_at(i)) {
            return Ok(None);
        }
        let inner = d.child_bounds(b, i - 1);
        let c = self.child(d, inner, i - 1)?;
        self.map_last(c, inner, level)
    }

    // The last entry not above a key; leftward only if the leaf has none.
    #[tactic(auto, using(crate::specs::laws::load::MapFloor::floor))]
    fn map_floor(
        self,
        d: MapNode<'i>,
        b: Bounds<&'i [u8]>,
        key: &[u8],
        level: u64,
    ) -> Result<Option<Mapped<'i>>, Refusal>
        ensures { spotted_of result
            ≡ map_floor level (lent_of self.entry.image.now self.entry.lent) (map_read d.entry) (edges_of b.entry)
            key.now }
    {
        let n = d.read.not_above(Order::PAIR_ORDER, key);
        if level == 0 {
            return Ok(d.last_of(n));
        }
        let i = n.saturating_sub(1);
        let inner = d.child_bounds(b, i);
        let c = self.child(d, inner, i)?;
        match self.map_floor(c, inner, key, level - 1)? {
            Some(m) => Ok(Some(m)),
            None => self.map_left(d, b, key, i, level - 1),
        }
    }
}

// 18 where no entry was found, or it is not the id's or has no value, 19 where it is encrypted; else its address.
#[tactic(auto, using(crate::specs::laws::load::MapAddress::mapped))]
fn mapping(found: Option<Mapped<'_>>, id: u64) -> Result<u64, Refusal>
    ensures { address_at result ≡ mapping id (found_of found.entry) }
{
    let m = found.ok_or(Refusal::Unmapped)?;
    check(Refusal::Unmapped, bytes::field_at::<8>(m.key, 0) == id)?;
    let Val::Leaf(value) = m.value else {
        return Err(Refusal::Unmapped);
    };
    let flags = bytes::field_at::<4>(value, 0);
    check(Refusal::Encrypted, !flag(flags, OMAP_VAL_ENCRYPTED))?;
    Ok(bytes::field_at::<8>(value, 8))
}

impl<'i> Blocks<'i> {
    // The mapping of an id as seen from a transaction, from the map's root on.
    #[tactic(auto, using(crate::specs::laws::load::MapAddress::lookup))]
    fn map_lookup(self, d: MapNode<'i>, xid: u64, id: u64) -> Result<u64, Refusal>
        ensures { address_at result
            ≡ looked_up (lent_of self.entry.image.now self.entry.lent) (map_read d.entry) xid id }
    {
        let key = Order::pair_key(id, xid);
        let found = self.map_floor(d, UNBOUNDED, &key, d.read.node.level)?;
        mapping(found, id)
    }

    // The address of an id as seen from a transaction, in the map whose root is at m.
    #[tactic(auto, using(crate::specs::laws::load::MapAddress::address))]
    fn map_address(self, xid: u64, id: u64, m: u64) -> Result<u64, Refusal>
        ensures { address_at result ≡ map_address (lent_of self.entry.image.now self.entry.lent) xid id m }
    {
        let read = self.load_block(Order::PAIR_ORDER, Place::root(m), m)?;
        let info = self.root_info(m, false, read.node)?;
        check(Refusal::Root, info.key_size == PAIR_SIZE)?;
        check(Refusal::Root, info.val_size == PAIR_SIZE)?;
        self.map_lookup(MapNode { read }, xid, id)
    }

    // The address of a reference: itself, or with a map lent its id's mapping.
    #[tactic(auto, using(crate::specs::laws::load::MapAddress::through))]
    pub fn address_of(self, xid: u64, r: u64) -> Result<u64, Refusal>
        ensures { address_at result ≡ address_of (lent_of self.entry.image.now self.entry.lent) xid r }
    {
        match self.lent.map {
            None => Ok(r),
            Some(m) => self.map_address(xid, r, m),
        }
    }
}
