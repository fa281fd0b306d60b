// Flush (`flush` and `write` of write/tree.rs): dead nodes listed, dirty ones written, children before parent.
ghost use Rattle.std.specs.Prelude.{◌≡◌, [], true, cond, ◌&&◌, ◌+◌, ◌*◌, ◌/◌, ◌≤◌, ◌<◌, ◌^◌, length, eqb, option_to_list};
ghost use Rattle.tree.specs.Format.{marked, only, Sized};
ghost use Rattle.tree.specs.Lent.{lent_of};
ghost use Rattle.tree.specs.Trust.{trusted};
ghost use Rattle.tree.specs.Workspace.{state_of};
ghost use Rattle.tree.specs.Trusts.{Ready};
ghost use Rattle.flush.specs.Space.{space_of, usable, space_holds};
ghost use Rattle.flush.specs.Flush.{type_of, write_node, write_from, sum_from, fill, lists_hold, flush_in};
ghost use Rattle.flush.specs.Answers.{lists_of, flushed_of, flushed_means, flushed_in, flushed_leaves};
ghost use Rattle.flush.specs.internal.Lists.{Pushed, Reported};
ghost use Rattle.flush.specs.internal.Counts.{dirty_one, id_one, Counted};
ghost use Rattle.flush.specs.internal.Walk.{packed_at, Fitting, state_in, walk_of, StandsIn, AliveIn, DirtyIn, InImage, SpacedIn, FittingIn, RoomIn, WroteIn, LeftIn, LongIn, Listed, Kept, SameLists};
ghost use Rattle.tree.specs.internal.View.{seen};
ghost use Rattle.flush.specs.internal.Calls.{short_of, all_of, FinishedIn, FlushCalled};

use crate::space;
use crate::space::Chunks;
use tree::editor::Tree;
use tree::head::Head;
use tree::lent::Lent;
use tree::obj::{OBJ_PHYSICAL, OBJ_VIRTUAL, OBJECT_TYPE_BTREE, OBJECT_TYPE_BTREE_NODE};
use tree::refusal::{Refusal, check};
use tree::view::View;
use tree::{bank, block, kids, lent, pack};

// How far a flush has come: the next id, and how much stands in each list.
#[derive(Clone, Copy, Default)]
pub struct Flushing {
    pub next: u64,
    pub freed: usize,
    pub removed: usize,
    pub moved: usize,
    pub allocated: u64,
}

// What an accepted flush answers.
#[derive(Clone, Copy)]
pub struct Flushed {
    // The root: an address, or an id.
    pub root: u64,
    pub keys: u64,
    pub fill: u64,
    pub done: Flushing,
}

// A number, where there is one, stored where a list ends. The answer is the list's new end.
#[tactic(auto, using(crate::specs::laws::ListLaws::pushing))]
fn push(list: &mut [u64], end: usize, number: Option<u64>) -> usize
    requires { end + length (option_to_list number) ≤ length list.old }
    ensures { Pushed end (option_to_list number) list.old list.new result }
{
    let Some(x) = number else {
        return end;
    };
    list[end] = x;
    end + 1
}

// The id that a removed node leaves: none in a physical tree.
fn removed_id(by_id: bool, head: Head) -> Option<u64>
    ensures { option_to_list result ≡ cond by_id (marked head.named head.id) [] }
{
    if by_id { head.id() } else { None }
}

// The lists that a flush fills, and how far it has come.
#[derive(Drop)]
struct Reports<'r> {
    freed: &'r mut [u64],
    removed: &'r mut [u64],
    ids: &'r mut [u64],
    places: &'r mut [u64],
    done: Flushing,
}

impl<'r> Reports<'r> {
    // Dead nodes, in slot order: address to freed, id (virtual) to removed.
    #[tactic(auto, using(crate::specs::laws::StepLaws::listing_dead))]
    fn list_dead(&mut self, t: Tree, heads: &[u64])
        requires { (t.used * 9 ≤ length heads.now) × (t.used ≤ length self.old.freed.now) × (t.used ≤ length self.old.removed.now) }
        ensures listed { Reported t.by_id t.used self.old.done.next heads.now self.old.freed.now self.old.removed.now
            self.new.freed.now self.new.removed.now self.new.done }
        ensures kept { Listed self.old self.new }
    {
        let mut f = 0;
        let mut r = 0;
        for n in 0..t.used {
            let h = bank::live_at(heads, n);
            if h.dead != 1 {
                continue;
            }
            f = push(self.freed, f, h.block());
            r = push(self.removed, r, removed_id(t.by_id, h));
        }
        let next = self.done.next;
        self.done = Flushing {
            next,
            freed: f,
            removed: r,
            ..Flushing::default()
        };
    }
}

// Nodes that flush is to write, and ids that it is to give.
#[derive(Clone, Copy, Default)]
pub struct Wanted {
    pub dirty: u64,
    pub ids: u64,
}

// Whether a node takes the next id: one of a virtual tree that has none.
fn takes_id(by_id: bool, own: Option<u64>) -> bool
    ensures { result ≡ by_id && eqb (length (option_to_list own)) 0 }
{
    own.is_none() && by_id
}

// The sums with one node: 1 for a dirty one; 1 for one that takes an id.
#[tactic(auto, using(crate::specs::laws::TallyLaws::wanting))]
fn wanted_at(by_id: bool, head: Head, s: Wanted) -> Wanted
    requires { (s.dirty < 2 ^ 40) × (s.ids < 2 ^ 40) }
    ensures { (result.dirty ≡ s.dirty + cond (eqb head.dirty 1) 1 0)
        × (result.ids ≡ s.ids + cond (eqb head.dirty 1 && by_id && eqb (length (marked head.named head.id)) 0) 1 0) }
{
    if head.dirty != 1 {
        return s;
    }
    let new = takes_id(by_id, head.id());
    Wanted {
        dirty: s.dirty + 1,
        ids: s.ids + u64::from(new),
    }
}

// The sums over the nodes reached from slot n, d levels down; they stop above a limit.
#[tactic(auto, using(crate::specs::laws::TallyLaws::tallying))]
fn count_from(v: View<'_, '_>, n: usize, d: u64, limit: u64, s: Wanted) -> Wanted
    requires { (s.dirty ≤ limit + 1) × (s.ids ≤ s.dirty) × (limit < 2 ^ 32) }
    ensures { Counted limit (sum_from dirty_one d (seen v.entry) n) (sum_from (id_one v.entry.tree.by_id) d (seen v.entry) n) s result 0 0 }
{
    if v.tree.used <= n {
        return s;
    }
    if limit < s.dirty {
        return s;
    }
    let h = bank::live_at(v.heads, n);
    let mut sum = wanted_at(v.tree.by_id, h, s);
    if d == 0 {
        return sum;
    }
    let records = v.records(n);
    for (_, r) in records.walk() {
        let Some(slot) = kids::kid_of(r) else {
            continue;
        };
        sum = count_from(v, slot, d - 1, limit, sum);
    }
    sum
}

// Contents, keys and values of the root as packed, in percent of its data space, rounded down.
#[tactic(auto, using(crate::specs::laws::TallyLaws::fill_is))]
fn fill(v: View<'_, '_>) -> u64
    requires { Sized v.tree.info × (v.tree.root < v.tree.used) }
    ensures { result ≡ fill (seen v.entry) }
{
    let n = v.root_length();
    n * 100 / v.tree.root_space()
}

// The type of a node's block, with its storage class.
#[tactic(auto, unfolding(crate::specs::Flush::type_of))]
fn type_of(by_id: bool, root: bool) -> u64
    ensures { result ≡ type_of by_id root }
{
    let storage = if by_id { OBJ_VIRTUAL } else { OBJ_PHYSICAL };
    let kind = if root {
        OBJECT_TYPE_BTREE
    } else {
        OBJECT_TYPE_BTREE_NODE
    };
    storage | kind
}

// The id in the block's header: of a physical node its address.
#[tactic(auto, using(crate::specs::laws::WriteLaws::only_or))]
fn block_id(by_id: bool, id: Option<u64>, a: u64) -> u64
    ensures { result ≡ cond by_id (only (option_to_list id)) a }
{
    if by_id { id.unwrap_or(0) } else { a }
}

// What a flush reads: the tree, its slots' bytes, the chunks' block counts, and the transaction that writes.
#[derive(Clone, Copy)]
struct Source<'s> {
    tree: Tree,
    lent: Lent,
    bytes: &'s [u8],
    counts: &'s [u32],
    xid: u64,
}

impl<'s> Source<'s> {
    // The tree and its slots as they are read.
    fn view<'h>(self, heads: &'h [u64]) -> View<'h, 's>
        requires { StandsIn self heads.now }
        ensures { (result.tree ≡ self.entry.tree) × (result.heads ≡ heads.entry) × (result.bytes ≡ self.entry.bytes)
            × (result.lent ≡ self.entry.lent) }
    {
        View {
            tree: self.tree,
            heads,
            bytes: self.bytes,
            lent: self.lent,
        }
    }

    // A node packed and sealed into the block that it is given.
    #[tactic(auto, using(crate::specs::laws::BlockLaws::packing))]
    fn pack_at(self, image: &mut [u8], heads: &[u64], n: usize, a: usize, oid: u64)
        requires standing { StandsIn self heads.now }
        requires dirty { DirtyIn self heads.now n }
        requires inside { InImage self image.old a }
        ensures { image.new ≡ packed_at (state_in self.entry heads.now) self.entry.xid n a oid image.old }
    {
        let otype = type_of(self.tree.by_id, n == self.tree.root);
        let start = a * self.lent.size;
        let view = self.view(heads);
        view.pack_slot(&mut image[start..], n, oid, self.xid, otype);
    }

    // A dirty node in the block chosen for it: its old one freed, packed and sealed, clean.
    #[tactic(auto, using(crate::specs::laws::BlockLaws::writing, crate::specs::laws::TallyLaws::words_room))]
    fn write_at(
        self,
        image: &mut [u8],
        heads: &mut [u64],
        lists: &mut Reports<'_>,
        n: usize,
        a: usize,
    )
        requires standing { StandsIn self heads.old }
        requires dirty { DirtyIn self heads.old n }
        requires inside { InImage self image.old a }
        requires room { RoomIn self heads.old lists.old n }
        ensures wrote { WroteIn self.entry n a image.old image.new heads.old heads.new lists.old lists.new }
        ensures left { LeftIn self.entry heads.old heads.new lists.old lists.new }
        ensures kept { Kept lists.old lists.new }
    {
        let h = bank::live_at(heads, n);
        let own = h.id();
        let done = lists.done;
        let fresh = takes_id(self.tree.by_id, own).then_some(done.next);
        let id = own.or(fresh);
        let oid = block_id(self.tree.by_id, id, a as u64);
        let old = h.block();
        let freed = push(lists.freed, done.freed, old);
        self.pack_at(image, heads, n, a, oid);
        block::rewrite_with_id(heads, n, a as u64, id);
        let number = self.tree.by_id.then_some(oid);
        let place = self.tree.by_id.then_some(a as u64);
        let moved = push(lists.ids, done.moved, number);
        push(lists.places, done.moved, place);
        lists.done = Flushing {
            next: done.next + u64::from(fresh.is_some()),
            freed,
            removed: done.removed,
            moved,
            allocated: done.allocated + 1,
        };
    }

    // A node after its children: a clean one stays; a dirty one takes the block chosen.
    #[tactic(auto, using(crate::specs::laws::StepLaws::stepping, crate::specs::laws::TallyLaws::words_room))]
    fn write_node(
        self,
        image: &mut [u8],
        bitmap: &mut [u8],
        free: &mut [u32],
        heads: &mut [u64],
        lists: &mut Reports<'_>,
        n: usize,
    )
        requires standing { StandsIn self heads.old }
        requires alive { AliveIn self heads.old n }
        requires chunks { SpacedIn self image.old bitmap.old free.old }
        requires fitting { FittingIn lists.old (write_node (state_in self heads.old) self.xid n
            (walk_of self image.old bitmap.old free.old heads.old lists.old)) }
        ensures wrote { walk_of self.entry image.new bitmap.new free.new heads.new lists.new
            ≡ write_node (state_in self.entry heads.old) self.entry.xid n (walk_of self.entry image.old bitmap.old free.old heads.old lists.old) }
        ensures left { LeftIn self.entry heads.old heads.new lists.old lists.new }
        ensures spaced { SpacedIn self.entry image.old bitmap.new free.new }
        ensures kept { Kept lists.old lists.new }
    {
        let h = bank::live_at(heads, n);
        if h.dirty != 1 {
            return;
        }
        let Some(choice) = space::alloc(bitmap, self.counts, free, self.lent.size) else {
            return;
        };
        let a = choice.block;
        self.write_at(image, heads, lists, n, a);
    }

    // Children before parent and left to right, the depth falling with the level.
    #[tactic(auto, using(crate::specs::laws::GoingLaws::going))]
    fn write_from(
        self,
        image: &mut [u8],
        bitmap: &mut [u8],
        free: &mut [u32],
        heads: &mut [u64],
        lists: &mut Reports<'_>,
        n: usize,
        d: u64,
    )
        requires standing { StandsIn self heads.old }
        requires alive { AliveIn self heads.old n }
        requires chunks { SpacedIn self image.old bitmap.old free.old }
        requires fitting { FittingIn lists.old (write_from d (state_in self heads.old) self.xid n
            (walk_of self image.old bitmap.old free.old heads.old lists.old)) }
        ensures wrote { walk_of self.entry image.new bitmap.new free.new heads.new lists.new
            ≡ write_from d (state_in self.entry heads.old) self.entry.xid n (walk_of self.entry image.old bitmap.old free.old heads.old lists.old) }
        ensures left { LeftIn self.entry heads.old heads.new lists.old lists.new }
        ensures spaced { SpacedIn self.entry image.old bitmap.new free.new }
        ensures kept { Kept lists.old lists.new }
    {
        if d == 0 {
            self.write_node(image, bitmap, free, heads, lists, n);
            return;
        }
        let view = self.view(heads);
        let records = view.records(n);
        for (_, r) in records.walk() {
            let Some(slot) = kids::kid_of(r) else {
                continue;
            };
            self.write_from(image, bitmap, free, heads, lists, slot, d - 1);
        }
        self.write_node(image, bitmap, free, heads, lists, n);
    }
}

// 1 of chunks and lists: a chunk past the image or too long; a list not as long as the slots.
#[tactic(auto, using(crate::specs::laws::AllLaws::listing))]
fn lists_hold(
    bitmap: &[u8],
    counts: &[u32],
    free: &[u32],
    freed: &[u64],
    removed: &[u64],
    ids: &[u64],
    places: &[u64],
    size: usize,
    slots: usize,
    blocks: usize,
) -> bool
    requires { 1 ≤ slots }
    ensures { result ≡ space_holds size blocks (space_of bitmap.now counts.now free.now)
        && lists_hold slots (lists_of freed.now removed.now ids.now places.now) }
{
    space::space_holds(bitmap, counts, free, size, blocks)
        && [freed, removed, ids, places]
            .iter()
            .all(|list| list.len() == slots)
}

// 16 fewer usable blocks than dirty nodes reached, 17 too few ids left.
#[tactic(auto, using(crate::specs::laws::AllLaws::usable_few))]
fn short_of(v: View<'_, '_>, chunks: Chunks<'_>, next: u64) -> Result<(), Refusal>
    ensures { result ≡ short_of (seen v.entry)
        (usable chunks.entry.size (space_of chunks.entry.bitmap.now chunks.entry.counts.now chunks.entry.free.now)) next }
{
    let root = v.tree.root;
    let level = v.level_at(root);
    let most = chunks.usable();
    let wanted = count_from(v, root, level, most, Wanted::default());
    check(Refusal::Full, wanted.dirty <= most)?;
    check(Refusal::Count, next.checked_add(wanted.ids).is_some())
}

impl<'s> Source<'s> {
    // Dead nodes listed, then the walk from the root. There are blocks, ids and room enough.
    #[tactic(auto, using(crate::specs::laws::StepLaws::lists_same, crate::specs::laws::AllLaws::write_all_laws))]
    fn write_all(
        self,
        image: &mut [u8],
        bitmap: &mut [u8],
        free: &mut [u32],
        heads: &mut [u64],
        lists: &mut Reports<'_>,
    ) -> Flushed
        requires standing { StandsIn self heads.old }
        requires alive { AliveIn self heads.old self.tree.root }
        requires chunks { SpacedIn self image.old bitmap.old free.old }
        requires long { LongIn self lists.old }
        requires fitting { Fitting self.lent.slots self.lent.slots self.lent.slots
            (all_of self image.old bitmap.old free.old heads.old lists.old.done.next).after }
        ensures flushed { flushed_of self.entry.lent.size self.entry.tree image.new (space_of bitmap.new self.entry.counts.now free.new)
            heads.new self.entry.bytes.now lists.new.freed.now lists.new.removed.now lists.new.ids.now lists.new.places.now result
            ≡ all_of self.entry image.old bitmap.old free.old heads.old lists.old.done.next }
        ensures left { FinishedIn self.entry heads.old heads.new lists.old lists.new result }
        ensures kept { SameLists lists.old lists.new }
    {
        let t = self.tree;
        let v = self.view(heads);
        let level = v.level_at(t.root);
        let filled = fill(v);
        lists.list_dead(t, heads);
        self.write_from(image, bitmap, free, heads, lists, t.root, level);
        Flushed {
            root: pack::child_number(heads, t.root as u64, t.by_id),
            keys: t.info.key_count,
            fill: filled,
            done: lists.done,
        }
    }
}

// Flush on slots that are trusted: 1 of chunks and lists; 16; 17. It refuses before it writes.
#[tactic(auto, using(crate::specs::laws::CallLaws::refusing, crate::specs::laws::StepLaws::spaced_held, crate::specs::laws::CallLaws::spaced_is))]
pub fn flush_in(
    t: Tree,
    image: &mut [u8],
    bitmap: &mut [u8],
    counts: &[u32],
    free: &mut [u32],
    heads: &mut [u64],
    bytes: &[u8],
    freed: &mut [u64],
    removed: &mut [u64],
    ids: &mut [u64],
    places: &mut [u64],
    lent: Lent,
    xid: u64,
    next: u64,
) -> Result<Flushed, Refusal>
    requires ready { Ready lent.size lent.slots t.used heads.old bytes.now }
    requires bytes_value { trusted (lent_of image.old lent) (state_of lent.size t heads.old bytes.now) ≡ true }
    ensures answer { flushed_means lent.size t image.new (space_of bitmap.new counts.now free.new)
        heads.new bytes.now freed.new removed.new ids.new places.new result
        ≡ flush_in (lent_of image.old lent) (space_of bitmap.old counts.now free.old)
        (lists_of freed.old removed.old ids.old places.old)
        (state_of lent.size t heads.old bytes.now) xid next }
    ensures left { FlushCalled lent.size lent.slots t image.old image.new
        (space_of bitmap.old counts.now free.old)
        (space_of bitmap.new counts.now free.new) heads.old heads.new
        bytes.now freed.old freed.new removed.old removed.new
        ids.old ids.new places.old places.new result }
{
    let size = lent.size;
    let slots = lent.slots;
    let blocks = image.len() / size;
    let holds = lists_hold(
        bitmap, counts, free, freed, removed, ids, places, size, slots, blocks,
    );
    check(Refusal::Lent, holds)?;
    let v = View {
        tree: t,
        heads,
        bytes,
        lent,
    };
    let chunks = Chunks {
        bitmap,
        counts,
        free,
        size,
    };
    short_of(v, chunks, next)?;
    let source = Source {
        tree: t,
        lent,
        bytes,
        counts,
        xid,
    };
    let mut lists = Reports {
        freed,
        removed,
        ids,
        places,
        done: Flushing {
            next,
            ..Flushing::default()
        },
    };
    Ok(source.write_all(image, bitmap, free, heads, &mut lists))
}

// What was changed is written, and the lists are filled: 1; 16; 17.
#[tactic(auto, using(crate::specs::laws::CallLaws::unlent))]
pub fn flush(
    t: Tree,
    image: &mut [u8],
    bitmap: &mut [u8],
    counts: &[u32],
    free: &mut [u32],
    heads: &mut [u64],
    bytes: &[u8],
    freed: &mut [u64],
    removed: &mut [u64],
    ids: &mut [u64],
    places: &mut [u64],
    lent: Lent,
    xid: u64,
    next: u64,
) -> Result<Flushed, Refusal>
    ensures answer { flushed_means lent.size t image.new (space_of bitmap.new counts.now free.new)
        heads.new bytes.now freed.new removed.new ids.new places.new result
        ≡ flushed_in (lent_of image.old lent) (space_of bitmap.old counts.now free.old)
        (lists_of freed.old removed.old ids.old places.old) t
        heads.old bytes.now xid next }
    ensures left { flushed_leaves lent.size lent.slots t image.old image.new
        (space_of bitmap.old counts.now free.old)
        (space_of bitmap.new counts.now free.new) heads.old heads.new
        bytes.now freed.old freed.new removed.old removed.new
        ids.old ids.new places.old places.new result }
{
    check(
        Refusal::Lent,
        lent::lent_holds(t, image, heads, bytes, lent),
    )?;
    flush_in(
        t, image, bitmap, counts, free, heads, bytes, freed, removed, ids, places, lent, xid, next,
    )
}
