// Upsert: the entry of a key replaced, or inserted in its place.
ghost use Rattle.std.specs.Prelude.{◌≡◌, List, [], true, false, cond, ◌||◌, ℕ, ◌+◌, ◌-◌, ◌*◌, ◌^◌, ◌≤◌, ◌<◌, length, ltb, is_ok};
ghost use Rattle.node.specs.Fit.{greater};
ghost use Rattle.node.specs.Entry.{value_length};
ghost use Rattle.node.specs.Slot.{head_at, value_means};
ghost use Rattle.node.specs.internal.Storable.{Held};
ghost use Rattle.node.specs.declared.refusal.Refusal.TheVariants.{Single, NoCut};
ghost use Rattle.tree.specs.Lent.{lent_of};
ghost use Rattle.tree.specs.State.{node_at, with_counts, with_longest};
ghost use Rattle.tree.specs.Edit.{touch, index_keys, cuts};
ghost use Rattle.tree.specs.Upsert.{put_in_leaf, upsert_on, entry_fits, upserted, upsert_in, upsert};
ghost use Rattle.tree.specs.Workspace.{state_of, edits};
ghost use Rattle.tree.specs.Answers.{lent_value, edited_of, edited_leaves};
ghost use Rattle.tree.specs.Trusts.{live, Ready, Trusts, EditedCalled};
ghost use Rattle.tree.specs.internal.Undo.{Follows};
ghost use Rattle.tree.specs.internal.Way.{steps_in, nth_step};
ghost use Rattle.tree.specs.internal.Found.{spot_found, FoundAt};
ghost use Rattle.tree.specs.internal.Edits.{EditedFrom};
ghost use Rattle.tree.specs.internal.Upserting.{held_once, Gone, way_gone};

use crate::editor::{Position, Tree};
use crate::floor::Spot;
use crate::lent::Lent;
use crate::view::{View, view};
use crate::writers::DirtyMark;
use crate::{bank, lent, writers};
use node::info::BTreeInfo;
use node::order::Order;
use node::refusal::{Refusal, check};
use node::stands;
use node::val::Val;

// A key and what it is to hold, which a record can hold.
#[derive(Clone, Copy)]
struct Storable<'k, 'v> {
    key: &'k [u8],
    value: Val<'v>,
    ghost short: { length key.now < 2 ^ 16 },
    ghost held: { Held (value_means value) } by { held_once (value_means value) },
}

// A value of so many bytes: the length of the longest only grows.
#[tactic(auto, using(crate::specs::laws::upsert::PutInLeaf::with_value_is))]
fn with_value(info: BTreeInfo, value: usize) -> BTreeInfo
    ensures { result ≡ with_longest (with_counts info info.key_count info.node_count) info.longest_key
        (greater info.longest_val value) }
{
    BTreeInfo {
        longest_val: info.longest_val.max(value as u64),
        ..info
    }
}

// One key more, and its value.
#[tactic(auto, using(crate::specs::laws::upsert::PutInLeaf::with_entry_is))]
fn with_entry(info: BTreeInfo, key: usize, value: usize) -> BTreeInfo
    requires { info.key_count < 2 ^ 64 - 1 }
    ensures { result ≡ with_longest (with_counts info (info.key_count + 1) info.node_count) (greater info.longest_key key)
        (greater info.longest_val value) }
{
    BTreeInfo {
        longest_key: info.longest_key.max(key as u64),
        key_count: info.key_count + 1,
        ..with_value(info, value)
    }
}

// 17: room in the key count for a key that is new.
#[tactic(auto, using(crate::specs::laws::upsert::PutInLeaf::count_new))]
fn room_for_key(found: bool, keys: u64) -> bool
    ensures { result ≡ (found || ltb keys (2 ^ 64 - 1)) }
{
    found || keys != u64::MAX
}

// Whether an entry is too large for any node: more than its data space beside the record's head.
#[tactic(auto)]
fn too_large(size: usize, key: usize, value: usize) -> bool
    requires { size ≤ 65536 }
    ensures { result ≡ ltb size (4 + key + value + 56) }
{
    size < key || size < value || size < 4 + key + value + 56
}

// 13 where the entry would stand alone in its leaf, 14 beside others.
#[tactic(auto, using(crate::specs::laws::upsert::PutInLeaf::refusal_alone, crate::specs::laws::upsert::PutInLeaf::refusal_beside))]
fn large_refusal(count: u64, found: bool) -> Refusal
    ensures { result ≡ cond (ltb 1 (count + cond found 0 1)) NoCut Single }
{
    let alone = if found { count <= 1 } else { count == 0 };
    if alone {
        Refusal::Single
    } else {
        Refusal::NoCut
    }
}

impl Tree {
    // 12: a key or a value that the tree cannot hold.
    #[tactic(auto, using(crate::specs::laws::upsert::PutInLeaf::fits_key, crate::specs::laws::upsert::PutInLeaf::fits_rest))]
    fn entry_fits(self, key: &[u8], value: Option<&[u8]>) -> bool
        ensures { (size : ℕ) (heads bytes : List ℕ) → result ≡ entry_fits (state_of size self heads bytes) key.now (lent_value value.entry) }
    {
        let info = self.info;
        stands::key_holds(self.order, info, key.len())
            && value.is_none_or(|bytes| stands::value_holds(info, bytes.len() as u64))
    }

    // The leaf edited, and the tree's numbers.
    #[tactic(auto, using(crate::specs::laws::upsert::PutInLeaf::put_in_leaf_laws))]
    fn put_in_leaf(
        mut self,
        heads: &mut [u64],
        bytes: &mut [u8],
        lent: Lent,
        found: Result<Spot, Spot>,
        put: Storable<'_, '_>,
    ) -> Tree
        requires ready { Ready lent.size lent.slots self.used heads.old bytes.old }
        requires place { ((spot_found found).slot < self.used)
            × ((node_at (state_of lent.size self heads.old bytes.old) (spot_found found).slot).dead ≡ false)
            × (FoundAt lent.size (state_of lent.size self heads.old bytes.old) heads.old bytes.old (spot_found found).slot put.key.now found)
            × (is_ok found ≡ false → self.info.key_count < 2 ^ 64 - 1) }
        requires room { (live (head_at heads.old (spot_found found).slot)).used
            + (4 + length put.key.now + value_length (value_means put.value)) ≤ 4 * lent.size }
        ensures after { state_of lent.size result heads.new bytes.new
            ≡ put_in_leaf (state_of lent.size self heads.old bytes.old) (spot_found found).slot put.entry.key.now
            (value_means put.entry.value) }
        ensures ready { (Ready lent.size lent.slots result.used heads.new bytes.new) × (result.used ≡ self.used) }
        ensures follows { Follows lent.size lent.slots self.used heads.old bytes.old heads.new bytes.new }
    {
        let Storable { key, value } = put;
        match found {
            Ok(spot) => {
                writers::revalue_at(heads, bytes, lent, self.used, spot, value, DirtyMark::Kept);
                self.info = with_value(self.info, value.len());
                self
            }
            Err(spot) => {
                writers::insert_at(
                    heads,
                    bytes,
                    lent,
                    self.used,
                    spot,
                    key,
                    value,
                    DirtyMark::Kept,
                );
                self.info = with_entry(self.info, key.len(), value.len());
                self
            }
        }
    }

    // The entry put in the leaf of a way that is loaded: dirty marks, the leaf, index keys, cuts.
    #[tactic(auto, using(crate::specs::laws::upsert::Parts::follows_four, crate::specs::laws::upsert::Steps::on_done))]
    fn put_on(
        self,
        heads: &mut [u64],
        bytes: &mut [u8],
        lent: Lent,
        way: &[Position],
        found: Result<Spot, Spot>,
        put: Storable<'_, '_>,
        scratch: &mut [u8],
    ) -> Result<Tree, Refusal>
        requires gone { (Gone lent self heads.old bytes.old way.now put.key.now (value_means put.value))
            × ((spot_found found).slot ≡ (nth_step way.now (length way.now - 1)).slot) }
        requires found { (FoundAt lent.size (state_of lent.size self heads.old bytes.old) heads.old bytes.old (spot_found found).slot
            put.key.now found) × (is_ok found ≡ false → self.info.key_count < 2 ^ 64 - 1) }
        requires room { (4 + length put.key.now + value_length (value_means put.value) + 56 ≤ lent.size) × (2 * lent.size ≤ length scratch.old) }
        ensures answer { edited_of lent.size heads.new bytes.new result
            ≡ cuts (lent_of [] lent) [] (steps_in way.now)
            (index_keys (steps_in way.now)
            (put_in_leaf (touch (steps_in way.now)
            (state_of lent.size self heads.old bytes.old)) (spot_found found).slot put.entry.key.now
            (value_means put.entry.value))) }
        ensures left { EditedFrom lent.size lent.slots self.used heads.old bytes.old heads.new bytes.new result }
    {
        self.touch(heads, bytes, lent, way);
        let t = self.put_in_leaf(heads, bytes, lent, found, put);
        t.index_keys(heads, bytes, lent, way, scratch);
        t.cuts(heads, bytes, lent, way, scratch)
    }

    // The edit on a way that is loaded: 17; then cuts. What is too large for any node is refused before it is stored: the cut of its
    // leaf would refuse it.
    #[tactic(auto, using(crate::specs::laws::base::Refused::handed_on, crate::specs::laws::upsert::Steps::upsert_on_laws))]
    fn upsert_on(
        self,
        heads: &mut [u64],
        bytes: &mut [u8],
        lent: Lent,
        way: &[Position],
        key: &[u8],
        value: Option<&[u8]>,
        scratch: &mut [u8],
    ) -> Result<Tree, Refusal>
        requires gone { Gone lent self heads.old bytes.old way.now key.now (lent_value value) }
        requires room { 2 * lent.size ≤ length scratch.old }
        ensures answer { edited_of lent.size heads.new bytes.new result
            ≡ upsert_on (lent_of [] lent) key.now (lent_value value.entry)
            (way_gone lent.size self heads.old bytes.old way.now) }
        ensures left { EditedFrom lent.size lent.slots self.used heads.old bytes.old heads.new bytes.new result }
    {
        let n = way[way.len() - 1].slot;
        let found = view!(self, heads, bytes, lent).found_at(n, key);
        let there = found.is_ok();
        check(Refusal::Count, room_for_key(there, self.info.key_count))?;
        let value = value.map_or(Val::Ghost, Val::Leaf);
        if too_large(lent.size, key.len(), value.len()) {
            let h = bank::live_at(heads, n);
            return Err(large_refusal(h.count, there));
        }
        let put = Storable { key, value };
        self.put_on(heads, bytes, lent, way, found, put, scratch)
    }

    // Load; 17; cuts. Refused, it may leave slots changed.
    #[tactic(auto, using(crate::specs::laws::base::Refused::handed_on, crate::specs::laws::upsert::Call::upserted_laws))]
    pub fn upserted(
        self,
        image: &[u8],
        heads: &mut [u64],
        bytes: &mut [u8],
        lent: Lent,
        key: &[u8],
        value: Option<&[u8]>,
        scratch: &mut [u8],
    ) -> Result<Tree, Refusal>
        requires trusts { Trusts image.now lent self heads.old bytes.old }
        requires entry { (entry_fits (state_of lent.size self heads.old bytes.old) key.now (lent_value value) ≡ true)
            × (2 * lent.size ≤ length scratch.old) }
        ensures answer { edited_of lent.size heads.new bytes.new result
            ≡ upserted (lent_of image.now lent) (state_of lent.size self heads.old bytes.old)
            key.now (lent_value value.entry) }
        ensures left { EditedFrom lent.size lent.slots self.used heads.old bytes.old heads.new bytes.new result }
    {
        let level = view!(self, heads, bytes, lent).level_at(self.root);
        let w = self.way(image, heads, bytes, lent, level, key)?;
        w.tree.upsert_on(heads, bytes, lent, w.steps.as_slice(), key, value, scratch)
    }

    // upsert on slots that are trusted: 12; the edit. Refused, every slot is as it was.
    #[tactic(auto, using(crate::specs::laws::upsert::Call::upsert_in_laws, crate::specs::laws::refusal1::EditCalls::upsert_in_laws))]
    pub fn upsert_in(
        self,
        image: &[u8],
        heads: &mut [u64],
        bytes: &mut [u8],
        lent: Lent,
        key: &[u8],
        value: Option<&[u8]>,
        scratch: &mut [u8],
    ) -> Result<Tree, Refusal>
        requires trusts { Trusts image.now lent self heads.old bytes.old }
        requires room { 2 * lent.size ≤ length scratch.old }
        ensures answer { edited_of lent.size heads.new bytes.new result
            ≡ upsert_in (lent_of image.now lent) (state_of lent.size self heads.old bytes.old)
            key.now (lent_value value.entry) }
        ensures left { EditedCalled image.now lent self heads.old bytes.old
            heads.new bytes.new result }
    {
        check(Refusal::Argument, self.entry_fits(key, value))?;
        self.undone(
            heads,
            bytes,
            lent,
            &mut |heads, bytes| self.upserted(image, heads, bytes, lent, key, value, scratch),
        )
    }

    // The entry of a key put: bytes, or a ghost where there are none.
    #[tactic(auto, using(crate::specs::laws::refusal1::EditCalls::upsert_laws))]
    pub fn upsert(
        self,
        image: &[u8],
        heads: &mut [u64],
        bytes: &mut [u8],
        lent: Lent,
        key: &[u8],
        value: Option<&[u8]>,
        scratch: &mut [u8],
    ) -> Result<Tree, Refusal>
        ensures answer { edited_of lent.size heads.new bytes.new result
            ≡ edits lent.size lent.slots self heads.old bytes.old scratch.old
            (λ s. upsert (lent_of image.now lent) s key.now (lent_value value.entry)) }
        ensures left { edited_leaves lent.size lent.slots self heads.old bytes.old
            heads.new bytes.new result }
    {
        let holds = lent::edit_holds(self, image, heads, bytes, lent, scratch);
        check(Refusal::Lent, holds)?;
        self.upsert_in(image, heads, bytes, lent, key, value, scratch)
    }
}
