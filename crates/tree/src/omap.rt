// Object-map put and drop (`omap_put`, `omap_drop` of write/tree.rs), one call each.
ghost use Rattle.std.specs.Prelude.{◌≡◌, List, true, ℕ, ◌+◌, ◌*◌, ◌≤◌, length};
ghost use Rattle.node.specs.Records.{entries_of};
ghost use Rattle.tree.specs.Lent.{lent_of};
ghost use Rattle.tree.specs.Omap.{is_omap, versions_end, remove_all, dropped, omap_drop_in, omap_drop, omap_put_in, omap_put};
ghost use Rattle.tree.specs.Workspace.{state_of, edits};
ghost use Rattle.tree.specs.Answers.{edited_of, edited_leaves};
ghost use Rattle.tree.specs.Trusts.{Trusts, EditedCalled};
ghost use Rattle.tree.specs.internal.Range.{end_of};
ghost use Rattle.tree.specs.internal.Edits.{EditedFrom};
ghost use Rattle.tree.specs.internal.Dropping.{put_anew};

use crate::editor::{Tree, UNBOUNDED};
use crate::lent;
use crate::lent::Lent;
use crate::map::PAIR_SIZE;
use crate::range::Asked;
use crate::view::{View, view};
use node::bytes;
use node::order::Order;
use node::refusal::{Refusal, check};
use node::slot::Records;

// The end of an id's versions: the next id's first; the last id has none.
#[tactic(auto, using(crate::specs::laws::omap::Keys::versions_last, crate::specs::laws::omap::Keys::versions_next))]
fn versions_end(out: &mut [u8; 16], id: u64) -> Option<&[u8]>
    ensures { end_of result ≡ versions_end id }
{
    let next = id.checked_add(1)?;
    *out = Order::pair_key(next, 0);
    Some(out)
}

impl Tree {
    // 12: pair order with 16-byte keys and values.
    #[tactic(auto, unfolding(crate::specs::Omap::is_omap, crate::specs::Workspace::state_of))]
    fn is_omap(self) -> bool
        ensures { (size : ℕ) (heads bytes : List ℕ) → result ≡ is_omap (state_of size self heads bytes) }
    {
        self.order.code == Order::PAIR
            && self.info.key_size == PAIR_SIZE
            && self.info.val_size == PAIR_SIZE
    }

    // Each remove in key order: of the entries whose keys the records have. `keys` is two blocks' worth that a remove takes for keys.
    #[tactic(auto, using(crate::specs::laws::base::Refused::handed_on, crate::specs::laws::omap::RemoveAll::remove_all_laws))]
    fn remove_all(
        self,
        image: &[u8],
        heads: &mut [u64],
        bytes: &mut [u8],
        lent: Lent,
        records: Records<'_>,
        keys: &mut [u8],
    ) -> Result<Tree, Refusal>
        requires trusts { Trusts image.now lent self heads.old bytes.old }
        requires room { 2 * lent.size ≤ length keys.old }
        ensures answer { edited_of lent.size heads.new bytes.new result
            ≡ remove_all (lent_of image.now lent) (entries_of records.entry.count records.entry.slot.now)
            (state_of lent.size self heads.old bytes.old) }
        ensures left { EditedFrom lent.size lent.slots self.used heads.old bytes.old heads.new bytes.new result }
    {
        let mut t = self;
        for (_, r) in records.walk() {
            let (u, _) = t.removed(image, heads, bytes, lent, r.key(), keys)?;
            t = u;
        }
        Ok(t)
    }

    // The loads of an id's versions, each remove in key order: they are listed in the scratch, behind what a remove takes for keys.
    #[tactic(auto, using(crate::specs::laws::base::Refused::handed_on, crate::specs::laws::omap::Drop::dropped_laws))]
    fn dropped(
        self,
        image: &[u8],
        heads: &mut [u64],
        bytes: &mut [u8],
        lent: Lent,
        id: u64,
        scratch: &mut [u8],
    ) -> Result<Tree, Refusal>
        requires trusts { Trusts image.now lent self heads.old bytes.old }
        requires room { length scratch.old ≡ (2 * lent.slots + 2) * lent.size }
        ensures answer { edited_of lent.size heads.new bytes.new result
            ≡ dropped (lent_of image.now lent) (state_of lent.size self heads.old bytes.old) id }
        ensures left { EditedFrom lent.size lent.slots self.used heads.old bytes.old heads.new bytes.new result }
    {
        let lo = Order::pair_key(id, 0);
        let mut end = [0u8; 16];
        let hi = versions_end(&mut end, id);
        let asked = Asked { lo: &lo, hi };
        let n = self.root;
        let level = view!(self, heads, bytes, lent).level_at(n);
        let found = self.range_from(image, heads, bytes, lent, UNBOUNDED, n, level, asked)?;
        let t = found.tree;
        let (keys, list) = scratch.split_at_mut(2 * lent.size);
        view!(t, heads, bytes, lent).range_out(t.root, level, asked, list, 0);
        let records = Records {
            slot: list,
            count: found.count,
        };
        t.remove_all(image, heads, bytes, lent, records, keys)
    }

    // omap_drop on slots that are trusted.
    #[tactic(auto, using(crate::specs::laws::refusal1::EditCalls::stays_trusts, crate::specs::laws::omap::Calls::omap_drop_in_laws))]
    pub fn omap_drop_in(
        self,
        image: &[u8],
        heads: &mut [u64],
        bytes: &mut [u8],
        lent: Lent,
        id: u64,
        scratch: &mut [u8],
    ) -> Result<Tree, Refusal>
        requires trusts { Trusts image.now lent self heads.old bytes.old }
        requires room { length scratch.old ≡ (2 * lent.slots + 2) * lent.size }
        ensures answer { edited_of lent.size heads.new bytes.new result
            ≡ omap_drop_in (lent_of image.now lent) (state_of lent.size self heads.old bytes.old) id }
        ensures left { EditedCalled image.now lent self heads.old bytes.old
            heads.new bytes.new result }
    {
        check(Refusal::Argument, self.is_omap())?;
        self.undone(
            heads,
            bytes,
            lent,
            &mut |heads, bytes| self.dropped(image, heads, bytes, lent, id, scratch),
        )
    }

    // The drop, then the upsert. Refused, it may leave slots changed.
    #[tactic(auto, using(crate::specs::laws::base::Refused::handed_on, crate::specs::laws::omap::Put::put_laws))]
    fn put(
        self,
        image: &[u8],
        heads: &mut [u64],
        bytes: &mut [u8],
        lent: Lent,
        id: u64,
        key: &[u8],
        value: &[u8],
        scratch: &mut [u8],
    ) -> Result<Tree, Refusal>
        requires trusts { Trusts image.now lent self heads.old bytes.old }
        requires omap { is_omap (state_of lent.size self heads.old bytes.old) ≡ true }
        requires room { length scratch.old ≡ (2 * lent.slots + 2) * lent.size }
        requires entry { (length key.now ≡ 16) × (length value.now ≡ 16) }
        ensures answer { edited_of lent.size heads.new bytes.new result
            ≡ put_anew (lent_of image.now lent) (state_of lent.size self heads.old bytes.old)
            id key.now value.now }
        ensures left { EditedFrom lent.size lent.slots self.used heads.old bytes.old heads.new bytes.new result }
    {
        let t = self.dropped(image, heads, bytes, lent, id, scratch)?;
        let keys = 2 * lent.size;
        t.upserted(
            image,
            heads,
            bytes,
            lent,
            key,
            Some(value),
            &mut scratch[..keys],
        )
    }

    // omap_put on slots that are trusted.
    pub fn omap_put_in(
        self,
        image: &[u8],
        heads: &mut [u64],
        bytes: &mut [u8],
        lent: Lent,
        id: u64,
        xid: u64,
        address: u64,
        size: u64,
        scratch: &mut [u8],
    ) -> Result<Tree, Refusal>
        requires trusts { Trusts image.now lent self heads.old bytes.old }
        requires room { length scratch.old ≡ (2 * lent.slots + 2) * lent.size }
        ensures answer { edited_of lent.size heads.new bytes.new result
            ≡ omap_put_in (lent_of image.now lent) (state_of lent.size self heads.old bytes.old)
            id xid address size }
        ensures left { EditedCalled image.now lent self heads.old bytes.old
            heads.new bytes.new result }
    {
        check(Refusal::Argument, self.is_omap())?;
        let key = Order::pair_key(id, xid);
        let mut value = [0u8; 16];
        bytes::put_field::<4>(&mut value, 4, size);
        bytes::put_field::<8>(&mut value, 8, address);
        self.undone(
            heads,
            bytes,
            lent,
            &mut |heads, bytes| self.put(image, heads, bytes, lent, id, &key, &value, scratch),
        )
    }

    // An id's versions taken out.
    pub fn omap_drop(
        self,
        image: &[u8],
        heads: &mut [u64],
        bytes: &mut [u8],
        lent: Lent,
        id: u64,
        scratch: &mut [u8],
    ) -> Result<Tree, Refusal>
        ensures answer { edited_of lent.size heads.new bytes.new result
            ≡ edits lent.size lent.slots self heads.old bytes.old scratch.old
            (λ s. omap_drop (lent_of image.now lent) s id) }
        ensures left { edited_leaves lent.size lent.slots self heads.old bytes.old
            heads.new bytes.new result }
    {
        check(
            Refusal::Lent,
            lent::edit_holds(self, image, heads, bytes, lent, scratch),
        )?;
        self.omap_drop_in(image, heads, bytes, lent, id, scratch)
    }

    // An id's mapping: its versions taken out, the new one put.
    pub fn omap_put(
        self,
        image: &[u8],
        heads: &mut [u64],
        bytes: &mut [u8],
        lent: Lent,
        id: u64,
        xid: u64,
        address: u64,
        size: u64,
        scratch: &mut [u8],
    ) -> Result<Tree, Refusal>
        ensures answer { edited_of lent.size heads.new bytes.new result
            ≡ edits lent.size lent.slots self heads.old bytes.old scratch.old
            (λ s. omap_put (lent_of image.now lent) s id xid address size) }
        ensures left { edited_leaves lent.size lent.slots self heads.old bytes.old
            heads.new bytes.new result }
    {
        check(
            Refusal::Lent,
            lent::edit_holds(self, image, heads, bytes, lent, scratch),
        )?;
        self.omap_put_in(image, heads, bytes, lent, id, xid, address, size, scratch)
    }
}
