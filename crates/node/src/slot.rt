// A node's entries in a slot: n records at the start of the slot's bytes, in key order; `used` bytes are theirs
// (`MemNode`'s keys and vals of write/tree.rs). Each function is lent one slot's bytes, so no other slot is touched.
ghost use Rattle.std.specs.Prelude.{◌≡◌, true, ℕ, ◌+◌, ◌-◌, ◌≤◌, ◌<◌, ◌^◌, length, drop, MatchOption};
ghost use Rattle.node.specs.Entry.{value_length};
ghost use Rattle.node.specs.Records.{record_length, entry_of, records_length, entries_of};
ghost use Rattle.node.specs.Slot.{insert_at, remove_at, with_key, with_value, records_hold, is_child, child_means, value_means};
ghost use Rattle.node.specs.internal.SlotSteps.{found_in, last_in, EntryUpto, EntryIn};
ghost use Rattle.node.specs.internal.Storable.{Held};
ghost use Rattle.node.specs.internal.Sought.{Passed};

use crate::order::Order;
use crate::record;
use crate::record::Record;
use crate::sought::{ByteKey, PairKey, Sought};
use crate::val::{Child, Val};
use seal::bytes;

// Where a record starts, or would, and how many records stand before it.
#[derive(Clone, Copy)]
pub struct RecordAt {
    pub index: u64,
    pub at: usize,
}

// How many entries have a key not above a key, and where the last of them lies: where the first lies if there is none.
#[derive(Clone, Copy)]
pub struct Last {
    pub count: u64,
    pub at: usize,
}

// How many leading records a search passes at once, where the next lies, and the last of them: the first if there is none.
#[derive(Clone, Copy, Default)]
pub struct Run {
    pub count: u64,
    pub at: usize,
    pub last: usize,
}

// Where an entry stands that is written: how many records the slot has and which of them it is, the bytes that they take
// and where it starts. After the last of them stands none yet.
#[derive(Clone, Copy)]
pub struct EntryAt {
    pub count: u64,
    pub index: u64,
    pub used: usize,
    pub at: usize,
}

// n records at the start of a slot, which lie within it.
#[derive(Clone, Copy)]
pub struct Records<'s> {
    pub slot: &'s [u8],
    pub count: u64,
    ghost within: { records_length count slot.now ≤ length slot.now },
}

impl<'s> Records<'s> {
    // Where record i starts.
    #[tactic(auto, using(crate::specs::laws::slot::Walk::goes_on))]
    pub fn offset_of(self, i: u64) -> usize
        requires { i ≤ self.count }
        ensures { result ≡ records_length i self.entry.slot.now }
    {
        let mut walk = self.walk();
        for _ in 0..i {
            walk.next();
        }
        walk.at
    }

    // Record i.
    #[tactic(auto, using(crate::specs::laws::slot::Slot::at_lies))]
    pub fn record(self, i: u64) -> Record<'s>
        requires { i < self.count }
        ensures { (result.slot.now ≡ self.entry.slot.now) × (result.at ≡ records_length i self.entry.slot.now) }
    {
        Record {
            slot: self.slot,
            at: self.offset_of(i),
        }
    }

    // Record i, if there are so many.
    pub fn get(self, i: u64) -> Option<Record<'s>>
        ensures { MatchOption result (self.entry.count ≤ i)
            (λ r. (i < self.entry.count) × (r.slot.now ≡ self.entry.slot.now) × (r.at ≡ records_length i self.entry.slot.now)) }
    {
        if self.count <= i {
            return None;
        }
        Some(self.record(i))
    }

    // The place of a key, from where a run of passed records ends.
    #[tactic(auto, using(crate::specs::laws::slot::Passed::place))]
    fn below_from<S: Sought>(self, run: Run, s: &S) -> Result<RecordAt, RecordAt>
        requires { Passed S.order (S.wanted s.now) self.count self.slot.now run }
        ensures { result ≡ found_in S.order (S.wanted s.now) self.entry.count self.entry.slot.now }
    {
        let mut at = run.at;
        for (i, r) in self.walk_from(run.count, run.at) {
            let c = s.compare(r);
            if !c.is_lt() {
                let here = RecordAt { index: i, at: r.at };
                if c.is_eq() {
                    return Ok(here);
                }
                return Err(here);
            }
            at = r.next();
        }
        Err(RecordAt {
            index: self.count,
            at,
        })
    }

    // The entries not above a key, from where a run of passed records ends.
    #[tactic(auto, using(crate::specs::laws::slot::Passed::above))]
    fn not_above_from<S: Sought>(self, run: Run, s: &S) -> Last
        requires { Passed S.order (S.wanted s.now) self.count self.slot.now run }
        ensures { result ≡ last_in S.order (S.wanted s.now) self.entry.count self.entry.slot.now }
    {
        let mut last = run.last;
        for (i, r) in self.walk_from(run.count, run.at) {
            if s.compare(r).is_gt() {
                return Last { count: i, at: last };
            }
            last = r.at;
        }
        Last {
            count: self.count,
            at: last,
        }
    }

    // The record that has a key, or else where it would stand: after the entries whose keys are below it. It is asked for in leaves, and in pair
    // order records mostly have one length.
    #[tactic(auto, using(crate::specs::laws::slot::Passed::found_other))]
    pub fn below(self, order: Order, key: &[u8]) -> Result<RecordAt, RecordAt>
        ensures { result ≡ found_in order.code key.now self.entry.count self.entry.slot.now }
    {
        if order.code == Order::PAIR {
            let s = PairKey::new(key);
            return self.below_from(self.run_marked(&s), &s);
        }
        let s = ByteKey::new(key);
        self.below_from(self.run_plain(&s), &s)
    }

    // The entries whose keys are not above a key: the last of them is where a descent goes on.
    #[tactic(auto, using(crate::specs::laws::slot::Passed::last_other))]
    pub fn not_above(self, order: Order, key: &[u8]) -> Last
        ensures { result ≡ last_in order.code key.now self.entry.count self.entry.slot.now }
    {
        if order.code == Order::PAIR {
            let s = PairKey::new(key);
            return self.not_above_from(self.run_marked(&s), &s);
        }
        let s = ByteKey::new(key);
        self.not_above_from(self.run_led(&s), &s)
    }
}

// Whether n records lie within the slot and take `used` bytes. Stops at the first that does not lie within it.
#[tactic(auto, using(crate::specs::laws::slot::Find::hold))]
pub fn records_hold(slot: &[u8], n: u64, used: u64) -> bool
    ensures { result ≡ records_hold n used slot.now }
{
    let mut at = 0;
    for _i in 0..n {
        let Some(r) = Record::at(slot, at) else {
            return false;
        };
        at = r.next();
    }
    at as u64 == used
}

// A record put before an entry. The answer of this and the next three is the bytes in use after it.
#[tactic(auto, using(crate::specs::laws::slot::Slot::writes_insert))]
pub fn insert(slot: &mut [u8], e: EntryAt, key: &[u8], value: Val<'_>) -> usize
    requires place { EntryUpto slot.old e }
    requires room { e.used + 4 + length key.now + value_length (value_means value) ≤ length slot.old }
    requires stored { (length key.now < 2 ^ 16) × Held (value_means value) }
    ensures used { result ≡ e.used + 4 + length key.now + value_length (value_means value.entry) }
    ensures taken { records_length (e.count + 1) slot.new ≡ result }
    ensures entries { entries_of (e.count + 1) slot.new
        ≡ insert_at e.index (record { key = key.now; value = value_means value.entry }) (entries_of e.count slot.old) }
{
    let next = e.at + 4 + key.len() + value.len();
    bytes::shift(slot, e.at, next, e.used - e.at);
    record::put_value(slot, e.at, key, value);
    next + (e.used - e.at)
}

#[tactic(auto, using(crate::specs::laws::slot::Slot::writes_remove))]
pub fn remove(slot: &mut [u8], e: EntryAt) -> usize
    requires place { EntryIn slot.old e }
    requires within { records_length e.count slot.old ≤ length slot.old }
    ensures used { result + record_length (drop e.at slot.old) ≡ e.used }
    ensures taken { records_length (e.count - 1) slot.new ≡ result }
    ensures entries { entries_of (e.count - 1) slot.new ≡ remove_at e.index (entries_of e.count slot.old) }
{
    let next = Record { slot, at: e.at }.next();
    bytes::shift(slot, next, e.at, e.used - next);
    e.at + (e.used - next)
}

// An entry with another key.
#[tactic(auto, using(crate::specs::laws::slot::Slot::writes_set_key))]
pub fn set_key(slot: &mut [u8], e: EntryAt, key: &[u8]) -> usize
    requires place { EntryIn slot.old e }
    requires room { e.used + length key.now ≤ length slot.old }
    requires stored { length key.now < 2 ^ 16 }
    ensures used { result + length (entry_of (drop e.at slot.old)).key ≡ e.used + length key.now }
    ensures taken { records_length e.count slot.new ≡ result }
    ensures entries { entries_of e.count slot.new
        ≡ with_key e.index key.now (entries_of e.count slot.old) }
{
    let r = Record { slot, at: e.at }.parts();
    let from = r.value;
    let klen = key.len();
    let to = e.at + 4 + klen;
    bytes::shift(slot, from, to, e.used - from);
    bytes::copy_to(key, slot, e.at + 4);
    bytes::put_field::<2>(slot, e.at, klen as u64);
    to + (e.used - from)
}

// An entry with another value.
#[tactic(auto, using(crate::specs::laws::slot::Slot::writes_set_value))]
pub fn set_value(slot: &mut [u8], e: EntryAt, value: Val<'_>) -> usize
    requires place { EntryIn slot.old e }
    requires room { e.used + value_length (value_means value) ≤ length slot.old }
    requires stored { Held (value_means value) }
    ensures used { result + value_length (entry_of (drop e.at slot.old)).value
        ≡ e.used + value_length (value_means value.entry) }
    ensures taken { records_length e.count slot.new ≡ result }
    ensures entries { entries_of e.count slot.new
        ≡ with_value e.index (value_means value.entry) (entries_of e.count slot.old) }
{
    let r = Record { slot, at: e.at }.parts();
    let v = r.value;
    let from = r.next;
    let to = v + value.len();
    bytes::shift(slot, from, to, e.used - from);
    value.store(slot, v);
    bytes::put_field::<2>(slot, e.at + 2, value.mark());
    to + (e.used - from)
}

// The child of record i is another, on disk or in a slot: its mark and its number change in place, and no record moves.
#[tactic(auto, using(crate::specs::laws::slot::Records::record_room_2, crate::specs::laws::slot::Slot::at_lies))]
pub fn relink(slot: &mut [u8], n: u64, i: u64, at: usize, c: Child)
    requires place { (at ≡ records_length i slot.old) × (i < n)
        × (records_length n slot.old ≤ length slot.old) }
    requires old { is_child (entry_of (drop at slot.old)).value ≡ true }
    requires new { Held (child_means c) }
    ensures entries { entries_of n slot.new ≡ with_value i (child_means c) (entries_of n slot.old) }
    ensures starts { (j : ℕ) → j ≤ n
        → records_length j slot.new ≡ records_length j slot.old }
{
    let v = Record { slot, at }.parts().value;
    let value = Val::Child(c);
    value.store(slot, v);
    bytes::put_field::<2>(slot, at + 2, value.mark());
}
