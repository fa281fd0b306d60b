// Changes of a slot's records at one entry: what each asks, and which entries it leaves.
ghost use Rattle.std.specs.Prelude.{◌≡◌, List, ℕ, ◌+◌, ◌≤◌, ◌<◌, ◌^◌, length};
ghost use Rattle.node.specs.Entry.{Entry, value_length};
ghost use Rattle.node.specs.Records.{records_length, entries_of};
ghost use Rattle.node.specs.Slot.{insert_at, remove_at, with_key, with_value, value_means};
ghost use Rattle.node.specs.internal.SlotSteps.{EntryUpto};
ghost use Rattle.node.specs.internal.Storable.{Held};

use node::slot;
use node::slot::EntryAt;
use node::val::Val;

// How many records a slot has after a change, and the bytes that they take.
#[derive(Clone, Copy)]
pub struct Extent {
    pub count: u64,
    pub used: usize,
}

// A change of a slot's records at one entry.
pub trait Change {
    // What it asks of itself, and of the entry: how many are before it, of so many.
    ghost fits: { Self → ℕ → ℕ → Type 0 };

    // The most bytes that it adds to the records.
    ghost most: { Self → ℕ };

    // The entries that it leaves, of those that were there.
    ghost leaves: { Self → ℕ → List Entry → List Entry };

    fn make(self, slot: &mut [u8], e: EntryAt) -> Extent
        requires place { EntryUpto slot.old e }
        requires fits { fits self e.index e.count }
        requires room { e.used + most self ≤ length slot.old }
        ensures used { result.used ≤ e.used + most self }
        ensures taken { records_length result.count slot.new ≡ result.used }
        ensures entries { entries_of result.count slot.new ≡ leaves self e.index (entries_of e.count slot.old) };
}

// An entry put before another, or after the last.
#[derive(Clone, Copy)]
pub struct Insert<'a> {
    pub key: &'a [u8],
    pub value: Val<'a>,
}

// An entry taken out.
#[derive(Clone, Copy)]
pub struct Remove;

// An entry with another key.
#[derive(Clone, Copy)]
pub struct Rekey<'a> {
    pub key: &'a [u8],
}

// An entry with another value.
#[derive(Clone, Copy)]
pub struct Revalue<'a> {
    pub value: Val<'a>,
}

impl<'a> Change for Insert<'a> {
    ghost fits = { λ s i n. (length s.key.now < 2 ^ 16) × Held (value_means s.value) };

    ghost most = { λ s. 4 + length s.key.now + value_length (value_means s.value) };

    ghost leaves = { λ s i es. insert_at i (record { key = s.key.now; value = value_means s.value }) es };

    #[tactic(auto, using(crate::specs::laws::slots::Writers::count_room))]
    fn make(self, slot: &mut [u8], e: EntryAt) -> Extent {
        Extent {
            count: e.count + 1,
            used: slot::insert(slot, e, self.key, self.value),
        }
    }
}

impl Change for Remove {
    ghost fits = { λ s i n. i < n };

    ghost most = { λ s. 0 };

    ghost leaves = { λ s i es. remove_at i es };

    fn make(self, slot: &mut [u8], e: EntryAt) -> Extent {
        Extent {
            count: e.count - 1,
            used: slot::remove(slot, e),
        }
    }
}

impl<'a> Change for Rekey<'a> {
    ghost fits = { λ s i n. (i < n) × (length s.key.now < 2 ^ 16) };

    ghost most = { λ s. length s.key.now };

    ghost leaves = { λ s i es. with_key i s.key.now es };

    fn make(self, slot: &mut [u8], e: EntryAt) -> Extent {
        Extent {
            count: e.count,
            used: slot::set_key(slot, e, self.key),
        }
    }
}

impl<'a> Change for Revalue<'a> {
    ghost fits = { λ s i n. (i < n) × Held (value_means s.value) };

    ghost most = { λ s. value_length (value_means s.value) };

    ghost leaves = { λ s i es. with_value i (value_means s.value) es };

    fn make(self, slot: &mut [u8], e: EntryAt) -> Extent {
        Extent {
            count: e.count,
            used: slot::set_value(slot, e, self.value),
        }
    }
}
