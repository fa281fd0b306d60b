// One record of a slot: an entry as it lies in the slot's bytes (specs/Records.antt).
ghost use Rattle.std.specs.Prelude.{◌≡◌, false, ◌+◌, ◌≤◌, ◌<◌, ◌^◌, ◌++◌, length, drop, leb, MatchOption};
ghost use Rattle.seal.specs.Bytes.{splice, bytes_of, u16_at};
ghost use Rattle.node.specs.Entry.{value_length, value_bytes};
ghost use Rattle.node.specs.Records.{mark_of, mark_length, record_bytes, record_of, record_length, entry_of};
ghost use Rattle.node.specs.internal.SlotSteps.{parts_at};
ghost use Rattle.node.specs.Slot.{is_child, suit, child_means, value_means};

use crate::val::{Child, Val};
use seal::bytes;

// The longest value of a leaf: a mark up to this is its value's length. The marks above it are those of the other values.
pub const MAX_VALUE_LEN: u64 = 0xFFFC;

pub const GHOST: u64 = 0xFFFF;

pub const DISK: u64 = 0xFFFE;

pub const MEM: u64 = 0xFFFD;

// A record that lies within its slot.
#[derive(Clone, Copy)]
pub struct Record<'s> {
    pub slot: &'s [u8],
    // Where it starts.
    pub at: usize,
    ghost lies: { at + record_length (drop at slot.now) ≤ length slot.now },
}

// Where the parts of a record lie.
#[derive(Clone, Copy)]
pub struct RecordParts {
    // Where the key starts, and its length.
    pub key: usize,
    pub klen: usize,
    // The value's mark, where the value starts, and its length.
    pub mark: u64,
    pub value: usize,
    pub vlen: usize,
    // Where the next record starts.
    pub next: usize,
}

// The bytes that a value of this mark takes. As a `match` it makes packing a node slower by a twenty-fifth.
#[tactic(auto, using(crate::specs::laws::slot::Records::marks))]
pub fn mark_length(mark: u64) -> usize
    requires { mark < 2 ^ 16 }
    ensures { (result ≡ mark_length mark) × (result < 2 ^ 16) }
{
    if mark <= MAX_VALUE_LEN {
        return mark as usize;
    }
    if mark == GHOST {
        return 0;
    }
    8
}

impl<'s> Record<'s> {
    // The record that starts at an offset, if it lies within the slot.
    #[tactic(auto, using(crate::specs::laws::slot::Records::lies))]
    pub fn at(slot: &'s [u8], at: usize) -> Option<Record<'s>>
        requires { at ≤ length slot.now }
        ensures { MatchOption result (leb (at + record_length (drop at slot.now)) (length slot.now) ≡ false)
            (λ r. (r.slot.now ≡ slot.now) × (r.at ≡ at)) }
    {
        let room = slot.len() - at;
        if room < 4 {
            return None;
        }
        let klen = bytes::field_at::<2>(slot, at) as usize;
        let vlen = mark_length(bytes::field_at::<2>(slot, at + 2));
        if room - 4 < klen + vlen {
            return None;
        }
        Some(Record { slot, at })
    }

    // The key's length.
    #[tactic(auto, using(crate::specs::laws::slot::Records::record_room_1))]
    pub fn klen(self) -> u64
        ensures { (result ≡ u16_at self.entry.slot.now self.entry.at) × (result < 2 ^ 16) }
    {
        bytes::field_at::<2>(self.slot, self.at)
    }

    // The value's mark.
    #[tactic(auto, using(crate::specs::laws::slot::Records::record_room_2))]
    pub fn mark(self) -> u64
        ensures { (result ≡ u16_at self.entry.slot.now (self.entry.at + 2)) × (result < 2 ^ 16) }
    {
        bytes::field_at::<2>(self.slot, self.at + 2)
    }

    #[tactic(auto, using(crate::specs::laws::slot::SameHead::parts))]
    pub fn parts(self) -> RecordParts
        ensures { result ≡ parts_at self.entry.slot.now self.entry.at }
    {
        let klen = self.klen() as usize;
        let mark = self.mark();
        let value = self.at + 4 + klen;
        let vlen = mark_length(mark);
        RecordParts {
            key: self.at + 4,
            klen,
            mark,
            value,
            vlen,
            next: value + vlen,
        }
    }

    // Where the next record starts.
    #[tactic(auto, using(crate::specs::laws::slot::Records::at_after))]
    pub fn next(self) -> usize
        ensures { result ≡ self.entry.at + record_length (drop self.entry.at self.entry.slot.now) }
    {
        self.parts().next
    }

    #[tactic(auto, using(crate::specs::laws::slot::Slot::key))]
    pub fn key(self) -> &'s [u8]
        ensures { result.now ≡ (entry_of (drop self.entry.at self.entry.slot.now)).key }
    {
        let r = self.parts();
        &self.slot[r.key..r.value]
    }

    // The value; its bytes are those of the slot.
    #[tactic(auto, using(crate::specs::laws::slot::Slot::value))]
    pub fn value(self) -> Val<'s>
        ensures { value_means result ≡ (entry_of (drop self.entry.at self.entry.slot.now)).value }
    {
        let r = self.parts();
        match r.mark {
            0..=MAX_VALUE_LEN => Val::Leaf(&self.slot[r.value..r.next]),
            GHOST => Val::Ghost,
            DISK => Val::Child(Child::Disk(bytes::field_at::<8>(self.slot, r.value))),
            _ => Val::Child(Child::Mem(bytes::field_at::<8>(self.slot, r.value))),
        }
    }

    // Whether the value is a child.
    #[tactic(auto, using(crate::specs::laws::slot::Find::child))]
    fn holds_child(self) -> bool
        ensures { result ≡ is_child (entry_of (drop self.entry.at self.entry.slot.now)).value }
    {
        let mark = self.mark();
        mark == DISK || mark == MEM
    }

    // Whether the record suits a leaf, or an index.
    #[tactic(auto, using(crate::specs::laws::slot::Find::suits))]
    pub fn suits(self, leaf: bool) -> bool
        ensures { result ≡ suit leaf (entry_of (drop self.entry.at self.entry.slot.now)) }
    {
        leaf != self.holds_child()
    }
}

impl Child {
    // The mark of a record that holds it.
    #[tactic(auto, using(crate::specs::laws::slot::Stored::kid))]
    fn mark(self) -> u64
        ensures { result ≡ mark_of (child_means self) }
    {
        match self {
            Child::Disk(_) => DISK,
            Child::Mem(_) => MEM,
        }
    }

    // Its block, id or slot.
    #[tactic(auto, using(crate::specs::laws::slot::Stored::number))]
    pub fn number(self) -> u64
        ensures { bytes_of 8 result ≡ value_bytes (child_means self) }
    {
        match self {
            Child::Disk(x) | Child::Mem(x) => x,
        }
    }
}

impl Val<'_> {
    // The mark of a record that holds it.
    #[tactic(auto, using(crate::specs::laws::slot::Stored::mark), unfolding(crate::specs::Records::mark_of, crate::specs::Slot::value_means))]
    pub fn mark(self) -> u64
        ensures { result ≡ mark_of (value_means self.entry) }
    {
        match self {
            Val::Ghost => GHOST,
            Val::Leaf(bytes) => bytes.len() as u64,
            Val::Child(c) => c.mark(),
        }
    }

    // How many bytes it takes.
    #[tactic(auto, using(crate::specs::laws::slot::Stored::len), unfolding(crate::specs::Entry::value_length, crate::specs::Slot::value_means))]
    pub fn len(self) -> usize
        ensures { result ≡ value_length (value_means self.entry) }
    {
        match self {
            Val::Ghost => 0,
            Val::Leaf(bytes) => bytes.len(),
            Val::Child(_) => 8,
        }
    }

    // Its bytes stored at an offset.
    #[tactic(auto, using(crate::specs::laws::slot::Stored::store))]
    pub fn store(self, slot: &mut [u8], at: usize)
        requires { at + value_length (value_means self) ≤ length slot.old }
        ensures { slot.new ≡ splice slot.old at (value_bytes (value_means self.entry)) }
    {
        match self {
            Val::Ghost => {}
            Val::Leaf(bytes) => bytes::copy_to(bytes, slot, at),
            Val::Child(c) => bytes::put_field::<8>(slot, at, c.number()),
        }
    }
}

// A record stored at an offset: a key, any mark and any bytes.
#[tactic(auto, using(crate::specs::laws::slot::Records::put_record))]
pub fn put(slot: &mut [u8], at: usize, key: &[u8], mark: u64, value: &[u8])
    requires { at + 4 + length key.now + length value.now ≤ length slot.old }
    ensures { slot.new ≡ splice slot.old at (record_bytes key.now mark value.now) }
{
    let klen = key.len();
    bytes::put_field::<2>(slot, at, klen as u64);
    bytes::put_field::<2>(slot, at + 2, mark);
    bytes::copy_to(key, slot, at + 4);
    bytes::copy_to(value, slot, at + 4 + klen);
}

// The start of a record stored at an offset: its key's length, its value's mark, its key.
#[inline(always)]
#[tactic(auto, using(crate::specs::laws::slot::Records::head_joined))]
fn put_start(slot: &mut [u8], at: usize, value_mark: u64, key: &[u8])
    requires { at + 4 + length key.now ≤ length slot.old }
    ensures { slot.new ≡ splice slot.old at (bytes_of 2 (length key.now) ++ bytes_of 2 value_mark ++ key.now) }
{
    bytes::put_field::<2>(slot, at, key.len() as u64);
    bytes::put_field::<2>(slot, at + 2, value_mark);
    bytes::copy_to(key, slot, at + 4);
}

// A record stored at an offset: that of a key and a value. The kind of the value is asked once: with one test for its mark and
// one, behind the key, for its bytes, to copy a node's entries takes longer.
#[inline(always)]
#[tactic(auto, using(crate::specs::laws::slot::Put::valued))]
pub fn put_value(slot: &mut [u8], at: usize, key: &[u8], value: Val<'_>)
    requires { at + 4 + length key.now + value_length (value_means value) ≤ length slot.old }
    ensures { slot.new ≡ splice slot.old at (record_of (record { key = key.now; value = value_means value.entry })) }
{
    let end = at + 4 + key.len();
    match value {
        Val::Ghost => put_start(slot, at, GHOST, key),
        Val::Leaf(bytes) => {
            put_start(slot, at, bytes.len() as u64, key);
            bytes::copy_to(bytes, slot, end);
        }
        Val::Child(c) => {
            put_start(slot, at, c.mark(), key);
            bytes::put_field::<8>(slot, end, c.number());
        }
    }
}
