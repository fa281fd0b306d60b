// A key that a search looks for: how it stands to the keys of a slot's records, in its order.
ghost use Rattle.std.specs.Prelude.{◌≡◌, true, List, ℕ, ◌+◌, drop};
ghost use Rattle.seal.specs.Bytes.{u16_at};
ghost use Rattle.node.specs.Order.{pair, byte};
ghost use Rattle.node.specs.Records.{entry_of};
ghost use Rattle.node.specs.internal.Lead.{LeadOf};
ghost use Rattle.node.specs.internal.SlotSteps.{pair_id, id_below};
ghost use Rattle.node.specs.internal.Sought.{Below, compared};

use crate::lead;
use crate::order::Order;
use crate::record::Record;
use seal::bytes;
use std::cmp::Ordering;

pub trait Sought {
    // The code of the order, and the key that is looked for.
    ghost order: { ℕ };

    ghost wanted: { Self → List ℕ };

    // Whether a record, whose key has `klen` bytes, is seen at once to be below the key: so it is with nearly every record that
    // a search passes, and few keys need the dear comparison.
    fn passes(&self, r: Record<'_>, klen: u64) -> bool
        requires { klen ≡ u16_at r.slot.now r.at }
        ensures { result ≡ true → Below order (entry_of (drop r.entry.at r.entry.slot.now)).key (wanted self.now) };

    // How a record's key stands to the key.
    fn compare(&self, r: Record<'_>) -> Ordering
        ensures { result ≡ compared order (entry_of (drop r.entry.at r.entry.slot.now)).key (wanted self.now) };
}

// A key in pair order, and its id: 0, which no id is below, if it is no pair.
#[derive(Clone, Copy)]
pub struct PairKey<'a> {
    key: &'a [u8],
    id: u64,
    ghost id_is: { id ≡ pair_id key.now },
}

// A key in byte order, and what its first and its second eight bytes spell.
#[derive(Clone, Copy)]
pub struct ByteKey<'a> {
    key: &'a [u8],
    first: u64,
    second: u64,
    ghost first_is: { LeadOf key.now 0 first },
    ghost second_is: { LeadOf key.now 8 second },
}

// The id of a pair key.
#[tactic(auto, unfolding(crate::specs::internal::SlotSteps::pair_id))]
fn id_of(key: &[u8]) -> u64
    ensures { result ≡ pair_id key.now }
{
    if key.len() != 16 {
        return 0;
    }
    bytes::field_at::<8>(key, 0)
}

impl<'a> PairKey<'a> {
    pub fn new(key: &'a [u8]) -> PairKey<'a>
        ensures { result.key.now ≡ key.now }
    {
        PairKey {
            key,
            id: id_of(key),
        }
    }
}

impl<'a> ByteKey<'a> {
    pub fn new(key: &'a [u8]) -> ByteKey<'a>
        ensures { result.key.now ≡ key.now }
    {
        ByteKey {
            key,
            first: lead::lead_of(key, 0),
            second: lead::lead_of(key, 8),
        }
    }
}

impl<'a> Sought for PairKey<'a> {
    ghost order = { pair };

    ghost wanted = { λ s. s.key.now };

    // Whether its key is a pair with an id below the key's: no other record is passed, and each of these is.
    #[tactic(auto, using(crate::specs::laws::slot::Id::ids))]
    fn passes(&self, r: Record<'_>, klen: u64) -> bool
        requires { klen ≡ u16_at r.slot.now r.at }
        ensures below { result ≡ true → Below pair (entry_of (drop r.entry.at r.entry.slot.now)).key self.now.key.now }
        ensures id { result ≡ id_below (entry_of (drop r.entry.at r.entry.slot.now)).key self.now.id }
    {
        klen == 16 && bytes::field_at::<8>(r.slot, r.at + 4) < self.id
    }

    #[tactic(auto, using(crate::specs::laws::slot::Records::record_room), unfolding(crate::specs::internal::Sought::compared))]
    fn compare(&self, r: Record<'_>) -> Ordering {
        if self.passes(r, r.klen()) {
            return Ordering::Less;
        }
        Order::PAIR_ORDER.compare(r.key(), self.key)
    }
}

impl<'a> Sought for ByteKey<'a> {
    ghost order = { byte };

    ghost wanted = { λ s. s.key.now };

    fn passes(&self, r: Record<'_>, klen: u64) -> bool {
        if klen < 8 {
            return false;
        }
        let x = lead::lead_at(r.slot, r.at + 4);
        if x != self.first {
            return x < self.first;
        }
        16 <= klen && lead::lead_at(r.slot, r.at + 12) < self.second
    }

    fn compare(&self, r: Record<'_>) -> Ordering {
        lead::byte_compare(r.key(), self.key)
    }
}
