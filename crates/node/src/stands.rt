// Refusal 1 of one slot: its records, its entries one by one, its keys, in one pass, which also sums what they take as
// packed.
ghost use Rattle.std.specs.Prelude.{◌≡◌, ◌≤◌, ◌^◌, length, drop, MatchOption, IsTrue};
ghost use Rattle.node.specs.Order.{less};
ghost use Rattle.node.specs.Records.{entry_of};
ghost use Rattle.node.specs.Slot.{key_length_holds, value_length_holds, entry_holds};
ghost use Rattle.node.specs.internal.SlotSteps.{mark_holds, checked_of};

use crate::fit::Lengths;
use crate::info::BTreeInfo;
use crate::order::Order;
use crate::record::{MAX_VALUE_LEN, Record};

// Whether a key of the order, and of the tree's fixed length if it has one, can have n bytes.
#[tactic(auto, unfolding(crate::specs::Slot::key_length_holds))]
pub fn key_holds(order: Order, info: BTreeInfo, n: usize) -> bool
    ensures { result ≡ key_length_holds order.code info n }
{
    order.keyed(n) && (!info.is_fixed() || n as u64 == info.key_size)
}

// Whether a leaf's value can have n bytes.
#[tactic(auto, unfolding(crate::specs::Slot::value_length_holds))]
pub fn value_holds(info: BTreeInfo, n: u64) -> bool
    ensures { result ≡ value_length_holds info n }
{
    !info.is_fixed() || n == info.val_size
}

// Whether a value of this mark has a length that it can have: a ghost and a child have none to hold.
#[tactic(auto, unfolding(crate::specs::internal::SlotSteps::mark_holds))]
fn mark_holds(info: BTreeInfo, mark: u64) -> bool
    ensures { result ≡ mark_holds info mark }
{
    MAX_VALUE_LEN < mark || value_holds(info, mark)
}

// Whether a record's entry holds.
#[tactic(auto, using(crate::specs::laws::fit::Pass::entry))]
fn entry_holds(r: Record<'_>, order: Order, info: BTreeInfo, leaf: bool) -> bool
    ensures { result ≡ entry_holds order.code info leaf (entry_of (drop r.entry.at r.entry.slot.now)) }
{
    let p = r.parts();
    key_holds(order, info, p.klen) && mark_holds(info, p.mark) && r.suits(leaf)
}

// Whether a key is above the key before it; the first has none before it.
pub fn rises(order: Order, last: Option<&[u8]>, key: &[u8]) -> bool
    ensures { MatchOption last.entry (IsTrue result) (λ k. result ≡ less order.code k.now key.now) }
{
    last.is_none_or(|last| order.less(last, key))
}

// What n records take, if they lie in the slot and take `used` bytes there, each entry holds, and the keys rise.
#[tactic(auto, using(crate::specs::laws::fit::Pass::pass, crate::specs::laws::fit::Pass::check_risen, crate::specs::laws::fit::Pass::check_done))]
pub fn check(
    slot: &[u8],
    n: u64,
    used: u64,
    order: Order,
    info: BTreeInfo,
    leaf: bool,
) -> Option<Lengths>
    requires { length slot.now ≤ 2 ^ 20 }
    ensures { result ≡ checked_of order.code info leaf n used slot.now }
{
    let mut s = Lengths::default();
    let mut last = None;
    for _ in 0..n {
        let r = Record::at(slot, s.at)?;
        if !entry_holds(r, order, info, leaf) {
            return None;
        }
        let key = r.key();
        if !rises(order, last, key) {
            return None;
        }
        s = s.longer(r, info);
        last = Some(key);
    }
    (s.at as u64 == used).then_some(s)
}
