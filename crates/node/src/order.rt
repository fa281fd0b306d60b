// Orders of keys: what the Rust passes as a `cmp` pointer (`omap_cmp`) is a code with associated constants.
ghost use Rattle.std.specs.Prelude.{◌≡◌, length};
ghost use Rattle.node.specs.Order.{pair, byte, known, keyed_length, less, pair_key};
ghost use Rattle.node.specs.internal.Sought.{compared};

use crate::lead;
use seal::bytes;
use std::cmp::Ordering;

// An order with associated constants, and no enum: a caller may hand over any code, and every code but that of pairs compares as bytes.
#[derive(Clone, Copy, PartialEq, Eq)]
pub struct Order {
    pub code: u64,
}

impl Order {
    // Two u64: object id, then transaction (`omap_cmp`).
    pub const PAIR: u64 = 0;
    // Bytes, a shorter prefix first.
    pub const BYTE: u64 = 1;

    pub const PAIR_ORDER: Order = Order { code: Self::PAIR };

    pub const BYTE_ORDER: Order = Order { code: Self::BYTE };

    // Whether the code is an order.
    #[tactic(auto, unfolding(crate::specs::Order::known))]
    pub fn known(self) -> bool
        ensures { result ≡ known self.code }
    {
        self.code == Self::PAIR || self.code == Self::BYTE
    }

    // Whether a key of the order can have n bytes.
    #[tactic(auto, unfolding(crate::specs::Order::keyed_length))]
    pub fn keyed(self, n: usize) -> bool
        ensures { result ≡ keyed_length self.code n }
    {
        self.code != Self::PAIR || n == 16
    }

    // How the key a stands to the key b.
    #[tactic(auto, using(crate::specs::laws::order::Compared::by_code))]
    pub fn compare(self, a: &[u8], b: &[u8]) -> Ordering
        ensures { result ≡ compared self.code a.now b.now }
    {
        if self.code == Self::PAIR && a.len() == 16 && b.len() == 16 {
            return pair_compare(a, b);
        }
        lead::byte_compare(a, b)
    }

    // Whether the key a stands before the key b. Called in place, so that a loop which compares keys of one order asks for the order
    // once, and not for each of its keys.
    #[inline(always)]
    #[tactic(auto, using(crate::specs::laws::order::Compared::lesser))]
    pub fn less(self, a: &[u8], b: &[u8]) -> bool
        ensures { result ≡ less self.code a.now b.now }
    {
        if self.code == Self::PAIR {
            return pair_less(a, b);
        }
        byte_less(a, b)
    }

    // The key of an object id and a transaction (`omap_key`).
    #[tactic(auto, using(crate::specs::laws::order::OrderSteps::pair_put))]
    pub fn pair_key(id: u64, xid: u64) -> [u8; 16]
        ensures { result ≡ pair_key id xid }
    {
        let mut key = [0; 16];
        bytes::put_field::<8>(&mut key, 0, id);
        bytes::put_field::<8>(&mut key, 8, xid);
        key
    }
}

// Object id, then transaction.
#[tactic(auto, using(crate::specs::laws::order::Compared::pairs))]
fn pair_compare(a: &[u8], b: &[u8]) -> Ordering
    requires { (length a.now ≡ 16) × (length b.now ≡ 16) }
    ensures { result ≡ compared pair a.now b.now }
{
    let ids = bytes::field_at::<8>(a, 0).cmp(&bytes::field_at::<8>(b, 0));
    ids.then_with(|| bytes::field_at::<8>(a, 8).cmp(&bytes::field_at::<8>(b, 8)))
}

// Whether a stands before b in the order of pairs, which compares what are no two pairs as bytes.
#[tactic(auto, using(crate::specs::laws::order::Compared::lesser_pairs))]
fn pair_less(a: &[u8], b: &[u8]) -> bool
    ensures { result ≡ less pair a.now b.now }
{
    if a.len() == 16 && b.len() == 16 {
        return pair_compare(a, b).is_lt();
    }
    byte_less(a, b)
}

// Whether a stands before b as bytes.
#[tactic(auto, using(crate::specs::laws::order::Compared::compared_lt))]
fn byte_less(a: &[u8], b: &[u8]) -> bool
    ensures { result ≡ less byte a.now b.now }
{
    lead::byte_compare(a, b).is_lt()
}
