// Eight bytes of a key as one number, the first byte the highest: such numbers stand in the order of the bytes.
ghost use Rattle.std.specs.Prelude.{◌≡◌, ◌+◌, ◌≤◌, length, drop};
ghost use Rattle.node.specs.Order.{byte};
ghost use Rattle.node.specs.internal.Lead.{Leads, LeadOf};
ghost use Rattle.node.specs.internal.Sought.{compared};

use seal::bytes;
use std::cmp::Ordering;

// What the eight bytes from an offset on spell.
pub fn lead_at(s: &[u8], i: usize) -> u64
    requires { i + 8 ≤ length s.now }
    ensures { Leads (drop i s.now) result }
{
    bytes::field_at::<8>(s, i).swap_bytes()
}

// What the eight bytes of a key from an offset on spell: 0, which none is below, where it has no eight.
pub fn lead_of(key: &[u8], i: usize) -> u64
    requires { i ≤ 8 }
    ensures { LeadOf key.now i result }
{
    if key.len() < i + 8 {
        return 0;
    }
    lead_at(key, i)
}

// How two keys stand in byte order: eight bytes at a time, then one at a time, then by their lengths. `a.cmp(b)` looks for groups of
// equal bytes first, with which a lookup among short keys takes longer.
#[tactic(auto, using(crate::specs::laws::order::Leading::ends))]
pub fn byte_compare(a: &[u8], b: &[u8]) -> Ordering
    ensures { result ≡ compared byte a.now b.now }
{
    let n = a.len().min(b.len());
    for k in 0..n / 8 {
        let x = lead_at(a, 8 * k);
        let y = lead_at(b, 8 * k);
        if x != y {
            return x.cmp(&y);
        }
    }
    for i in n / 8 * 8..n {
        if a[i] != b[i] {
            return a[i].cmp(&b[i]);
        }
    }
    a.len().cmp(&b.len())
}
