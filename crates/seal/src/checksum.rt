// The Fletcher-64 sum of an object (checksum.rs; `seal` of write/mod.rs): over the whole object but its first 8
// bytes, read as little-endian 32-bit words, modulo 2^32 - 1.
ghost use Rattle.std.specs.Prelude.{◌≡◌, ◌-◌, ◌%◌, ◌≤◌, ◌<◌, length};
ghost use Rattle.seal.specs.Bytes.{u64_at};
ghost use Rattle.seal.specs.Checksum.{M, words, s1, s2, fletcher, verified, sealed};

use crate::bytes::{field_at, put_field};
use crate::obj::OBJ_HEADER_SIZE;

// How many values a word has.
const WORD: u64 = 0x1_0000_0000;

const MODULUS: u64 = WORD - 1;

// How many bytes are summed before the sums are reduced: 1,024 words keep both below 2^64.
const CHUNK: usize = 4096;

#[derive(Clone, Copy, Default)]
pub struct Sums {
    pub sum1: u64,
    pub sum2: u64,
}

impl Sums {
    // Both sums modulo 2^32 - 1.
    fn reduced(self) -> Sums
        ensures { (result.sum1 ≡ self.sum1 % M) × (result.sum2 ≡ self.sum2 % M) }
    {
        Sums {
            sum1: self.sum1 % MODULUS,
            sum2: self.sum2 % MODULUS,
        }
    }
}

// The words of one chunk, summed onto two sums that are reduced, without reducing. A turn takes two words into four
// sums of which each waits for one addition only: the words at even places (with sum1), those at odd places, and what
// each of the two comes to turn by turn. With the words v and u a turn, sum2 grows by (even + odd - u) + (even + odd).
#[tactic(auto, using(crate::specs::laws::ChecksumLaws::pair_turns))]
fn add_chunk(chunk: &[u8], sums: Sums) -> Sums
    requires { (length chunk.now ≤ 4096) × (sums.sum1 < M) × (sums.sum2 < M) }
    ensures { (result.sum1 ≡ s1 sums.sum1 (words chunk.now))
        × (result.sum2 ≡ s2 sums.sum1 sums.sum2 (words chunk.now)) }
{
    let (pairs, rest) = chunk.as_chunks::<8>();
    let mut even = sums.sum1;
    let mut odd = 0;
    let mut evens = 0;
    let mut odds = 0;
    for pair in pairs {
        even += field_at::<4>(pair, 0);
        odd += field_at::<4>(pair, 4);
        evens += even;
        odds += odd;
    }
    let sum1 = even + odd;
    let sum2 = sums.sum2 + 2 * (evens + odds) - odd;
    if rest.len() < 4 {
        return Sums { sum1, sum2 };
    }
    let last = sum1 + field_at::<4>(rest, 0);
    Sums {
        sum1: last,
        sum2: sum2 + last,
    }
}

// Both sums of all words of `body`, reduced once a chunk.
#[tactic(auto, using(crate::specs::laws::ChecksumLaws::chunks))]
fn fletcher64(body: &[u8]) -> Sums
    ensures { (result.sum1 ≡ s1 0 (words body.now) % M) × (result.sum2 ≡ s2 0 0 (words body.now) % M) }
{
    let mut sums = Sums::default();
    for chunk in body.chunks(CHUNK) {
        sums = add_chunk(chunk, sums).reduced();
    }
    sums
}

// What x lacks of a multiple of the modulus: all of it, and not 0, where x is one.
fn lacking(x: u64) -> u64
    ensures { result ≡ M - x % M }
{
    MODULUS - x % MODULUS
}

// What belongs into the first 8 bytes of `object`.
#[tactic(auto, using(crate::specs::laws::ChecksumLaws::compute_law))]
pub fn compute(object: &[u8]) -> u64
    requires { 8 ≤ length object.now }
    ensures { result ≡ fletcher object.now }
{
    let sums = fletcher64(&object[8..]);
    let low = lacking(sums.sum1 + sums.sum2);
    let high = lacking(sums.sum1 + low);
    high * WORD + low
}

// What stands there.
pub fn stored(object: &[u8]) -> u64
    requires { 8 ≤ length object.now }
    ensures { result ≡ u64_at object.now 0 }
{
    field_at::<8>(object, 0)
}

// Whether `object` is a sealed object; one shorter than its header, or with a part of a word at its end, is none.
#[tactic(auto, unfolding(crate::specs::Checksum::verified))]
pub fn verify(object: &[u8]) -> bool
    ensures { result ≡ verified object.now }
{
    OBJ_HEADER_SIZE <= object.len() && object.len() % 4 == 0 && stored(object) == compute(object)
}

// Stores the sum in the first 8 bytes.
#[tactic(auto, unfolding(crate::specs::Checksum::sealed))]
pub fn seal(object: &mut [u8])
    requires { 8 ≤ length object.old }
    ensures { object.new ≡ sealed object.old }
{
    let sum = compute(object);
    put_field::<8>(object, 0, sum);
}
