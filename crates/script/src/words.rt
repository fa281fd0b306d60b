// One line of the script language: what stands between its brackets, and the words there, parted by single spaces.
ghost use Rattle.std.specs.Prelude.{◌≡◌, ◌++◌, ◌+◌, ◌-◌, ◌*◌, ◌<◌, ◌^◌, min, length, map, take, drop, true, false, MatchOption, SomeIff, is_some};
ghost use Rattle.std.specs.List.{list_all};
ghost use Rattle.script.specs.Words.{inner_of, word_count, word_of, words_of, listed, number_read, u32_read, AreNumbers, LacksNumber};
ghost use Rattle.script.specs.Words.{digit_of, is_number, number_of, is_u32, are_numbers};
ghost use Rattle.script.specs.Words.{nibble_of, is_bytes, byte_count, decoded, bytes_of};

use crate::list::Words;

// What stands between the brackets; nothing where there are none.
#[tactic(auto, unfolding(crate::specs::Words::inner_of, crate::specs::Words::bracketed))]
pub fn inner(line: &[u8]) -> &[u8]
    ensures { result.now ≡ inner_of line.now }
{
    match line {
        [b'(', inner @ .., b')'] => inner,
        _ => &[],
    }
}

// How many words a text has: one more than spaces.
pub fn count(s: &[u8]) -> usize
    ensures { result ≡ word_count s.now }
{
    s.split(|b| *b == b' ').count()
}

// Word k; an empty one where there are fewer words.
pub fn word(s: &[u8], k: usize) -> &[u8]
    ensures { result.now ≡ word_of s.now k }
{
    s.split(|b| *b == b' ').nth(k).unwrap_or(&[])
}

// The most words that a line has.
pub const MOST: usize = 9;

// The words of a text, where they are no more than a line has.
pub fn split(s: &[u8]) -> Option<Words<'_>>
    ensures { MatchOption result (9 < word_count s.now) (λ v. map (λ w. w.now) (listed v) ≡ words_of s.now) }
{
    let mut words = Words::new();
    for w in s.split(|b| *b == b' ') {
        words.push(w)?;
    }
    Some(words)
}

// A number with one digit more, where the byte is one and the number stays below 2^64.
#[tactic(auto, unfolding(crate::specs::Words::digit_of))]
fn longer(n: u64, b: u8) -> Option<u64>
    ensures { SomeIff result ((digit_of b < 10) × (n * 10 + digit_of b < 2 ^ 64)) (n * 10 + digit_of b) }
{
    let digit = char::from(b).to_digit(10)?;
    n.checked_mul(10)?.checked_add(u64::from(digit))
}

// The number of a word, where it is a decimal number below 2^64. `parse` takes a + before it too.
#[tactic(auto, using(crate::specs::laws::NumberLaws::numbers))]
pub fn number(w: &[u8]) -> Option<u64>
    ensures { result ≡ number_read w.now }
{
    if w.is_empty() {
        return None;
    }
    let mut n = 0;
    for b in w {
        n = longer(n, *b)?;
    }
    Some(n)
}

// Whether a word is a decimal number below 2^64.
#[tactic(auto, using(crate::specs::laws::NumberLaws::number_there))]
pub fn is_number(w: &[u8]) -> bool
    ensures { result ≡ is_number w.now }
{
    number(w).is_some()
}

// The value of a decimal digit; 10 where it is none.
#[tactic(auto, unfolding(crate::specs::Words::digit_of))]
fn digit(b: u8) -> u64
    ensures { result ≡ digit_of b }
{
    char::from(b).to_digit(10).map_or(10, u64::from)
}

// The number of a word, whatever it is; the greatest where it is above that.
#[tactic(auto, using(crate::specs::laws::NumberLaws::mosts))]
pub fn number_or_most(w: &[u8]) -> u64
    ensures { result ≡ number_of w.now }
{
    let mut n: u64 = 0;
    for b in w {
        n = n.saturating_mul(10).saturating_add(digit(*b));
    }
    n
}

// The number of a word, where it is a decimal number below 2^32.
pub fn number_u32(w: &[u8]) -> Option<u32>
    ensures { result ≡ u32_read w.now }
{
    u32::try_from(number(w)?).ok()
}

// Whether a word is a number below 2^32.
#[tactic(auto, using(crate::specs::laws::NumberLaws::u32_there))]
pub fn is_u32(w: &[u8]) -> bool
    ensures { result ≡ is_u32 w.now }
{
    number_u32(w).is_some()
}

// Whether words from one to another, without it, are numbers.
#[tactic(auto, using(crate::specs::laws::NumberLaws::all_numbers))]
pub fn are_numbers(s: &[u8], from: usize, to: usize) -> bool
    ensures { result ≡ are_numbers s.now from (to - from) }
{
    for k in from..to {
        if !is_number(word(s, k)) {
            return false;
        }
    }
    true
}

// The numbers of the words from one on, where all are numbers.
pub fn numbers<const N: usize>(s: &[u8], from: usize) -> Option<[u64; N]>
    requires { from + N < 2 ^ 64 }
    ensures { MatchOption result (LacksNumber s.now from N) (AreNumbers s.now from) }
{
    let mut found = [0; N];
    for (i, x) in found.iter_mut().enumerate() {
        *x = number(word(s, from + i))?;
    }
    Some(found)
}

// A byte string: the hexadecimal digits behind its x, two a byte.
#[derive(Clone, Copy)]
pub struct ByteString<'a> {
    digits: &'a [u8],
}

// The byte string of a word, where it is one.
#[tactic(auto, unfolding(crate::specs::Words::is_bytes, crate::specs::Words::decoded))]
pub fn bytes(w: &[u8]) -> Option<ByteString<'_>>
    ensures { MatchOption result (is_bytes w.now ≡ false)
        (λ b. (is_bytes w.now ≡ true) × (bytes_of b ≡ decoded w.now)) }
{
    let digits = w.strip_prefix(b"x")?;
    (digits.len() % 2 == 0 && are_nibbles(digits)).then_some(ByteString { digits })
}

// Whether a word is a byte string: x and two hexadecimal digits a byte.
pub fn is_bytes(w: &[u8]) -> bool
    ensures { result ≡ is_bytes w.now }
{
    bytes(w).is_some()
}

// How many bytes a byte string has.
pub fn length(w: &[u8]) -> usize
    ensures { result ≡ byte_count w.now }
{
    w.len().saturating_sub(1) / 2
}

// The bytes of a byte string, as many as there is room for; 0 for a digit that is none. The answer is how many.
pub fn decode(w: &[u8], out: &mut [u8]) -> usize
    ensures { (result ≡ min (byte_count w.now) (length out.old))
        × (out.new ≡ take result (decoded w.now) ++ drop result out.old) }
{
    let digits = &w[w.len().min(1)..];
    ByteString { digits }.decode(out)
}

// Whether every byte is a lower-case hexadecimal digit.
fn are_nibbles(digits: &[u8]) -> bool
    ensures { result ≡ list_all (λ b. is_some (nibble_of b)) digits.now }
{
    digits.iter().all(|b| nibble(*b).is_some())
}

impl ByteString<'_> {
    // How many bytes it has.
    #[tactic(auto, using(crate::specs::laws::ByteLaws::length_pairs))]
    pub fn len(self) -> usize
        ensures { result ≡ length (bytes_of self.entry) }
    {
        self.digits.len() / 2
    }

    // Its bytes, as many as there is room for. The answer is how many.
    #[tactic(auto, using(std::proofs::lemmas::Grind::common_steps, crate::specs::laws::ByteLaws::paired))]
    pub fn decode(self, out: &mut [u8]) -> usize
        ensures count { result ≡ min (length (bytes_of self.entry)) (length out.old) }
        ensures bytes { out.new ≡ take result (bytes_of self.entry) ++ drop result out.old }
    {
        let n = self.len().min(out.len());
        let (pairs, _) = self.digits.as_chunks::<2>();
        for (i, [high, low]) in pairs[..n].iter().enumerate() {
            out[i] = nibble(*high).unwrap_or(0) * 16 + nibble(*low).unwrap_or(0);
        }
        n
    }
}

// The value of a lower-case hexadecimal digit. `to_digit` has upper-case ones too.
fn nibble(b: u8) -> Option<u8>
    ensures { result ≡ nibble_of b }
{
    match b {
        b'0'..=b'9' => Some(b - b'0'),
        b'a'..=b'f' => Some(b - b'a' + 10),
        _ => None,
    }
}
