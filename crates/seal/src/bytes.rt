// Little-endian fields at an offset of a slice, and runs of bytes copied, moved and cleared (bytes.rs; the
// `put_*` of write/mod.rs). A field comes back as a u64 whatever its width, since every caller computes with it.
ghost use Rattle.std.specs.Prelude.{◌≡◌, ◌+◌, ◌≤◌, ◌<◌, ◌^◌, length, replicate};
ghost use Rattle.seal.specs.Bytes.{field_at, splice, moved, bytes_of, window};

// The field of N bytes at offset i.
#[tactic(auto, using(crate::specs::laws::WordLaws::field_read, crate::specs::laws::WordLaws::field_read_fits))]
pub fn field_at<const N: usize>(s: &[u8], i: usize) -> u64
    requires width { N ≤ 8 }
    requires room { i + N ≤ length s.now }
    ensures value { result ≡ field_at N s.now i }
    ensures bound { result < 256 ^ N }
{
    let mut word = [0; 8];
    word[..N].copy_from_slice(&s[i..i + N]);
    u64::from_le_bytes(word)
}

// The N lowest bytes of x, stored as the field of N bytes at offset i.
#[tactic(auto, using(crate::specs::laws::WordLaws::field_written))]
pub fn put_field<const N: usize>(s: &mut [u8], i: usize, x: u64)
    requires width { N ≤ 8 }
    requires room { i + N ≤ length s.old }
    ensures { s.new ≡ splice s.old i (bytes_of N x) }
{
    s[i..i + N].copy_from_slice(&x.to_le_bytes()[..N]);
}

// 8 bytes of `src` from k on, stored in `dst` from p on: one load and one store.
#[tactic(auto, using(crate::specs::laws::CopyLaws::word_moved))]
fn copy_word(src: &[u8], k: usize, dst: &mut [u8], p: usize)
    requires { (k + 8 ≤ length src.now) × (p + 8 ≤ length dst.old) }
    ensures { dst.new ≡ splice dst.old p (window k 8 src.now) }
{
    put_field::<8>(dst, p, field_at::<8>(src, k));
}

// All of a `src` of 8 bytes or more, by words. The last word may overlap the one before: then no single bytes are left.
#[tactic(auto, using(crate::specs::laws::CopyLaws::word_next, crate::specs::laws::CopyLaws::word_last, crate::specs::laws::CopyLaws::copy_start))]
fn copy_words(src: &[u8], dst: &mut [u8], at: usize)
    requires { (8 ≤ length src.now) × (at + length src.now ≤ length dst.old) }
    ensures { dst.new ≡ splice dst.old at src.now }
{
    let last = src.len() - 8;
    let mut k = 0;
    while k < last {
        copy_word(src, k, dst, at + k);
        k += 8;
    }
    copy_word(src, last, dst, at + last);
}

// All of a short `src`, byte by byte.
#[tactic(auto, using(crate::specs::laws::CopyLaws::copy_start, crate::specs::laws::CopyLaws::copy_next, crate::specs::laws::CopyLaws::copy_done))]
fn copy_bytes(src: &[u8], dst: &mut [u8], at: usize)
    requires { at + length src.now ≤ length dst.old }
    ensures { dst.new ≡ splice dst.old at src.now }
{
    let mut k = 0;
    while k < src.len() {
        dst[at + k] = src[k];
        k += 1;
    }
}

// All of `src`, stored in `dst` from `at` on. The library's `copy_from_slice` is a call of C's `memmove`, which who links the library would
// owe it, and which takes longer than a key or a value of a few words.
pub fn copy_to(src: &[u8], dst: &mut [u8], at: usize)
    requires { at + length src.now ≤ length dst.old }
    ensures { dst.new ≡ splice dst.old at src.now }
{
    if src.len() < 8 {
        copy_bytes(src, dst, at);
    } else {
        copy_words(src, dst, at);
    }
}

// n bytes from a down to b, the first first: what is overwritten has been moved already. It is called, and not repeated where `shift`
// stands: beside its test the compiler takes the loop for C's `memmove`.
#[inline(never)]
#[tactic(auto, using(crate::specs::laws::MoveLaws::moved_none, crate::specs::laws::MoveLaws::down_next, crate::specs::laws::MoveLaws::down_stop))]
pub fn move_down(s: &mut [u8], a: usize, b: usize, n: usize)
    requires { (b ≤ a) × (a + n ≤ length s.old) }
    ensures { s.new ≡ moved s.old a b n }
{
    let mut k = 0;
    while k < n {
        s[b + k] = s[a + k];
        k += 1;
    }
}

// n bytes from a up to b, the last first. Called, as the other direction is.
#[inline(never)]
pub fn move_up(s: &mut [u8], a: usize, b: usize, n: usize)
    requires { (a ≤ b) × (b + n ≤ length s.old) }
    ensures { s.new ≡ moved s.old a b n }
{
    let mut k = n;
    while 0 < k {
        k -= 1;
        s[b + k] = s[a + k];
    }
}

// n bytes from a moved to b, whether the two runs overlap or not. By a loop in either direction: the library's `copy_within` asks for
// C's `memmove`, which who links the library would owe it.
pub fn shift(s: &mut [u8], a: usize, b: usize, n: usize)
    requires { (a + n ≤ length s.old) × (b + n ≤ length s.old) }
    ensures { s.new ≡ moved s.old a b n }
{
    if b <= a {
        move_down(s, a, b, n);
    } else {
        move_up(s, a, b, n);
    }
}

// Zeros from a on, n of them.
#[tactic(auto, using(crate::specs::laws::PartLaws::part_cleared))]
pub fn clear(s: &mut [u8], a: usize, n: usize)
    requires { a + n ≤ length s.old }
    ensures { s.new ≡ splice s.old a (replicate n 0) }
{
    s[a..a + n].fill(0);
}
