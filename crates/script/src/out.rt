// Answers, gathered in a buffer that is written when it is full and at the end.
ghost use Rattle.std.specs.Prelude.{◌≡◌, ◌*◌, ◌<◌, ◌≤◌, [], ◌∷◌, length, take, IsOk, IsNone, MatchOption, Err};
ghost use Rattle.script.specs.Out.{items, Gathers, Wrote, hex_digit, hex_text, number_text, bytes_text, word_text};
ghost use Rattle.script.specs.Out.{open_text, close_text, one_text, two_open_text, two_text, error_text};

use crate::waiting::Waiting;
use std::io::{Error, Stdout, Write};

// How many bytes of answers are gathered before they are written.
pub const ROOM: usize = 32768;

// How many bytes of a byte string are shown at once.
const SHOWN: usize = 64;

// A buffer of answers, and where it is written. `BufWriter` would allocate.
#[derive(Drop)]
pub struct Out<W = Stdout> {
    // The bytes that wait.
    waiting: Waiting,
    to: W,
    // The first write that failed: no more is written after it.
    failed: Option<Error>,
}

impl<W> Out<W> {
    // An empty buffer.
    pub fn new(to: W) -> Out<W>
    where
        W: Drop,
        ensures waiting { items result.waiting ≡ [] }
        ensures to { result.to ≡ to }
        ensures failed { IsNone result.failed }
    {
        Out {
            waiting: Waiting::new(),
            to,
            failed: None,
        }
    }

    // Whether every write was taken; else why the first was not.
    pub fn done(self) -> Result<(), Error>
    where
        W: Drop,
        ensures { MatchOption self.failed (IsOk result) (λ e. result ≡ Err e) }
    {
        self.failed.map_or(Ok(()), Err)
    }
}

#[tactic(auto, using(crate::specs::laws::OutLaws::gathered))]
impl<W: Write> Out<W> {
    // Writes what waits: nothing waits then.
    pub fn flush(&mut self)
        ensures waiting { items self.new.waiting ≡ [] }
        ensures written { Wrote self.old.failed self.new.failed (W.contents self.old.to) (W.contents self.new.to)
            (items self.old.waiting) }
    {
        if self.failed.is_none() {
            self.failed = self.to.write_all(self.waiting.as_slice()).err();
        }
        self.waiting.truncate(0);
    }

    #[tactic(auto, unfolding(crate::specs::Out::puts, crate::specs::Out::put, crate::specs::Out::sents, crate::specs::Out::sent))]
    pub fn byte(&mut self, b: u8)
        ensures { Gathers W.contents self.old self.new (b ∷ []) }
    {
        if self.waiting.room() == 0 {
            self.flush();
        }
        self.waiting.push(b);
    }

    // Copied at once where there is room for all of it.
    pub fn text(&mut self, s: &[u8])
        ensures { Gathers W.contents self.old self.new s.now }
    {
        if s.len() <= self.waiting.room() {
            self.waiting.extend(s);
            return;
        }
        for b in s {
            self.byte(*b);
        }
    }

    // A space and a decimal number. Of a `write!` that fails nothing would be known, and its contract does not say that none does.
    pub fn number(&mut self, x: u64)
        ensures { Gathers W.contents self.old self.new (number_text x) }
    {
        let mut digits = [0; 20];
        let n = io::decimal(x, &mut digits);
        self.byte(b' ');
        self.text(&digits[..n]);
    }

    // Two hexadecimal digits a byte, of bytes that are shown at once.
    fn hex_part(&mut self, part: &[u8])
        requires { length part.now ≤ SHOWN }
        ensures { Gathers W.contents self.old self.new (hex_text part.now) }
    {
        let mut digits = [0; 2 * SHOWN];
        hex_digits(part, &mut digits);
        self.text(&digits[..2 * part.len()]);
    }

    // Two hexadecimal digits a byte.
    fn hex(&mut self, s: &[u8])
        ensures { Gathers W.contents self.old self.new (hex_text s.now) }
    {
        for part in s.chunks(SHOWN) {
            self.hex_part(part);
        }
    }

    // A space and a byte string.
    pub fn bytes(&mut self, s: &[u8])
        ensures { Gathers W.contents self.old self.new (bytes_text s.now) }
    {
        self.text(b" x");
        self.hex(s);
    }

    // A space and words.
    pub fn word(&mut self, s: &[u8])
        ensures { Gathers W.contents self.old self.new (word_text s.now) }
    {
        self.byte(b' ');
        self.text(s);
    }

    // An answer's bracket and name.
    pub fn open(&mut self, name: &[u8])
        ensures { Gathers W.contents self.old self.new (open_text name.now) }
    {
        self.byte(b'(');
        self.text(name);
    }

    pub fn close(&mut self)
        ensures { Gathers W.contents self.old self.new close_text }
    {
        self.text(b")\n");
    }

    // An answer of a name and a number.
    #[tactic(auto, using(crate::specs::laws::OutLaws::gathered), unfolding(crate::specs::Out::one_text))]
    pub fn one(&mut self, name: &[u8], x: u64)
        ensures { Gathers W.contents self.old self.new (one_text name.now x) }
    {
        self.open(name);
        self.number(x);
        self.close();
    }

    // The start of an answer: a name and two numbers.
    #[tactic(auto, using(crate::specs::laws::OutLaws::gathered), unfolding(crate::specs::Out::two_open_text))]
    pub fn two_open(&mut self, name: &[u8], x: u64, y: u64)
        ensures { Gathers W.contents self.old self.new (two_open_text name.now x y) }
    {
        self.open(name);
        self.number(x);
        self.number(y);
    }

    // An answer of a name and two numbers.
    #[tactic(auto, using(crate::specs::laws::OutLaws::gathered), unfolding(crate::specs::Out::two_text))]
    pub fn two(&mut self, name: &[u8], x: u64, y: u64)
        ensures { Gathers W.contents self.old self.new (two_text name.now x y) }
    {
        self.two_open(name, x, y);
        self.close();
    }

    pub fn error(&mut self)
        ensures { Gathers W.contents self.old self.new error_text }
    {
        self.text(b"(error)\n");
    }
}

// A lower-case hexadecimal digit.
#[tactic(auto, unfolding(crate::specs::Out::hex_digit))]
fn hex_digit(d: u8) -> u8
    requires { d < 16 }
    ensures { result ≡ hex_digit d }
{
    if d < 10 { b'0' + d } else { b'a' + (d - 10) }
}

// Two hexadecimal digits a byte, at the front of a room.
#[tactic(auto, using(crate::specs::laws::OutLaws::shown))]
fn hex_digits(s: &[u8], room: &mut [u8])
    requires { 2 * length s.now ≤ length room.old }
    ensures { take (2 * length s.now) room.new ≡ hex_text s.now }
{
    for (i, b) in s.iter().enumerate() {
        room[2 * i] = hex_digit(*b / 16);
        room[2 * i + 1] = hex_digit(*b % 16);
    }
}
