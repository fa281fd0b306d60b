// Lines of standard input.
ghost use Rattle.std.specs.Prelude.{◌≡◌, ◌+◌, ◌-◌, ◌^◌, ◌≤◌, ◌<◌, eqb, true, length, min, position, IsOk, IsNone, MatchOption, MatchResult, Err};
ghost use Rattle.script.specs.internal.Written.{written};
ghost use Rattle.script.specs.declared.input.TheConstants.{ROOM};

use std::io::{Error, Read, Stdin};

// How many bytes are read at once.
pub const ROOM: usize = 16384;

// Room for the bytes read, and where they come from. `BufReader` would allocate.
#[derive(Drop)]
pub struct Lines<R = Stdin> {
    bytes: [u8; ROOM],
    // What is left of the bytes read.
    start: usize,
    end: usize,
    from: R,
    // The last read that failed: it counts as one that gave no byte.
    failed: Option<Error>,
    ghost ordered: { start ≤ end },
    ghost within: { end ≤ ROOM },
}

// A line is longer than there is room for: its first bytes fill the room.
#[derive(Clone, Copy, PartialEq, Eq, Debug)]
pub struct TooLong;

impl<R> Lines<R> {
    ghost use Rattle.script.specs.Input.{left_of};
    ghost use Rattle.std.specs.Prelude.{[]};

    // Nothing read yet.
    pub fn new(from: R) -> Lines<R>
    where
        R: Drop,
        ensures left { left_of result ≡ [] }
        ensures from { result.from ≡ from }
        ensures failed { IsNone result.failed }
    {
        Lines {
            bytes: [0; ROOM],
            start: 0,
            end: 0,
            from,
            failed: None,
        }
    }

    // Whether every read was answered; else why the last that was not.
    pub fn done(self) -> Result<(), Error>
    where
        R: Drop,
        ensures { MatchOption self.failed (IsOk result) (λ e. result ≡ Err e) }
    {
        self.failed.map_or(Ok(()), Err)
    }
}

impl<R: Read> Lines<R> {
    ghost use Rattle.script.specs.Input.{has_feed, left_of, line_of, Fits, Ahead, ReadsKnown, Ends};
    ghost use Rattle.script.specs.internal.Coming.{Refills};

    // Reads some more bytes where none is left: there is none then at the end, and where a read failed.
    fn refill(&mut self)
        ensures { Refills R.remaining self.old self.new }
    {
        if self.start < self.end {
            return;
        }
        self.start = 0;
        self.end = match self.from.read(&mut self.bytes) {
            Ok(n) => n,
            Err(e) => {
                self.failed = Some(e);
                0
            }
        };
    }

    // The next line, without its line feed: how many bytes of its room it takes.
    pub fn next(&mut self, line: &mut [u8]) -> Option<Result<usize, TooLong>>
        ensures fits { Fits result (length line.new) }
        ensures ahead { has_feed (left_of self.old) ≡ true → Ahead self.old line.old result self.new line.new }
        ensures reads { ReadsKnown R.remaining self.old line.old result self.new line.new }
    {
        self.next_or_end(line).0
    }

    // The next line, and whether the input ends with it: no line feed is to come, and no byte of the line is in its room. A room of no
    // bytes holds none, so a last line that is too long for it ends the input as well. Called in place, so that `next`, which asks for
    // the line alone, does not pay for the other answer.
    #[inline(always)]
    #[tactic(auto, using(crate::specs::laws::ReadLaws::coming_start))]
    pub fn next_or_end(&mut self, line: &mut [u8]) -> (Option<Result<usize, TooLong>>, bool)
        ensures fits { Fits result.0 (length line.new) }
        ensures ahead { has_feed (left_of self.old) ≡ true → Ahead self.old line.old result.0 self.new line.new }
        ensures reads { ReadsKnown R.remaining self.old line.old result.0 self.new line.new }
        ensures ends { Ends R.remaining self.old (line_of result.0 line.new) result.1 self.new }
    {
        let mut len = 0;
        for _turn in 0..u64::MAX {
            self.refill();
            let left = &self.bytes[self.start..self.end];
            if left.is_empty() {
                break;
            }
            match feed(left) {
                Some(n) => {
                    len = put(line, len, &left[..n]);
                    self.start += n + 1;
                    return (Some(fitting(len, line.len())), false);
                }
                None => {
                    len = put(line, len, left);
                    self.start = self.end;
                }
            }
        }
        let held = len.min(line.len());
        (last(len, line.len()), held == 0)
    }
}

// Where the first line feed is.
fn feed(bytes: &[u8]) -> Option<usize>
    ensures { result ≡ position (λ b. eqb b 10) bytes.now }
{
    bytes.iter().position(|b| *b == b'\n')
}

// A line of so many bytes in its room.
fn fitting(len: usize, room: usize) -> Result<usize, TooLong>
    ensures { MatchResult result (λ n. (n ≡ len) × (len ≤ room)) (λ _. room < len) }
{
    if len <= room { Ok(len) } else { Err(TooLong) }
}

// The last line, of so many bytes in its room: none where it has no byte.
fn last(len: usize, room: usize) -> Option<Result<usize, TooLong>>
    ensures { MatchOption result (len ≡ 0)
        (λ l. (0 < len) × MatchResult l (λ n. (n ≡ len) × (len ≤ room)) (λ _. room < len)) }
{
    (0 < len).then(|| fitting(len, room))
}

// More bytes of a line that has so many, put into its room as far as it goes. The answer is how many the line has then.
fn put(line: &mut [u8], len: usize, part: &[u8]) -> usize
    ensures count { result ≡ min (len + length part.now) (2 ^ 64 - 1) }
    ensures room { line.new ≡ written line.old len part.now }
{
    let start = len.min(line.len());
    let n = part.len().min(line.len() - start);
    line[start..start + n].copy_from_slice(&part[..n]);
    len.saturating_add(part.len())
}
