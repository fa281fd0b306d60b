// What an accepted call answers, as words.
ghost use Rattle.std.specs.Prelude.{◌≡◌, List, [], ◌∷◌, ℕ, ◌≤◌, cond, length};
ghost use Rattle.seal.specs.Bytes.{splice};
ghost use Rattle.moachest.specs.Answers.{copied_words, found_words, flushed_words};

use crate::words;
use flush::flush::Flushed;
use tree::get::Copied;
use tree::range::Ranged;

// The first word of get's answer: what the key holds.
const NONE: u64 = 0;

const GHOST: u64 = 1;

const VALUE: u64 = 2;

// What an accepted call answers, as words.
pub trait Answer {
    // Its words.
    ghost words: { Self → List ℕ };

    // They are stored from the answer's first word on.
    fn put(self, answer: &mut [u64])
        requires { 8 ≤ length answer.old }
        ensures { answer.new ≡ splice answer.old 0 (words self) };
}

// get: 0 nothing, 1 a ghost, 2 a value, and its length.
impl Answer for Option<Copied> {
    ghost words = { copied_words };

    #[tactic(auto, unfolding(crate::specs::Answers::copied_words))]
    fn put(self, answer: &mut [u64]) {
        match self {
            None => words::put(answer, &[NONE]),
            Some(Copied::Ghost) => words::put(answer, &[GHOST]),
            Some(Copied::Value(n)) => words::put(answer, &[VALUE, n as u64]),
        }
    }
}

// floor: 0 no entry, 1 an entry, and its record's length.
impl Answer for Option<usize> {
    ghost words = { found_words };

    #[tactic(auto, unfolding(crate::specs::Answers::found_words))]
    fn put(self, answer: &mut [u64]) {
        match self {
            None => words::put(answer, &[0]),
            Some(n) => words::put(answer, &[1, n as u64]),
        }
    }
}

// range: how many entries, and the bytes of their records.
impl Answer for Ranged {
    ghost words = { λ r. r.count ∷ r.length ∷ [] };

    fn put(self, answer: &mut [u64]) {
        words::put(answer, &[self.count, self.length]);
    }
}

// remove: 1 where the key was there, else 0.
impl Answer for bool {
    ghost words = { λ there. cond there 1 0 ∷ [] };

    fn put(self, answer: &mut [u64]) {
        words::put(answer, &[u64::from(self)]);
    }
}

// flush: its root, its figures and the next id.
impl Answer for Flushed {
    ghost words = { flushed_words };

    #[tactic(auto, unfolding(crate::specs::Answers::flushed_words))]
    fn put(self, answer: &mut [u64]) {
        let done = self.done;
        words::put(
            answer,
            &[
                self.root,
                done.allocated,
                done.freed as u64,
                done.removed as u64,
                done.moved as u64,
                self.keys,
                self.fill,
                done.next,
            ],
        );
    }
}
