// The words of a line, in an array that has room for the most that a line has.
ghost use Rattle.std.specs.Prelude.{◌≡◌, ◌≤◌, ◌++◌, ◌∷◌, [], length, MatchOption};
ghost use Rattle.script.specs.declared.words.TheConstants.{MOST};

use crate::words::MOST;

#[derive(Clone, Copy)]
pub struct Words<'a> {
    list: [&'a [u8]; MOST],
    // How many they are: the first.
    count: usize,
    ghost within: { count ≤ MOST },
}

#[tactic(auto, unfolding(crate::specs::Words::listed))]
impl<'a> Words<'a> {
    ghost use Rattle.script.specs.Words.{listed};

    // None yet.
    pub fn new() -> Words<'a>
        ensures { listed result ≡ [] }
    {
        Words {
            list: [&[]; MOST],
            count: 0,
        }
    }

    // The words as a slice: never more than a line has.
    pub fn as_slice(&self) -> &[&'a [u8]]
        ensures value { result.now ≡ listed self.now }
        ensures fits { length result.now ≤ MOST }
    {
        &self.list[..self.count]
    }

    // One more, where there is room for it; else they stay as they are.
    pub fn push(&mut self, w: &'a [u8]) -> Option<()>
        ensures { MatchOption result ((length (listed self.old) ≡ MOST) × (listed self.new ≡ listed self.old))
            (λ _. listed self.new ≡ listed self.old ++ w.entry ∷ []) }
    {
        if self.count == MOST {
            return None;
        }
        self.list[self.count] = w;
        self.count += 1;
        Some(())
    }
}
