// The bytes that wait to be written, in an array that has room for so many.
ghost use Rattle.std.specs.Prelude.{◌≡◌, ◌+◌, ◌<◌, ◌≤◌, ◌++◌, ◌∷◌, [], length, take};
ghost use Rattle.script.specs.declared.out.TheConstants.{ROOM};

use crate::out::ROOM;

#[derive(Drop)]
pub struct Waiting {
    bytes: [u8; ROOM],
    // How many of them wait: the first.
    len: usize,
    ghost within: { len ≤ ROOM },
}

#[tactic(auto, using(crate::specs::laws::OutLaws::parts), unfolding(crate::specs::Out::items))]
impl Waiting {
    ghost use Rattle.script.specs.Out.{items};

    // None yet.
    pub fn new() -> Waiting
        ensures { items result ≡ [] }
    {
        Waiting {
            bytes: [0; ROOM],
            len: 0,
        }
    }

    pub fn as_slice(&self) -> &[u8]
        ensures { result.now ≡ items self.now }
    {
        &self.bytes[..self.len]
    }

    // How many more there is room for.
    pub fn room(&self) -> usize
        ensures { result + length (items self.now) ≡ ROOM }
    {
        ROOM - self.len
    }

    // One more, for which there has to be room.
    pub fn push(&mut self, b: u8)
        requires { length (items self.old) < ROOM }
        ensures { items self.new ≡ items self.old ++ b ∷ [] }
    {
        self.bytes[self.len] = b;
        self.len += 1;
    }

    // A text more, for which there has to be room.
    pub fn extend(&mut self, s: &[u8])
        requires { length (items self.old) + length s.now ≤ ROOM }
        ensures { items self.new ≡ items self.old ++ s.now }
    {
        let end = self.len + s.len();
        self.bytes[self.len..end].copy_from_slice(s);
        self.len = end;
    }

    // No more than the first n.
    pub fn truncate(&mut self, n: usize)
        ensures { items self.new ≡ take n (items self.old) }
    {
        self.len = self.len.min(n);
    }
}
