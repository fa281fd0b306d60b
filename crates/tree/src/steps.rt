// The steps of a way.
ghost use Rattle.std.specs.Prelude.{◌≤◌};

use crate::editor::Position;

// The most nodes on a way: levels 32 to 0, and one more.
pub const STEPS: usize = 34;

// Positions in an array that knows how many of its first it holds. It is copied with its way, which an `ArrayVec` is not.
#[derive(Clone, Copy)]
pub struct Steps {
    all: [Position; STEPS],
    count: usize,
    ghost few: { count ≤ 34 },
}

impl Steps {
    ghost use Rattle.std.specs.Prelude.{◌≡◌, [], ◌∷◌, ◌++◌, ◌+◌, ◌<◌, length};
    ghost use Rattle.tree.specs.internal.Steps.{positions};

    // None.
    #[tactic(auto, unfolding(crate::specs::internal::Steps::positions))]
    pub fn new() -> Steps
        ensures { positions result ≡ [] }
    {
        let none = Position { slot: 0, index: 0 };
        Steps {
            all: [none; STEPS],
            count: 0,
        }
    }

    // One more, where there is room for it.
    #[tactic(auto, unfolding(crate::specs::internal::Steps::positions))]
    pub fn push(&mut self, step: Position)
        requires { length (positions self.old) < 34 }
        ensures items { positions self.new ≡ positions self.old ++ step ∷ [] }
        ensures len { length (positions self.new) ≡ length (positions self.old) + 1 }
    {
        self.all[self.count] = step;
        self.count += 1;
    }

    // The steps as a slice, the root's first: never more than a way has.
    #[tactic(auto, unfolding(crate::specs::internal::Steps::positions))]
    pub fn as_slice(&self) -> &[Position]
        ensures value { result.now ≡ positions self.now }
        ensures fits { length result.now ≤ 34 }
    {
        &self.all[..self.count]
    }
}
