// Why a call refuses: docs/RULES.md ("The numbers"). specs/Refusals.antt has the numbers.
ghost use Rattle.std.specs.Prelude.{◌≡◌, true, false, MatchResult};
ghost use Rattle.node.specs.Refusals.{number_of};

#[derive(Clone, Copy, PartialEq, Eq, Debug)]
pub enum Refusal {
    // Sizes, words, slots or numbers that are lent.
    Lent = 1,
    // An address outside the image.
    Address = 2,
    // The Fletcher sum.
    Fletcher = 3,
    // An object that is no node.
    Kind = 4,
    // A hashed node.
    Hashed = 5,
    // Areas, flags, fixed lengths or the id.
    Layout = 6,
    // Not one below the parent.
    Level = 7,
    // An entry that does not lie in its block, or entries that are too many.
    Entry = 8,
    // Keys that do not rise, or lie outside the bounds.
    Keys = 9,
    // A root's storage class, or its stored node size.
    Root = 10,
    // No free slot.
    NoSlot = 11,
    // A key or a value of a length that the tree has not.
    Argument = 12,
    // A single entry that is too large.
    Single = 13,
    // No cut leaves two parts that fit.
    NoCut = 14,
    // A root over two parts that does not fit, or lies too high.
    NewRoot = 15,
    // Too few usable blocks.
    Full = 16,
    // A count or an id past the last.
    Count = 17,
    // An id without a mapping.
    Unmapped = 18,
    // An encrypted object.
    Encrypted = 19,
    // An output that is too short.
    Output = 20,
}

// A refusal's number, from 1 to 20.
impl From<Refusal> for u64 {
    ghost from_gives = { λ r n. n ≡ number_of r };

    fn from(refusal: Refusal) -> u64 {
        refusal as u64
    }
}

// Refuses unless a test passed (`check` of specs/Result.antt).
pub fn check(refusal: Refusal, passed: bool) -> Result<(), Refusal>
    ensures { MatchResult result (λ _. passed ≡ true) (λ e. (passed ≡ false) × (e ≡ refusal)) }
{
    if passed { Ok(()) } else { Err(refusal) }
}
