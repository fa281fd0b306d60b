// The numbers of C: what is lent, what is put, and what a call returns.
ghost use Rattle.std.specs.Prelude.{◌≡◌, ◌≤◌};
ghost use Rattle.tree.specs.Answers.{put_value, lent_value};
ghost use Rattle.moachest.specs.Words.{yes, lent_numbers};
ghost use Rattle.moachest.specs.Answers.{returned};

use tree::lent::Lent;
use tree::refusal::Refusal;

const ACCEPTED: u64 = 0;

// What is lent by numbers: a map where `mapped` is not 0.
pub fn lent(size: usize, slots: usize, mapped: u64, map: u64) -> Lent
    ensures { result ≡ lent_numbers size slots mapped map }
{
    Lent {
        size,
        slots,
        map: (mapped != 0).then_some(map),
    }
}

// What is put: a ghost where `is_ghost` is not 0, else the bytes.
#[tactic(auto, unfolding(tree::specs::Answers::lent_value, tree::specs::Answers::put_value))]
pub fn value(is_ghost: u64, value: &[u8]) -> Option<&[u8]>
    ensures { lent_value result ≡ put_value (yes is_ghost) value.now }
{
    (is_ghost == 0).then_some(value)
}

// What a call returns: 0 if it was accepted, else its refusal's number.
#[tactic(auto, unfolding(crate::specs::Answers::returned), using(crate::specs::laws::AnswerLaws::number_most))]
pub fn number(called: Result<(), Refusal>) -> u64
    ensures told { result ≡ returned called }
    ensures within { result ≤ 20 }
{
    match called {
        Err(refusal) => u64::from(refusal),
        Ok(()) => ACCEPTED,
    }
}
