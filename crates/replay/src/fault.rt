// Why a line has no answer of its own.
use std::num::TryFromIntError;
use tree::refusal::Refusal;

#[derive(Clone, Copy)]
pub enum Fault {
    // It is none of the lines, or does not fit the memory or what the program remembers: (error).
    NotTaken,
    // The call is refused.
    Refused(Refusal),
}

impl From<Refusal> for Fault {
    fn from(refusal: Refusal) -> Fault {
        Fault::Refused(refusal)
    }
}

impl From<TryFromIntError> for Fault {
    fn from(_: TryFromIntError) -> Fault {
        Fault::NotTaken
    }
}
