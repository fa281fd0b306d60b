// Block choice and flush.
#![tactic(auto)]

pub mod flush;
pub mod space;
