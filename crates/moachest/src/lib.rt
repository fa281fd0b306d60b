// The library: the calls on an open tree that the caller keeps as words, and the numbers of C.
#![tactic(auto)]

mod answers;
pub mod edits;
pub mod flushing;
pub mod lookups;
pub mod numbers;
pub mod sizes;
mod words;
