// The calls of `moachest` as C calls them, by their own names: what is lent and put comes as numbers, and a call returns one.
// Each states the clauses of its call, of these numbers.
#![tactic(auto)]

pub mod edits;
pub mod flushing;
pub mod lookups;
pub mod sizes;
