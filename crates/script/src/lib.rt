// Lines of text, a call each: standard input line by line, the words of a line, the answers.
#![tactic(auto)]

pub mod input;
pub mod list;
pub mod number;
pub mod out;
mod waiting;
pub mod words;
