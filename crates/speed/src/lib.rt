// What the comparison in bench/ calls from Rust: functions under plain names, for slices of any length.
#![tactic(auto)]

pub mod one_node;
pub mod sums;
