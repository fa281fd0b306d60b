// The functions of `speed` as C calls them: each calls the library's function of its name and states its clauses again.
#![tactic(auto)]

pub mod one_node;
pub mod sums;
