// Editing one tree: what is lent, loading, lookups, edits, the object map. Of one node it hands on what flush calls.
#![tactic(auto)]

pub use node::{head, obj, pack, record, refusal};

pub mod bank;
pub mod block;
mod change;
pub mod cuts;
pub mod edit;
pub mod editor;
pub mod floor;
pub mod found;
pub mod get;
pub mod hold;
pub mod kids;
pub mod lent;
pub mod loaded;
pub mod lookup;
pub mod map;
pub mod mapped;
pub mod omap;
pub mod range;
pub mod remove;
pub mod steps;
pub mod still;
pub mod undo;
pub mod upsert;
pub mod view;
pub mod way;
pub mod writers;
