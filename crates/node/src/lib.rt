// One node: its order of keys, its block on disk, its entries in a slot; fitting, cutting, packing.
#![tactic(auto)]

pub use layout::flag;
pub use seal::{bytes, obj};

pub mod adopt;
pub mod build;
pub mod cut;
pub mod fit;
pub mod head;
pub mod info;
mod layout;
mod lead;
mod led;
pub mod order;
pub mod pack;
pub mod read;
pub mod record;
pub mod refusal;
pub mod room;
pub mod search;
pub mod slot;
mod sought;
pub mod stands;
pub mod val;
pub mod walk;
