// Bytes and seals: little-endian fields, moves within a slice, the object header and the Fletcher sum.
#![tactic(auto)]

pub mod bytes;
pub mod checksum;
pub mod obj;
