// The types of document 01 that a caller meets: hashes and ranges, ids and row numbers, states, limits, descriptors, sessions.
#![tactic(auto)]

pub mod lent;
pub mod limits;
pub mod range;
pub mod records;
pub mod state;
