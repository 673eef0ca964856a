// Lookups in sorted indexes, in time log n each: is an id there (23), is a pair there (25).
#![tactic(auto)]

pub mod ids;
pub mod links;
pub mod pairs;
