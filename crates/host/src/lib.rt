// The calls that a host in another language needs, under C names: `bindings/c/threshpetal.h` declares them. Each is a few lines over the
// call it stands for and promises the same, with an enum told as a struct of numbers (the crate `crossing`) and a stretch as start and length.
#![tactic(auto)]

pub mod assigned;
pub mod eligibility;
pub mod fixed;
pub mod judge;
pub mod names;
pub mod needs;
pub mod stretch;
pub mod updating;
