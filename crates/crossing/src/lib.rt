// What crosses to C: each answer that is an enum as a struct of numbers, and how many words each area must have. The calls of the crate `host`
// hand these on. They stand apart from it so that a change of them is proved, or refused, in seconds, and a program can use them without the C names.
#![tactic(auto)]

pub mod answer;
pub mod needs;
pub mod updated;
