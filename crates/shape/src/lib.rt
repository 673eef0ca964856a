// Refusals 1 and 2 of document 01 as questions: whether lent words are tables, and whether lent areas have room. Any words and any numbers
// may be asked, so no function for callers requires anything.
#![tactic(auto)]

pub mod room;
mod rows;
pub mod tables;
