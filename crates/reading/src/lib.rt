// What the listing program reads: numbers, codes, optional fields and lists, and each kind of line. Every call answers for every
// line of bytes; the program prints and keeps order. What a bounded buffer keeps of a line of any length reads as the line that
// came (specs/LongLines).
#![tactic(auto)]

pub mod fields;
mod items;
pub mod kept;
pub mod lines;
pub mod lists;
pub mod numbers;
mod spans;
