// Hints: where a search should look first. A hint is looked at before it is believed, so answers never hang on it, and only time does.
#![tactic(auto)]

// How many values a digit has. Fewer keys than these are searched for or sorted faster than counted.
pub const FEW: usize = 256;

pub mod digits;
pub mod near;
