// One segment judged by itself, with nothing asked of the table around it: its descriptor, its lifecycle, its two edge lists.
#![tactic(auto)]

pub mod descriptor;
pub mod lifecycle;
pub mod list;
