// The first stages of the layout judge, over tables that are not bad: sizes, placements, and segment rows each by itself (3 to 22).
#![tactic(auto)]

pub mod placements;
pub mod rows;
pub mod sizes;
