// The order of the listing's lines, and the update that the lines between U and `.` make.
#![tactic(auto)]

pub mod draft;
pub mod places;
