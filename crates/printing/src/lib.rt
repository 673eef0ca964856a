// The listing program's output: each answer as the bytes of its line.
// Every `put_` and `field_` call writes into a lent area and no Display: the library has no heap, and such a call can't fail.
#![tactic(auto)]

pub mod fields;
pub mod queries;
pub mod refusals;
pub mod updates;
