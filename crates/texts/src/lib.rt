// Bytes, numbers and comma lists, written into an area that the caller lends.
// Every `put_` call writes into that area and no String: the library has no heap, and such a call can't fail.
#![tactic(auto)]

pub mod area;
pub mod commas;
pub mod numbers;
