// The order of a layout's segments, 28 and 29, from its held tables: rows and edges become a graph of node numbers, the graph is ordered in
// a scratch beside them, and its nodes become ids.
#![tactic(auto)]

pub mod judging;
pub mod translate;
