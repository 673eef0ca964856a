// The order of a graph's nodes over one work area in which the graph lies, too: parents before children, always the smallest ready node
// next, with a limit on the depth. It is the rule book's order, by node number.
#![tactic(auto)]

pub mod arrange;
pub mod begin;
pub mod slots;
pub mod taking;

// The depth of a node that lies deeper than the limit.
#[derive(Clone, Copy, PartialEq, Eq, Debug)]
pub struct TooDeep(pub u64);

// Why a graph's nodes have no order.
#[derive(Clone, Copy, PartialEq, Eq, Debug)]
pub enum OrderError {
    Depth(u64),
    Cycle,
}
