// The common record and the node as arrays of 64-bit words in the caller's memory. Any words may come in: what is taken is a state that this library
// may have given back, and everything else is refused.
#![tactic(auto)]

pub mod commons; // commons.rt: the words of a common record
pub mod nodes; // nodes.rt: the words of a node
