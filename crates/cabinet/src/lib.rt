// The doors: every operation of the base for C and Rust, on words and bytes that the caller lends. Nothing is required of the caller: each door looks at what it
// was lent, and what it cannot use gets a refusal of the doors' own, outside document 01's numbers.
#![tactic(auto)]

pub mod fresh; // fresh.rt: a table checked, and states at the start
pub mod looks; // looks.rt: the table and the state that a call is lent
pub mod nodes; // nodes.rt: a node's start, finish, report and close
pub mod records; // records.rt: numbers, tables and records as bytes
pub mod reply; // reply.rt: what the doors answer
pub mod stations; // stations.rt: a station's close, and what is asked of a common record
