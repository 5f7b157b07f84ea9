// The C face of the doors: each export is the door of `cabinet` by the same name, with its contract, and does nothing but call it. It stands apart, since a crate is a
// library or a static library and not both, and Rattle code calls the doors too. What each door refuses stands with the door.
#![tactic(auto)]

pub mod fresh; // fresh.rt: a table checked, and states at the start
pub mod nodes; // nodes.rt: a node's start, finish, report and close
pub mod records; // records.rt: numbers, tables and records as bytes
pub mod stations; // stations.rt: a station's close, and what is asked of a common record
