// States as arrays of 64-bit words in the caller's memory.
#![tactic(auto)]

pub mod block; // block.rt: stretches of words, copied out and in
pub mod tables; // tables.rt: the words of a task table, read and written
