// The list of releases of a round record: its check, 15 and 16, and the insertion.
#![tactic(auto)]

pub mod insertion;
pub mod listing;
pub mod spacing;
