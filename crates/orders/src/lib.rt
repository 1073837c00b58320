// The listed kinds of order: which job goes first.
#![tactic(auto)]

pub mod earliest_deadline;
pub mod fixed_priority;
