// Rows of fields, one to a task: checked in the order in which they are given, and kept in place.
#![tactic(auto)]

pub mod column;
pub mod per_task;
pub mod rule;
