// The time and the jobs of a day, and what the commands of a day book do to both.
#![tactic(auto)]

mod obeying;
mod permission;
mod releasing;
mod serving;
pub mod state;
pub mod storage;
mod tick;
mod totals;
