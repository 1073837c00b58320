// Questions on jobs: what is asked of one job, and what is asked of a list of them, by a condition of the caller's own too.
#![tactic(auto)]

pub mod conditions;
pub mod crowds;
pub mod predicates;
pub mod questions;
pub mod seek;
