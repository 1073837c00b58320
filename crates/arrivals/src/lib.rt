// The listed kinds of arrivals: how often jobs come.
#![tactic(auto)]

pub mod delay;
pub mod separations;
mod spacing;
pub mod steps;
