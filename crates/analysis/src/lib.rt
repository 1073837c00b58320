// The busy-window analysis, written once over what the parts mean: a draft is judged, and what comes of it is a table
// with a window and a bound for each task, or with the first fault.
#![tactic(auto)]

mod blocking;
mod bounds;
mod demands;
pub mod draft;
pub mod judged;
mod judging;
pub mod sheet;
mod sheets;
