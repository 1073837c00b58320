// The listed kinds of sections: what a job costs, and where a running job may be interrupted.
#![tactic(auto)]

mod costs;
pub mod floating_sections;
pub mod open_sections;
pub mod point_sections;
mod row_shape;
mod segments;
mod shaped_sections;
pub mod shut_sections;
