// Records: the commands of a day book as bytes.
#![tactic(auto)]

pub mod fault;
mod letters;
mod reader;

pub use reader::obey;
