// The day book: it follows a unit command by command, on a judged table, and gives the table back with totals.
#![tactic(auto)]

pub mod books;
mod closing;
mod commands;
mod opening;
pub mod totals;
pub mod views;
