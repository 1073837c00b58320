// Days that are run: records and commands, what the book answers, and what is left when it is closed.
#![tactic(auto)]

#[cfg(test)]
mod tests;
