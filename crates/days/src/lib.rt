// What a day is made of: jobs, and the commands that change them. What they mean, and the promise that no day is worse
// than its sheet, stand in specs/ and proofs/; the code that obeys the commands stands in the crates above.
#![tactic(auto)]

pub mod command;
pub mod job;
