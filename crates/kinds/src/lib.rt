// What the listed kinds of parts mean, in specs/, and that they keep the laws, in proofs/. The code of the kinds stands
// in the crates above.
#![tactic(auto)]

pub mod numbers;

// A task with floating sections: what a job costs, and how long it may run without an opening.
#[derive(Clone, Copy, PartialEq, Eq, Debug)]
pub struct FloatingTask {
    pub cost: u32,
    pub longest: u32,
}
