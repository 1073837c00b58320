// How an order names a job, and how far into the future it looks.

// A job, by its task and the tick of its release.
#[derive(Clone, Copy, PartialEq, Eq, Debug)]
pub struct Released {
    pub task: u8,
    pub at: u32,
}

// How many ticks from the start of a busy window the releases of a task can still be ahead. As an Option it would read the
// wrong way round: no end is the furthest reach, and none at all is 0 ticks.
#[derive(Clone, Copy, PartialEq, Eq, Debug)]
pub enum Reach {
    Ticks(u64),
    NoEnd,
}
