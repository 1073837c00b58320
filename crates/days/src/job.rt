// A job in the day book.

#[derive(Clone, Copy, PartialEq, Eq, Debug)]
pub enum JobState {
    // unfinished, and another job may be served before it
    Waiting,
    // unfinished, and only this job may be served
    Held,
    Finished,
}

#[derive(Clone, Copy, PartialEq, Eq, Debug)]
pub struct Job {
    pub task: u8,
    // the tick of its release
    pub release: u32,
    pub state: JobState,
    // the ticks that it was served
    pub received: u32,
    // those of them since its last opening, or its start
    pub since: u32,
    // how often it was opened
    pub openings: u32,
    // the ticks from its release to its end, 0 until then; beside the state, as in the answer about a job
    pub took: u32,
}
