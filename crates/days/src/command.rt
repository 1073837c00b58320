// The commands of the day book.

// What comes after a served tick.
#[derive(Clone, Copy, PartialEq, Eq, Debug)]
pub enum Mark {
    // the job keeps the processor
    Hold,
    // the job may be interrupted
    Open,
    // the job has ended
    Done,
}

#[derive(Clone, Copy, PartialEq, Eq, Debug)]
pub enum Command {
    // a job of the task is released now
    Release(u8),
    // the first unfinished job of the task is served for one tick
    Serve(Mark, u8),
    // so many ticks pass with nothing to do
    Idle(u16),
}
