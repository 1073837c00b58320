// What a job costs, and where a running job may be interrupted.
ghost use Rattle.std.specs.Prelude.{◌≡◌};
ghost use Rattle.model.specs.Sections.{SectionsMeaning, LawfulSections};

// How far a job has come with a tick: the ticks that it has received and those of them since its last opening or its start,
// this one too, and its openings before it.
#[derive(Clone, Copy, PartialEq, Eq, Debug)]
pub struct Progress {
    pub received: u32,
    pub since: u32,
    pub openings: u32,
}

pub trait Sections {
    ghost meaning: { Self → SectionsMeaning };

    // What each `impl` must prove.
    ghost lawful: { (x : Self) → LawfulSections (meaning x) };

    fn tasks(&self) -> u8
        ensures { result ≡ (meaning self.now).tasks };

    // The most ticks that a job of `task` takes.
    fn cost(&self, task: u8) -> u32
        ensures { result ≡ (meaning self.now).cost task };

    // The longest stretch of a job of `task` that nothing interrupts.
    fn longest(&self, task: u8) -> u32
        ensures { result ≡ (meaning self.now).longest task };

    // The end of a job of `task` that runs undisturbed.
    fn tail(&self, task: u8) -> u32
        ensures { result ≡ (meaning self.now).tail task };

    // The three marks of a tick. `progress` is how far the job has come with it.

    // Whether the job may keep the processor after the tick.
    fn may_hold(&self, task: u8, progress: Progress) -> bool
        ensures { result ≡ (meaning self.now).may_hold task progress.received progress.since progress.openings };

    // Whether the job may be interrupted after the tick.
    fn may_open(&self, task: u8, progress: Progress) -> bool
        ensures { result ≡ (meaning self.now).may_open task progress.received progress.since progress.openings };

    // Whether the job may end with the tick.
    fn may_finish(&self, task: u8, progress: Progress) -> bool
        ensures { result ≡ (meaning self.now).may_finish task progress.received progress.since progress.openings };
}
