// A job as the book shows it.
ghost use Rattle.std.specs.Prelude.{◌≡◌};

use days::job::{Job, JobState};

#[derive(Clone, Copy, PartialEq, Eq, Debug)]
pub struct JobView {
    pub task: u8,
    pub release: u32,
    pub state: JobState,
    // 0 until the job is finished, as the answer about a job is set
    pub took: u32,
}

impl From<&Job> for JobView {
    ghost use Rattle.book.specs.JobViews.{job_view};

    ghost from_gives = { λ j v. v ≡ job_view j.now };

    fn from(job: &Job) -> JobView {
        let took = match job.state {
            JobState::Finished => job.took,
            JobState::Waiting | JobState::Held => 0,
        };
        JobView {
            task: job.task,
            release: job.release,
            state: job.state,
            took,
        }
    }
}
