// What one served tick makes of a job.
ghost use Rattle.std.specs.Prelude.{◌≡◌, ◌<◌};
ghost use Rattle.days.specs.Jobs.{served};
ghost use Rattle.timeline.specs.Past.{latest};

use days::command::Mark;
use days::job::{Job, JobState};

// Serves the job for the tick that ends at `end`.
pub(crate) fn serve(job: &mut Job, mark: Mark, end: u32)
    requires { latest job.old < end }
    ensures { job.new ≡ served mark end job.old }
{
    job.state = match (job.state, mark) {
        (JobState::Finished, _) => JobState::Finished,
        (_, Mark::Hold) => JobState::Held,
        (_, Mark::Open) => JobState::Waiting,
        (_, Mark::Done) => JobState::Finished,
    };
    job.received += 1;
    match mark {
        Mark::Hold => job.since += 1,
        Mark::Open => {
            job.since = 0;
            job.openings += 1;
        }
        Mark::Done => {
            job.since += 1;
            job.took = end - job.release;
        }
    }
}
