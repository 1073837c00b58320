// Releasing a job.
ghost use Rattle.std.specs.Prelude.{◌≡◌};
ghost use Rattle.days.specs.Jobs.{new_job};
ghost use Rattle.days.specs.Rules.{crowded};
ghost use Rattle.days.specs.declared.command.Command.TheVariants.{Release};
ghost use Rattle.timeline.specs.Obeyed.{ObeyedBy};
ghost use Rattle.timeline.specs.Timelines.{held_by};

use crate::state::Timeline;
use crate::storage::MOST_JOBS;
use days::job::{Job, JobState};
use jobs::crowds::is_crowded;
use model::arrivals::Arrivals;
use model::fault::{Fault, NO_TASK, Part, Refusal};
use model::parts::Parts;

impl Timeline {
    pub(crate) fn release<P: Parts>(&mut self, parts: &P, task: u8) -> Result<(), Fault>
        ensures { ObeyedBy (P.meaning parts.now) (Release task) self.entry.now self.exit.now result }
    {
        if task >= parts.arrivals().tasks() {
            return Err(Fault::new(Refusal::Unread, Part::Book, NO_TASK));
        }
        if self.jobs.len() >= MOST_JOBS {
            return Err(Fault::new(Refusal::Full, Part::Book, task));
        }
        if self.is_crowded(parts, task) {
            return Err(Fault::new(Refusal::Crowd, Part::Book, task));
        }
        let job = released_at(task, self.now);
        self.jobs.push_reserved(job);
        Ok(())
    }

    // Whether one more release of the task, now, is one too many.
    fn is_crowded<P: Parts>(&self, parts: &P, task: u8) -> bool
        ensures { result ≡ crowded (P.meaning parts.now) (held_by self.entry.now) (Release task) }
    {
        is_crowded(parts, self.jobs.as_slice(), task, self.now)
    }
}

// A job of the task as it is released at the tick.
fn released_at(task: u8, tick: u32) -> Job
    ensures { result ≡ new_job task tick }
{
    Job {
        task,
        release: tick,
        state: JobState::Waiting,
        received: 0,
        since: 0,
        openings: 0,
        took: 0,
    }
}
