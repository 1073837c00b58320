// What is asked of a day: the time, a job, and the totals of a task.
ghost use Rattle.std.specs.Prelude.{◌≡◌, max, map, filter};
ghost use Rattle.std.specs.List.{reduce};
ghost use Rattle.days.specs.declared.job.Job.{Job as TheJob};
ghost use Rattle.days.specs.Promise.{ended, finished, longest_time};
ghost use Rattle.days.specs.Views.{shown, viewed};
ghost use Rattle.timeline.specs.Timelines.{held_by};

use crate::state::Timeline;
use days::job::Job;
use jobs::predicates::has_ended;
use jobs::questions::ended;

impl Timeline {
    pub fn now(&self) -> u32
        ensures { result ≡ self.entry.now.now }
    {
        self.now
    }

    pub fn jobs(&self) -> &[Job]
        ensures { result.now ≡ self.entry.now.jobs.items }
    {
        self.jobs.as_slice()
    }

    // How many jobs of the task have ended.
    pub fn finished(&self, task: u8) -> u32
        ensures { result ≡ finished (viewed (held_by self.entry.now)) task }
    {
        ended(self.jobs.as_slice(), task) as u32
    }

    // The longest time that a job of the task took, or 0.
    pub fn longest(&self, task: u8) -> u32
        ensures { result ≡ longest_time (viewed (held_by self.entry.now)) task }
    {
        longest_time(self.jobs.as_slice(), task).unwrap_or(0)
    }
}

// The longest time that a job of the task took, if one has ended.
fn longest_time(jobs: &[Job], task: u8) -> Option<u32>
    ensures { result ≡ reduce max (map (λ (j : TheJob). j.took) (filter (λ j. ended task (shown j)) jobs.now)) }
{
    jobs.iter()
        .filter(|job| has_ended(job, task))
        .map(|job| job.took)
        .max()
}
