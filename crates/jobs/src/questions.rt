// What is asked of a list of jobs.
ghost use Rattle.std.specs.Prelude.{◌≡◌, ◌≤◌, length, count_by, position};
ghost use Rattle.std.specs.List.{list_any};
ghost use Rattle.days.specs.Jobs.{held, unfinished, pending};
ghost use Rattle.days.specs.Promise.{ended};
ghost use Rattle.days.specs.Rules.{more_urgent, releases};
ghost use Rattle.days.specs.Views.{shown};

use crate::predicates::{
    has_ended, is_held, is_more_urgent, is_pending, is_released_since, is_unfinished,
};
use days::job::Job;
use model::parts::Parts;

pub fn any_held(jobs: &[Job]) -> bool
    ensures { result ≡ list_any held jobs.now }
{
    jobs.iter().any(is_held)
}

pub fn any_unfinished(jobs: &[Job]) -> bool
    ensures { result ≡ list_any unfinished jobs.now }
{
    jobs.iter().any(is_unfinished)
}

// Whether some unfinished job is one that `job` is neither ahead of nor level with.
pub fn any_more_urgent<P: Parts>(parts: &P, jobs: &[Job], job: &Job) -> bool
    ensures { result ≡ list_any (more_urgent (P.meaning parts.now) job.now) jobs.now }
{
    jobs.iter().any(|other| is_more_urgent(parts, job, other))
}

// The place of the first unfinished job of the task.
pub fn first_pending(jobs: &[Job], task: u8) -> Option<usize>
    ensures { result ≡ position (pending task) jobs.now }
{
    jobs.iter().position(|job| is_pending(job, task))
}

// How many jobs of the task have ended.
pub fn ended(jobs: &[Job], task: u8) -> usize
    ensures few { result ≤ length jobs.now }
    ensures value { result ≡ count_by (λ j. ended task (shown j)) jobs.now }
{
    jobs.iter().filter(|job| has_ended(job, task)).count()
}

// How many jobs of the task were released at `tick` or later.
pub fn released_since(jobs: &[Job], task: u8, tick: u32) -> usize
    ensures few { result ≤ length jobs.now }
    ensures value { result ≡ releases task tick jobs.now }
{
    // a loop: a release asks it once for each job of its task, and a chain took up to three quarters more time
    let mut number = 0;
    for job in jobs {
        if is_released_since(job, task, tick) {
            number += 1;
        }
    }
    number
}
