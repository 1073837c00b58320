// What is asked of one job.
ghost use Rattle.std.specs.Prelude.{◌≡◌, ◌&&◌, nat_le};
ghost use Rattle.days.specs.Jobs.{held, unfinished, of_task, pending};
ghost use Rattle.days.specs.Promise.{ended};
ghost use Rattle.days.specs.Rules.{more_urgent};
ghost use Rattle.days.specs.Views.{shown};

use days::job::{Job, JobState};
use model::order::Order;
use model::parts::Parts;
use model::released::Released;

// Whether the job keeps the processor.
pub fn is_held(job: &Job) -> bool
    ensures { result ≡ held job.now }
{
    job.state == JobState::Held
}

pub fn is_unfinished(job: &Job) -> bool
    ensures { result ≡ unfinished job.now }
{
    job.state != JobState::Finished
}

// Whether it is an unfinished job of the task.
pub fn is_pending(job: &Job, task: u8) -> bool
    ensures { result ≡ pending task job.now }
{
    job.task == task && is_unfinished(job)
}

// Whether it is a finished job of the task.
pub fn has_ended(job: &Job, task: u8) -> bool
    ensures { result ≡ ended task (shown job.now) }
{
    job.task == task && !is_unfinished(job)
}

// Whether it is a job of the task that was released at `tick` or later.
pub fn is_released_since(job: &Job, task: u8, tick: u32) -> bool
    ensures { result ≡ (of_task task job.now && nat_le tick job.now.release) }
{
    job.task == task && tick <= job.release
}

// Whether `other` is unfinished and `job` is neither ahead of it nor level with it.
pub fn is_more_urgent<P: Parts>(parts: &P, job: &Job, other: &Job) -> bool
    ensures { result ≡ more_urgent (P.meaning parts.now) job.now other.now }
{
    is_unfinished(other) && !parts.order().ahead(released(job), released(other))
}

// The job as an order names it. `From` could stand only beside the job, in a crate that has no code.
fn released(job: &Job) -> Released
    ensures { result ≡ Rattle.days.specs.Jobs.released job.now }
{
    Released {
        task: job.task,
        at: job.release,
    }
}
