// Whether releases come closer together than their arrival curve allows. Three functions, since with a closure in a
// closure neither answer is proved.
ghost use Rattle.std.specs.Prelude.{◌≡◌};
ghost use Rattle.jobs.specs.Crowds.{crowded_from, crowded_from_a_release, crowded_now};

use crate::questions::released_since;
use days::job::Job;
use model::arrivals::Arrivals;
use model::parts::Parts;

// Whether one more release of the task, now, is one too many: from some release of the task, or from now.
pub fn is_crowded<P: Parts>(parts: &P, jobs: &[Job], task: u8, now: u32) -> bool
    ensures { result ≡ crowded_now (P.meaning parts.now) jobs.now task now }
{
    is_crowded_from_a_release(parts, jobs, task, now)
        || is_crowded_from(parts, jobs, task, now, now)
}

fn is_crowded_from_a_release<P: Parts>(parts: &P, jobs: &[Job], task: u8, now: u32) -> bool
    ensures { result ≡ crowded_from_a_release (P.meaning parts.now) jobs.now task now }
{
    jobs.iter().any(|job| job.task == task && is_crowded_from(parts, jobs, task, now, job.release))
}

// Whether with one more release now, more come from the tick to now than the arrival curve allows.
pub fn is_crowded_from<P: Parts>(parts: &P, jobs: &[Job], task: u8, now: u32, tick: u32) -> bool
    ensures { result ≡ crowded_from (P.meaning parts.now) jobs.now task now tick }
{
    // saturates at the longest length for which a count is asked
    let length = now.saturating_sub(tick).saturating_add(1);
    parts.arrivals().count(task, length) <= released_since(jobs, task, tick) as u64
}
