// The memory for the jobs of a day, reserved before the day begins.
ghost use Rattle.std.specs.Prelude.{◌≡◌, ◌≤◌, [], IfOk, vec_capacity};
ghost use Rattle.days.specs.Rules.{most_jobs};

use days::job::Job;
use std::alloc::{AllocError, Global};

// The most jobs of a day.
pub const MOST_JOBS: usize = 512;

// Room for the jobs of a day. Nothing after this allocates.
#[derive(Drop)]
pub struct JobStorage {
    pub(crate) jobs: Vec<Job>,
    ghost empty: { jobs.items ≡ [] },
    ghost reserved: { most_jobs ≤ vec_capacity jobs },
}

impl JobStorage {
    // The one call on a day that asks for memory.
    pub fn reserve(heap: Global) -> Result<JobStorage, AllocError>
        ensures { IfOk result (λ s. (s.jobs.items ≡ []) × (most_jobs ≤ vec_capacity s.jobs)) }
    {
        let jobs = Vec::with_capacity(heap, MOST_JOBS)?;
        Ok(JobStorage { jobs })
    }
}
