// The time and the jobs of a day.
ghost use Rattle.std.specs.Prelude.{◌≤◌, All, vec_len, vec_capacity};
ghost use Rattle.days.specs.Rules.{last_tick, most_jobs};
ghost use Rattle.timeline.specs.Past.{latest};

use days::job::Job;

// The last tick of a day.
pub const LAST_TICK: u32 = 1_000_000;

// Now, and the jobs in order of release.
#[derive(Drop)]
pub struct Timeline {
    pub(crate) now: u32,
    pub(crate) jobs: Vec<Job>,
    ghost short: { now ≤ last_tick },
    ghost few: { vec_len jobs ≤ most_jobs },
    ghost reserved: { most_jobs ≤ vec_capacity jobs },
    // nothing in a job counts more ticks than have passed
    ghost past: { All (λ j. latest j ≤ now) jobs.items },
}
