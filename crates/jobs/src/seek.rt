// What is asked of a list of jobs by any condition.
ghost use Rattle.std.specs.Prelude.{◌≡◌, ◌≤◌, length, count_by, position};
ghost use Rattle.std.specs.List.{list_any};

use crate::conditions::Condition;
use days::job::Job;

// Whether a job meets the condition.
pub fn any<C: Condition>(jobs: &[Job], condition: &C) -> bool
    ensures { result ≡ list_any (C.Condition.meets condition.now) jobs.now }
{
    jobs.iter().any(|job| condition.holds(job))
}

// The place of the first job that meets the condition.
pub fn position<C: Condition>(jobs: &[Job], condition: &C) -> Option<usize>
    ensures { result ≡ position (C.Condition.meets condition.now) jobs.now }
{
    jobs.iter().position(|job| condition.holds(job))
}

// How many jobs meet the condition.
pub fn how_many<C: Condition>(jobs: &[Job], condition: &C) -> usize
    ensures few { result ≤ length jobs.now }
    ensures value { result ≡ count_by (C.Condition.meets condition.now) jobs.now }
{
    jobs.iter().filter(|job| condition.holds(job)).count()
}
