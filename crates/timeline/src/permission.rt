// Whether a job may be served: who has to be served before it, and what its sections allow.
ghost use Rattle.std.specs.Prelude.{◌≡◌, ◌≤◌};
ghost use Rattle.days.specs.Jobs.{allowed};
ghost use Rattle.days.specs.Rules.{last_tick};
ghost use Rattle.timeline.specs.Obeyed.{rival};
ghost use Rattle.timeline.specs.Past.{latest};

use days::command::Mark;
use days::job::Job;
use jobs::predicates::is_held;
use jobs::questions::{any_held, any_more_urgent};
use model::fault::Refusal;
use model::parts::Parts;
use model::sections::{Progress, Sections};

// Why another job has to be served first: while one is held only that one is served, and else the most urgent.
pub(crate) fn rival<P: Parts>(parts: &P, jobs: &[Job], job: &Job) -> Option<Refusal>
    ensures { result ≡ rival (P.meaning parts.now) jobs.now job.now }
{
    if any_held(jobs) {
        (!is_held(job)).then_some(Refusal::Held)
    } else {
        any_more_urgent(parts, jobs, job).then_some(Refusal::Behind)
    }
}

// Whether the sections allow the mark after one more tick of the job.
pub(crate) fn is_allowed<P: Parts>(parts: &P, mark: Mark, job: &Job) -> bool
    requires { latest job.now ≤ last_tick }
    ensures { result ≡ allowed (P.meaning parts.now).sections mark job.now }
{
    let sections = parts.sections();
    let progress = Progress {
        received: job.received + 1,
        since: job.since + 1,
        openings: job.openings,
    };
    match mark {
        Mark::Hold => sections.may_hold(job.task, progress),
        Mark::Open => sections.may_open(job.task, progress),
        Mark::Done => sections.may_finish(job.task, progress),
    }
}
