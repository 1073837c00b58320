// Earliest deadline first: the earlier of release plus relative deadline goes first.
ghost use Rattle.std.specs.Prelude.{◌≡◌, ◌+◌};
ghost use Rattle.kinds.specs.OrderKinds.{earliest_deadline, relative_deadlines_fault};
ghost use Rattle.kinds.proofs.OrderLaws.{earliest_deadline_lawful};
ghost use Rattle.rows.specs.Kept.{kept};
ghost use Rattle.rows.specs.Making.{MakesUnlessFault};

use model::fault::{Fault, Part};
use model::order::Order;
use model::released::{Reach, Released};
use rows::per_task::PerTask;
use rows::rule::Limits;

// A relative deadline is at least one tick.
const LIMITS: Limits = Limits {
    low: 1,
    high: 100_000,
};

#[derive(Drop)]
pub struct EarliestDeadline {
    rows: PerTask<u32>,
}

impl EarliestDeadline {
    // One relative deadline for each task. (Two lines, as in the other order: a generic type would be longer.)
    pub fn new(deadlines: &[u32]) -> Result<EarliestDeadline, Fault>
        ensures { MakesUnlessFault result (relative_deadlines_fault deadlines.now) (λ s. kept s.rows ≡ deadlines.now) }
    {
        let rows = PerTask::checked(&LIMITS, Part::Order, deadlines)?;
        Ok(EarliestDeadline { rows })
    }
}

impl Order for EarliestDeadline {
    ghost meaning = { λ s. earliest_deadline (kept s.rows) };

    ghost lawful = { λ s. earliest_deadline_lawful (kept s.rows) };

    fn tasks(&self) -> u8 {
        self.rows.tasks()
    }

    fn ahead(&self, job: Released, other: Released) -> bool {
        self.rows
            .both(job.task, other.task)
            .is_some_and(|(own, later)| due(job.at, own) <= due(other.at, later))
    }

    fn reach(&self, task: u8, other: u8, offset: u32) -> Reach {
        let ticks = self.rows.both(task, other).map_or(0, |(own, other)| {
            let after_due = due(offset, own) + 1;
            after_due.saturating_sub(u64::from(other))
        });
        Reach::Ticks(ticks)
    }

    fn counted(&self, task: u8, other: u8) -> bool {
        self.rows.both(task, other).is_some()
    }

    fn blocks(&self, task: u8, lower: u8) -> bool {
        self.rows
            .both(task, lower)
            .is_some_and(|(own, lower)| own < lower)
    }
}

// The tick by which a job with this release and this relative deadline is due.
fn due(release: u32, deadline: u32) -> u64
    ensures { result ≡ release + deadline }
{
    u64::from(release) + u64::from(deadline)
}
