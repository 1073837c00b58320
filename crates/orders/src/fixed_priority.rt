// Fixed priority: the larger urgency goes first, and jobs of equal urgency are level.
ghost use Rattle.std.specs.Prelude.{◌≡◌};
ghost use Rattle.kinds.specs.OrderKinds.{fixed_priority, urgencies_fault, urgency_refused};
ghost use Rattle.kinds.proofs.OrderLaws.{fixed_priority_lawful};
ghost use Rattle.rows.specs.Kept.{kept};
ghost use Rattle.rows.specs.Making.{MakesUnlessFault};

use model::fault::{Fault, Part, Refusal};
use model::order::Order;
use model::released::{Reach, Released};
use rows::per_task::PerTask;
use rows::rule::RowRule;

// Every urgency is allowed.
struct AnyUrgency;

impl RowRule<u8> for AnyUrgency {
    ghost refuses = { λ s u. urgency_refused u };

    fn refused(&self, _row: &u8) -> Option<Refusal> {
        None
    }
}

#[derive(Drop)]
pub struct FixedPriority {
    rows: PerTask<u8>,
}

impl FixedPriority {
    // One urgency for each task. (Two lines, as in the other order: a generic type would be longer.)
    pub fn new(urgencies: &[u8]) -> Result<FixedPriority, Fault>
        ensures { MakesUnlessFault result (urgencies_fault urgencies.now) (λ s. kept s.rows ≡ urgencies.now) }
    {
        let rows = PerTask::checked(&AnyUrgency, Part::Order, urgencies)?;
        Ok(FixedPriority { rows })
    }
}

impl Order for FixedPriority {
    ghost meaning = { λ s. fixed_priority (kept s.rows) };

    ghost lawful = { λ s. fixed_priority_lawful (kept s.rows) };

    fn tasks(&self) -> u8 {
        self.rows.tasks()
    }

    fn ahead(&self, job: Released, other: Released) -> bool {
        self.rows
            .both(job.task, other.task)
            .is_some_and(|(own, other)| other <= own)
    }

    fn reach(&self, task: u8, other: u8, _offset: u32) -> Reach {
        if self.counted(task, other) {
            Reach::NoEnd
        } else {
            Reach::Ticks(0)
        }
    }

    fn counted(&self, task: u8, other: u8) -> bool {
        self.rows
            .both(task, other)
            .is_some_and(|(own, other)| own <= other)
    }

    fn blocks(&self, task: u8, lower: u8) -> bool {
        self.rows
            .both(task, lower)
            .is_some_and(|(own, lower)| lower < own)
    }
}
