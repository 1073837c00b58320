// Separations: two releases of a task lie at least its separation apart.
ghost use Rattle.std.specs.Prelude.{◌≡◌, ◌≤◌, IsNone};
ghost use Rattle.kinds.specs.ArrivalKinds.{rounded_up, separated, separations_fault};
ghost use Rattle.kinds.proofs.ArrivalLaws.{separated_lawful};
ghost use Rattle.kinds.proofs.RowLaws.{none_found};
ghost use Rattle.rows.specs.Kept.{kept};
ghost use Rattle.rows.specs.Making.{MakesUnlessFault};

use crate::spacing::MOST_SPACING;
use model::arrivals::Arrivals;
use model::fault::{Fault, Part};
use rows::per_task::PerTask;
use rows::rule::Limits;

// A separation is at least one tick.
const LIMITS: Limits = Limits {
    low: 1,
    high: MOST_SPACING,
};

#[derive(Drop)]
pub struct Separations {
    rows: PerTask<u32>,
    // a separation of 0 would let jobs come without end
    ghost faultless: { IsNone (separations_fault (kept rows)) },
}

impl Separations {
    // One separation for each task. (Two lines, as in the orders: one generic type would need more to tell them apart.)
    pub fn new(separations: &[u32]) -> Result<Separations, Fault>
        ensures { MakesUnlessFault result (separations_fault separations.now) (λ s. kept s.rows ≡ separations.now) }
    {
        let rows = PerTask::checked(&LIMITS, Part::Arrivals, separations)?;
        Ok(Separations { rows })
    }
}

impl Arrivals for Separations {
    ghost meaning = { λ s. separated (kept s.rows) };

    ghost lawful = { λ s. separated_lawful (kept s.rows) (none_found (separations_fault (kept s.rows)) s.faultless) };

    fn tasks(&self) -> u8 {
        self.rows.tasks()
    }

    fn count(&self, task: u8, length: u32) -> u64 {
        self.rows
            .get(task)
            .map_or(0, |separation| rounded(length, separation))
    }
}

// How many separations fit into a length, the last of them in part.
fn rounded(length: u32, separation: u32) -> u64
    requires { 1 ≤ separation }
    ensures { result ≡ rounded_up length separation }
{
    u64::from(length.div_ceil(separation))
}
