// Delay: a release can come up to the task's delay late, so that those of a longer time fall together.
ghost use Rattle.std.specs.Prelude.{◌≡◌};
ghost use Rattle.kinds.specs.ArrivalKinds.{delayed, delays_fault};
ghost use Rattle.kinds.proofs.ArrivalLaws.{delayed_lawful};
ghost use Rattle.rows.specs.Making.{MakesUnlessFault};

use crate::spacing::MOST_SPACING;
use model::arrivals::Arrivals;
use model::fault::{Fault, Part};
use rows::column::entry;
use rows::rule::{Limits, check};

// A release may also come in time.
const LIMITS: Limits = Limits {
    low: 0,
    high: MOST_SPACING,
};

// How late the releases of each task can come. There are always sixteen numbers, so no length stands beside them.
#[derive(Clone, Copy)]
pub struct Delays {
    ticks: [u32; 16],
}

impl Delays {
    // One delay for each of sixteen tasks, also for those that there are not.
    pub fn new(ticks: &[u32; 16]) -> Result<Delays, Fault>
        ensures { MakesUnlessFault result (delays_fault ticks.now) (λ s. s.ticks ≡ ticks.now) }
    {
        check(&LIMITS, Part::Arrivals, ticks)?;
        Ok(Delays { ticks: *ticks })
    }
}

// Arrivals whose releases can come late.
#[derive(Drop)]
pub struct Delay<L> {
    below: L,
    delays: Delays,
}

impl<L> Delay<L> {
    pub fn over(below: L, delays: Delays) -> Delay<L>
        ensures { (result.below ≡ below) × (result.delays ≡ delays) }
    {
        Delay { below, delays }
    }
}

impl<L: Arrivals> Arrivals for Delay<L> {
    ghost meaning = { λ s. delayed s.delays.ticks (L.Arrivals.meaning s.below) };

    ghost lawful = { λ s. delayed_lawful s.delays.ticks (L.Arrivals.meaning s.below) (L.Arrivals.lawful s.below) };

    fn tasks(&self) -> u8 {
        self.below.tasks()
    }

    fn count(&self, task: u8, length: u32) -> u64 {
        if length == 0 {
            return 0;
        }
        let delay = entry(&self.delays.ticks, task);
        self.below.count(task, length.saturating_add(delay))
    }
}
