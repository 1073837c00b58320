// A fleet's own arrivals, of no listed kind: each task can release a burst of jobs at once, and then one job after each
// gap. Whatever proves the laws is a part like any other.
ghost use Rattle.std.specs.Prelude.{◌≡◌, ◌≤◌};
ghost use Rattle.cases.specs.Bursts.{bursts, bursts_lawful};

use model::arrivals::Arrivals;

#[derive(Drop)]
pub struct Bursts {
    tasks: u8,
    extra: u8,
    gap: u32,
    ghost small: { extra ≤ 255 },
}

impl Bursts {
    // `extra` jobs beside the first, and `gap` free ticks between later ones.
    pub fn new(tasks: u8, extra: u8, gap: u32) -> Bursts
        ensures { bursts result.tasks result.extra result.gap ≡ bursts tasks extra gap }
    {
        Bursts { tasks, extra, gap }
    }
}

impl Arrivals for Bursts {
    ghost meaning = { λ s. bursts s.tasks s.extra s.gap };

    ghost lawful = { λ s. bursts_lawful s.tasks s.extra s.gap s.small };

    fn tasks(&self) -> u8 {
        self.tasks
    }

    fn count(&self, task: u8, length: u32) -> u64 {
        if task < self.tasks && length >= 1 {
            1 + u64::from(self.extra) + u64::from(length - 1) / (u64::from(self.gap) + 1)
        } else {
            0
        }
    }
}
