// Which job goes first.
ghost use Rattle.std.specs.Prelude.{◌≡◌};
ghost use Rattle.model.specs.Order.{OrderMeaning, LawfulOrder};

use crate::released::{Reach, Released};

pub trait Order {
    ghost meaning: { Self → OrderMeaning };

    // What each `impl` must prove.
    ghost lawful: { (x : Self) → LawfulOrder (meaning x) };

    fn tasks(&self) -> u8
        ensures { result ≡ (meaning self.now).tasks };

    // Whether `job` is ahead of or level with `other`.
    fn ahead(&self, job: Released, other: Released) -> bool
        ensures { result ≡ (meaning self.now).ahead job other };

    // Before how many ticks of a window a job of `other` has to come, to be ahead of or level with a job of `task`
    // that is released `offset` ticks into it.
    fn reach(&self, task: u8, other: u8, offset: u32) -> Reach
        ensures { result ≡ (meaning self.now).reach task other offset };

    // Whether jobs of `other` can delay a job of `task` by being ahead of or level with it.
    fn counted(&self, task: u8, other: u8) -> bool
        ensures { result ≡ (meaning self.now).counted task other };

    // Whether a job of `lower` that came earlier can hold up a job of `task` without being ahead of it.
    fn blocks(&self, task: u8, lower: u8) -> bool
        ensures { result ≡ (meaning self.now).blocks task lower };
}
