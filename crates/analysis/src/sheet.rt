// A sheet: the window and the bound of each task.
ghost use Rattle.std.specs.Prelude.{◌≡◌, slice_index};
ghost use Rattle.analysis.specs.Judgement.{windows_on, bounds_on};

use arrayvec::ArrayVec;
use rows::rule::MOST_TASKS;

#[derive(Clone, Copy, Default)]
pub struct Times {
    pub window: u32,
    pub bound: u32,
}

#[derive(Drop)]
pub struct Sheet {
    pub(crate) times: ArrayVec<Times, MOST_TASKS>,
}

impl Sheet {
    // The window of a task, or 0 for one that the sheet does not have.
    #[tactic(auto, using(crate::proofs::Columns::picked_at))]
    pub(crate) fn window(&self, task: u8) -> u32
        ensures { result ≡ slice_index (windows_on self.now) task }
    {
        self.times
            .get(usize::from(task))
            .map_or(0, |times| times.window)
    }

    // The bound of a task, or 0 for one that the sheet does not have.
    #[tactic(auto, using(crate::proofs::Columns::picked_at))]
    pub(crate) fn bound(&self, task: u8) -> u32
        ensures { result ≡ slice_index (bounds_on self.now) task }
    {
        self.times
            .get(usize::from(task))
            .map_or(0, |times| times.bound)
    }
}
