// The totals of a day, task by task.
ghost use Rattle.std.specs.Prelude.{◌≡◌, slice_index};
ghost use Rattle.book.specs.Columns.{finished_in, longest_in};

use arrayvec::ArrayVec;
use rows::rule::MOST_TASKS;

// The jobs of a task that were finished, and the longest time that one took, 0 if none.
#[derive(Clone, Copy, Default)]
pub(crate) struct TaskTotals {
    pub(crate) finished: u32,
    pub(crate) longest: u32,
}

// The totals of tasks 0 to 15.
#[derive(Drop)]
pub struct Totals {
    pub(crate) tasks: ArrayVec<TaskTotals, MOST_TASKS>,
}

impl Totals {
    // How many jobs of the task were finished.
    #[tactic(auto, using(analysis::proofs::Columns::picked_at))]
    pub fn finished(&self, task: u8) -> u32
        ensures { result ≡ slice_index (finished_in self.now) task }
    {
        self.tasks
            .get(usize::from(task))
            .map_or(0, |totals| totals.finished)
    }

    // The longest time that a job of the task took.
    #[tactic(auto, using(analysis::proofs::Columns::picked_at))]
    pub fn longest(&self, task: u8) -> u32
        ensures { result ≡ slice_index (longest_in self.now) task }
    {
        self.tasks
            .get(usize::from(task))
            .map_or(0, |totals| totals.longest)
    }
}
