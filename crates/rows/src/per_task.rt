// One row for each of up to sixteen tasks, kept in place.
ghost use Rattle.std.specs.Prelude.{◌≡◌, ◌≤◌, length};
ghost use Rattle.std.specs.List.{slice_get};
ghost use Rattle.std.specs.Option.{option_zip};
ghost use Rattle.model.specs.Rows.{making_fault};

use crate::rule::{MOST_TASKS, RowRule, check};
use model::fault::{Fault, Part};

// An array beside its length: the kit's `ArrayVec` would need a default row, and so ask more of a kind.
#[derive(Drop)]
pub struct PerTask<T> {
    rows: [T; MOST_TASKS],
    // a byte, as a task is: so the compiler sees that parts with as many tasks have rows for the same ones
    tasks: u8,
    ghost few: { tasks ≤ 16 },
    ghost full: { length rows ≡ 16 },
}

impl<T: Copy> PerTask<T> {
    ghost use Rattle.rows.specs.Kept.{kept};
    ghost use Rattle.rows.specs.Making.{MakesUnlessFault};

    // The rows, if none is at fault.
    pub fn checked<C: RowRule<T>>(rule: &C, part: Part, rows: &[T]) -> Result<PerTask<T>, Fault>
        ensures { MakesUnlessFault result (making_fault (C.RowRule.refuses rule.now) part rows.now) (λ s. kept s ≡ rows.now) }
    {
        check(rule, part, rows)?;
        let tasks = rows.len();
        let mut kept = [rows[0]; MOST_TASKS];
        kept[..tasks].copy_from_slice(rows);
        Ok(PerTask {
            rows: kept,
            tasks: tasks as u8,
        })
    }

    pub fn tasks(&self) -> u8
        ensures { result ≡ length (kept self.now) }
    {
        self.tasks
    }

    // The row of a task, if it has one.
    pub fn get(&self, task: u8) -> Option<T>
        ensures { result ≡ slice_get (kept self.now) task }
    {
        self.rows[..usize::from(self.tasks)]
            .get(usize::from(task))
            .copied()
    }

    // The rows of two tasks, if both have one.
    pub fn both(&self, task: u8, other: u8) -> Option<(T, T)>
        ensures { result ≡ option_zip (slice_get (kept self.now) task) (slice_get (kept self.now) other) }
    {
        let row = self.get(task)?;
        Some((row, self.get(other)?))
    }
}
