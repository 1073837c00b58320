// What is refused about a row, and the first row at fault.
ghost use Rattle.std.specs.Prelude.{◌≡◌, ◌≤◌, length, Option};
ghost use Rattle.std.specs.Result.{result_err};
ghost use Rattle.model.specs.Rows.{outside, rows_fault, making_fault};
ghost use Rattle.model.specs.declared.fault.Refusal.{Refusal as Refused};

use model::fault::{Fault, NO_TASK, Part, Refusal};

// The most tasks of a table.
pub const MOST_TASKS: usize = 16;

// What a kind refuses about the row of one task. A function that takes a closure in its place would have to require that
// it may be called, and no public function has a `requires`.
pub trait RowRule<T> {
    ghost refuses: { Self → T → Option Refused };

    fn refused(&self, row: &T) -> Option<Refusal>
        ensures { result ≡ refuses self.now row.now };
}

// A field between two limits, both of them allowed.
#[derive(Clone, Copy)]
pub struct Limits {
    pub low: u32,
    pub high: u32,
}

impl RowRule<u32> for Limits {
    ghost refuses = { λ s x. outside s.low s.high x };

    fn refused(&self, row: &u32) -> Option<Refusal> {
        let outside = !(self.low..=self.high).contains(row);
        outside.then_some(Refusal::Range)
    }
}

// Whether a part can be made of the rows: their number first, then the first row at fault.
pub fn check<T, C: RowRule<T>>(rule: &C, part: Part, rows: &[T]) -> Result<(), Fault>
    ensures { result_err result ≡ making_fault (C.RowRule.refuses rule.now) part rows.now }
{
    if rows.is_empty() || rows.len() > MOST_TASKS {
        return Err(Fault::new(Refusal::Size, part, NO_TASK));
    }
    check_each(rule, part, rows)
}

// A loop, since no lemma says what `find_map` finds in a list.
fn check_each<T, C: RowRule<T>>(rule: &C, part: Part, rows: &[T]) -> Result<(), Fault>
    requires { length rows.now ≤ 16 }
    ensures { result_err result ≡ rows_fault (C.RowRule.refuses rule.now) part 0 rows.now }
{
    for (task, row) in rows.iter().enumerate() {
        if let Some(refusal) = rule.refused(row) {
            return Err(Fault::new(refusal, part, task as u8));
        }
    }
    Ok(())
}
