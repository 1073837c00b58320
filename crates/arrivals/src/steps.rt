// Steps: a row for each task says how the releases of a densest run fall, and after what time they repeat.
ghost use Rattle.std.specs.Prelude.{◌≡◌, ◌+◌, ◌*◌, ◌/◌, ◌≤◌, IsNone, length, drop, slice_index};
ghost use Rattle.std.specs.Result.{result_err};
ghost use Rattle.kinds.specs.ArrivalKinds.{at_most, steps_count, steps_row, stepped, steps_refused, steps_fault};
ghost use Rattle.kinds.specs.Numbers.{used};
ghost use Rattle.kinds.specs.ArrivalKinds.{entries_in_order};
ghost use Rattle.kinds.proofs.ArrivalLaws.{stepped_lawful};
ghost use Rattle.arrivals.specs.PlainSteps.{PlainSteps};
ghost use Rattle.rows.specs.Making.{MakesUnlessFault};

use crate::spacing::MOST_SPACING;
use kinds::numbers::used;
use model::arrivals::Arrivals;
use model::fault::{Fault, NO_TASK, Part, Refusal};
use rows::rule::{RowRule, check};

// The numbers of a row: a repeat length, and eight entries with 0 behind the last.
const ROW_WIDTH: usize = 9;

#[derive(Clone, Copy)]
pub struct Steps<'a> {
    numbers: &'a [u32],
    // no repeat length is 0, by which a count would divide
    ghost faultless: { IsNone (steps_fault numbers.now) },
}

impl<'a> Steps<'a> {
    // The rows of all tasks, one after the other.
    pub fn new(numbers: &'a [u32]) -> Result<Steps<'a>, Fault>
        ensures { MakesUnlessFault result (steps_fault numbers.now)
            (λ s. (s.numbers.now ≡ numbers.now)
            × ((stepped numbers.now).tasks ≡ length numbers.now / 9)
            × PlainSteps numbers.now) }
    {
        check_numbers(numbers)?;
        Ok(Steps { numbers })
    }
}

impl<'a> Arrivals for Steps<'a> {
    ghost meaning = { λ s. stepped s.numbers.now };

    ghost lawful = { λ s. stepped_lawful s.numbers.now };

    fn tasks(&self) -> u8 {
        (self.numbers.len() / ROW_WIDTH) as u8
    }

    fn count(&self, task: u8, length: u32) -> u64 {
        if task < self.tasks() && length >= 1 {
            releases(row_of(self.numbers, task), length)
        } else {
            0
        }
    }
}

// Whether a part can be made of the numbers: how many there are first, then the first row at fault.
fn check_numbers(numbers: &[u32]) -> Result<(), Fault>
    ensures { result_err result ≡ steps_fault numbers.now }
{
    let (rows, rest) = numbers.as_chunks::<ROW_WIDTH>();
    if rest.is_empty() {
        check(&StepsRow, Part::Arrivals, rows)
    } else {
        Err(Fault::new(Refusal::Size, Part::Arrivals, NO_TASK))
    }
}

// The repeat length between its limits, and entries in order.
struct StepsRow;

impl RowRule<[u32; ROW_WIDTH]> for StepsRow {
    ghost refuses = { λ s row. steps_refused row };

    fn refused(&self, row: &[u32; ROW_WIDTH]) -> Option<Refusal> {
        // by places, since a pattern of an array behind a reference gets no proof; and no chain, since what is asked of the
        // entries may be asked only behind the first test
        let repeat = row[0];
        if !(1..=MOST_SPACING).contains(&repeat) {
            Some(Refusal::Range)
        } else if in_order(repeat, &row[1..]) {
            None
        } else {
            Some(Refusal::Order)
        }
    }
}

// Whether the entries start at 1, never fall, are at most the repeat length, and have nothing but 0 behind the first 0.
fn in_order(repeat: u32, entries: &[u32]) -> bool
    requires { 1 ≤ repeat }
    ensures { result ≡ entries_in_order repeat entries.now }
{
    let ticks = used(entries);
    // of ticks that never fall the last is the greatest
    ticks.starts_with(&[1])
        && ticks.is_sorted()
        && ticks[ticks.len() - 1] <= repeat
        && entries[ticks.len()..].iter().all(|entry| *entry == 0)
}

fn row_of(numbers: &[u32], task: u8) -> &[u32; ROW_WIDTH]
    requires { 9 * task + 9 ≤ length numbers.now }
    ensures { result.now ≡ steps_row numbers.now task }
{
    let (rows, _) = numbers.as_chunks();
    &rows[usize::from(task)]
}

// The releases that a row lets come in a length.
fn releases(row: &[u32; ROW_WIDTH], ticks: u32) -> u64
    requires some { 1 ≤ ticks }
    requires repeats { 1 ≤ slice_index row.now 0 }
    ensures { result ≡ steps_count (slice_index row.now 0) (used (drop 1 row.now)) ticks }
{
    let repeat = row[0];
    let entries = used(&row[1..]);
    let whole = u64::from((ticks - 1) / repeat);
    let rest = (ticks - 1) % repeat + 1;
    entries.len() as u64 * whole + in_time(rest, entries) as u64
}

// How many of the entries are at most so large.
fn in_time(most: u32, entries: &[u32]) -> usize
    ensures { result ≡ at_most most entries.now }
{
    entries.iter().map(|tick| usize::from(*tick <= most)).sum()
}
