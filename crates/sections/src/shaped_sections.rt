// Sections that are given by a row for each task.
ghost use Rattle.std.specs.Prelude.{◌≡◌, IsNone};
ghost use Rattle.kinds.proofs.SectionLaws.{part_lawful};
ghost use Rattle.rows.specs.Kept.{kept};
ghost use Rattle.rows.specs.Making.{MakesUnlessFault};

use crate::row_shape::RowShape;
use model::fault::{Fault, Part, Refusal};
use model::sections::{Progress, Sections};
use rows::per_task::PerTask;
use rows::rule::RowRule;
use std::marker::PhantomData;

#[derive(Drop)]
pub struct ShapedSections<K: RowShape> {
    rows: PerTask<K::Row>,
    // the laws hold of no other rows: a cost of 0 would leave no tick for the tail
    ghost faultless: { IsNone (K.fault (kept rows)) },
}

// What a kind refuses about a row.
struct KindRule<K>(PhantomData<K>);

impl<K: RowShape> RowRule<K::Row> for KindRule<K> {
    ghost refuses = { λ s row. K.refuses row };

    fn refused(&self, row: &K::Row) -> Option<Refusal> {
        K::refused(row)
    }
}

impl<K: RowShape> ShapedSections<K> {
    // One row for each task.
    pub fn new(rows: &[K::Row]) -> Result<Self, Fault>
        ensures { MakesUnlessFault result (K.fault rows.now) (λ s. kept s.rows ≡ rows.now) }
    {
        let rows = PerTask::checked(&KindRule::<K>(PhantomData), Part::Sections, rows)?;
        Ok(ShapedSections { rows })
    }
}

impl<K: RowShape> Sections for ShapedSections<K> {
    ghost meaning = { λ s. K.part (kept s.rows) };

    ghost lawful = { λ s. part_lawful K.part K.fault K.lawful K.shapes K.finds (kept s.rows) s.faultless };

    fn tasks(&self) -> u8 {
        self.rows.tasks()
    }

    fn cost(&self, task: u8) -> u32 {
        self.rows.get(task).map_or(0, |row| K::cost(&row))
    }

    fn longest(&self, task: u8) -> u32 {
        self.rows.get(task).map_or(0, |row| K::longest(&row))
    }

    fn tail(&self, task: u8) -> u32 {
        self.rows.get(task).map_or(0, |row| K::tail(&row))
    }

    fn may_hold(&self, task: u8, progress: Progress) -> bool {
        self.rows
            .get(task)
            .is_some_and(|row| K::may_hold(&row, progress))
    }

    fn may_open(&self, task: u8, progress: Progress) -> bool {
        self.rows
            .get(task)
            .is_some_and(|row| K::may_open(&row, progress))
    }

    fn may_finish(&self, task: u8, progress: Progress) -> bool {
        self.rows
            .get(task)
            .is_some_and(|row| K::may_finish(&row, progress))
    }
}
