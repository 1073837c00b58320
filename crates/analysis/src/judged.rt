// A judged table: the draft as it was handed in, with its sheet or its first fault. Only judging makes one.
ghost use Rattle.std.specs.Prelude.{◌≡◌, vec_len, slice_index};
ghost use Rattle.analysis.specs.Judgement.{verdict_of, windows_of, bounds_of};

use crate::draft::Draft;
pub use crate::sheet::Sheet;
use model::fault::Fault;

#[derive(Drop)]
pub struct Judged<P> {
    pub(crate) draft: Draft<P>,
    pub(crate) sheet: Result<Sheet, Fault>,
}

impl<P> Judged<P> {
    pub fn tasks(&self) -> usize
        ensures { result ≡ vec_len self.now.draft.deadlines }
    {
        self.draft.deadlines.len()
    }

    // The first fault, or none on an accepted table.
    pub fn verdict(&self) -> Option<Fault>
        ensures { result ≡ verdict_of self.now }
    {
        self.sheet.as_ref().err().copied()
    }

    // The window of a task, or 0 for one that the sheet does not have.
    pub fn window(&self, task: u8) -> u32
        ensures { result ≡ slice_index (windows_of self.now) task }
    {
        self.sheet.as_ref().map_or(0, |sheet| sheet.window(task))
    }

    // The bound of a task, or 0 for one that the sheet does not have.
    pub fn bound(&self, task: u8) -> u32
        ensures { result ≡ slice_index (bounds_of self.now) task }
    {
        self.sheet.as_ref().map_or(0, |sheet| sheet.bound(task))
    }

    // The three parts, lent.
    pub fn parts(&self) -> &P
        ensures { result.now ≡ self.now.draft.parts }
    {
        &self.draft.parts
    }
}
