// A day book, and what is left of it when it is closed.
pub use crate::totals::Totals;
use analysis::judged::Judged;
use timeline::state::Timeline;

// A table in a book is out of reach until the book is closed.
#[derive(Drop)]
pub struct Book<P> {
    pub(crate) table: Judged<P>,
    pub(crate) timeline: Timeline,
}

#[derive(Drop)]
pub struct Closed<P> {
    pub table: Judged<P>,
    pub totals: Totals,
}
