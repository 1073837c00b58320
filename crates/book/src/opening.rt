// Opening a book, with the promise about all its days.
ghost use Rattle.std.specs.Prelude.{◌≡◌, []};
ghost use Rattle.days.specs.Promise.{NoDayWorse, NoDayWorseThanHeavier};
ghost use Rattle.days.specs.Rules.{new_state};
ghost use Rattle.analysis.specs.Drafted.{drafted};
ghost use Rattle.analysis.specs.Judgement.{verdict_of};
ghost use Rattle.book.specs.Books.{state_of, LedTo};

use crate::books::Book;
use analysis::judged::Judged;
use model::parts::Parts;
use timeline::state::Timeline;
use timeline::storage::JobStorage;

impl<P: Parts> Book<P> {
    // A new book on the table, whatever its verdict. `promise` is about every list of calls that can be made on it: if
    // the table is accepted, each finished job took at most its task's bound, and each unfinished one has waited less.
    pub fn open(table: Judged<P>, storage: JobStorage) -> Book<P>
        ensures table { result.table ≡ table }
        ensures state { state_of result ≡ new_state }
        ensures day { LedTo P.meaning [] result }
        ensures promise { NoDayWorse (drafted P.meaning table.draft) (verdict_of table) }
        ensures lighter { NoDayWorseThanHeavier (drafted P.meaning table.draft) (verdict_of table) }
    {
        Book {
            table,
            timeline: Timeline::new(storage),
        }
    }
}
