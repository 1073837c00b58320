// Closing a book: the table comes back, with the totals of the day.
ghost use Rattle.std.specs.Prelude.{◌≡◌};
ghost use Rattle.days.specs.Views.{viewed};
ghost use Rattle.analysis.specs.Drafted.{drafted};
ghost use Rattle.analysis.specs.Judgement.{verdict_of};
ghost use Rattle.timeline.specs.Timelines.{held_by};
ghost use Rattle.book.specs.Books.{parts_of, state_of};
ghost use Rattle.book.specs.Totalled.{Totalled, OfEveryDay, WithinBounds};

use crate::books::{Book, Closed};
use crate::totals::{TaskTotals, Totals};
use arrayvec::ArrayVec;
use model::parts::Parts;
use rows::rule::MOST_TASKS;
use timeline::state::Timeline;

impl<P: Parts> Book<P> {
    // The table as it was, and the totals. They are those read off whatever day the book has lived, and on an accepted
    // table no longest time is above the bound.
    pub fn close(self) -> Closed<P>
        ensures table { result.table ≡ self.table }
        ensures totals { Totalled (viewed (state_of self)) result.totals }
        ensures day { OfEveryDay (verdict_of self.table) (P.meaning (parts_of self)) (state_of self) result.totals }
        ensures promise { WithinBounds (drafted P.meaning self.table.draft) (verdict_of self.table) (state_of self) result.totals }
    {
        let Book { table, timeline } = self;
        let totals = totals(&timeline);
        Closed { table, totals }
    }
}

fn totals(timeline: &Timeline) -> Totals
    ensures { Totalled (viewed (held_by timeline.entry.now)) result }
{
    let mut tasks = ArrayVec::new();
    for task in 0..MOST_TASKS as u8 {
        tasks.push(TaskTotals {
            finished: timeline.finished(task),
            longest: timeline.longest(task),
        });
    }
    Totals { tasks }
}
