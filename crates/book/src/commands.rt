// What a book answers: to a command, and to the questions about the time and about a job.
ghost use Rattle.std.specs.Prelude.{◌≡◌, List, Some, None, sum_by};
ghost use Rattle.std.specs.Result.{result_err};
ghost use Rattle.days.specs.Days.{Event, event_ticks};
ghost use Rattle.book.specs.Books.{state_of, answer_of, LedTo, CalledOn};
ghost use Rattle.book.specs.JobViews.{nth_job};

use crate::books::Book;
use crate::views::JobView;
use days::command::Command;
use model::fault::{Fault, NO_TASK, Part, Refusal};
use model::parts::Parts;

impl<P: Parts> Book<P> {
    // Obeys a command, or refuses it and stays as it was. Whatever day led to the book before, that day and this call
    // lead to the book after.
    pub fn obey(&mut self, command: Command) -> Result<(), Fault>
        ensures table { self.new.table ≡ self.old.table }
        ensures followed { CalledOn P.meaning self.old (Some command) (result_err result) self.new }
    {
        match self.table.verdict() {
            Some(_) => Err(Fault::new(Refusal::Unfit, Part::Book, NO_TASK)),
            None => self.timeline.obey(self.table.parts(), command),
        }
    }

    // Whatever day led to the book, now is the sum of the ticks of the commands taken.
    pub fn now(&self) -> u32
        ensures value { result ≡ (state_of self.now).now }
        ensures day { (day : List Event) → LedTo P.meaning day self.now → result ≡ sum_by event_ticks day }
    {
        self.timeline.now()
    }

    // What is answered to bytes that are no command.
    pub fn unread(&self) -> Fault
        ensures { Some result ≡ answer_of P.meaning self.now None }
    {
        match self.table.verdict() {
            Some(_) => Fault::new(Refusal::Unfit, Part::Book, NO_TASK),
            None => Fault::new(Refusal::Unread, Part::Book, NO_TASK),
        }
    }
}

impl<P> Book<P> {
    // Job `n`, counted from 0 in order of release.
    pub fn job(&self, n: usize) -> Option<JobView>
        ensures { result ≡ nth_job (state_of self.now).jobs n }
    {
        self.timeline.jobs().get(n).map(JobView::from)
    }
}
