// Serving a job for one tick.
ghost use Rattle.std.specs.Prelude.{◌≡◌, ◌≤◌};
ghost use Rattle.days.specs.Rules.{last_tick};
ghost use Rattle.days.specs.declared.command.Command.TheVariants.{Serve};
ghost use Rattle.timeline.specs.Obeyed.{ObeyedBy, obstacle};
ghost use Rattle.timeline.specs.Past.{latest};

use crate::permission::{is_allowed, rival};
use crate::state::{LAST_TICK, Timeline};
use crate::tick::serve;
use days::command::Mark;
use days::job::Job;
use jobs::questions::first_pending;
use model::arrivals::Arrivals;
use model::fault::{Fault, NO_TASK, Part, Refusal};
use model::parts::Parts;

impl Timeline {
    pub(crate) fn serve<P: Parts>(&mut self, parts: &P, mark: Mark, task: u8) -> Result<(), Fault>
        ensures { ObeyedBy (P.meaning parts.now) (Serve mark task) self.entry.now self.exit.now result }
    {
        if task >= parts.arrivals().tasks() {
            return Err(Fault::new(Refusal::Unread, Part::Book, NO_TASK));
        }
        if self.now >= LAST_TICK {
            return Err(Fault::new(Refusal::Full, Part::Book, task));
        }
        let Some(place) = first_pending(self.jobs.as_slice(), task) else {
            return Err(Fault::new(Refusal::Absent, Part::Book, task));
        };
        if let Some(reason) = self.obstacle(parts, mark, &self.jobs[place]) {
            return Err(Fault::new(reason, Part::Book, task));
        }
        self.now += 1;
        let job = &mut self.jobs[place];
        serve(job, mark, self.now);
        Ok(())
    }

    // Why the job may not be served for one tick with the mark.
    fn obstacle<P: Parts>(&self, parts: &P, mark: Mark, job: &Job) -> Option<Refusal>
        requires { latest job.now ≤ last_tick }
        ensures { result ≡ obstacle (P.meaning parts.now) self.entry.now.jobs.items mark job.now }
    {
        rival(parts, self.jobs.as_slice(), job).or_else(|| {
            let forbidden = !is_allowed(parts, mark, job);
            forbidden.then_some(Refusal::Section)
        })
    }
}
