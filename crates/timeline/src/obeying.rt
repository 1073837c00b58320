// What the commands do to the time and the jobs.
ghost use Rattle.std.specs.Prelude.{◌≡◌};
ghost use Rattle.model.specs.Analysis.{Parts as Meanings};
ghost use Rattle.days.specs.Rules.{new_state};
ghost use Rattle.days.specs.declared.command.Command.TheVariants.{Idle};
ghost use Rattle.timeline.specs.Obeyed.{ObeyedBy};
ghost use Rattle.timeline.specs.Timelines.{held_by};

use crate::state::{LAST_TICK, Timeline};
use crate::storage::JobStorage;
use days::command::Command;
use jobs::questions::{any_held, any_unfinished};
use model::fault::{Fault, NO_TASK, Part, Refusal};
use model::parts::Parts;

impl Timeline {
    // A day that has not begun.
    pub fn new(storage: JobStorage) -> Timeline
        ensures { held_by result ≡ new_state }
    {
        let jobs = storage.jobs;
        Timeline { now: 0, jobs }
    }

    // Obeys a command by the rules, or refuses it by the first rule that it breaks and leaves everything as it was.
    pub fn obey<P: Parts>(&mut self, parts: &P, command: Command) -> Result<(), Fault>
        ensures { ObeyedBy (P.meaning parts.now) command self.entry.now self.exit.now result }
    {
        match command {
            Command::Release(task) => self.release(parts, task),
            Command::Serve(mark, task) => self.serve(parts, mark, task),
            Command::Idle(ticks) => self.idle(ticks),
        }
    }

    // Idling asks nothing of the parts.
    fn idle(&mut self, ticks: u16) -> Result<(), Fault>
        ensures { (m : Meanings) → ObeyedBy m (Idle ticks) self.entry.now self.exit.now result }
    {
        if ticks == 0 {
            return Err(Fault::new(Refusal::Unread, Part::Book, NO_TASK));
        }
        let end = self.now + u32::from(ticks);
        if end > LAST_TICK {
            return Err(Fault::new(Refusal::Full, Part::Book, NO_TASK));
        }
        let jobs = self.jobs.as_slice();
        if any_held(jobs) {
            return Err(Fault::new(Refusal::Held, Part::Book, NO_TASK));
        }
        if any_unfinished(jobs) {
            return Err(Fault::new(Refusal::Behind, Part::Book, NO_TASK));
        }
        self.now = end;
        Ok(())
    }
}
