// Judging a draft.
ghost use Rattle.std.specs.Prelude.{◌≡◌, ◌↔◌, Some, None, MatchResult};
ghost use Rattle.std.specs.Result.{result_err};
ghost use Rattle.model.specs.Choice.{◌or_else◌};
ghost use Rattle.model.specs.Lighter.{NoWorseThanHeavier};
ghost use Rattle.model.specs.Sealed.{SealedSheet};
ghost use Rattle.model.specs.Tables.{size_fault, deadlines_fault, verdict, Accepts, JudgedSo};
ghost use Rattle.analysis.specs.Drafted.{drafted};
ghost use Rattle.analysis.specs.Judgement.{windows_on, bounds_on, verdict_of, windows_of, bounds_of};

use crate::draft::Draft;
use crate::judged::Judged;
use crate::sheet::Sheet;
use crate::sheets;
use model::arrivals::Arrivals;
use model::fault::{Fault, NO_TASK, Part, Refusal};
use model::order::Order;
use model::parts::Parts;
use model::sections::Sections;
use rows::rule::{Limits, check};

const DEADLINES: Limits = Limits {
    low: 1,
    high: 100_000,
};

impl<P: Parts> Draft<P> {
    // The table with its windows and bounds or, where it is refused, with the first fault.
    pub fn judge(self) -> Judged<P>
        ensures same { result.draft ≡ self }
        ensures sheet { JudgedSo (drafted P.meaning self) (verdict_of result) (windows_of result) (bounds_of result) }
        ensures accepted { (verdict_of result ≡ None) ↔ Accepts (drafted P.meaning self) }
        ensures sealed { SealedSheet (drafted P.meaning self) (verdict_of result) (windows_of result) (bounds_of result) }
        ensures lighter { NoWorseThanHeavier (drafted P.meaning self) (verdict_of result) (bounds_of result) }
    {
        let sheet = self.sheet();
        Judged { draft: self, sheet }
    }

    // The sheet of an accepted table, or the verdict on another.
    fn sheet(&self) -> Result<Sheet, Fault>
        ensures { MatchResult result
            (λ s. JudgedSo (drafted P.meaning self.now) None (windows_on s) (bounds_on s))
            (λ f. verdict (drafted P.meaning self.now) ≡ Some f) }
    {
        self.check()?;
        sheets::sheet(&self.parts, self.deadlines.as_slice())
    }

    // Whether the size and the deadlines are without fault.
    fn check(&self) -> Result<(), Fault>
        ensures { result_err result ≡ (size_fault (drafted P.meaning self.now) or_else deadlines_fault (drafted P.meaning self.now)) }
    {
        let tasks = self.deadlines.len();
        if usize::from(self.parts.arrivals().tasks()) != tasks
            || usize::from(self.parts.order().tasks()) != tasks
            || usize::from(self.parts.sections().tasks()) != tasks
        {
            return Err(Fault::new(Refusal::Size, Part::Table, NO_TASK));
        }
        // no deadlines, or more than sixteen, are a fault of size here
        check(&DEADLINES, Part::Table, self.deadlines.as_slice())
    }
}
