// The sheet of a table: the window and the bound of each task, as long as every task keeps its deadline.
ghost use Rattle.std.specs.Prelude.{◌≡◌, ◌≤◌, length, Some, MatchResult};
ghost use Rattle.model.specs.Tables.{missed};
ghost use Rattle.analysis.specs.Judgement.{windows_on, bounds_on};
ghost use Rattle.analysis.specs.Sheets.{Timely, KeptSo, first_missed};

use crate::bounds;
use crate::sheet::{Sheet, Times};
use arrayvec::ArrayVec;
use model::fault::{Fault, Part, Refusal};
use model::parts::Parts;

// The sheet, or the first task that misses its deadline.
pub(crate) fn sheet<P: Parts>(parts: &P, deadlines: &[u32]) -> Result<Sheet, Fault>
    requires { length deadlines.now ≤ 16 }
    ensures { MatchResult result
        (λ s. KeptSo (P.meaning parts.now) deadlines.now (length deadlines.now) (windows_on s) (bounds_on s))
        (λ f. first_missed (P.meaning parts.now) deadlines.now (length deadlines.now) ≡ Some f) }
{
    let mut times = ArrayVec::new();
    for (task, deadline) in deadlines.iter().enumerate() {
        times.push(times_in(parts, task as u8, *deadline)?);
    }
    Ok(Sheet { times })
}

// The window and the bound of a task that keeps its deadline.
fn times_in<P: Parts>(parts: &P, task: u8, deadline: u32) -> Result<Times, Fault>
    ensures { MatchResult result
        (λ t. Timely (P.meaning parts.now) task deadline t.window t.bound)
        (λ f. missed (P.meaning parts.now) task deadline ≡ Some f) }
{
    let Some(window) = bounds::window(parts, task) else {
        return Err(Fault::new(Refusal::Overload, Part::Table, task));
    };
    let bound = bounds::bound(parts, task, window);
    if bound > deadline {
        return Err(Fault::new(Refusal::Late, Part::Table, task));
    }
    Ok(Times { window, bound })
}
