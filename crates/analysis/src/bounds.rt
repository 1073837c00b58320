// The window of a task, and its response-time bound.
ghost use Rattle.std.specs.Prelude.{◌≡◌, ◌<◌, ◌≤◌, IfSome, Some};
ghost use Rattle.model.specs.Analysis.{blocked, window, ready, response, bound};

use crate::blocking::{blocked, work};
use crate::demands::{Load, Need};
use model::parts::Parts;
use model::sections::Sections;
use search::least_length;

// The longest window, and the longest length that a search tries.
const LONGEST_WINDOW: u32 = 100_000;

// The busy window of a task, if it has one.
pub(crate) fn window<P: Parts>(parts: &P, task: u8) -> Option<u32>
    ensures { result ≡ window (P.meaning parts.now) task }
{
    let load = Load {
        parts,
        task,
        blocked: blocked(parts, task),
    };
    least_length(&load, LONGEST_WINDOW)
}

// The greatest response time over the offsets of the window, of which there are `offsets`.
pub(crate) fn bound<P: Parts>(parts: &P, task: u8, offsets: u32) -> u32
    requires { window (P.meaning parts.now) task ≡ Some offsets }
    ensures { result ≡ bound (P.meaning parts.now) task }
{
    let blocking = blocked(parts, task);
    // a loop, since the check does not follow what `max` finds over a range
    let mut most = 0u32;
    for offset in 0..offsets {
        most = most.max(response(parts, task, offset, blocking));
    }
    most
}

// The response time of a job released `offset` ticks into the window, or 0 where no job can stand.
fn response<P: Parts>(parts: &P, task: u8, offset: u32, blocking: u32) -> u32
    requires short { offset < 100000 }
    requires blocking { blocking ≡ blocked (P.meaning parts.now) task }
    ensures { result ≡ response (P.meaning parts.now) task offset }
{
    match ready(parts, task, offset, blocking) {
        Some(ready) if ready > offset => ready + parts.sections().tail(task) - 1 - offset,
        _ => 0,
    }
}

// The least length of the window by which that job has begun its tail.
fn ready<P: Parts>(parts: &P, task: u8, offset: u32, blocking: u32) -> Option<u32>
    requires short { offset < 100000 }
    requires blocking { blocking ≡ blocked (P.meaning parts.now) task }
    ensures value { result ≡ ready (P.meaning parts.now) task offset }
    ensures within { IfSome result (λ d. d ≤ 100000) }
{
    let before = u64::from(blocking) + work(parts, task, offset + 1);
    let own = before.saturating_sub(u64::from(parts.sections().tail(task))) + 1;
    let need = Need {
        parts,
        task,
        offset,
        own,
    };
    least_length(&need, LONGEST_WINDOW)
}
