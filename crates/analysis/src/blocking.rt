// What the releases of a task can cost, and for how long a task that goes behind can keep the processor.
ghost use Rattle.std.specs.Prelude.{◌≡◌, ◌*◌, ◌≤◌};
ghost use Rattle.model.specs.Analysis.{work, blocking, blocked};

use model::arrivals::Arrivals;
use model::order::Order;
use model::parts::Parts;
use model::sections::Sections;

// The ticks that the releases of a task in so many ticks can cost.
pub(crate) fn work<P: Parts>(parts: &P, task: u8, length: u32) -> u64
    ensures value { result ≡ work (P.meaning parts.now) task length }
    ensures bound { result ≤ 100000 * 34359738368 }
{
    u64::from(parts.sections().cost(task)) * parts.arrivals().count(task, length)
}

// The most ticks for which another task can keep the processor from a job of `task`.
pub(crate) fn blocked<P: Parts>(parts: &P, task: u8) -> u32
    ensures { result ≡ blocked (P.meaning parts.now) task }
{
    // a loop, since the check does not follow what `max` finds over a range
    let mut most = 0u32;
    for lower in 0..parts.arrivals().tasks() {
        most = most.max(blocking(parts, task, lower));
    }
    most
}

// The ticks for which a job of `lower`, started earlier, can keep the processor from a job of `task`.
fn blocking<P: Parts>(parts: &P, task: u8, lower: u8) -> u32
    ensures { result ≡ blocking (P.meaning parts.now) task lower }
{
    if lower != task && parts.order().blocks(task, lower) {
        parts.sections().longest(lower).saturating_sub(1)
    } else {
        0
    }
}
