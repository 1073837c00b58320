// The segments of a job that opens at fixed points, one after the other.
ghost use Rattle.std.specs.Prelude.{◌≡◌, suc, ◌<◌, ◌≤◌, length, take, sum};
ghost use Rattle.kinds.specs.Numbers.{used};
ghost use Rattle.kinds.specs.SectionKinds.{largest, final, points_shape};

use kinds::numbers::used;
use model::sections::Progress;

#[derive(Clone, Copy)]
pub(crate) struct Segments<'r> {
    ticks: &'r [u32],
    ghost few: { length ticks.now ≤ 8 },
}

impl<'r> Segments<'r> {
    // Those of a row, which has 0 behind the last.
    pub(crate) fn of(row: &'r [u32; 8]) -> Segments<'r>
        ensures { result.ticks.now ≡ used row.now }
    {
        Segments { ticks: used(row) }
    }

    pub(crate) fn total(self) -> u64
        ensures { result ≡ sum self.entry.ticks.now }
    {
        self.ticks.iter().map(|ticks| u64::from(*ticks)).sum()
    }

    // The ticks from the start of a job to the end of a segment.
    fn up_to(self, place: usize) -> u64
        requires { place < length self.ticks.now }
        ensures { result ≡ sum (take (suc place) self.entry.ticks.now) }
    {
        let first = Segments {
            ticks: &self.ticks[..=place],
        };
        first.total()
    }

    pub(crate) fn longest(self) -> u32
        ensures { result ≡ largest self.entry.ticks.now }
    {
        self.ticks.iter().copied().max().unwrap_or(0)
    }

    pub(crate) fn last(self) -> u32
        ensures { result ≡ final 0 self.entry.ticks.now }
    {
        self.ticks.last().copied().unwrap_or(0)
    }

    // Whether a tick of a segment leaves some of it.
    pub(crate) fn may_hold(self, progress: Progress) -> bool
        ensures { result ≡ (points_shape self.entry.ticks.now).hold progress.received progress.since progress.openings }
    {
        let place = progress.openings as usize;
        place < self.ticks.len()
            && progress.since < self.ticks[place]
            && u64::from(progress.received) < self.up_to(place)
    }

    // Whether a tick may be the last of a segment that has another behind it.
    pub(crate) fn may_open(self, progress: Progress) -> bool
        ensures { result ≡ (points_shape self.entry.ticks.now).opens progress.received progress.since progress.openings }
    {
        let place = progress.openings as usize;
        place + 1 < self.ticks.len()
            && progress.since <= self.ticks[place]
            && u64::from(progress.received) <= self.up_to(place)
    }

    // Whether a tick may be the last of the last segment.
    pub(crate) fn may_finish(self, progress: Progress) -> bool
        ensures { result ≡ (points_shape self.entry.ticks.now).done progress.received progress.since progress.openings }
    {
        progress.openings as usize + 1 == self.ticks.len()
            && progress.since <= self.last()
            && u64::from(progress.received) <= self.total()
    }
}
