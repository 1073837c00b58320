// Point sections, preemption at fixed points: a job is the given segments one after the other, and opens between them.
ghost use Rattle.std.specs.Prelude.{◌≡◌, sum, refl};
ghost use Rattle.kinds.specs.Numbers.{used};
ghost use Rattle.kinds.specs.SectionKinds.{points_shape, points_sections, points_refused, points_fault, segments_refused, number_behind};
ghost use Rattle.kinds.proofs.SectionLaws.{points_shape_lawful};
ghost use Rattle.model.specs.Rows.{outside};
ghost use Rattle.model.specs.Sections.{most_cost};

use crate::costs::{COSTS, MOST_COST};
use crate::row_shape::RowShape;
use crate::segments::Segments;
use crate::shaped_sections::ShapedSections;
use kinds::numbers::used;
use model::fault::Refusal;
use model::sections::Progress;
use rows::rule::RowRule;

// A part that is made of up to eight segments for each task, with 0 behind the last. It means `points_sections`, and
// `points_fault` says when it is not made.
pub type PointSections = ShapedSections<Points>;

pub struct Points;

impl RowShape for Points {
    type Row = [u32; 8];

    ghost refuses = { points_refused };

    ghost shape = { λ row. points_shape (used row) };

    ghost part = { points_sections };

    ghost fault = { points_fault };

    ghost lawful = { points_shape_lawful };

    ghost shapes = { λ rows. refl };

    ghost finds = { λ rows. refl };

    // Segments with 0 behind the last, each between its limits, and their sum too.
    fn refused(row: &[u32; 8]) -> Option<Refusal> {
        COSTS
            .refused(&row[0])
            .or_else(|| refused_segment(row))
            .or_else(|| refused_total(Segments::of(row)))
    }

    fn cost(row: &[u32; 8]) -> u32 {
        // no row that is kept costs more than 100,000
        u32::try_from(Segments::of(row).total()).unwrap_or(MOST_COST)
    }

    fn longest(row: &[u32; 8]) -> u32 {
        Segments::of(row).longest()
    }

    fn tail(row: &[u32; 8]) -> u32 {
        Segments::of(row).last()
    }

    fn may_hold(row: &[u32; 8], progress: Progress) -> bool {
        Segments::of(row).may_hold(progress)
    }

    fn may_open(row: &[u32; 8], progress: Progress) -> bool {
        Segments::of(row).may_open(progress)
    }

    fn may_finish(row: &[u32; 8], progress: Progress) -> bool {
        Segments::of(row).may_finish(progress)
    }
}

// A segment that is no cost, or a number behind the first 0.
fn refused_segment(row: &[u32]) -> Option<Refusal>
    ensures { result ≡ segments_refused row.now }
{
    let segments = used(row);
    if segments.iter().any(|segment| *segment > MOST_COST) {
        return Some(Refusal::Range);
    }
    refused_behind(&row[segments.len()..])
}

// Behind the first 0 no number stands.
fn refused_behind(numbers: &[u32]) -> Option<Refusal>
    ensures { result ≡ number_behind numbers.now }
{
    numbers.iter().find(|number| **number != 0).map(|number| {
        if *number > MOST_COST {
            Refusal::Range
        } else {
            Refusal::Order
        }
    })
}

// The segments together are a cost. (Not by `COSTS`, whose numbers have 32 bits: the sum may have more.)
fn refused_total(segments: Segments) -> Option<Refusal>
    ensures { result ≡ outside 1 most_cost (sum segments.entry.ticks.now) }
{
    let allowed = (1..=u64::from(MOST_COST)).contains(&segments.total());
    (!allowed).then_some(Refusal::Range)
}
