// Shut sections, not preemptive: a job runs from its start to its end.
ghost use Rattle.std.specs.Prelude.{refl};
ghost use Rattle.kinds.specs.SectionKinds.{shut_shape, shut_sections, costs_fault};
ghost use Rattle.kinds.proofs.SectionLaws.{shut_shape_lawful};
ghost use Rattle.model.specs.Rows.{outside};
ghost use Rattle.model.specs.Sections.{most_cost};

use crate::costs::COSTS;
use crate::row_shape::RowShape;
use crate::shaped_sections::ShapedSections;
use model::fault::Refusal;
use model::sections::Progress;
use rows::rule::RowRule;

// A part that is made of one cost for each task. It means `shut_sections`, and `costs_fault` says when it is not made.
pub type ShutSections = ShapedSections<Shut>;

// Three of its answers are those of `Open`: a line each, and no shorter shared.
pub struct Shut;

impl RowShape for Shut {
    type Row = u32;

    ghost refuses = { outside 1 most_cost };

    ghost shape = { shut_shape };

    ghost part = { shut_sections };

    ghost fault = { costs_fault };

    ghost lawful = { shut_shape_lawful };

    ghost shapes = { λ rows. refl };

    ghost finds = { λ rows. refl };

    fn refused(cost: &u32) -> Option<Refusal> {
        COSTS.refused(cost)
    }

    fn cost(cost: &u32) -> u32 {
        *cost
    }

    // Nothing interrupts a job, so that all of it is one stretch, and its own end.
    fn longest(cost: &u32) -> u32 {
        *cost
    }

    fn tail(cost: &u32) -> u32 {
        *cost
    }

    fn may_hold(cost: &u32, progress: Progress) -> bool {
        progress.received < *cost && progress.since < *cost
    }

    fn may_open(_cost: &u32, _progress: Progress) -> bool {
        false
    }

    fn may_finish(cost: &u32, progress: Progress) -> bool {
        progress.received <= *cost
    }
}
