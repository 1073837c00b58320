// Open sections, fully preemptive: every tick may be the last of a stretch.
ghost use Rattle.std.specs.Prelude.{refl};
ghost use Rattle.kinds.specs.SectionKinds.{open_shape, open_sections, costs_fault};
ghost use Rattle.kinds.proofs.SectionLaws.{open_shape_lawful};
ghost use Rattle.model.specs.Rows.{outside};
ghost use Rattle.model.specs.Sections.{most_cost};

use crate::costs::COSTS;
use crate::row_shape::RowShape;
use crate::shaped_sections::ShapedSections;
use model::fault::Refusal;
use model::sections::Progress;
use rows::rule::RowRule;

// A part that is made of one cost for each task. It means `open_sections`, and `costs_fault` says when it is not made.
pub type OpenSections = ShapedSections<Open>;

pub struct Open;

impl RowShape for Open {
    type Row = u32;

    ghost refuses = { outside 1 most_cost };

    ghost shape = { open_shape };

    ghost part = { open_sections };

    ghost fault = { costs_fault };

    ghost lawful = { open_shape_lawful };

    ghost shapes = { λ rows. refl };

    ghost finds = { λ rows. refl };

    fn refused(cost: &u32) -> Option<Refusal> {
        COSTS.refused(cost)
    }

    fn cost(cost: &u32) -> u32 {
        *cost
    }

    fn longest(_cost: &u32) -> u32 {
        1
    }

    fn tail(_cost: &u32) -> u32 {
        1
    }

    fn may_hold(_cost: &u32, _progress: Progress) -> bool {
        false
    }

    fn may_open(cost: &u32, progress: Progress) -> bool {
        progress.received < *cost
    }

    fn may_finish(cost: &u32, progress: Progress) -> bool {
        progress.received <= *cost
    }
}
