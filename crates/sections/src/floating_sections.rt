// Floating sections: a stretch that nothing interrupts may begin anywhere, and is at most so long.
ghost use Rattle.std.specs.Prelude.{refl};
ghost use Rattle.kinds.specs.SectionKinds.{floating_shape, floating_sections, floating_refused, floating_fault};
ghost use Rattle.kinds.proofs.SectionLaws.{floating_shape_lawful};

use crate::costs::COSTS;
use crate::row_shape::RowShape;
use crate::shaped_sections::ShapedSections;
use kinds::FloatingTask;
use model::fault::Refusal;
use model::sections::Progress;
use rows::rule::{Limits, RowRule};

// A part that is made of a cost and a longest stretch for each task. It means `floating_sections`, and `floating_fault`
// says when it is not made.
pub type FloatingSections = ShapedSections<Floating>;

pub struct Floating;

impl RowShape for Floating {
    type Row = FloatingTask;

    ghost refuses = { floating_refused };

    ghost shape = { floating_shape };

    ghost part = { floating_sections };

    ghost fault = { floating_fault };

    ghost lawful = { floating_shape_lawful };

    ghost shapes = { λ rows. refl };

    ghost finds = { λ rows. refl };

    // The cost between its limits, and the longest stretch at most the cost.
    fn refused(task: &FloatingTask) -> Option<Refusal> {
        let stretches = Limits {
            low: 1,
            high: task.cost,
        };
        COSTS
            .refused(&task.cost)
            .or_else(|| stretches.refused(&task.longest))
    }

    fn cost(task: &FloatingTask) -> u32 {
        task.cost
    }

    fn longest(task: &FloatingTask) -> u32 {
        task.longest
    }

    fn tail(_task: &FloatingTask) -> u32 {
        1
    }

    fn may_hold(task: &FloatingTask, progress: Progress) -> bool {
        progress.since < task.longest && progress.received < task.cost
    }

    fn may_open(task: &FloatingTask, progress: Progress) -> bool {
        progress.since <= task.longest && progress.received < task.cost
    }

    fn may_finish(task: &FloatingTask, progress: Progress) -> bool {
        progress.since <= task.longest && progress.received <= task.cost
    }
}
