// Deadlines and three parts, to be judged.
ghost use Rattle.std.specs.Prelude.{◌≡◌};

use model::parts::Trio;

#[derive(Drop)]
pub struct Draft<P> {
    pub(crate) deadlines: Vec<u32>,
    pub(crate) parts: P,
}

impl<R, O, S> Draft<Trio<R, O, S>> {
    // The three parts come one by one only here. Nothing is refused: judging looks for every fault.
    pub fn new(deadlines: Vec<u32>, arrivals: R, order: O, sections: S) -> Draft<Trio<R, O, S>>
        ensures deadlines { result.deadlines ≡ deadlines }
        ensures arrivals { result.parts.arrivals ≡ arrivals }
        ensures order { result.parts.order ≡ order }
        ensures sections { result.parts.sections ≡ sections }
    {
        Draft {
            deadlines,
            parts: Trio {
                arrivals,
                order,
                sections,
            },
        }
    }
}
