// Why the command at a place of a record was refused.
ghost use Rattle.std.specs.Prelude.{◌≡◌};

use model::fault::Fault;

#[derive(Clone, Copy, PartialEq, Eq, Debug)]
pub struct RecordFault {
    // where the command stands
    pub place: usize,
    // where the next one stands, if there is a command to go past
    pub next: Option<usize>,
    // what the book answered
    pub fault: Fault,
}

impl From<(usize, Option<usize>, Fault)> for RecordFault {
    ghost from_gives = { λ x y. y ≡ record { place = x.0; next = x.1; fault = x.2 } };

    fn from(placed: (usize, Option<usize>, Fault)) -> RecordFault {
        let (place, next, fault) = placed;
        RecordFault { place, next, fault }
    }
}
