// The three parts of a table, taken together.
ghost use Rattle.std.specs.Prelude.{◌≡◌};
ghost use Rattle.model.specs.Analysis.{Parts as Meanings};
ghost use Rattle.model.specs.Tables.{Lawful};

use crate::arrivals::Arrivals;
use crate::order::Order;
use crate::sections::Sections;

// Arrivals, an order and sections: whatever asks them knows their meanings and laws alone.
pub trait Parts {
    type Arrivals: Arrivals;

    type Order: Order;

    type Sections: Sections;

    ghost meaning: { Self → Meanings };

    // What each `impl` must prove.
    ghost lawful: { (x : Self) → Lawful (meaning x) };

    fn arrivals(&self) -> &Self::Arrivals
        ensures { Self.Arrivals.meaning result.now ≡ (meaning self.now).arrivals };

    fn order(&self) -> &Self::Order
        ensures { Self.Order.meaning result.now ≡ (meaning self.now).order };

    fn sections(&self) -> &Self::Sections
        ensures { Self.Sections.meaning result.now ≡ (meaning self.now).sections };
}

// One part of each kind, put together.
#[derive(Drop)]
pub struct Trio<R, O, S> {
    pub arrivals: R,
    pub order: O,
    pub sections: S,
}

impl<R: Arrivals, O: Order, S: Sections> Parts for Trio<R, O, S> {
    type Arrivals = R;

    type Order = O;

    type Sections = S;

    ghost meaning = { λ t. record { arrivals = R.meaning t.arrivals; order = O.meaning t.order; sections = S.meaning t.sections } };

    ghost lawful = { λ t. record { arrivals = R.lawful t.arrivals; order = O.lawful t.order; sections = S.lawful t.sections } };

    fn arrivals(&self) -> &R {
        &self.arrivals
    }

    fn order(&self) -> &O {
        &self.order
    }

    fn sections(&self) -> &S {
        &self.sections
    }
}

// Three parts that belong to others, lent.
#[derive_where(Clone, Copy)]
pub struct LentTrio<'t, R, O, S> {
    pub arrivals: &'t R,
    pub order: &'t O,
    pub sections: &'t S,
}

impl<'t, R: Arrivals, O: Order, S: Sections> Parts for LentTrio<'t, R, O, S> {
    type Arrivals = R;

    type Order = O;

    type Sections = S;

    ghost meaning = { λ t. record { arrivals = R.meaning t.arrivals.now; order = O.meaning t.order.now; sections = S.meaning t.sections.now } };

    ghost lawful = { λ t. record { arrivals = R.lawful t.arrivals.now; order = O.lawful t.order.now; sections = S.lawful t.sections.now } };

    fn arrivals(&self) -> &R {
        self.arrivals
    }

    fn order(&self) -> &O {
        self.order
    }

    fn sections(&self) -> &S {
        self.sections
    }
}
