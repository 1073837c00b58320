// What a job can cost.
use rows::rule::Limits;

pub(crate) const MOST_COST: u32 = 100_000;

// A job takes at least one tick.
pub(crate) const COSTS: Limits = Limits {
    low: 1,
    high: MOST_COST,
};
