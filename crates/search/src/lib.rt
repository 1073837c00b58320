// The least length that meets a demand: one search for windows and for the offsets of a window.
#![tactic(auto)]

ghost use Rattle.std.specs.Prelude.{◌≡◌, ℕ, MatchOption};
ghost use Rattle.model.specs.Arrivals.{last_length};
ghost use Rattle.model.specs.Least.{least, Rises, NeverMet, LeastMet};

// How many ticks are wanted in a length of ticks, which never falls as the length grows. It is a trait and no closure, so
// that the law is part of the type, and the search asks nothing of its caller.
pub trait Demand {
    ghost demand: { Self → ℕ → ℕ };

    // What each `impl` must prove.
    ghost rises: { (x : Self) → Rises (demand x) last_length };

    fn at(&self, length: u32) -> u64
        ensures { result ≡ demand self.now length };
}

// The least length from 1 to `limit` at which the demand is at most the length. Every length below a demand that was
// found has that demand too, or more, so the search goes on from the demand itself, and not by a range.
pub fn least_length<D: Demand>(demand: &D, limit: u32) -> Option<u32>
    ensures value { result ≡ least (D.Demand.demand demand.now) limit }
    ensures law { MatchOption result (NeverMet (D.Demand.demand demand.now) limit) (LeastMet (D.Demand.demand demand.now) limit) }
{
    let mut length = 1;
    while length <= limit {
        let wanted = demand.at(length);
        if wanted <= u64::from(length) {
            return Some(length);
        }
        if wanted > u64::from(limit) {
            return None;
        }
        length = wanted as u32;
    }
    None
}
