// What a unit's table is made of: the three parts as traits whose ghost members say what they mean, and the
// words that every crate shares. What the parts mean for a sheet stands in specs/.
#![tactic(auto)]

pub mod arrivals;
pub mod fault;
pub mod order;
pub mod parts;
pub mod released;
pub mod sections;
