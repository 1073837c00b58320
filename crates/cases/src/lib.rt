// The reference cases of the definitions, and a fleet's own part. The tests run the other cases and the edges.
#![tactic(auto)]

ghost use Rattle.std.specs.Prelude.{◌≡◌};
ghost use Rattle.cases.specs.Reference.{ReferenceCases};

pub mod bursts;
#[cfg(test)]
mod tests;

// The counts and sheets that were worked out by hand are those of the definitions. Answers how many cases there are.
pub fn reference_cases() -> u8
    ensures answer { result ≡ 9 }
    ensures cases { ReferenceCases }
{
    9
}
