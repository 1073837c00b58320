// Cases that are run: reference tables that are not proved as theorems, and the edges of every making and of judging.
mod edges;
mod limits;
mod tables;

use model::fault::{Fault, Part, Refusal};

fn fault(refusal: Refusal, part: Part, task: u8) -> Option<Fault> {
    Some(Fault::new(refusal, part, task))
}
