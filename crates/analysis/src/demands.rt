// The two demands of the analysis: what fills a busy window, and what a job in it needs. Their loops differ in which tasks
// count and in the length that each is asked for, and so in all but the sum.
ghost use Rattle.std.specs.Prelude.{◌≡◌, ◌+◌, ◌^◌, ◌≤◌};
ghost use Rattle.model.specs.Analysis.{counted_work, others_work};
ghost use Rattle.model.specs.Order.{within};
ghost use Rattle.model.proofs.AnalysisLaws.{counted_work_rises, others_work_rises};

use crate::blocking::work;
use model::arrivals::Arrivals;
use model::order::Order;
use model::parts::Parts;
use model::released::Reach;
use search::Demand;

// The load of a task: its blocking, and the work of the counted tasks.
#[derive(Drop)]
pub struct Load<'t, P> {
    pub parts: &'t P,
    pub task: u8,
    pub blocked: u32,
}

impl<'t, P: Parts> Demand for Load<'t, P> {
    ghost demand = { λ s d. s.blocked + counted_work (P.meaning s.parts.now) s.task d };

    ghost rises = { λ s. counted_work_rises (P.meaning s.parts.now) (P.Parts.lawful s.parts.now).arrivals s.blocked s.task };

    fn at(&self, length: u32) -> u64 {
        let mut ticks = u64::from(self.blocked);
        for other in 0..self.parts.arrivals().tasks() {
            if self.parts.order().counted(self.task, other) {
                ticks += work(self.parts, other, length);
            }
        }
        ticks
    }
}

// What a job released `offset` ticks into a window needs: its own share, and the work of other tasks before it.
#[derive(Drop)]
pub struct Need<'t, P> {
    pub parts: &'t P,
    pub task: u8,
    pub offset: u32,
    pub own: u64,
    ghost small: { own ≤ 2 ^ 62 },
}

impl<'t, P: Parts> Demand for Need<'t, P> {
    ghost demand = { λ s d. s.own + others_work (P.meaning s.parts.now) s.task s.offset d };

    ghost rises = { λ s. others_work_rises (P.meaning s.parts.now) (P.Parts.lawful s.parts.now).arrivals s.own s.task s.offset };

    fn at(&self, length: u32) -> u64 {
        let mut ticks = self.own;
        for other in 0..self.parts.arrivals().tasks() {
            if other != self.task {
                let reach = self.parts.order().reach(self.task, other, self.offset);
                ticks += work(self.parts, other, lesser(reach, length));
            }
        }
        ticks
    }
}

// The lesser of a reach and a length.
fn lesser(reach: Reach, length: u32) -> u32
    ensures { result ≡ within reach length }
{
    match reach {
        Reach::Ticks(ticks) => ticks.min(u64::from(length)) as u32,
        Reach::NoEnd => length,
    }
}
