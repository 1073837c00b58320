// What the row of one task says of its jobs: the one thing in which the kinds of sections differ.
ghost use Rattle.std.specs.Prelude.{◌≡◌, List, None, Option};
ghost use Rattle.kinds.specs.SectionKinds.{Shape, LawfulShape, shaped, sections_fault};
ghost use Rattle.model.specs.Sections.{SectionsMeaning};
ghost use Rattle.model.specs.declared.fault.Fault.{Fault as TheFault};
ghost use Rattle.model.specs.declared.fault.Refusal.{Refusal as Refused};

use model::fault::Refusal;
use model::sections::Progress;

pub trait RowShape {
    type Row: Copy;

    ghost refuses: { Self.Row → Option Refused };

    ghost shape: { Self.Row → Shape };

    // What the part means that is made of rows, and why none is made of them.
    ghost part: { List Self.Row → SectionsMeaning };

    ghost fault: { List Self.Row → Option TheFault };

    // What each `impl` must prove.
    ghost lawful: { (row : Self.Row) → refuses row ≡ None → LawfulShape (shape row) };

    ghost shapes: { (rows : List Self.Row) → part rows ≡ shaped shape rows };

    ghost finds: { (rows : List Self.Row) → fault rows ≡ sections_fault refuses rows };

    fn refused(row: &Self::Row) -> Option<Refusal>
        ensures { result ≡ refuses row.now };

    fn cost(row: &Self::Row) -> u32
        ensures { refuses row.now ≡ None → result ≡ (shape row.now).cost };

    fn longest(row: &Self::Row) -> u32
        ensures { result ≡ (shape row.now).longest };

    fn tail(row: &Self::Row) -> u32
        ensures { result ≡ (shape row.now).tail };

    // The three marks of a tick, as a part is asked for them.
    fn may_hold(row: &Self::Row, progress: Progress) -> bool
        ensures { result ≡ (shape row.now).hold progress.received progress.since progress.openings };

    fn may_open(row: &Self::Row, progress: Progress) -> bool
        ensures { result ≡ (shape row.now).opens progress.received progress.since progress.openings };

    fn may_finish(row: &Self::Row, progress: Progress) -> bool
        ensures { result ≡ (shape row.now).done progress.received progress.since progress.openings };
}
