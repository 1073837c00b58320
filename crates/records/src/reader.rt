// Obeying commands out of a record.
ghost use Rattle.std.specs.Prelude.{◌≡◌, ◌<◌, ◌≤◌, length, drop, IfSome, if◌then◌else◌, Some, None, MatchResult};
ghost use Rattle.days.specs.Records.{decoded};
ghost use Rattle.book.specs.Books.{answer_of, CalledOn};
ghost use Rattle.records.specs.Placed.{reads_on, read_answer, book_answer};

use crate::fault::RecordFault;
use crate::letters::command;
use book::books::Book;
use model::fault::{Fault, Refusal};
use model::parts::Parts;

// Obeys the command at a place of the record and gives the next place. Bytes that are no command, and places past the
// end, are refused as unread.
pub fn obey<P: Parts>(book: &mut Book<P>, bytes: &[u8], place: usize) -> Result<usize, RecordFault>
    ensures table { book.new.table ≡ book.old.table }
    ensures answer { result ≡ read_answer (answer_of P.meaning book.old (decoded (drop place bytes.now))) (decoded (drop place bytes.now)) place }
    ensures followed { CalledOn P.meaning book.old (decoded (drop place bytes.now)) (book_answer result) book.new }
    ensures further { MatchResult result (λ next. (place < next) × (next ≤ length bytes.now)) (λ f. IfSome f.next (λ next. (place < next) × (next ≤ length bytes.now))) }
{
    let Some((command, rest)) = command(bytes_from(bytes, place)) else {
        return Err(RecordFault::from((place, None, book.unread())));
    };
    let next = bytes.len() - rest.len();
    let answer = book.obey(command);
    answer.map(|()| next).map_err(|fault| RecordFault::from((
        place,
        next_after(fault, next),
        fault,
    )))
}

// The bytes from a place on; none past the end.
fn bytes_from(bytes: &[u8], place: usize) -> &[u8]
    ensures { result.now ≡ drop place bytes.now }
{
    bytes.get(place..).unwrap_or(&[])
}

// The next place, if there was a command to go past.
fn next_after(fault: Fault, next: usize) -> Option<usize>
    ensures { result ≡ (if reads_on fault.refusal then Some next else None) }
{
    match fault.refusal {
        Refusal::Unfit | Refusal::Unread => None,
        _ => Some(next),
    }
}
