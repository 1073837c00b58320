// The sealing sheet of the built-in table, and its day book fed from standard input.
#![tactic(auto)]

ghost use Rattle.std.specs.Prelude.{◌≡◌, [], ◌∷◌, MatchResult};
ghost use Rattle.analysis.specs.Judgement.{verdict_of, windows_of, bounds_of};
ghost use Rattle.book.specs.Books.{ComesOf};
ghost use Rattle.daybook.specs.BuiltIn.{BuiltInSheet};
ghost use Rattle.daybook.specs.Letters.{shown_letter};

use analysis::draft::Draft;
use analysis::judged::Judged;
use arrivals::separations::Separations;
use book::books::Book;
use days::job::JobState;
use model::fault::Fault;
use model::parts::{Parts, Trio};
use orders::earliest_deadline::EarliestDeadline;
use rows::rule::MOST_TASKS;
use sections::open_sections::OpenSections;
use std::io;
use std::io::Read;
use timeline::storage::{JobStorage, MOST_JOBS};

type BuiltIn = Judged<Trio<Separations, EarliestDeadline, OpenSections>>;

fn main(rt: HostRuntime) -> anyhow::Result<()> {
    let deadlines = vec![in rt.alloc(); 4, 7]?;
    match built_in(deadlines) {
        Ok(table) => {
            print_sheet(&rt, &table)?;
            let storage = JobStorage::reserve(rt.alloc())?;
            let mut record = Vec::new(rt.alloc());
            rt.stdin().read_to_end(&mut record)?;
            let mut book = Book::open(table, storage);
            follow(&rt, &mut book, record.as_slice())?;
            print_jobs(&rt, &book)?;
        }
        Err(fault) => println!(rt; "refused: {fault}")?,
    }
    Ok(())
}

// Two tasks under earliest deadline first, fully preemptive. No making refuses, and the sheet is known.
fn built_in(deadlines: Vec<u32>) -> Result<BuiltIn, Fault>
    requires { deadlines.items ≡ 4 ∷ 7 ∷ [] }
    ensures { MatchResult result (λ t. BuiltInSheet (verdict_of t) (windows_of t) (bounds_of t)) (λ _. ⊥) }
{
    let arrivals = Separations::new(&[4, 12])?;
    let order = EarliestDeadline::new(deadlines.as_slice())?;
    let sections = OpenSections::new(&[2, 3])?;
    Ok(Draft::new(deadlines, arrivals, order, sections).judge())
}

fn print_sheet<P>(rt: &HostRuntime, table: &Judged<P>) -> io::Result<()> {
    if let Some(fault) = table.verdict() {
        return println!(rt; "refused: {fault}");
    }
    // an accepted table has at most sixteen tasks
    for task in 0..table.tasks().min(MOST_TASKS) as u8 {
        let window = table.window(task);
        let bound = table.bound(task);
        println!(rt; "bound {task} {window} {bound}")?;
    }
    Ok(())
}

// Obeys the record and prints what came of each command, until nothing can be read or the record is at its end.
fn follow<P: Parts>(rt: &HostRuntime, book: &mut Book<P>, record: &[u8]) -> io::Result<()>
    ensures table { book.new.table ≡ book.old.table }
    ensures day { ComesOf P.meaning book.old book.new }
{
    // the answer to a command says where the next one stands, so that no iterator over the bytes would do
    let mut place = 0;
    while place < record.len() {
        let letter = letter(record[place]);
        let (number, next) = match records::obey(book, record, place) {
            Ok(next) => (0, Some(next)),
            Err(refused) => (refused.fault.refusal.number(), refused.next),
        };
        let now = book.now();
        println!(rt; "{place} {letter} {number} {now}")?;
        match next {
            Some(next) => place = next,
            None => return Ok(()),
        }
    }
    Ok(())
}

// The letter of a command, or `?` for a byte that is none, as it is printed.
fn letter(byte: u8) -> char
    ensures { result ≡ shown_letter byte }
{
    match byte {
        b'R' | b'H' | b'O' | b'D' | b'I' => char::from(byte),
        _ => '?',
    }
}

fn print_jobs<P>(rt: &HostRuntime, book: &Book<P>) -> io::Result<()> {
    let jobs = (0..MOST_JOBS).map_while(|n| book.job(n));
    for (n, job) in jobs.enumerate() {
        let task = job.task;
        let release = job.release;
        match job.state {
            JobState::Finished => {
                let took = job.took;
                println!(rt; "job {n} {task} {release} {took}")?;
            }
            JobState::Waiting | JobState::Held => println!(rt; "job {n} {task} {release} -")?,
        }
    }
    Ok(())
}

#[cfg(test)]
mod tests;
