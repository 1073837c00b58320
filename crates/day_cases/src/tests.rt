// Every expected answer is worked out by hand from the rules of the day book.
mod cuts;
mod last_tick;
mod long_days;
mod most_jobs;
mod nine_bytes;
mod own_condition;
mod own_part;
mod refusals;
mod unfit;
mod worst_day;

use analysis::draft::Draft;
use arrivals::separations::Separations;
use book::books::{Book, Closed};
use book::views::JobView;
use days::command::Command;
use days::job::JobState;
use kinds::FloatingTask;
use model::arrivals::Arrivals;
use model::fault::Fault;
use model::order::Order;
use model::parts::{Parts, Trio};
use model::sections::Sections;
use orders::earliest_deadline::EarliestDeadline;
use records::obey;
use sections::floating_sections::FloatingSections;
use sections::open_sections::OpenSections;
use std::alloc::Global;
use std::process::Abort;
use std::test::Fail;
use timeline::storage::JobStorage;

// The record that the README shows: R 0, O 0, I 1 and D 0.
const NINE_BYTES: [u8; 9] = *b"R\0O\0I\0\x01D\0";

type EarliestFirst<S> = Book<Trio<Separations, EarliestDeadline, S>>;

// A book on the built-in table, with the bounds 3 and 6.
fn built_in(heap: Global) -> Result<EarliestFirst<OpenSections>, Fail> {
    earliest_first(heap, [4, 7], OpenSections::new(&[2, 3])?)
}

// The same with floating sections: task 0 is never held, and task 1 for at most two ticks. The bounds are 4 and 6.
fn floating(heap: Global) -> Result<EarliestFirst<FloatingSections>, Fail> {
    let first = FloatingTask {
        cost: 2,
        longest: 1,
    };
    let second = FloatingTask {
        cost: 3,
        longest: 2,
    };
    let sections = FloatingSections::new(&[first, second])?;
    earliest_first(heap, [4, 6], sections)
}

// A book on the built-in table but for the deadlines of its tasks and its sections.
fn earliest_first<S: Sections + Drop>(
    heap: Global,
    deadlines: [u32; 2],
    sections: S,
) -> Result<EarliestFirst<S>, Fail> {
    let [first, second] = deadlines;
    let arrivals = Separations::new(&[4, 12])?;
    let order = EarliestDeadline::new(&[4, 7])?;
    open(vec![in heap; first, second]?, arrivals, order, sections)
}

fn open<R: Arrivals + Drop, O: Order + Drop, S: Sections + Drop>(
    deadlines: Vec<u32>,
    arrivals: R,
    order: O,
    sections: S,
) -> Result<Book<Trio<R, O, S>>, Fail> {
    let storage = JobStorage::reserve(*deadlines.allocator())?;
    let table = Draft::new(deadlines, arrivals, order, sections).judge();
    Ok(Book::open(table, storage))
}

// Refusal, part and task.
type Numbers = (u8, u8, u8);

fn numbers(fault: Fault) -> Numbers {
    (fault.refusal.number(), fault.part.number(), fault.task)
}

// Obeys a command, and sees to the answer and the time.
fn obeys<P: Parts>(
    rt: &impl Abort,
    book: &mut Book<P>,
    command: Command,
    expected: Result<(), Numbers>,
    now: u32,
) {
    assert_eq!(rt; book.obey(command).map_err(numbers), expected);
    assert_eq!(rt; book.now(), now);
}

// What is answered at a place of a record: the next place, or the place, the next one if there is any, and the fault.
type Answer = Result<usize, (usize, Option<usize>, Numbers)>;

fn read<P: Parts>(book: &mut Book<P>, record: &[u8], place: usize) -> Answer {
    obey(book, record, place).map_err(|refused| (
        refused.place,
        refused.next,
        numbers(refused.fault),
    ))
}

// Reads the command at a place, and sees to the answer and the time.
fn reads<P: Parts>(
    rt: &impl Abort,
    book: &mut Book<P>,
    record: &[u8],
    place: usize,
    expected: Answer,
    now: u32,
) {
    assert_eq!(rt; read(book, record, place), expected);
    assert_eq!(rt; book.now(), now);
}

// Reads a record from its start to a place, and every command on the way is taken.
fn follow<P: Parts>(
    rt: &impl Abort,
    book: &mut Book<P>,
    record: &[u8],
    end: usize,
) -> Result<(), Fail> {
    let mut place = 0;
    for _ in 0..end {
        if place < end {
            place = read(book, record, place)?;
        }
    }
    assert_eq!(rt; place, end);
    Ok(())
}

// A finished job.
fn finished(task: u8, release: u32, took: u32) -> Option<JobView> {
    Some(JobView {
        task,
        release,
        state: JobState::Finished,
        took,
    })
}

// What is left of a book for a task: its finished jobs, the longest time and the bound.
type Left = (u32, u32, u32);

// Closes the book: the verdict, and what is left for tasks 0 and 1.
fn close<P: Parts + Drop>(book: Book<P>) -> (Option<Numbers>, Left, Left) {
    let closed = book.close();
    let verdict = closed.table.verdict().map(numbers);
    (verdict, left(&closed, 0), left(&closed, 1))
}

fn left<P>(closed: &Closed<P>, task: u8) -> Left {
    let finished = closed.totals.finished(task);
    let longest = closed.totals.longest(task);
    (finished, longest, closed.table.bound(task))
}
