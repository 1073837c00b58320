// A day of 300 ticks for each kind of sections. A round is 12 ticks long, with three jobs of task 0 and one of task 1.
use super::*;
use sections::point_sections::PointSections;
use sections::shut_sections::ShutSections;
use std::process::Abort;

// Lives the round 25 times, every command taken.
fn live<S: Sections + Drop>(
    rt: &impl Abort,
    book: EarliestFirst<S>,
    round: &[u8],
    first: Left,
    second: Left,
) -> Result<(), Fail> {
    let mut book = book;
    for _ in 0..25 {
        follow(rt, &mut book, round, round.len())?;
    }
    assert_eq!(rt; book.now(), 300);
    assert_eq!(rt; close(book), (None, first, second));
    Ok(())
}

// Both at tick 0; the second job of task 0, at 4 and due at 8, waits for task 1, due at 7: it runs from 5 to 7.
#[test]
fn open_sections(rt: HostRuntime) -> Result<(), Fail> {
    let book = built_in(rt.alloc())?;
    live(
        &rt,
        book,
        b"R\0R\x01O\0D\0O\x01O\x01R\0D\x01O\0D\0I\0\x01R\0O\0D\0I\0\x02",
        (75, 3, 3),
        (25, 5, 6),
    )
}

// Task 1 runs from 0 to 3 and keeps out the job of task 0 released at 1, which ends at 5.
#[test]
fn shut_sections(rt: HostRuntime) -> Result<(), Fail> {
    let book = earliest_first(rt.alloc(), [5, 5], ShutSections::new(&[2, 3])?)?;
    live(
        &rt,
        book,
        b"R\x01H\x01R\0H\x01D\x01H\0D\0R\0H\0D\0I\0\x02R\0H\0D\0I\0\x01",
        (75, 4, 5),
        (25, 3, 5),
    )
}

// Task 1 is held for two ticks, so the job of task 0 released at 1 runs from 2 to 4, and task 1 ends at 5.
#[test]
fn floating_sections(rt: HostRuntime) -> Result<(), Fail> {
    let book = floating(rt.alloc())?;
    live(
        &rt,
        book,
        b"R\x01H\x01R\0O\x01O\0D\0D\x01R\0O\0D\0I\0\x02R\0O\0D\0I\0\x01",
        (75, 3, 4),
        (25, 5, 6),
    )
}

// Task 1 opens between its segments of 1 and 2, so the job of task 0 released at 1 runs from 1 to 3, and task 1 to 5.
#[test]
fn point_sections(rt: HostRuntime) -> Result<(), Fail> {
    let sections = PointSections::new(&[[2, 0, 0, 0, 0, 0, 0, 0], [1, 2, 0, 0, 0, 0, 0, 0]])?;
    let book = earliest_first(rt.alloc(), [4, 5], sections)?;
    live(
        &rt,
        book,
        b"R\x01O\x01R\0H\0D\0H\x01D\x01R\0H\0D\0I\0\x02R\0H\0D\0I\0\x01",
        (75, 2, 4),
        (25, 5, 5),
    )
}
