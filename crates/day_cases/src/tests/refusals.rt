// What a book on an accepted table refuses, but for want of room: records of which the last command is refused, with its
// place, the next one and the numbers.
use super::*;
use std::process::Abort;

// Everything before the place is taken, and the refusal changes neither time nor jobs.
fn refuses<P: Parts>(
    rt: &impl Abort,
    book: &mut Book<P>,
    record: &[u8],
    place: usize,
    next: Option<usize>,
    fault: Numbers,
) -> Result<(), Fail> {
    follow(rt, book, record, place)?;
    let now = book.now();
    // no record here releases more than two jobs
    let (first, second, third) = (book.job(0), book.job(1), book.job(2));
    reads(rt, book, record, place, Err((place, next, fault)), now);
    assert_eq!(rt; book.job(0), first);
    assert_eq!(rt; book.job(1), second);
    assert_eq!(rt; book.job(2), third);
    Ok(())
}

// Unread: an unknown letter, no operand, half an operand, a task too many, and no tick to pass. Nothing is read past.
// Crowd: with the separations 4 and 12 one job from tick 0 to 3, or to 11.
// Held: task 1 after its first tick. Behind: of two jobs of tick 0 that of task 0 is due at 4, and that of task 1 at 7.
// Section: jobs are not held for longer than 1 and 2 ticks, and do not open after their last tick.
#[test]
fn every_refusal_but_for_want_of_room(rt: HostRuntime) -> Result<(), Fail> {
    for (record, place, next, fault) in [
        ("X\0", 0, None, (7, 5, 255)),
        ("r\0", 0, None, (7, 5, 255)),
        ("R\0O", 2, None, (7, 5, 255)),
        ("I\0", 0, None, (7, 5, 255)),
        ("R\x02", 0, None, (7, 5, 255)),
        ("R\x01D\x02", 2, None, (7, 5, 255)),
        ("I\0\0", 0, None, (7, 5, 255)),
        ("R\0R\0", 2, Some(4), (9, 5, 0)),
        ("R\0O\0D\0I\0\x01R\0", 9, Some(11), (9, 5, 0)),
        ("R\x01D\x01I\0\x0aR\x01", 7, Some(9), (9, 5, 1)),
        ("O\x01", 0, Some(2), (10, 5, 1)),
        ("R\0D\x01", 2, Some(4), (10, 5, 1)),
        ("R\0D\0O\0", 4, Some(6), (10, 5, 0)),
        ("R\x01H\x01R\0O\0", 6, Some(8), (11, 5, 0)),
        ("R\x01H\x01I\0\x01", 4, Some(7), (11, 5, 255)),
        ("R\0R\x01O\x01", 4, Some(6), (12, 5, 1)),
        ("R\x01R\0D\x01", 4, Some(6), (12, 5, 1)),
        ("R\x01I\0\x01", 2, Some(5), (12, 5, 255)),
        ("R\0H\0", 2, Some(4), (13, 5, 0)),
        ("R\0O\0O\0", 4, Some(6), (13, 5, 0)),
        ("R\x01H\x01H\x01", 4, Some(6), (13, 5, 1)),
    ] {
        let mut book = floating(rt.alloc())?;
        refuses(&rt, &mut book, record.as_bytes(), place, next, fault)?;
    }
    Ok(())
}

// One record with each of them. 15 × 65,535 and 16,965 ticks of idling lead to 999,990. The job of task 1 is held after its
// first tick and opens after its second; then that of task 0, released at 999,991, is due at 999,995 and the other at 999,997.
#[test]
fn every_refusal_in_one_record(rt: HostRuntime) -> Result<(), Fail> {
    let record =
        b"I\xff\xffI\xff\xffI\xff\xffI\xff\xffI\xff\xffI\xff\xffI\xff\xffI\xff\xffI\xff\xffI\xff\xffI\xff\xffI\xff\xffI\xff\xffI\xff\xffI\xff\xffI\x42\x45I\0\x64O\x01R\x01R\x01H\x01R\0O\0O\x01D\x01H\0X";
    let mut book = floating(rt.alloc())?;
    follow(&rt, &mut book, record, 48)?;
    for (place, answer, now) in [
        (48, Err((48, Some(51), (8, 5, 255))), 999_990),
        (51, Err((51, Some(53), (10, 5, 1))), 999_990),
        (53, Ok(55), 999_990),
        (55, Err((55, Some(57), (9, 5, 1))), 999_990),
        (57, Ok(59), 999_991),
        (59, Ok(61), 999_991),
        (61, Err((61, Some(63), (11, 5, 0))), 999_991),
        (63, Ok(65), 999_992),
        (65, Err((65, Some(67), (12, 5, 1))), 999_992),
        (67, Err((67, Some(69), (13, 5, 0))), 999_992),
        (69, Err((69, None, (7, 5, 255))), 999_992),
    ] {
        reads(&rt, &mut book, record, place, answer, now);
    }
    assert_eq!(rt; book.job(0), waiting(1, 999_990));
    assert_eq!(rt; book.job(1), waiting(0, 999_991));
    assert_eq!(rt; book.job(2), None);
    Ok(())
}

fn waiting(task: u8, release: u32) -> Option<JobView> {
    Some(JobView {
        task,
        release,
        state: JobState::Waiting,
        took: 0,
    })
}
