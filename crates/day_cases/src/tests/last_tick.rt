// A day ends with tick 1,000,000.
use super::*;
use days::command::Mark;
use std::process::Abort;

// 15 × 65,535 is 983,025, and 16,975 ticks are left. A release takes no tick. Fullness is looked at before absence and
// before more urgent jobs.
#[test]
fn idling_reaches_it_exactly(rt: HostRuntime) -> Result<(), Fail> {
    let mut book = nearly_over(&rt, rt.alloc())?;
    for (command, answer, now) in [
        (Command::Idle(16_976), Err((8, 5, 255)), 983_025),
        (Command::Idle(16_975), Ok(()), 1_000_000),
        (Command::Idle(1), Err((8, 5, 255)), 1_000_000),
        (Command::Serve(Mark::Done, 1), Err((8, 5, 1)), 1_000_000),
        (Command::Release(0), Ok(()), 1_000_000),
        (Command::Serve(Mark::Done, 0), Err((8, 5, 0)), 1_000_000),
        (Command::Idle(1), Err((8, 5, 255)), 1_000_000),
    ] {
        obeys(&rt, &mut book, command, answer, now);
    }
    Ok(())
}

#[test]
fn a_service_reaches_it_exactly(rt: HostRuntime) -> Result<(), Fail> {
    let mut book = nearly_over(&rt, rt.alloc())?;
    for (command, answer, now) in [
        (Command::Idle(16_974), Ok(()), 999_999),
        (Command::Release(0), Ok(()), 999_999),
        (Command::Serve(Mark::Open, 0), Ok(()), 1_000_000),
        (Command::Serve(Mark::Done, 0), Err((8, 5, 0)), 1_000_000),
    ] {
        obeys(&rt, &mut book, command, answer, now);
    }
    Ok(())
}

fn nearly_over(rt: &impl Abort, heap: Global) -> Result<EarliestFirst<OpenSections>, Fail> {
    let mut book = built_in(heap)?;
    for _ in 0..15 {
        follow(rt, &mut book, b"I\xff\xff", 3)?;
    }
    Ok(book)
}
