// The nine bytes that the README shows: two ticks of one job, and between them an idling that is refused.
use super::*;

// The job is unfinished at the idling, so that idling is behind; no tick passes, and the record is read past it.
#[test]
fn two_ticks_of_one_job(rt: HostRuntime) -> Result<(), Fail> {
    let mut book = built_in(rt.alloc())?;
    for (place, answer, now) in [
        (0, Ok(2), 0),
        (2, Ok(4), 1),
        (4, Err((4, Some(7), (12, 5, 255))), 1),
        (7, Ok(9), 2),
    ] {
        reads(&rt, &mut book, &NINE_BYTES, place, answer, now);
    }
    assert_eq!(rt; book.job(0), finished(0, 0, 2));
    assert_eq!(rt; book.job(1), None);
    Ok(())
}
