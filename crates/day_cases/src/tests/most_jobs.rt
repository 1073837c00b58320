// A day has room for 512 jobs.
use super::*;

// A job of task 0 every 4 ticks, its separation: job n is released at 4 × n and takes 1 tick. Without room for a job time
// goes on.
#[test]
fn there_is_no_room_for_one_more(rt: HostRuntime) -> Result<(), Fail> {
    let mut book = built_in(rt.alloc())?;
    for _ in 0..512 {
        follow(&rt, &mut book, b"R\0D\0I\0\x03", 7)?;
    }
    reads(
        &rt,
        &mut book,
        b"R\0",
        0,
        Err((0, Some(2), (8, 5, 0))),
        2_048,
    );
    assert_eq!(rt; book.job(511), finished(0, 2_044, 1));
    assert_eq!(rt; book.job(512), None);
    reads(&rt, &mut book, b"I\0\x01", 0, Ok(3), 2_049);
    assert_eq!(rt; close(book), (None, (512, 1, 3), (0, 0, 6)));
    Ok(())
}
