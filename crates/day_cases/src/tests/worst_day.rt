// A day of the built-in table on which task 1 takes its bound.
use super::*;

// Task 0 is served from 0 to 2, and task 1, released at 1 and due at 8, from 2 to 4. The job of task 0 released at 4 is due
// at 8 too: level jobs go in either order, and it runs first, to 6. Task 1 ends at 7, 6 ticks after its release.
#[test]
fn the_bound_is_reached(rt: HostRuntime) -> Result<(), Fail> {
    let mut book = built_in(rt.alloc())?;
    follow(
        &rt,
        &mut book,
        b"R\0O\0R\x01D\0O\x01O\x01R\0O\0D\0D\x01",
        20,
    )?;
    assert_eq!(rt; book.now(), 7);
    assert_eq!(rt; book.job(1), finished(1, 1, 6));
    assert_eq!(rt; close(book), (None, (2, 2, 3), (1, 6, 6)));
    Ok(())
}
