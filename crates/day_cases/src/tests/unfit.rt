// A book on a refused table.
use super::*;

// Task 1 has the bound 6 and the deadline 5. What would be taken, absent or unread is refused alike, and nothing changes.
#[test]
fn nothing_is_obeyed(rt: HostRuntime) -> Result<(), Fail> {
    let sections = OpenSections::new(&[2, 3])?;
    let mut book = earliest_first(rt.alloc(), [4, 5], sections)?;
    for record in ["R\0", "I\0\x01", "D\0", "R\x02", "I\0\0", "X\0", "R", ""] {
        reads(
            &rt,
            &mut book,
            record.as_bytes(),
            0,
            Err((0, None, (6, 5, 255))),
            0,
        );
    }
    assert_eq!(rt; numbers(book.unread()), (6, 5, 255));
    assert_eq!(rt; book.job(0), None);
    assert_eq!(rt; close(book), (Some((5, 4, 1)), (0, 0, 0), (0, 0, 0)));
    Ok(())
}
