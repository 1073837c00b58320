// What a record makes of the program's book: every command of it is read, at its own place.
use crate::{built_in, follow};
use book::books::Book;
use book::views::JobView;
use days::job::JobState;
use std::test::Fail;
use timeline::storage::JobStorage;

// A release of task 0, a tick after which its job is open, an idling that is refused, and the tick that ends the job.
#[test]
fn a_record_is_followed_to_its_end(rt: HostRuntime) -> Result<(), Fail> {
    let table = built_in(vec![in rt.alloc(); 4, 7]?)?;
    let mut book = Book::open(table, JobStorage::reserve(rt.alloc())?);
    follow(&rt, &mut book, b"R\0O\0I\0\x01D\0")?;
    assert_eq!(rt; book.now(), 2);
    let ended = JobView {
        task: 0,
        release: 0,
        state: JobState::Finished,
        took: 2,
    };
    assert_eq!(rt; book.job(0), Some(ended));
    assert_eq!(rt; book.job(1), None);
    Ok(())
}
