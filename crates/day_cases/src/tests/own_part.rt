// A book on a table with a fleet's own arrivals.
use super::*;
use cases::bursts::Bursts;
use orders::fixed_priority::FixedPriority;

// Two jobs at once, and a third from tick 10 on. The urgent ones, of cost 1, take 1 and 2 ticks, the others 4 and 6.
#[test]
fn a_day_of_bursts(rt: HostRuntime) -> Result<(), Fail> {
    let mut book = bursts(rt.alloc())?;
    follow(
        &rt,
        &mut book,
        b"R\0R\0R\x01R\x01D\0D\0O\x01D\x01O\x01D\x01I\0\x03",
        23,
    )?;
    reads(&rt, &mut book, b"R\0", 0, Err((0, Some(2), (9, 5, 0))), 9);
    follow(&rt, &mut book, b"I\0\x01R\0D\0", 7)?;
    assert_eq!(rt; close(book), (None, (3, 2, 2), (2, 6, 6)));
    Ok(())
}

fn bursts(heap: Global) -> Result<Book<Trio<Bursts, FixedPriority, OpenSections>>, Fail> {
    let order = FixedPriority::new(&[2, 1])?;
    open(
        vec![in heap; 2, 6]?,
        Bursts::new(2, 1, 9),
        order,
        OpenSections::new(&[1, 2])?,
    )
}
