// Records that end too early.
use super::*;

// A command is whole if the cut is not before its end. At every other place, and at the end, nothing is read. The second
// command takes the first tick and the fourth the second.
#[test]
fn every_prefix_is_read_up_to_its_cut(rt: HostRuntime) -> Result<(), Fail> {
    for (cut, now) in [
        (0, 0),
        (1, 0),
        (2, 0),
        (3, 0),
        (4, 1),
        (5, 1),
        (6, 1),
        (7, 1),
        (8, 1),
        (9, 2),
    ] {
        let mut book = built_in(rt.alloc())?;
        let prefix = NINE_BYTES.get(..cut).ok_or("no such cut")?;
        for (place, end, whole) in [
            (0, 2, Ok(2)),
            (2, 4, Ok(4)),
            (4, 7, Err((4, Some(7), (12, 5, 255)))),
            (7, 9, Ok(9)),
        ] {
            let answer = if end <= cut { whole } else { unread(place) };
            assert_eq!(rt; read(&mut book, prefix, place), answer);
        }
        reads(&rt, &mut book, prefix, 9, unread(9), now);
    }
    Ok(())
}

fn unread(place: usize) -> Answer {
    Err((place, None, (7, 5, 255)))
}
