// Whole tables, judged.
use crate::bursts::Bursts;
use crate::tests::fault;
use analysis::draft::Draft;
use arrivals::delay::{Delay, Delays};
use arrivals::separations::Separations;
use arrivals::steps::Steps;
use model::arrivals::Arrivals;
use model::fault::{Part, Refusal};
use orders::earliest_deadline::EarliestDeadline;
use orders::fixed_priority::FixedPriority;
use sections::open_sections::OpenSections;
use std::test::Fail;

// The bound of task 1 is not that of offset 0, which gives 114.
#[test]
fn a_later_offset_gives_the_bound(rt: HostRuntime) -> Result<(), Fail> {
    let arrivals = Separations::new(&[70, 100])?;
    let sections = OpenSections::new(&[26, 62])?;
    let draft = Draft::new(
        vec![in rt.alloc(); 1000, 1000]?,
        arrivals,
        FixedPriority::new(&[2, 1])?,
        sections,
    );
    let table = draft.judge();
    assert_eq!(rt; table.verdict(), None);
    assert_eq!(rt; (table.window(0), table.bound(0)), (26, 26));
    assert_eq!(rt; (table.window(1), table.bound(1)), (694, 118));
    assert_eq!(rt; (table.window(2), table.bound(2)), (0, 0));
    Ok(())
}

// Jobs of cost 2 at every tick never leave the processor free.
#[test]
fn a_task_without_a_window_is_an_overload(rt: HostRuntime) -> Result<(), Fail> {
    let draft = Draft::new(
        vec![in rt.alloc(); 1000]?,
        Separations::new(&[1])?,
        FixedPriority::new(&[0])?,
        OpenSections::new(&[2])?,
    );
    let table = draft.judge();
    assert_eq!(rt; table.verdict(), fault(Refusal::Overload, Part::Table, 0));
    assert_eq!(rt; (table.window(0), table.bound(0)), (0, 0));
    Ok(())
}

#[test]
fn a_deadline_may_be_the_bound_and_no_less(rt: HostRuntime) -> Result<(), Fail> {
    for (deadline, bound, verdict) in [
        (100_000, 100_000, None),
        (99_999, 0, fault(Refusal::Late, Part::Table, 0)),
    ] {
        let arrivals = Separations::new(&[1_000_000])?;
        let draft = Draft::new(
            vec![in rt.alloc(); deadline]?,
            arrivals,
            FixedPriority::new(&[0])?,
            OpenSections::new(&[100_000])?,
        );
        let table = draft.judge();
        assert_eq!(rt; table.verdict(), verdict);
        assert_eq!(rt; table.bound(0), bound);
    }
    Ok(())
}

// Of the two tasks the first at fault is the verdict, and nothing is left on the sheet.
#[test]
fn the_first_task_at_fault_is_the_verdict(rt: HostRuntime) -> Result<(), Fail> {
    let draft = Draft::new(
        vec![in rt.alloc(); 2, 2]?,
        Separations::new(&[4, 12])?,
        EarliestDeadline::new(&[4, 7])?,
        OpenSections::new(&[2, 3])?,
    );
    let table = draft.judge();
    assert_eq!(rt; table.verdict(), fault(Refusal::Late, Part::Table, 0));
    assert_eq!(rt; (table.window(0), table.bound(1)), (0, 0));
    Ok(())
}

// A burst of two jobs of each task: 2 ticks for the urgent one, and 6 for the other.
#[test]
fn a_part_of_no_listed_kind_is_judged(rt: HostRuntime) -> Result<(), Fail> {
    let draft = Draft::new(
        vec![in rt.alloc(); 2, 6]?,
        Bursts::new(2, 1, 9),
        FixedPriority::new(&[2, 1])?,
        OpenSections::new(&[1, 2])?,
    );
    let table = draft.judge();
    assert_eq!(rt; table.verdict(), None);
    assert_eq!(rt; (table.window(0), table.bound(0)), (2, 2));
    assert_eq!(rt; (table.window(1), table.bound(1)), (6, 6));
    Ok(())
}

// Delays of 2 and 1 over entries 1 and 3 of 10: the count at d is that of the steps at d + 3.
#[test]
fn a_delay_over_a_delay_over_steps(rt: HostRuntime) -> Result<(), Fail> {
    let numbers = [10, 1, 3, 0, 0, 0, 0, 0, 0];
    let mut ticks = [0; 16];
    ticks[0] = 2;
    let first = Delay::over(Steps::new(&numbers)?, Delays::new(&ticks)?);
    ticks[0] = 1;
    let both = Delay::over(first, Delays::new(&ticks)?);
    assert_eq!(rt;
        (both.count(0, 0), both.count(0, 1), both.count(0, 7)),
        (0, 2, 2)
    );
    assert_eq!(rt;
        (both.count(0, 8), both.count(0, 10), both.count(1, 5)),
        (3, 4, 0)
    );
    Ok(())
}
