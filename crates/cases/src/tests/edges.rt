// Numbers of tasks: none, sixteen, seventeen, and parts that disagree.
use crate::bursts::Bursts;
use crate::tests::fault;
use analysis::draft::Draft;
use arrivals::separations::Separations;
use arrivals::steps::Steps;
use model::arrivals::Arrivals;
use model::fault::{NO_TASK, Part, Refusal};
use model::order::Order;
use model::sections::Sections;
use orders::earliest_deadline::EarliestDeadline;
use orders::fixed_priority::FixedPriority;
use sections::floating_sections::FloatingSections;
use sections::open_sections::OpenSections;
use sections::point_sections::PointSections;
use sections::shut_sections::ShutSections;
use std::test::Fail;

#[test]
fn no_tasks_and_seventeen_are_a_fault_of_size(rt: HostRuntime) {
    let arrivals = fault(Refusal::Size, Part::Arrivals, NO_TASK);
    assert_eq!(rt; Separations::new(&[]).err(), arrivals);
    assert_eq!(rt; Separations::new(&[1; 16]).err(), None);
    assert_eq!(rt; Separations::new(&[1; 17]).err(), arrivals);
    assert_eq!(rt; Steps::new(&[]).err(), arrivals);
    assert_eq!(rt; Steps::new(&[1; 8]).err(), arrivals);
    assert_eq!(rt; Steps::new(&[1; 153]).err(), arrivals);
    let order = fault(Refusal::Size, Part::Order, NO_TASK);
    assert_eq!(rt; FixedPriority::new(&[]).err(), order);
    assert_eq!(rt; FixedPriority::new(&[0; 17]).err(), order);
    assert_eq!(rt; EarliestDeadline::new(&[]).err(), order);
    assert_eq!(rt; EarliestDeadline::new(&[1; 17]).err(), order);
}

#[test]
fn sections_have_one_to_sixteen_tasks(rt: HostRuntime) {
    let sections = fault(Refusal::Size, Part::Sections, NO_TASK);
    assert_eq!(rt; OpenSections::new(&[]).err(), sections);
    assert_eq!(rt; OpenSections::new(&[1; 17]).err(), sections);
    assert_eq!(rt; ShutSections::new(&[]).err(), sections);
    assert_eq!(rt; FloatingSections::new(&[]).err(), sections);
    assert_eq!(rt; PointSections::new(&[[1; 8]; 16]).err(), None);
    assert_eq!(rt; PointSections::new(&[[1; 8]; 17]).err(), sections);
}

#[test]
fn a_table_has_one_to_sixteen_tasks_in_every_part(rt: HostRuntime) -> Result<(), Fail> {
    let size = fault(Refusal::Size, Part::Table, NO_TASK);
    let heap = rt.alloc();
    let none = Draft::new(
        vec![in heap]?,
        Bursts::new(0, 0, 0),
        FixedPriority::new(&[1])?,
        OpenSections::new(&[1])?,
    )
    .judge();
    assert_eq!(rt; (none.verdict(), none.tasks()), (size, 0));
    let many = Draft::new(
        vec![in heap; 9; 17]?,
        Bursts::new(17, 0, 9),
        FixedPriority::new(&[0; 16])?,
        OpenSections::new(&[1; 16])?,
    )
    .judge();
    assert_eq!(rt; (many.verdict(), many.tasks()), (size, 17));
    let fewer = Draft::new(
        vec![in heap; 9, 9]?,
        Bursts::new(2, 0, 9),
        FixedPriority::new(&[1, 1])?,
        OpenSections::new(&[1])?,
    )
    .judge();
    assert_eq!(rt; fewer.verdict(), size);
    Ok(())
}

// The deadlines are looked at before any task: task 1 has none, and task 0 no window.
#[test]
fn deadlines_are_in_range(rt: HostRuntime) -> Result<(), Fail> {
    for (deadline, verdict) in [
        (0, fault(Refusal::Range, Part::Table, 1)),
        (100_001, fault(Refusal::Range, Part::Table, 1)),
        (100_000, fault(Refusal::Overload, Part::Table, 0)),
    ] {
        let deadlines = vec![in rt.alloc(); 1, deadline]?;
        let draft = Draft::new(
            deadlines,
            Separations::new(&[1, 9])?,
            FixedPriority::new(&[1, 1])?,
            OpenSections::new(&[2, 1])?,
        );
        assert_eq!(rt; draft.judge().verdict(), verdict);
    }
    Ok(())
}

#[test]
fn a_fault_is_printed_for_a_person(rt: HostRuntime) -> Result<(), Fail> {
    let late = fault(Refusal::Late, Part::Table, 1).ok_or("no fault")?;
    assert_eq!(rt;
        format!(in rt.alloc(); "{late}")?.as_str(),
        "5 late, part 4 table, task 1"
    );
    Ok(())
}
