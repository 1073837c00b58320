// Every limit of a field, and one past it.
use crate::tests::fault;
use arrivals::delay::Delays;
use arrivals::separations::Separations;
use arrivals::steps::Steps;
use kinds::FloatingTask;
use model::fault::{Fault, Part, Refusal};
use orders::earliest_deadline::EarliestDeadline;
use sections::floating_sections::FloatingSections;
use sections::open_sections::OpenSections;
use sections::point_sections::PointSections;
use sections::shut_sections::ShutSections;

#[test]
fn separations_and_delays(rt: HostRuntime) {
    let second = fault(Refusal::Range, Part::Arrivals, 1);
    assert_eq!(rt; Separations::new(&[1, 1_000_000]).err(), None);
    assert_eq!(rt; Separations::new(&[1, 0]).err(), second);
    assert_eq!(rt; Separations::new(&[1, 1_000_001]).err(), second);
    let mut ticks = [1_000_000; 16];
    assert_eq!(rt; Delays::new(&ticks).err(), None);
    ticks[15] = 1_000_001;
    assert_eq!(rt;
        Delays::new(&ticks).err(),
        fault(Refusal::Range, Part::Arrivals, 15)
    );
}

#[test]
fn relative_deadlines_and_costs(rt: HostRuntime) {
    assert_eq!(rt; EarliestDeadline::new(&[1, 100_000]).err(), None);
    assert_eq!(rt;
        EarliestDeadline::new(&[1, 0]).err(),
        fault(Refusal::Range, Part::Order, 1)
    );
    assert_eq!(rt;
        EarliestDeadline::new(&[100_001, 1]).err(),
        fault(Refusal::Range, Part::Order, 0)
    );
    let first = fault(Refusal::Range, Part::Sections, 0);
    assert_eq!(rt; OpenSections::new(&[100_000]).err(), None);
    assert_eq!(rt; OpenSections::new(&[100_001]).err(), first);
    assert_eq!(rt; ShutSections::new(&[0]).err(), first);
    assert_eq!(rt; ShutSections::new(&[100_001]).err(), first);
}

fn floating(cost: u32, longest: u32) -> Option<Fault> {
    FloatingSections::new(&[FloatingTask { cost, longest }]).err()
}

#[test]
fn floating_stretches(rt: HostRuntime) {
    let range = fault(Refusal::Range, Part::Sections, 0);
    assert_eq!(rt; floating(100_000, 100_000), None);
    assert_eq!(rt; floating(100_001, 1), range);
    assert_eq!(rt; floating(0, 0), range);
    assert_eq!(rt; floating(5, 0), range);
    assert_eq!(rt; floating(5, 5), None);
    assert_eq!(rt; floating(5, 6), range);
}

fn steps(row: [u32; 9]) -> Option<Fault> {
    Steps::new(&row).err()
}

#[test]
fn steps_rows(rt: HostRuntime) {
    let order = fault(Refusal::Order, Part::Arrivals, 0);
    assert_eq!(rt;
        steps([1_000_000, 1, 1, 2, 2, 3, 3, 1_000_000, 1_000_000]),
        None
    );
    assert_eq!(rt;
        steps([0, 1, 0, 0, 0, 0, 0, 0, 0]),
        fault(Refusal::Range, Part::Arrivals, 0)
    );
    assert_eq!(rt;
        steps([1_000_001, 1, 0, 0, 0, 0, 0, 0, 0]),
        fault(Refusal::Range, Part::Arrivals, 0)
    );
    assert_eq!(rt; steps([9, 0, 0, 0, 0, 0, 0, 0, 0]), order, "no entry");
    assert_eq!(rt;
        steps([9, 2, 0, 0, 0, 0, 0, 0, 0]),
        order,
        "the first entry is not 1"
    );
    assert_eq!(rt; steps([9, 1, 3, 2, 0, 0, 0, 0, 0]), order, "an entry falls");
    assert_eq!(rt;
        steps([9, 1, 9, 10, 0, 0, 0, 0, 0]),
        order,
        "an entry is above the repeat length"
    );
    assert_eq!(rt;
        steps([9, 1, 3, 0, 4, 0, 0, 0, 0]),
        order,
        "an entry behind a 0"
    );
}

fn points(row: [u32; 8]) -> Option<Fault> {
    PointSections::new(&[row]).err()
}

#[test]
fn points_rows(rt: HostRuntime) {
    let range = fault(Refusal::Range, Part::Sections, 0);
    assert_eq!(rt; points([50_000, 50_000, 0, 0, 0, 0, 0, 0]), None);
    assert_eq!(rt;
        points([50_000, 50_001, 0, 0, 0, 0, 0, 0]),
        range,
        "the sum is too large"
    );
    assert_eq!(rt; points([100_000, 0, 0, 0, 0, 0, 0, 0]), None);
    assert_eq!(rt; points([100_001, 0, 0, 0, 0, 0, 0, 0]), range);
    assert_eq!(rt; points([0, 1, 0, 0, 0, 0, 0, 0]), range, "it starts with 0");
    assert_eq!(rt;
        points([1, 0, 1, 0, 0, 0, 0, 0]),
        fault(Refusal::Order, Part::Sections, 0),
        "a number behind a 0"
    );
    assert_eq!(rt;
        points([1, 0, 100_001, 0, 0, 0, 0, 0]),
        range,
        "a number out of range behind a 0"
    );
}
