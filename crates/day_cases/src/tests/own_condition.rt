// Jobs by a condition that a caller brings.
ghost use Rattle.std.specs.Prelude.{nat_le};

use days::job::{Job, JobState};
use jobs::conditions::Condition;
use jobs::seek::{any, how_many, position};

// A job that was served for so many ticks or more.
#[derive(Clone, Copy)]
struct ServedFor {
    ticks: u32,
}

impl Condition for ServedFor {
    ghost meets = { λ s j. nat_le s.ticks j.received };

    fn holds(&self, job: &Job) -> bool {
        self.ticks <= job.received
    }
}

fn served(received: u32) -> Job {
    Job {
        task: 0,
        release: 0,
        state: JobState::Waiting,
        received,
        since: 0,
        openings: 0,
        took: 0,
    }
}

#[test]
fn jobs_are_asked_by_a_condition_of_the_callers_own(rt: HostRuntime) {
    let jobs = [served(0), served(2), served(1), served(3)];
    let two = ServedFor { ticks: 2 };
    assert!(rt; any(&jobs, &two));
    assert_eq!(rt; position(&jobs, &two), Some(1));
    assert_eq!(rt; how_many(&jobs, &two), 2);
    let four = ServedFor { ticks: 4 };
    assert!(rt; !any(&jobs, &four));
    assert_eq!(rt; position(&jobs, &four), None);
    assert_eq!(rt; how_many(&jobs, &four), 0);
}
