// A condition on jobs of a caller's own.
ghost use Rattle.std.specs.Prelude.{◌≡◌, Bool};
ghost use Rattle.days.specs.declared.job.Job.{Job as TheJob};

use days::job::Job;

// It is a trait and no closure: who asks for the jobs that meet it then has to promise nothing.
pub trait Condition {
    ghost meets: { Self → TheJob → Bool };

    fn holds(&self, job: &Job) -> bool
        ensures { result ≡ meets self.now job.now };
}
