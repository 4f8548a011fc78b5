//! Jobs, and what they give.
ghost use Rattle.std.specs.Prelude.{◌≡◌, List, ℕ};

/// What one call of a job gives: a number, or Stop, which asks the pool to stop.
#[derive(Clone, Copy, Debug, PartialEq, Eq)]
pub enum Work {
    Value(u64),
    Stop,
}

/// Something that a pool does at most once.
///
/// ```rust
/// impl Job for Block<'_> {
///     ghost state = { λ b. b.0.now };
///
///     ghost gives = { λ b. Value (checksum_of b.0.now) };
///
///     ghost next = { λ b. b.0.now };
///
///     fn work(&mut self) -> Work {
///         Work::Value(checksum(self.0))
///     }
/// }
/// ```
pub trait Job: Send + Drop {
    ghost use Rattle.job_pool.specs.declared.job.Work.{Work};

    /// The job's state, as contracts see it.
    ghost state: { Self → List ℕ };

    /// What one call of the job gives.
    ghost gives: { Self → Work };

    /// The job's state after one call.
    ghost next: { Self → List ℕ };

    /// Does the work of the job, which a pool asks for at most once.
    fn work(&mut self) -> Work
        ensures gives { result ≡ gives self.old }
        ensures next { state self.new ≡ next self.old };
}

/// A job of any type, in a box.
#[derive(Drop)]
pub struct BoxJob(pub Box<dyn Job + Send>);

impl Job for BoxJob {
    ghost state = { λ b. (Job-box b.0).state b.0.value };

    ghost gives = { λ b. (Job-box b.0).gives b.0.value };

    ghost next = { λ b. (Job-box b.0).next b.0.value };

    fn work(&mut self) -> Work {
        self.0.work()
    }
}
