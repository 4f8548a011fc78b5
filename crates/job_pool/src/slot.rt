//! A job and what it gave.
ghost use Rattle.std.specs.Prelude.{◌≡◌, ◌↔◌, IsTrue, Some};
ghost use Rattle.job_pool.specs.declared.job.Work.TheVariants.{Stop};
ghost use Rattle.job_pool.specs.Slots.{MayBeCalled, Says};

use crate::job::{Job, Work};

/// A job, and what it gave if it was called.
#[derive(Drop)]
pub struct Slot<J> {
    pub job: J,
    pub answer: Option<Work>,
}

impl<J: Job> Slot<J> {
    /// Calls the job unless it was called before. Returns whether it has given Stop.
    pub fn call(&mut self) -> bool
        ensures called { MayBeCalled J.state J.gives J.next self.old self.new }
        ensures says { Says result self.new.answer }
    {
        let answer = match self.answer {
            Some(answer) => answer,
            None => {
                let answer = self.job.work();
                self.answer = Some(answer);
                answer
            }
        };
        match answer {
            Work::Stop => true,
            Work::Value(_) => false,
        }
    }

    /// Returns whether the job was called and gave Stop.
    pub fn has_stopped(&self) -> bool
        ensures { IsTrue result ↔ (self.now.answer ≡ Some Stop) }
    {
        match self.answer {
            Some(Work::Stop) => true,
            Some(Work::Value(_)) => false,
            None => false,
        }
    }
}
