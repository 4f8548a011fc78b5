//! The job of a line.
ghost use Rattle.std.specs.Prelude.{◌≡◌};
ghost use Rattle.command_jobs.specs.Values.{sum_to};

use crate::job_line::JobLine;
use job_pool::{Job, Work};

/// Returns the sum of the numbers from 0 to `last`.
fn sum_up(last: u32) -> u64
    ensures { result ≡ sum_to last }
{
    let last = u64::from(last);
    last * (last + 1) / 2
}

/// The job that a line describes.
#[derive(Drop)]
pub struct LineJob(pub JobLine);

impl Job for LineJob {
    ghost use Rattle.command_jobs.specs.Values.{state_of, work_of};

    ghost state = { λ j. state_of j.0 };

    ghost gives = { λ j. work_of j.0 };

    ghost next = { λ j. state_of j.0 };

    fn work(&mut self) -> Work {
        match self.0 {
            JobLine::Sum(last) => Work::Value(sum_up(last)),
            JobLine::Stop => Work::Stop,
        }
    }
}
