//! Reading the line of a job.
ghost use Rattle.std.specs.Prelude.{◌≡◌, codes};
ghost use Rattle.exact_text.specs.Reading.{Gives, after_word, number_at};
ghost use Rattle.command_jobs.specs.JobReading.{job_at};

use crate::job_line::JobLine;
use exact_text::{NextLine, Stop, number, word};

/// The greatest number that a line may have.
pub const MOST: u32 = 1_000_000;

// Reads the line of a sum: the number at which it ends, and what follows the line.
fn sum(bytes: &[u8]) -> Result<(u32, &[u8]), Stop>
    ensures { Gives (λ x. (x.0, x.1.now)) result (after_word (codes "sum ") (number_at 0 1000001 10) bytes.now) }
{
    match word(bytes, b"sum ") {
        Ok(rest) => number(rest, 0, MOST + 1, b'\n'),
        Err(stop) => Err(stop),
    }
}

// Reads the line of a job, and returns what follows it.
fn job(bytes: &[u8]) -> Result<(JobLine, &[u8]), Stop>
    ensures { Gives (λ x. (x.0, x.1.now)) result (job_at bytes.now) }
{
    match word(bytes, b"stop\n") {
        Err(Stop::Dead) => {}
        Err(Stop::More) => return Err(Stop::More),
        Ok(rest) => return Ok((JobLine::Stop, rest)),
    }
    match sum(bytes) {
        Ok((last, rest)) => Ok((JobLine::Sum(last), rest)),
        Err(stop) => Err(stop),
    }
}

/// The line of any job.
pub struct AnyJob;

impl NextLine for AnyJob {
    ghost use Rattle.command_jobs.specs.JobLines.{IsLawful, line_text};
    ghost use Rattle.command_jobs.specs.JobReading.{job_at, job_code, job_is_line, some_job};

    type Line = JobLine;

    ghost is_possible = { λ s. Unit {0} };

    ghost is_lawful = { λ s. IsLawful };

    ghost text = { λ s. line_text };

    ghost reads = { λ s. job_at };

    ghost is_exact = { λ s ok. job_code };

    ghost is_line = { λ s ok. job_is_line };

    ghost is_some = { λ s ok. some_job };

    fn read<'b>(&self, bytes: &'b [u8]) -> Result<(JobLine, &'b [u8]), Stop> {
        job(bytes)
    }
}
