//! Reads lines of jobs from a source.
ghost use Rattle.std.specs.Prelude.{◌≡◌, ◌≤◌, ◌≢◌, length, IfOk, IfErr, IfSome, OnOk};
ghost use Rattle.std.specs.List.{AllByRecursion};
ghost use Rattle.std.specs.Io.KnownBytes.{IsAtEnd};
ghost use Rattle.exact_text.specs.Exact.{HasReason, OrMemory, lines_room};
ghost use Rattle.exact_text.specs.Intake.{IsReported};
ghost use Rattle.command_jobs.specs.JobLines.{IsJobs, IsLawful, ReadsAs, most_lines};

use crate::job_line::JobLine;
use crate::job_parse::AnyJob;
use exact_text::{Intake, TextFault, another_line};
use firefly_outside::Source;
use std::alloc::Global;

/// The greatest number of lines of a text.
pub const MOST_LINES: u64 = 100_000;

/// Reads all lines of the input.
///
/// `BadLine` names the first line at which the input is no prefix of a text, as soon as the bytes show it; where the input ends within a
/// line, that line. `TooLong` says that 100,000 lines stand first and that more bytes come, and `Read` that the source failed before the
/// bytes had shown one of these.
pub fn read_jobs<I: Source>(alloc: Global, input: &mut I) -> Result<Vec<JobLine>, TextFault>
    ensures lines { IfOk result (λ v. IfSome (I.left input.old) (λ bytes. ReadsAs bytes v.items)) }
    ensures lawful { IfOk result (λ v. AllByRecursion IsLawful v.items) }
    ensures few { IfOk result (λ v. length v.items ≤ most_lines) }
    ensures end { OnOk result (IsAtEnd (I.left input.new)) }
    ensures fault { IfErr result (OrMemory (HasReason IsJobs (lines_room most_lines) 0 (I.left input.old) (I.left input.new)
        (I.faults input.old) (I.faults input.new))) }
    ensures reported { IsReported (I.faults input.old) (I.faults input.new) result }
{
    let mut intake = Intake::new(u64::MAX - 1);
    let mut lines = Vec::new(alloc);
    loop {
        match another_line(&mut intake, input, &AnyJob, MOST_LINES) {
            Ok(Some(line)) => {
                if lines.push(line).is_err() {
                    return Err(TextFault::Memory);
                }
            }
            Ok(None) => return Ok(lines),
            Err(fault) => return Err(fault),
        }
    }
}
