//! The command `jobs`.
ghost use Rattle.std.specs.Prelude.{◌≡◌, ◌≤◌, length};
ghost use Rattle.std.specs.List.{AllByRecursion};
ghost use Rattle.command_endings.specs.Changes.{change_of};
ghost use Rattle.command_endings.specs.Endings.{ReportsFault};
ghost use Rattle.command_jobs.specs.JobLines.{most_lines};
ghost use Rattle.command_jobs.specs.Jobs.{Decided, JobsAnswers, Runs};

use crate::job_line::JobLine;
use crate::job_read::read_jobs;
use crate::lines::print_values;
use crate::run::run_lines;
use command_endings::{Ending, Status, ends, ends_unread};
use firefly_outside::{Sink, Source};
use job_pool::PoolEnd;
use std::alloc::Global;
use std::sync::Wait;
use std::thread::Threads;

// Runs the jobs of the lines, and prints their values.
fn run_read<R: Threads + Wait + Sync, O: Sink, N: Sink>(
    rt: &R,
    alloc: Global,
    workers: u32,
    lines: Vec<JobLine>,
    out: &mut O,
    notes: &mut N,
) -> Status
    requires workers { (1 ≤ workers) × (workers ≤ 8) }
    requires few { length lines.items ≤ most_lines }
    ensures { Runs lines.items (change_of O.held O.faults out.old out.new) (change_of N.held N.faults notes.old notes.new) result }
{
    match run_lines(rt, alloc, workers, lines) {
        PoolEnd::Done(values) => print_values(values.as_slice(), out, notes),
        PoolEnd::Stopped(place) => ends(notes, Ending::StoppedBy(place)),
        PoolEnd::Memory => ends(notes, Ending::Memory),
    }
}

/// Runs the jobs of the input's lines by `workers` workers, and prints the value of each after its
/// place. If a line is `stop`, reports which one stopped the others, and prints no value. Returns
/// the status.
pub fn run_jobs_command<R: Threads + Wait + Sync, I: Source, O: Sink, N: Sink>(
    rt: &R,
    alloc: Global,
    workers: u32,
    input: &mut I,
    out: &mut O,
    notes: &mut N,
) -> Status
    requires some { 1 ≤ workers }
    requires few { workers ≤ 8 }
    ensures answers { JobsAnswers (change_of I.left I.faults input.old input.new) (change_of O.held O.faults out.old out.new)
        (change_of N.held N.faults notes.old notes.new) result }
    ensures exact { Decided (change_of I.left I.faults input.old input.new) result }
    ensures reported { ReportsFault (change_of I.left I.faults input.old input.new) result }
{
    match read_jobs(alloc, input) {
        Ok(lines) => run_read(rt, alloc, workers, lines, out, notes),
        Err(fault) => ends_unread(notes, fault),
    }
}
