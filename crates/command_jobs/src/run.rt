//! The jobs of lines, run by a pool.
ghost use Rattle.std.specs.Prelude.{◌≡◌, ◌≤◌, length, map, IfOk};
ghost use Rattle.command_jobs.specs.JobLines.{most_lines};
ghost use Rattle.command_jobs.specs.Jobs.{HaveRun};

use crate::job::LineJob;
use crate::job_line::JobLine;
use job_pool::{PoolEnd, run_jobs};
use std::alloc::{AllocError, Global};
use std::sync::Wait;
use std::thread::Threads;

// The job of each line.
fn jobs_of(alloc: Global, lines: Vec<JobLine>) -> Result<Vec<LineJob>, AllocError>
    ensures { IfOk result (λ v. v.items ≡ map (λ l. record { 0 = l }) lines.items) }
{
    lines.into_iter().map(LineJob).collect(alloc)
}

/// Runs the jobs of the lines by `workers` workers.
pub fn run_lines<R: Threads + Wait + Sync>(
    rt: &R,
    alloc: Global,
    workers: u32,
    lines: Vec<JobLine>,
) -> PoolEnd
    requires workers { (1 ≤ workers) × (workers ≤ 8) }
    requires few { length lines.items ≤ most_lines }
    ensures { HaveRun lines.items result }
{
    let Ok(jobs) = jobs_of(alloc, lines) else {
        return PoolEnd::Memory;
    };
    let (end, _back) = run_jobs(rt, alloc, workers, jobs);
    end
}
