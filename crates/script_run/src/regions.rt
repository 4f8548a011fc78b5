//! Which threads are forked below which.
ghost use Rattle.std.specs.Prelude.{◌≡◌, ◌≤◌, ◌++◌, [], length, drop, OnOk, IfOk};
ghost use Rattle.script_run.specs.Regions.{forking, region};

use script_text::{Line, Operation};
use std::alloc::{AllocError, Global};

// Appends the threads that the lines from this one on fork below the thread, and then the thread.
fn add(lines: &[Line], at: usize, thread: u32, order: &mut Vec<u32>) -> Result<(), AllocError>
    requires { at ≤ length lines.now }
    ensures { OnOk result (order.new.items ≡ order.old.items ++ region (drop at lines.now) thread) }
{
    for next in at..lines.len() {
        let line = lines[next];
        if line.thread.0 == thread {
            if let Operation::Fork { who } = line.operation {
                add(lines, next + 1, who.0, order)?;
            }
        }
    }
    order.push(thread)?;
    Ok(())
}

// The lines that fork threads, in order. They are few, and looking for a thread's forks goes
// through these alone.
fn forks_of(alloc: Global, lines: &[Line]) -> Result<Vec<Line>, AllocError>
    ensures { IfOk result (λ v. v.items ≡ forking lines.now) }
{
    let mut forks = Vec::with_capacity(alloc, 256)?;
    for line in lines {
        if let Operation::Fork { who: _ } = line.operation {
            forks.push(*line)?;
        }
    }
    Ok(forks)
}

/// Returns all threads that a run of this script of version two has, each after all that are forked
/// below it, so that thread 0 is the last. Fails only if there is no memory.
pub fn order_of(alloc: Global, lines: &[Line]) -> Result<Vec<u32>, AllocError>
    ensures { IfOk result (λ v. v.items ≡ region lines.now 0) }
{
    let forks = forks_of(alloc, lines)?;
    let mut order = Vec::with_capacity(alloc, 256)?;
    add(&forks, 0, 0, &mut order)?;
    Ok(order)
}
