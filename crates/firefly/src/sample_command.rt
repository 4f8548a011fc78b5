//! The command `sample`.
ghost use Rattle.std.specs.Prelude.{◌≤◌};
ghost use Rattle.index_sample.specs.Text.{summary_text};
ghost use Rattle.command_endings.specs.Changes.{change_of};
ghost use Rattle.command_endings.specs.Printing.{Prints};
ghost use Rattle.firefly.specs.SampleCommand.{SampleAnswers};

use command_endings::{Ending, Status, ends};
use firefly_outside::Sink;
use index_sample::{SampleSums, index_summary, print_summary};
use std::alloc::Global;
use std::sync::Wait;
use std::thread::Threads;

// Writes the lines of the sums.
fn print<O: Sink, N: Sink>(sums: &SampleSums, out: &mut O, notes: &mut N) -> Status
    ensures { Prints (summary_text sums.now) Status.Done (change_of O.held O.faults out.old out.new)
        (change_of N.held N.faults notes.old notes.new) result }
{
    match print_summary(sums, out) {
        Ok(()) => Status::Done,
        Err(_) => ends(notes, Ending::OutputFault),
    }
}

/// Prints the sums of the index of the sample tree. Returns the status.
pub fn run_sample<R: Threads + Wait + Sync, O: Sink, N: Sink>(
    rt: &R,
    alloc: Global,
    seed: u64,
    files: u32,
    out: &mut O,
    notes: &mut N,
) -> Status
    requires some { 1 ≤ files }
    requires few { files ≤ 20000 }
    ensures { SampleAnswers seed files (change_of O.held O.faults out.old out.new) (change_of N.held N.faults notes.old notes.new) result }
{
    match index_summary(rt, alloc, seed, files) {
        Ok(sums) => print(&sums, out, notes),
        Err(_) => ends(notes, Ending::Memory),
    }
}
