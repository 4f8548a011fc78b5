//! The command `run`.
ghost use Rattle.script_text.specs.Text.{IsScript};
ghost use Rattle.command_endings.specs.Changes.{change_of};
ghost use Rattle.command_endings.specs.Endings.{ReportsFault};
ghost use Rattle.firefly.specs.RunCommand.{RunAnswers, Runs, Decides};

use crate::print_trace::print_trace;
use command_endings::{Ending, Status, ends, ends_unread};
use firefly_outside::{Sink, Source};
use package_crew::BeginsAtOnce;
use script_run::run_script;
use script_text::{Script, read_script};
use std::alloc::Global;
use std::sync::Wait;
use std::thread::Threads;

// Runs the script, and writes its trace once it has ended.
fn run_read<R: Threads + Wait + Sync, O: Sink, N: Sink>(
    rt: &R,
    alloc: Global,
    script: &Script,
    out: &mut O,
    notes: &mut N,
) -> Status
    requires { IsScript script.now.layout script.now.lines }
    ensures { Runs script.now.layout script.now.lines (change_of O.held O.faults out.old out.new)
        (change_of N.held N.faults notes.old notes.new) result }
{
    match run_script(rt, alloc, script, &BeginsAtOnce) {
        Ok(closed) => {
            let status = print_trace(&closed, closed.values(), out, notes);
            drop(closed);
            status
        }
        Err(_) => ends(notes, Ending::Memory),
    }
}

/// Runs the script that the input is, and prints the trace of the run. Returns the status.
pub fn run_input<R: Threads + Wait + Sync, I: Source, O: Sink, N: Sink>(
    rt: &R,
    alloc: Global,
    input: &mut I,
    out: &mut O,
    notes: &mut N,
) -> Status
    ensures answers { RunAnswers (change_of I.left I.faults input.old input.new) (change_of O.held O.faults out.old out.new)
        (change_of N.held N.faults notes.old notes.new) result }
    ensures exact { Decides (change_of I.left I.faults input.old input.new) result }
    ensures reported { ReportsFault (change_of I.left I.faults input.old input.new) result }
{
    match read_script(alloc, input) {
        Ok(script) => run_read(rt, alloc, &script, out, notes),
        Err(fault) => ends_unread(notes, fault),
    }
}
