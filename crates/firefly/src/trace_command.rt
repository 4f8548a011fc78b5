//! The command `trace`.
ghost use Rattle.std.specs.Prelude.{◌≡◌, ◌≢◌, ◌≤◌, length};
ghost use Rattle.command_line.specs.Grammar.{AreInRange};
ghost use Rattle.command_line.specs.Tasks.{options_of};
ghost use Rattle.command_endings.specs.Changes.{change_of};
ghost use Rattle.firefly.specs.IndexRun.{AreSpared};
ghost use Rattle.firefly.specs.Looks.{Agree, AreOwn, KeepTrees, look_of, looks_of};
ghost use Rattle.firefly.specs.TraceCommand.{TraceAnswers};

use crate::index_run::index_by;
use crate::print_trace::print_trace;
use command_endings::Status;
use command_line::IndexOptions;
use firefly_outside::{Sink, Tree};
use std::alloc::Global;
use std::sync::Wait;
use std::thread::Threads;

/// Prints the trace of the run that makes the index of the directory. Returns the status.
pub fn run_trace<R: Threads + Wait + Sync, S: Tree, O: Sink, N: Sink>(
    rt: &R,
    alloc: Global,
    options: &IndexOptions,
    trees: &mut [Option<S>],
    out: &mut O,
    notes: &mut N,
) -> Status
    requires range { AreInRange (options_of options.now) }
    requires enough { 17 ≤ length trees.old }
    requires agree { Agree (looks_of (look_of S.tree S.may_fail S.calls S.faults) trees.old) }
    ensures answers { TraceAnswers (options_of options.now) (looks_of (look_of S.tree S.may_fail S.calls S.faults) trees.old)
        (looks_of (look_of S.tree S.may_fail S.calls S.faults) trees.new) (change_of O.held O.faults out.old out.new)
        (change_of N.held N.faults notes.old notes.new) result }
    ensures kept { result ≢ Status.Memory → KeepTrees (looks_of (look_of S.tree S.may_fail S.calls S.faults) trees.old)
        (looks_of (look_of S.tree S.may_fail S.calls S.faults) trees.new) }
    ensures own { AreOwn (looks_of (look_of S.tree S.may_fail S.calls S.faults) trees.old)
        (looks_of (look_of S.tree S.may_fail S.calls S.faults) trees.new) }
    ensures spared { AreSpared (options_of options.now) (looks_of (look_of S.tree S.may_fail S.calls S.faults) trees.old)
        (looks_of (look_of S.tree S.may_fail S.calls S.faults) trees.new) }
{
    match index_by(rt, alloc, options, true, trees, notes) {
        Ok((piece, closed)) => {
            drop(piece);
            let status = print_trace(&closed, &[], out, notes);
            drop(closed);
            status
        }
        Err(status) => status,
    }
}
