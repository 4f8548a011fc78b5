//! The command `index`.
ghost use Rattle.std.specs.Prelude.{◌≡◌, ◌≢◌, ◌≤◌, length};
ghost use Rattle.command_line.specs.Grammar.{AreInRange};
ghost use Rattle.command_line.specs.Tasks.{options_of};
ghost use Rattle.index_print.specs.Text.{index_text};
ghost use Rattle.command_endings.specs.Changes.{change_of};
ghost use Rattle.command_endings.specs.Printing.{Prints};
ghost use Rattle.firefly.specs.IndexCommand.{IndexAnswers};
ghost use Rattle.firefly.specs.IndexRun.{AreSpared};
ghost use Rattle.firefly.specs.Looks.{Agree, AreOwn, KeepTrees, look_of, looks_of};

use crate::index_run::index_by;
use command_endings::{Ending, Status, ends};
use command_line::IndexOptions;
use firefly_outside::{Sink, Tree};
use index_print::print_index;
use std::alloc::Global;
use std::sync::Wait;
use std::thread::Threads;
use word_index::Piece;

// Writes the index text of the piece.
fn print<O: Sink, N: Sink>(piece: &Piece, out: &mut O, notes: &mut N) -> Status
    ensures { Prints (index_text piece.now) Status.Done (change_of O.held O.faults out.old out.new)
        (change_of N.held N.faults notes.old notes.new) result }
{
    match print_index(piece, out) {
        Ok(()) => Status::Done,
        Err(_) => ends(notes, Ending::OutputFault),
    }
}

/// Prints the index of the directory. Returns the status.
pub fn run_index<R: Threads + Wait + Sync, S: Tree, O: Sink, N: Sink>(
    rt: &R,
    alloc: Global,
    options: &IndexOptions,
    trees: &mut [Option<S>],
    out: &mut O,
    notes: &mut N,
) -> Status
    requires range { AreInRange (options_of options.now) }
    requires enough { 17 ≤ length trees.old }
    requires agree { Agree (looks_of (look_of S.tree S.may_fail S.calls S.faults) trees.old) }
    ensures answers { IndexAnswers (options_of options.now) (looks_of (look_of S.tree S.may_fail S.calls S.faults) trees.old)
        (looks_of (look_of S.tree S.may_fail S.calls S.faults) trees.new) (change_of O.held O.faults out.old out.new)
        (change_of N.held N.faults notes.old notes.new) result }
    ensures kept { result ≢ Status.Memory → KeepTrees (looks_of (look_of S.tree S.may_fail S.calls S.faults) trees.old)
        (looks_of (look_of S.tree S.may_fail S.calls S.faults) trees.new) }
    ensures own { AreOwn (looks_of (look_of S.tree S.may_fail S.calls S.faults) trees.old)
        (looks_of (look_of S.tree S.may_fail S.calls S.faults) trees.new) }
    ensures spared { AreSpared (options_of options.now) (looks_of (look_of S.tree S.may_fail S.calls S.faults) trees.old)
        (looks_of (look_of S.tree S.may_fail S.calls S.faults) trees.new) }
{
    match index_by(rt, alloc, options, false, trees, notes) {
        Ok((piece, closed)) => {
            drop(closed);
            let status = print(&piece, out, notes);
            drop(piece);
            status
        }
        Err(status) => status,
    }
}
