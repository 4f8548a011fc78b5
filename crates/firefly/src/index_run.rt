//! The index run of the commands `index` and `trace`.
ghost use Rattle.std.specs.Prelude.{◌≡◌, ◌≢◌, ◌≤◌, List, Err, Some, length, IfErr, IfOk};
ghost use Rattle.larch_actions.specs.declared.event.Event.{Event};
ghost use Rattle.command_line.specs.Grammar.{AreInRange};
ghost use Rattle.command_line.specs.Tasks.{options_of};
ghost use Rattle.indexer.specs.Plans.{IsPlan};
ghost use Rattle.indexer.specs.Says.{IsRunOf};
ghost use Rattle.command_endings.specs.Changes.{change_of};
ghost use Rattle.firefly.specs.IndexRun.{AreAskedOnce, AreSpared, IsTheIndex, NoIndex, NoneRose, ShowsWork, plan_of};
ghost use Rattle.firefly.specs.Looks.{Agree, AreOwn, KeepTrees, look_of, looks_of};

use command_endings::{Ending, Status, ends};
use command_line::IndexOptions;
use firefly_outside::{Sink, Tree};
use indexer::{BeginsAtOnce, IndexAnswer, IndexUses, Plan, index};
use nub::Closed;
use std::alloc::Global;
use std::sync::Wait;
use std::thread::Threads;
use word_index::Piece;

// The plan of these options.
fn plan_by(options: &IndexOptions, traced: bool) -> Plan
    requires { AreInRange (options_of options.now) }
    ensures plan { result ≡ plan_of (options_of options.now) traced }
    ensures lawful { IsPlan result }
{
    Plan {
        walkers: options.walkers,
        parsers: options.parsers,
        mergers: options.mergers,
        stop_after: options.stop_after,
        traced,
    }
}

/// Makes the index of the directory. Returns it with the closed package of the run that made it. If
/// there is none, prints the reason to `notes` and returns its status.
pub fn index_by<R: Threads + Wait + Sync, S: Tree, N: Sink>(
    rt: &R,
    alloc: Global,
    options: &IndexOptions,
    traced: bool,
    trees: &mut [Option<S>],
    notes: &mut N,
) -> Result<(Piece, Closed<IndexUses>), Status>
    requires range { AreInRange (options_of options.now) }
    requires enough { 17 ≤ length trees.old }
    requires agree { Agree (looks_of (look_of S.tree S.may_fail S.calls S.faults) trees.old) }
    ensures is_index { IfOk result (λ r. IsTheIndex (options_of options.now)
        (looks_of (look_of S.tree S.may_fail S.calls S.faults) trees.old) r.0) }
    ensures none_rose { IfOk result (λ r. NoneRose (looks_of (look_of S.tree S.may_fail S.calls S.faults) trees.old)
        (looks_of (look_of S.tree S.may_fail S.calls S.faults) trees.new)) }
    ensures once { IfOk result (λ r. AreAskedOnce (options_of options.now)
        (looks_of (look_of S.tree S.may_fail S.calls S.faults) trees.old)
        (looks_of (look_of S.tree S.may_fail S.calls S.faults) trees.new)) }
    ensures run { IfOk result (λ r. IsRunOf (plan_of (options_of options.now) traced) r.1) }
    ensures work { IfOk result (λ r. (h : List Event) → r.1.trace ≡ Some h
        → ShowsWork (options_of options.now) (looks_of (look_of S.tree S.may_fail S.calls S.faults) trees.old)
        (looks_of (look_of S.tree S.may_fail S.calls S.faults) trees.new) h) }
    ensures quiet { IfOk result (λ r. notes.new ≡ notes.old) }
    ensures refused { IfErr result (λ status. NoIndex (options_of options.now)
        (looks_of (look_of S.tree S.may_fail S.calls S.faults) trees.old)
        (looks_of (look_of S.tree S.may_fail S.calls S.faults) trees.new) (change_of N.held N.faults notes.old notes.new) status) }
    ensures kept { result ≢ Err Status.Memory → KeepTrees (looks_of (look_of S.tree S.may_fail S.calls S.faults) trees.old)
        (looks_of (look_of S.tree S.may_fail S.calls S.faults) trees.new) }
    ensures own { AreOwn (looks_of (look_of S.tree S.may_fail S.calls S.faults) trees.old)
        (looks_of (look_of S.tree S.may_fail S.calls S.faults) trees.new) }
    ensures spared { AreSpared (options_of options.now) (looks_of (look_of S.tree S.may_fail S.calls S.faults) trees.old)
        (looks_of (look_of S.tree S.may_fail S.calls S.faults) trees.new) }
{
    let plan = plan_by(options, traced);
    match index(rt, alloc, options.dir, &plan, trees, &BeginsAtOnce) {
        IndexAnswer::Stopped(found) => Err(ends(
            notes,
            Ending::Stopped {
                found,
                allowed: options.stop_after.unwrap_or(0),
            },
        )),
        IndexAnswer::ReadFault(path) => Err(ends(notes, Ending::Unreadable(path.as_str()))),
        IndexAnswer::TooMany(_) => Err(ends(notes, Ending::TooMany)),
        IndexAnswer::Memory => Err(ends(notes, Ending::Memory)),
        IndexAnswer::Done(piece, closed) => Ok((piece, closed)),
    }
}
