//! The trace of a run, as its command writes it.
ghost use Rattle.std.specs.Prelude.{◌≡◌, ◌≤◌, List, Some, length};
ghost use Rattle.std.specs.List.{AllByRecursion};
ghost use Rattle.larch_actions.specs.declared.event.Event.{Event};
ghost use Rattle.larch_actions.specs.Layout.{IsLawful, HasNames};
ghost use Rattle.trace_core.specs.Text.{trace_text, ReadsAs};
ghost use Rattle.trace_core.specs.Whole.{numbered};
ghost use Rattle.command_endings.specs.Changes.{change_of};
ghost use Rattle.command_endings.specs.Printing.{Prints};

use command_endings::{Ending, Status, ends};
use firefly_outside::Sink;
use nub::Closed;
use nub_rule::Uses;
use trace_core::laws::print_whole;

/// Writes the trace of a run that has ended, followed by the value at each place with the mutex of
/// that number. Returns the status.
pub fn print_trace<U: Uses, O: Sink, N: Sink>(
    closed: &Closed<U>,
    values: &[u64],
    out: &mut O,
    notes: &mut N,
) -> Status
    requires lawful { IsLawful closed.now.layout }
    requires traced { (h : List Event) × (closed.now.trace ≡ Some h) × AllByRecursion (HasNames closed.now.layout) h }
    requires values { length values.now ≤ closed.now.layout.mutexes }
    ensures printed { (h : List Event) → closed.now.trace ≡ Some h
        → Prints (trace_text closed.now.layout h (numbered 0 values.now)) Status.Done (change_of O.held O.faults out.old out.new)
        (change_of N.held N.faults notes.old notes.new) result }
    ensures reads { (h : List Event) → closed.now.trace ≡ Some h
        → ReadsAs (trace_text closed.now.layout h (numbered 0 values.now)) closed.now.layout h (numbered 0 values.now) }
{
    let Some(events) = closed.trace() else {
        unreachable!()
    };
    match print_whole(&closed.layout(), events, values, out) {
        Ok(()) => Status::Done,
        Err(_) => ends(notes, Ending::OutputFault),
    }
}
