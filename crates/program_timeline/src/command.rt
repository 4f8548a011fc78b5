//! The picture of a trace, or its events as JSON, with their statuses and messages.
ghost use Rattle.std.specs.Prelude.{◌⊎◌};
ghost use Rattle.command_endings.specs.Changes.{change_of};
ghost use Rattle.command_check.specs.VerdictEndings.{Found};
ghost use Rattle.program_timeline.specs.Command.{Fails, Shows, ReportsFault, WriteFails, Writes};

use command_check::{CHECK_BUDGET, ends_by};
use command_endings::{Ending, Status, ends};
use firefly_outside::{Sink, Source};
use trace_json::write_events;
use trace_picture::draw_trace;
use trace_shapes::DrawnRange;

/// Draws the trace that the input gives.
pub fn timeline<I: Source, O: Sink, N: Sink>(
    view: &DrawnRange,
    input: &mut I,
    out: &mut O,
    notes: &mut N,
) -> Status
    ensures answers { Shows view.now (change_of I.left I.faults input.old input.new) (change_of O.held O.faults out.old out.new)
        (change_of N.held N.faults notes.old notes.new) result
        ⊎ Fails view.now (change_of I.left I.faults input.old input.new) (change_of O.held O.faults out.old out.new)
        (change_of N.held N.faults notes.old notes.new) result }
    ensures exact { Found (change_of I.left I.faults input.old input.new) result }
    ensures reported { ReportsFault (change_of I.left I.faults input.old input.new) result }
{
    match draw_trace(input, CHECK_BUDGET, view, out) {
        Ok(found) => ends_by(notes, &found),
        Err(_) => ends(notes, Ending::OutputFault),
    }
}

/// Writes the events of the trace that the input gives, as JSON.
pub fn events<I: Source, O: Sink, N: Sink>(input: &mut I, out: &mut O, notes: &mut N) -> Status
    ensures answers { Writes (change_of I.left I.faults input.old input.new) (change_of O.held O.faults out.old out.new)
        (change_of N.held N.faults notes.old notes.new) result
        ⊎ WriteFails (change_of I.left I.faults input.old input.new) (change_of O.held O.faults out.old out.new)
        (change_of N.held N.faults notes.old notes.new) result }
    ensures exact { Found (change_of I.left I.faults input.old input.new) result }
    ensures reported { ReportsFault (change_of I.left I.faults input.old input.new) result }
{
    match write_events(input, CHECK_BUDGET, out) {
        Ok(verdict) => ends_by(notes, &verdict),
        Err(_) => ends(notes, Ending::OutputFault),
    }
}
