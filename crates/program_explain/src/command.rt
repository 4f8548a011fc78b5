//! The explanation of a trace, with its statuses and messages.
ghost use Rattle.std.specs.Prelude.{◌≡◌, ◌⊎◌};
ghost use Rattle.command_endings.specs.Changes.{change_of};
ghost use Rattle.command_check.specs.VerdictEndings.{status_of};
ghost use Rattle.program_explain.specs.Command.{Fails, NotesFor, Explains};

use command_check::CHECK_BUDGET;
use command_endings::{Ending, Status, ends};
use firefly_outside::{Sink, Source};
use trace_check::Verdict;
use trace_explain::explain;

// Says why the input is refused where no explanation does, and answers the status that goes with the verdict.
fn ends_by<N: Sink>(notes: &mut N, found: &Verdict) -> Status
    ensures status { result ≡ status_of found.now }
    ensures notes { NotesFor (change_of N.held N.faults notes.old notes.new) found.now }
{
    match found {
        Verdict::Legal(_) => Status::Done,
        Verdict::Illegal { .. } => Status::Illegal,
        Verdict::BadLine(_) => Status::BadText,
        Verdict::TooLong => ends(notes, Ending::TooLong),
        Verdict::ReadFault => ends(notes, Ending::InputFault),
    }
}

/// Explains the trace that the input gives.
pub fn explain_input<I: Source, O: Sink, N: Sink>(
    input: &mut I,
    out: &mut O,
    notes: &mut N,
) -> Status
    ensures { Explains (change_of I.left I.faults input.old input.new) (change_of O.held O.faults out.old out.new)
        (change_of N.held N.faults notes.old notes.new) result
        ⊎ Fails (change_of I.left I.faults input.old input.new) (change_of O.held O.faults out.old out.new)
        (change_of N.held N.faults notes.old notes.new) result }
{
    match explain(input, CHECK_BUDGET, out) {
        Ok(found) => ends_by(notes, &found),
        Err(_) => ends(notes, Ending::OutputFault),
    }
}
