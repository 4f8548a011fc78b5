//! How a command ends by what the check of its trace found.
ghost use Rattle.std.specs.Prelude.{◌≡◌};
ghost use Rattle.command_endings.specs.Changes.{change_of};
ghost use Rattle.command_check.specs.VerdictEndings.{NotesFor, status_of};

use command_endings::{Ending, Status, ends};
use firefly_outside::Sink;
use trace_check::Verdict;

/// How many bytes of an input are checked.
pub const CHECK_BUDGET: u64 = 1_099_511_627_776;

/// Says why the input can't be read, where it can't, and answers the status that goes with the verdict.
pub fn ends_by<N: Sink>(notes: &mut N, found: &Verdict) -> Status
    ensures status { result ≡ status_of found.now }
    ensures notes { NotesFor (change_of N.held N.faults notes.old notes.new) found.now }
{
    match found {
        Verdict::Legal(_) => Status::Done,
        Verdict::Illegal { .. } => Status::Illegal,
        Verdict::BadLine(line) => ends(notes, Ending::BadLine(*line)),
        Verdict::TooLong => ends(notes, Ending::TooLong),
        Verdict::ReadFault => ends(notes, Ending::InputFault),
    }
}
