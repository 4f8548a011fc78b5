//! The command `check`.
ghost use Rattle.command_endings.specs.Changes.{change_of};
ghost use Rattle.command_check.specs.Check.{CheckAnswers};
ghost use Rattle.command_endings.specs.Endings.{ReportsFault};
ghost use Rattle.command_check.specs.VerdictEndings.{Found};

use crate::verdict_ending::{CHECK_BUDGET, ends_by};
use crate::verdict_line::{illegal, legal};
use command_endings::{Status, print};
use firefly_outside::{Sink, Source};
// By the loop that the command `order` reads with: with a loop for each, the compiler leaves the reader apart from both, and an event takes
// 243 instructions in place of 141.
use lock_order::check;
use trace_check::Verdict;

/// Checks the trace that the input gives, and writes the verdict.
pub fn run_check<I: Source, O: Sink, N: Sink>(input: &mut I, out: &mut O, notes: &mut N) -> Status
    ensures answers { CheckAnswers (change_of I.left I.faults input.old input.new) (change_of O.held O.faults out.old out.new)
        (change_of N.held N.faults notes.old notes.new) result }
    ensures exact { Found (change_of I.left I.faults input.old input.new) result }
    ensures reported { ReportsFault (change_of I.left I.faults input.old input.new) result }
{
    match check(input, CHECK_BUDGET) {
        Verdict::Legal(summary) => print(legal(&summary).as_str(), Status::Done, out, notes),
        Verdict::Illegal { place, why } => {
            print(illegal(place, why).as_str(), Status::Illegal, out, notes)
        }
        unread => ends_by(notes, &unread),
    }
}
