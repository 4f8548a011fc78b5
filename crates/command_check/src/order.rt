//! The command `order`.
ghost use Rattle.command_endings.specs.Changes.{change_of};
ghost use Rattle.command_endings.specs.Endings.{ReportsFault};
ghost use Rattle.command_check.specs.Order.{OrderAnswers, Ordered};

use crate::order_lines::{lines_of, no_cycle};
use crate::verdict_ending::CHECK_BUDGET;
use crate::verdict_line::illegal;
use command_endings::{Ending, Status, ends, print};
use firefly_outside::{Sink, Source};
use lock_order::{OrderAnswer, lock_order};

/// Tells whether the trace that the input gives has a cycle in the order in which its mutexes were got, and one of them.
pub fn run_order<I: Source, O: Sink, N: Sink>(input: &mut I, out: &mut O, notes: &mut N) -> Status
    ensures answers { OrderAnswers (change_of I.left I.faults input.old input.new) (change_of O.held O.faults out.old out.new)
        (change_of N.held N.faults notes.old notes.new) result }
    ensures exact { Ordered (change_of I.left I.faults input.old input.new) result }
    ensures reported { ReportsFault (change_of I.left I.faults input.old input.new) result }
{
    match lock_order(input, CHECK_BUDGET) {
        OrderAnswer::NoCycle(events) => print(no_cycle(events).as_str(), Status::Done, out, notes),
        OrderAnswer::Found(cycle) => print(lines_of(&cycle).as_str(), Status::Done, out, notes),
        OrderAnswer::Illegal { place, why } => {
            print(illegal(place, why).as_str(), Status::Illegal, out, notes)
        }
        OrderAnswer::BadLine(line) => ends(notes, Ending::BadLine(line)),
        OrderAnswer::TooLong => ends(notes, Ending::TooLong),
        OrderAnswer::ReadFault => ends(notes, Ending::InputFault),
    }
}
