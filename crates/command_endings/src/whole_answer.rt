//! The whole answer of a command.
ghost use Rattle.command_endings.specs.Changes.{change_of};
ghost use Rattle.command_endings.specs.Printing.{Prints};

use crate::Status;
use crate::ending::{Ending, ends};
use firefly_outside::{Sink, put_all};

/// Writes the text, and answers this status where all of it was taken.
pub fn print<O: Sink, N: Sink>(text: &str, status: Status, out: &mut O, notes: &mut N) -> Status
    ensures { Prints text.now status (change_of O.held O.faults out.old out.new) (change_of N.held N.faults notes.old notes.new) result }
{
    match put_all(out, text.as_bytes()) {
        Ok(()) => status,
        Err(_) => ends(notes, Ending::OutputFault),
    }
}
