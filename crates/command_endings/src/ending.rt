//! How a command ends that wrote no whole answer.
ghost use Rattle.std.specs.Prelude.{◌≡◌};
ghost use Rattle.command_endings.specs.Changes.{Notes, change_of};
ghost use Rattle.command_endings.specs.Endings.{SaysFault, message_of, status_of};

use crate::Status;
use crate::message::{
    INPUT_FAULT, OUT_OF_MEMORY, OUTPUT_FAULT, TOO_LONG, TOO_MANY, USAGE, say, say_bad_line,
    say_stopped, say_stopped_by, say_unreadable,
};
use exact_text::TextFault;
use firefly_outside::Sink;

/// Why no whole answer was written.
#[derive(Clone, Copy)]
pub enum Ending<'a> {
    /// The words are none of the command line's.
    Usage,
    /// The input failed.
    InputFault,
    /// What is to be indexed failed at this path.
    Unreadable(&'a str),
    /// Standard output failed before it had taken the answer.
    OutputFault,
    /// So many files were found, and fewer are allowed.
    Stopped { found: u64, allowed: u64 },
    /// The job at this place has stopped all others.
    StoppedBy(u64),
    /// Memory ran out.
    Memory,
    /// This line of the input is bad.
    BadLine(u64),
    /// More directories were found than are allowed.
    TooMany,
    /// The input is too long.
    TooLong,
}

/// Says why, and answers the status that goes with it.
pub fn ends<N: Sink>(notes: &mut N, ending: Ending) -> Status
    ensures status { result ≡ status_of ending.entry }
    ensures notes { Notes (change_of N.held N.faults notes.old notes.new) (message_of ending.entry) }
{
    match ending {
        Ending::Usage => {
            say(notes, USAGE);
            Status::Usage
        }
        Ending::InputFault => {
            say(notes, INPUT_FAULT);
            Status::ReadFault
        }
        Ending::Unreadable(path) => {
            say_unreadable(notes, path);
            Status::ReadFault
        }
        Ending::OutputFault => {
            say(notes, OUTPUT_FAULT);
            Status::SinkFault
        }
        Ending::Stopped { found, allowed } => {
            say_stopped(notes, found, allowed);
            Status::Stopped
        }
        Ending::StoppedBy(job) => {
            say_stopped_by(notes, job);
            Status::Stopped
        }
        Ending::Memory => {
            say(notes, OUT_OF_MEMORY);
            Status::Memory
        }
        Ending::BadLine(line) => {
            say_bad_line(notes, line);
            Status::BadText
        }
        Ending::TooMany => {
            say(notes, TOO_MANY);
            Status::TooMany
        }
        Ending::TooLong => {
            say(notes, TOO_LONG);
            Status::TooLong
        }
    }
}

/// Says why a text wasn't read, and answers the status that goes with it.
pub fn ends_unread<N: Sink>(notes: &mut N, fault: TextFault) -> Status
    ensures { SaysFault fault (change_of N.held N.faults notes.old notes.new) result }
{
    match fault {
        TextFault::Memory => ends(notes, Ending::Memory),
        TextFault::BadLine(line) => ends(notes, Ending::BadLine(line)),
        TextFault::TooLong => ends(notes, Ending::TooLong),
        TextFault::Read => ends(notes, Ending::InputFault),
    }
}
