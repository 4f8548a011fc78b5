//! How a call ends.
ghost use Rattle.std.specs.Prelude.{◌≡◌};
ghost use Rattle.command_endings.specs.Statuses.{number_of};

/// How a call of the program ends.
#[derive(Clone, Copy, Debug, PartialEq, Eq)]
pub enum Status {
    /// The answer stands on standard output.
    Done,
    /// The words are none of the command line's.
    Usage,
    /// What the command reads failed.
    ReadFault,
    /// Standard output failed before it had taken the answer.
    SinkFault,
    /// More files were found than are allowed, or a job has stopped all others.
    Stopped,
    /// Memory ran out.
    Memory,
    /// The trace is illegal, and the verdict stands on standard output.
    Illegal,
    /// The input has a bad line.
    BadText,
    /// More directories were found than are allowed.
    TooMany,
    /// The input is too long.
    TooLong,
}

/// Returns the number with which the program ends.
pub fn number(s: &Status) -> u8
    ensures { result ≡ number_of s.now }
{
    match s {
        Status::Done => 0,
        Status::Usage => 1,
        Status::ReadFault => 2,
        Status::SinkFault => 3,
        Status::Stopped => 4,
        Status::Memory => 5,
        Status::Illegal => 6,
        Status::BadText => 7,
        Status::TooMany => 8,
        Status::TooLong => 9,
    }
}
