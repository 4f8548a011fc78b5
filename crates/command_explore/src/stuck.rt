//! How a search of a script ends.
ghost use Rattle.std.specs.Prelude.{◌≡◌};
ghost use Rattle.command_explore.specs.Statuses.{number_of};

use command_endings::{Status, number as number_of_status};

/// How the program ends.
#[derive(Clone, Copy, Debug, PartialEq, Eq)]
pub enum ExploreStatus {
    /// The script can get stuck, by the trace on standard output.
    Stuck,
    /// As a command of `firefly` ends.
    As(Status),
}

/// Returns the number with which the program ends.
pub fn number(s: &ExploreStatus) -> u8
    ensures { result ≡ number_of s.now }
{
    match s {
        ExploreStatus::Stuck => 10,
        ExploreStatus::As(status) => number_of_status(status),
    }
}
