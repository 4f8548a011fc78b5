//! The events that may be looked at alone.
ghost use Rattle.std.specs.Prelude.{◌≡◌};
ghost use Rattle.script_plays.specs.Reduced.{is_alone};

use larch_actions::Action;

/// Whether a search may follow this action alone, and none of another thread, where it is possible. No other thread can hinder it, and each
/// event of another thread is possible before it if it is possible after it, and leads to the same scene. A V isn't such: it never blocks,
/// but a V of a semaphore that is available is lost.
pub fn is_alone(action: &Action) -> bool
    ensures { result ≡ is_alone action.now }
{
    match *action {
        Action::Release { .. } => true,
        Action::Fork { .. } => true,
        Action::End => true,
        Action::Join { .. } => true,
        _ => false,
    }
}
