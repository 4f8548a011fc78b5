//! The rows of the table in words.
ghost use Rattle.std.specs.Prelude.{◌≡◌, ◌≤◌, length};
ghost use Rattle.trace_explain.specs.Rules.{order_rule, row_of, rule_of};

use larch_actions::{Action, Broken, Version};

// What the row of the action says.
fn row(action: &Action) -> &'static [u8]
    ensures words { result.now ≡ row_of action.now }
    ensures short { length result.now ≤ 160 }
{
    match action {
        Action::Acquire { .. } => b"WHEN the holder of m is NIL; ENSURES the holder of m is SELF",
        Action::Release { .. } =>
            b"REQUIRES the holder of m is SELF; ENSURES the holder of m is NIL",
        Action::Enqueue { .. } => {
            b"REQUIRES the holder of m is SELF; ENSURES SELF is in c and the holder of m is NIL"
        }
        Action::Resume { .. } => {
            b"WHEN the holder of m is NIL and SELF is not in c; ENSURES the holder of m is SELF"
        }
        Action::AlertEnqueue { .. } => {
            b"REQUIRES the holder of m is SELF; ENSURES SELF is in c and the holder of m is NIL"
        }
        Action::AlertReturn { .. } => {
            b"WHEN the holder of m is NIL and SELF is not in c; ENSURES the holder of m is SELF"
        }
        Action::AlertRaise { .. } => {
            b"WHEN the holder of m is NIL and SELF is alerted; ENSURES the holder of m is SELF, and SELF is neither in c nor alerted"
        }
        Action::Signal { .. } => {
            b"ENSURES c is what is left, which is empty or a proper subset of c before"
        }
        Action::Broadcast { .. } => b"ENSURES c is empty",
        Action::P { .. } => b"WHEN s is available; ENSURES s is not available",
        Action::V { .. } => b"ENSURES s is available",
        Action::Alert { .. } => b"ENSURES the other thread is alerted",
        Action::TestAlert { .. } => {
            b"ENSURES the answer tells whether SELF was alerted, and SELF is not alerted"
        }
        Action::AlertPReturn { .. } => b"WHEN s is available; ENSURES s is not available",
        Action::AlertPRaise { .. } => b"WHEN SELF is alerted; ENSURES SELF is not alerted",
        Action::Fork { .. } => {
            b"REQUIRES the other thread is unborn; ENSURES the other thread is live"
        }
        Action::End => b"REQUIRES SELF holds no mutex; ENSURES SELF has ended",
        Action::Join { .. } => b"WHEN the other thread has ended",
    }
}

// What the order asks.
fn order(version: Version) -> &'static [u8]
    ensures words { result.now ≡ order_rule version }
    ensures short { length result.now ≤ 200 }
{
    match version {
        Version::One => {
            b"after the first part of a wait a thread's next event is the second part of that wait, and no other thread makes a second part"
        }
        Version::Two => {
            b"a thread makes events from its fork to its end alone; after the first part of a wait its next event is the second part of that wait, and no other thread makes a second part"
        }
    }
}

/// The rule that an event fails: the order, or the row of its action.
pub fn rule(version: Version, why: Broken, action: &Action) -> &'static [u8]
    ensures words { result.now ≡ rule_of version why action.now }
    ensures short { length result.now ≤ 200 }
{
    match why {
        Broken::Order => order(version),
        Broken::Requires => row(action),
        Broken::When => row(action),
        Broken::Ensures => row(action),
    }
}
