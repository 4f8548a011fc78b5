//! The line of an event.
ghost use Rattle.std.specs.Prelude.{◌≤◌, length, IfSome};
ghost use Rattle.trace_core.specs.Usual.{IsEventAt};

use crate::place::Place;
use crate::usual::action::usual_action;
use crate::usual::name::thread_before;
use crate::usual::word::has_two;
use larch_actions::{Event, Layout, ThreadId};

/// An event, and where its line ends.
#[derive(Clone, Copy)]
pub struct UsualEvent {
    pub event: Event,
    pub end: usize,
}

/// The event in this place, whose line stands at the front. Where nothing is answered, the line may have a form that isn't
/// read here (a place of more than eight digits, a signal that leaves somebody), or be none.
#[inline(always)]
pub fn usual_event(bytes: &[u8], layout: &Layout, place: &Place) -> Option<UsualEvent>
    requires { 64 ≤ length bytes.now }
    ensures { IfSome result (IsEventAt layout.now place.now bytes.now) }
{
    let at = place.text_end(bytes)?;
    if !has_two(bytes, at, b" t") {
        return None;
    }
    let t = thread_before(bytes, at + 2, layout.threads, b' ')?;
    let held = usual_action(bytes, t.end, layout)?;
    Some(UsualEvent {
        event: Event {
            thread: ThreadId(t.value),
            action: held.action,
        },
        end: held.end,
    })
}
