//! Actions up to the end of their lines, each by its own words and not by its row: so an event of a usual line takes some 140 instructions,
//! and some 400 where it is read by the row (action.rt). What isn't read here is read there, so a further action needs nothing here.
ghost use Rattle.std.specs.Prelude.{◌≡◌, ◌≤◌, ◌<◌, ◌+◌, length, IfSome};
ghost use Rattle.trace_core.specs.Usual.{IsActionAt};

use crate::usual::name::{name_before, thread_before};
use crate::usual::wait::{usual_ending, usual_wait};
use crate::usual::word::{has_byte, has_eight, has_four, has_two};
use larch_actions::{Action, CondId, Layout, MutexId, SemId, ThreadId, ThreadSet};

/// An action, and where its line ends.
#[derive(Clone, Copy)]
pub struct UsualAction {
    pub action: Action,
    pub end: usize,
}

#[inline(always)]
fn acquire(bytes: &[u8], at: usize, layout: &Layout) -> Option<UsualAction>
    requires { at + 40 ≤ length bytes.now }
    ensures { IfSome result (IsActionAt layout.now bytes.now at) }
{
    if !has_eight(bytes, at, b"acquire ") {
        return None;
    }
    if !has_byte(bytes, at + 8, b'm') {
        return None;
    }
    let m = name_before(bytes, at + 9, layout.mutexes, b'\n')?;
    Some(UsualAction {
        action: Action::Acquire {
            mutex: MutexId(m.value),
        },
        end: m.end,
    })
}

#[inline(always)]
fn release(bytes: &[u8], at: usize, layout: &Layout) -> Option<UsualAction>
    requires { at + 40 ≤ length bytes.now }
    ensures { IfSome result (IsActionAt layout.now bytes.now at) }
{
    if !has_eight(bytes, at, b"release ") {
        return None;
    }
    if !has_byte(bytes, at + 8, b'm') {
        return None;
    }
    let m = name_before(bytes, at + 9, layout.mutexes, b'\n')?;
    Some(UsualAction {
        action: Action::Release {
            mutex: MutexId(m.value),
        },
        end: m.end,
    })
}

// A signal that leaves nobody.
#[inline(always)]
fn signal(bytes: &[u8], at: usize, layout: &Layout) -> Option<UsualAction>
    requires { at + 40 ≤ length bytes.now }
    ensures { IfSome result (IsActionAt layout.now bytes.now at) }
{
    if !has_eight(bytes, at, b"signal c") {
        return None;
    }
    let c = name_before(bytes, at + 8, layout.conditions, b' ')?;
    if !has_four(bytes, c.end, b"left") {
        return None;
    }
    if !has_byte(bytes, c.end + 4, b'\n') {
        return None;
    }
    Some(UsualAction {
        action: Action::Signal {
            cond: CondId(c.value),
            left: ThreadSet::empty(),
        },
        end: c.end + 5,
    })
}

#[inline(always)]
fn enqueue(bytes: &[u8], at: usize, layout: &Layout) -> Option<UsualAction>
    requires { at + 40 ≤ length bytes.now }
    ensures { IfSome result (IsActionAt layout.now bytes.now at) }
{
    if !has_eight(bytes, at, b"enqueue ") {
        return None;
    }
    if !has_byte(bytes, at + 8, b'm') {
        return None;
    }
    let wait = usual_wait(bytes, at + 9, layout, b'\n')?;
    Some(UsualAction {
        action: Action::Enqueue {
            mutex: wait.mutex,
            cond: wait.cond,
        },
        end: wait.end,
    })
}

#[inline(always)]
fn resume(bytes: &[u8], at: usize, layout: &Layout) -> Option<UsualAction>
    requires { at + 40 ≤ length bytes.now }
    ensures { IfSome result (IsActionAt layout.now bytes.now at) }
{
    if !has_eight(bytes, at, b"resume m") {
        return None;
    }
    let wait = usual_wait(bytes, at + 8, layout, b'\n')?;
    Some(UsualAction {
        action: Action::Resume {
            mutex: wait.mutex,
            cond: wait.cond,
        },
        end: wait.end,
    })
}

#[inline(always)]
fn broadcast(bytes: &[u8], at: usize, layout: &Layout) -> Option<UsualAction>
    requires { at + 40 ≤ length bytes.now }
    ensures { IfSome result (IsActionAt layout.now bytes.now at) }
{
    if !has_eight(bytes, at, b"broadcas") {
        return None;
    }
    if !has_two(bytes, at + 8, b"t ") {
        return None;
    }
    if !has_byte(bytes, at + 10, b'c') {
        return None;
    }
    let c = name_before(bytes, at + 11, layout.conditions, b'\n')?;
    Some(UsualAction {
        action: Action::Broadcast {
            cond: CondId(c.value),
        },
        end: c.end,
    })
}

#[inline(always)]
fn alert_enqueue(bytes: &[u8], at: usize, layout: &Layout) -> Option<UsualAction>
    requires { at + 40 ≤ length bytes.now }
    ensures { IfSome result (IsActionAt layout.now bytes.now at) }
{
    if !has_eight(bytes, at, b"alert-en") {
        return None;
    }
    if !has_four(bytes, at + 8, b"queu") {
        return None;
    }
    if !has_two(bytes, at + 12, b"e ") {
        return None;
    }
    if !has_byte(bytes, at + 14, b'm') {
        return None;
    }
    let wait = usual_wait(bytes, at + 15, layout, b'\n')?;
    Some(UsualAction {
        action: Action::AlertEnqueue {
            mutex: wait.mutex,
            cond: wait.cond,
        },
        end: wait.end,
    })
}

#[inline(always)]
fn alert_resume(bytes: &[u8], at: usize, layout: &Layout) -> Option<UsualAction>
    requires { at + 40 ≤ length bytes.now }
    ensures { IfSome result (IsActionAt layout.now bytes.now at) }
{
    if !has_eight(bytes, at, b"alert-re") {
        return None;
    }
    if !has_four(bytes, at + 8, b"sume") {
        return None;
    }
    if !has_two(bytes, at + 12, b" m") {
        return None;
    }
    let wait = usual_wait(bytes, at + 14, layout, b' ')?;
    let ending = usual_ending(bytes, wait.end)?;
    let (mutex, cond) = (wait.mutex, wait.cond);
    if ending.returns {
        return Some(UsualAction {
            action: Action::AlertReturn { mutex, cond },
            end: ending.end,
        });
    }
    Some(UsualAction {
        action: Action::AlertRaise { mutex, cond },
        end: ending.end,
    })
}

#[inline(always)]
fn alert_p(bytes: &[u8], at: usize, layout: &Layout) -> Option<UsualAction>
    requires { at + 40 ≤ length bytes.now }
    ensures { IfSome result (IsActionAt layout.now bytes.now at) }
{
    if !has_eight(bytes, at, b"alert-p ") {
        return None;
    }
    if !has_byte(bytes, at + 8, b's') {
        return None;
    }
    let s = name_before(bytes, at + 9, layout.semaphores, b' ')?;
    let ending = usual_ending(bytes, s.end)?;
    let sem = SemId(s.value);
    if ending.returns {
        return Some(UsualAction {
            action: Action::AlertPReturn { sem },
            end: ending.end,
        });
    }
    Some(UsualAction {
        action: Action::AlertPRaise { sem },
        end: ending.end,
    })
}

#[inline(always)]
fn test_alert(bytes: &[u8], at: usize, layout: &Layout) -> Option<UsualAction>
    requires { at + 40 ≤ length bytes.now }
    ensures { IfSome result (IsActionAt layout.now bytes.now at) }
{
    if !has_eight(bytes, at, b"test-ale") {
        return None;
    }
    if !has_two(bytes, at + 8, b"rt") {
        return None;
    }
    if has_four(bytes, at + 10, b" no\n") {
        return Some(UsualAction {
            action: Action::TestAlert { yes: false },
            end: at + 14,
        });
    }
    if !has_four(bytes, at + 10, b" yes") {
        return None;
    }
    if !has_byte(bytes, at + 14, b'\n') {
        return None;
    }
    Some(UsualAction {
        action: Action::TestAlert { yes: true },
        end: at + 15,
    })
}

// P, V or an alert.
#[inline(always)]
fn short(bytes: &[u8], at: usize, layout: &Layout) -> Option<UsualAction>
    requires { at + 40 ≤ length bytes.now }
    ensures { IfSome result (IsActionAt layout.now bytes.now at) }
{
    if has_two(bytes, at, b"p ") {
        return p(bytes, at, layout);
    }
    if has_two(bytes, at, b"v ") {
        return v(bytes, at, layout);
    }
    alert(bytes, at, layout)
}

#[inline(always)]
fn p(bytes: &[u8], at: usize, layout: &Layout) -> Option<UsualAction>
    requires { at + 40 ≤ length bytes.now }
    ensures { IfSome result (IsActionAt layout.now bytes.now at) }
{
    if !has_two(bytes, at, b"p ") {
        return None;
    }
    if !has_byte(bytes, at + 2, b's') {
        return None;
    }
    let s = name_before(bytes, at + 3, layout.semaphores, b'\n')?;
    Some(UsualAction {
        action: Action::P {
            sem: SemId(s.value),
        },
        end: s.end,
    })
}

#[inline(always)]
fn v(bytes: &[u8], at: usize, layout: &Layout) -> Option<UsualAction>
    requires { at + 40 ≤ length bytes.now }
    ensures { IfSome result (IsActionAt layout.now bytes.now at) }
{
    if !has_two(bytes, at, b"v ") {
        return None;
    }
    if !has_byte(bytes, at + 2, b's') {
        return None;
    }
    let s = name_before(bytes, at + 3, layout.semaphores, b'\n')?;
    Some(UsualAction {
        action: Action::V {
            sem: SemId(s.value),
        },
        end: s.end,
    })
}

#[inline(always)]
fn alert(bytes: &[u8], at: usize, layout: &Layout) -> Option<UsualAction>
    requires { at + 40 ≤ length bytes.now }
    ensures { IfSome result (IsActionAt layout.now bytes.now at) }
{
    if !has_four(bytes, at, b"aler") {
        return None;
    }
    if !has_two(bytes, at + 4, b"t ") {
        return None;
    }
    if !has_byte(bytes, at + 6, b't') {
        return None;
    }
    let t = thread_before(bytes, at + 7, layout.threads, b'\n')?;
    Some(UsualAction {
        action: Action::Alert {
            who: ThreadId(t.value),
        },
        end: t.end,
    })
}

/// The action that stands there, told by its first eight bytes.
#[inline(always)]
pub fn usual_action(bytes: &[u8], at: usize, layout: &Layout) -> Option<UsualAction>
    requires { at + 40 ≤ length bytes.now }
    ensures { IfSome result (IsActionAt layout.now bytes.now at) }
{
    if has_eight(bytes, at, b"acquire ") {
        return acquire(bytes, at, layout);
    }
    if has_eight(bytes, at, b"release ") {
        return release(bytes, at, layout);
    }
    if has_eight(bytes, at, b"signal c") {
        return signal(bytes, at, layout);
    }
    if has_eight(bytes, at, b"enqueue ") {
        return enqueue(bytes, at, layout);
    }
    if has_eight(bytes, at, b"resume m") {
        return resume(bytes, at, layout);
    }
    if has_eight(bytes, at, b"broadcas") {
        return broadcast(bytes, at, layout);
    }
    if has_eight(bytes, at, b"alert-en") {
        return alert_enqueue(bytes, at, layout);
    }
    if has_eight(bytes, at, b"alert-re") {
        return alert_resume(bytes, at, layout);
    }
    if has_eight(bytes, at, b"alert-p ") {
        return alert_p(bytes, at, layout);
    }
    if has_eight(bytes, at, b"test-ale") {
        return test_alert(bytes, at, layout);
    }
    short(bytes, at, layout)
}
