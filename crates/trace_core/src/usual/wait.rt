//! Parts that several actions have.
ghost use Rattle.std.specs.Prelude.{◌≡◌, ◌≤◌, ◌<◌, ◌+◌, ◌∷◌, [], length, IfSome};
ghost use Rattle.trace_core.specs.Usual.{IsWaitAt, IsEndingAt};

use crate::usual::name::name_before;
use crate::usual::word::{has_byte, has_eight, has_four};
use larch_actions::{CondId, Layout, MutexId};

/// The names of a mutex and a condition, and where what was read ends.
#[derive(Clone, Copy)]
pub struct UsualWait {
    pub mutex: MutexId,
    pub cond: CondId,
    pub end: usize,
}

/// The names of a mutex and a condition that stand there, with this byte after them.
#[inline(always)]
pub fn usual_wait(bytes: &[u8], at: usize, layout: &Layout, stop: u8) -> Option<UsualWait>
    requires { at + 7 ≤ length bytes.now }
    ensures wait { IfSome result (IsWaitAt layout.now bytes.now at (stop ∷ [])) }
    ensures near { IfSome result (λ x. x.end ≤ at + 7) }
{
    let m = name_before(bytes, at, layout.mutexes, b' ')?;
    if !has_byte(bytes, m.end, b'c') {
        return None;
    }
    let c = name_before(bytes, m.end + 1, layout.conditions, stop)?;
    Some(UsualWait {
        mutex: MutexId(m.value),
        cond: CondId(c.value),
        end: c.end,
    })
}

/// Whether an alertable call returned, and where its line ends.
#[derive(Clone, Copy)]
pub struct UsualEnding {
    pub returns: bool,
    pub end: usize,
}

/// How an alertable call ended, up to the end of its line.
#[inline(always)]
pub fn usual_ending(bytes: &[u8], at: usize) -> Option<UsualEnding>
    requires { at + 8 ≤ length bytes.now }
    ensures ending { IfSome result (IsEndingAt bytes.now at) }
    ensures near { IfSome result (λ x. x.end ≤ at + 8) }
{
    if has_eight(bytes, at, b"returns\n") {
        return Some(UsualEnding {
            returns: true,
            end: at + 8,
        });
    }
    if !has_four(bytes, at, b"rais") {
        return None;
    }
    if !(has_byte(bytes, at + 4, b'e')
        & has_byte(bytes, at + 5, b's')
        & has_byte(bytes, at + 6, b'\n'))
    {
        return None;
    }
    Some(UsualEnding {
        returns: false,
        end: at + 7,
    })
}
