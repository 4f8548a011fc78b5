//! The steps of a condition in a trace, followed in the simplest way.
use larch_actions::ThreadSet;
use nub::{Action, CondId, Event, MutexId, ThreadId};

/// How many steps of each kind a trace has.
#[derive(Clone, Copy, Debug, PartialEq, Eq, Drop)]
pub struct Steps {
    pub enqueued: u64,
    pub resumed: u64,
    pub signals: u64,
    pub broadcasts: u64,
}

/// Returns whether a Signal may leave these of the threads inside: all were inside, and one is gone
/// unless no thread was inside.
fn may_leave(inside: &ThreadSet, left: &ThreadSet) -> bool {
    let mut gone = 0u64;
    let mut any = 0u64;
    for t in 0..64 {
        let who = ThreadId(t);
        if left.has(who) && !inside.has(who) {
            return false;
        }
        if inside.has(who) {
            any = 1;
        }
        if inside.has(who) && !left.has(who) {
            gone = 1;
        }
    }
    gone == any
}

/// Counts the steps of the condition, and follows which threads are in it. Returns `None` if a
/// thread resumes that wasn't taken out, or begins to wait twice, or if a Signal leaves a thread
/// that wasn't inside or takes none of those inside.
pub fn counted(events: &[Event], cond: CondId) -> Option<Steps> {
    let mut inside = ThreadSet::empty();
    let mut steps = Steps {
        enqueued: 0,
        resumed: 0,
        signals: 0,
        broadcasts: 0,
    };
    for e in events {
        let t = e.thread;
        if t.0 >= 64 {
            return None;
        }
        match e.action {
            Action::Enqueue { cond: c, .. } if c == cond => {
                if inside.has(t) {
                    return None;
                }
                inside.insert(t);
                steps.enqueued = steps.enqueued.wrapping_add(1);
            }
            Action::Resume { cond: c, .. } if c == cond => {
                if inside.has(t) {
                    return None;
                }
                steps.resumed = steps.resumed.wrapping_add(1);
            }
            Action::Signal { cond: c, left } if c == cond => {
                if !may_leave(&inside, &left) {
                    return None;
                }
                inside = left;
                steps.signals = steps.signals.wrapping_add(1);
            }
            Action::Broadcast { cond: c } if c == cond => {
                inside = ThreadSet::empty();
                steps.broadcasts = steps.broadcasts.wrapping_add(1);
            }
            _ => {}
        }
    }
    Some(steps)
}

/// Returns how often a thread resumed while another one held this mutex.
pub fn resumed_beside(events: &[Event], kept: MutexId) -> u64 {
    let mut held = false;
    let mut count = 0u64;
    for e in events {
        match e.action {
            Action::Acquire { mutex } if mutex == kept => held = true,
            Action::Release { mutex } if mutex == kept => held = false,
            Action::Resume { mutex, .. } if held && mutex != kept => {
                count = count.wrapping_add(1);
            }
            _ => {}
        }
    }
    count
}
