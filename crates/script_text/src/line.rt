//! The lines of a script.
use larch_actions::{CondId, MutexId, SemId, ThreadId};

/// A call that a script makes.
#[derive(Clone, Copy, Debug, PartialEq, Eq)]
pub enum Operation {
    Acquire {
        mutex: MutexId,
    },
    Release {
        mutex: MutexId,
    },
    /// Waits in the condition, with the mutex given back meanwhile.
    Wait {
        mutex: MutexId,
        cond: CondId,
    },
    /// The same, until an alert of the thread too.
    AlertWait {
        mutex: MutexId,
        cond: CondId,
    },
    /// Wakes some thread that waits in the condition.
    Signal {
        cond: CondId,
    },
    /// Wakes all that wait in the condition.
    Broadcast {
        cond: CondId,
    },
    P {
        sem: SemId,
    },
    V {
        sem: SemId,
    },
    /// Alerts a thread, which may be the one that calls.
    Alert {
        who: ThreadId,
    },
    /// Whether the thread was alerted, and then it isn't.
    TestAlert,
    /// Takes the semaphore, unless an alert of the thread comes first.
    AlertP {
        sem: SemId,
    },
    /// Adds to the number that the mutex guards.
    Add {
        mutex: MutexId,
        number: u64,
    },
    /// Waits as long as the number that the mutex guards is less than this one.
    Until {
        mutex: MutexId,
        cond: CondId,
        number: u64,
    },
    /// The same, and gives up after the first wait that an alert ends.
    AlertUntil {
        mutex: MutexId,
        cond: CondId,
        number: u64,
    },
    /// Begins a thread.
    Fork {
        who: ThreadId,
    },
    /// Waits until the thread has ended.
    Join {
        who: ThreadId,
    },
}

/// A call by a thread.
#[derive(Clone, Copy, Debug, PartialEq, Eq)]
pub struct Line {
    pub thread: ThreadId,
    pub operation: Operation,
}
