//! Layouts, names, actions and events.
ghost use Rattle.std.specs.Prelude.{◌≡◌, ◌↔◌, IsTrue};

use crate::{Kind, ThreadSet};
use thiserror::Error;

/// How many threads there are at most, in any version.
pub const MOST_THREADS: u32 = 256;

/// How many mutexes, conditions or semaphores it has at most.
pub const MOST_OBJECTS: u32 = 64;

/// Which actions there are. In version one all threads live from the first to the last. In version two thread 0 does at first,
/// and each other one from its fork to its end.
#[derive(Clone, Copy, Debug, PartialEq, Eq)]
pub enum Version {
    One,
    Two,
}

impl Version {
    ghost use Rattle.larch_actions.specs.Layout.{most_in};

    /// How many threads a lawful layout of this version has at most.
    #[inline(always)]
    pub fn most_threads(self) -> u32
        ensures { result ≡ most_in self }
    {
        match self {
            Version::One => 64,
            Version::Two => 256,
        }
    }
}

/// The version, and how many threads, mutexes, conditions and semaphores there are. A lawful layout has 1 to 64 threads in version
/// one and 1 to 256 in version two, and 0 to 64 of each other kind.
#[derive(Clone, Copy, Debug, PartialEq, Eq)]
pub struct Layout {
    pub version: Version,
    pub threads: u32,
    pub mutexes: u32,
    pub conditions: u32,
    pub semaphores: u32,
}

impl Layout {
    ghost use Rattle.larch_actions.specs.Layout.{IsLawful, count_of, layout_in, layout_of};

    /// The layout of version one with these counts.
    #[inline(always)]
    pub fn of(threads: u32, mutexes: u32, conditions: u32, semaphores: u32) -> Layout
        ensures { result ≡ layout_of threads mutexes conditions semaphores }
    {
        Layout::of_version(Version::One, threads, mutexes, conditions, semaphores)
    }

    /// The layout of this version with these counts.
    #[inline(always)]
    pub fn of_version(
        version: Version,
        threads: u32,
        mutexes: u32,
        conditions: u32,
        semaphores: u32,
    ) -> Layout
        ensures { result ≡ layout_in version threads mutexes conditions semaphores }
    {
        Layout {
            version,
            threads,
            mutexes,
            conditions,
            semaphores,
        }
    }

    /// Whether the counts are within their limits.
    pub fn lawful(&self) -> bool
        ensures { IsTrue result ↔ IsLawful self.now }
    {
        self.threads >= 1
            && self.threads <= self.version.most_threads()
            && self.mutexes <= MOST_OBJECTS
            && self.conditions <= MOST_OBJECTS
            && self.semaphores <= MOST_OBJECTS
    }

    /// How many things of the kind there are.
    #[inline(always)]
    pub fn count(&self, kind: Kind) -> u32
        ensures { result ≡ count_of self.now kind }
    {
        match kind {
            Kind::Mutex => self.mutexes,
            Kind::Condition => self.conditions,
            Kind::Semaphore => self.semaphores,
            Kind::Thread => self.threads,
        }
    }
}

/// The number of a thread.
#[derive(Clone, Copy, Debug, PartialEq, Eq)]
pub struct ThreadId(pub u32);

/// The number of a mutex.
#[derive(Clone, Copy, Debug, PartialEq, Eq)]
pub struct MutexId(pub u32);

/// The number of a condition.
#[derive(Clone, Copy, Debug, PartialEq, Eq)]
pub struct CondId(pub u32);

/// The number of a semaphore.
#[derive(Clone, Copy, Debug, PartialEq, Eq)]
pub struct SemId(pub u32);

/// An atomic action with its names and, where the specification leaves a choice, the choice that was made.
#[derive(Clone, Copy, Debug, PartialEq, Eq)]
pub enum Action {
    Acquire { mutex: MutexId },
    Release { mutex: MutexId },
    /// The first part of a wait.
    Enqueue { mutex: MutexId, cond: CondId },
    /// The second part of a wait.
    Resume { mutex: MutexId, cond: CondId },
    /// The first part of an alertable wait.
    AlertEnqueue { mutex: MutexId, cond: CondId },
    /// The second part of an alertable wait that returns.
    AlertReturn { mutex: MutexId, cond: CondId },
    /// The second part of an alertable wait that raises.
    AlertRaise { mutex: MutexId, cond: CondId },
    /// With the threads that stay in the condition.
    Signal { cond: CondId, left: ThreadSet },
    Broadcast { cond: CondId },
    P { sem: SemId },
    V { sem: SemId },
    Alert { who: ThreadId },
    /// With its answer.
    TestAlert { yes: bool },
    AlertPReturn { sem: SemId },
    AlertPRaise { sem: SemId },
    /// In version two alone, as the two below: the thread begins to live.
    Fork { who: ThreadId },
    /// The thread that makes it ends.
    End,
    /// With the thread whose end it waited for.
    Join { who: ThreadId },
}

/// An action by a thread.
#[derive(Clone, Copy, Debug, PartialEq, Eq)]
pub struct Event {
    pub thread: ThreadId,
    pub action: Action,
}

/// Which clause an event that isn't allowed fails first, in this order.
#[derive(Clone, Copy, Debug, PartialEq, Eq, Error)]
pub enum Broken {
    #[error("the event comes out of its thread's order")]
    Order,
    #[error("the event fails a REQUIRES clause")]
    Requires,
    #[error("the event fails a WHEN clause")]
    When,
    #[error("the event fails an ENSURES clause")]
    Ensures,
}

/// Whether a thread has been forked yet, and whether it has ended.
#[derive(Clone, Copy, Debug, PartialEq, Eq)]
pub enum Life {
    Unborn,
    Live,
    Ended,
}

/// What a thread has begun: nothing, or a wait whose second part is to come.
#[derive(Clone, Copy, Debug, PartialEq, Eq)]
pub enum Pending {
    Nothing,
    Waiting { mutex: MutexId, cond: CondId },
    AlertWaiting { mutex: MutexId, cond: CondId },
}
