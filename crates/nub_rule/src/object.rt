//! The objects that have a queue, and the reasons for taking their spin words.
ghost use Rattle.std.specs.Prelude.{◌≡◌};

use crate::places::{CONDITIONS, SEMAPHORES};
use larch_actions::{CondId, MutexId, SemId};

/// An object that has a queue: a mutex, a semaphore or a condition.
#[derive(Clone, Copy, Debug, PartialEq, Eq)]
pub enum Object {
    Mutex(MutexId),
    Sem(SemId),
    Cond(CondId),
}

/// Why a thread takes a spin word.
#[derive(Clone, Copy, Debug, PartialEq, Eq)]
pub enum Why {
    /// The thread's try of the bit failed.
    TryFailed,
    /// The thread cleared the bit and found the queue not empty, or makes a Signal or Broadcast at
    /// a condition.
    QueueSeen,
    /// The thread has read the count of the condition, and is to block.
    Block,
    /// The thread found its alert word set while it was in the queue.
    Leaving,
}

impl Object {
    ghost use Rattle.nub_rule.specs.Objects.{object_of};
    ghost use Rattle.nub_rule.specs.Places.{bit_at, spin_at, length_at};

    /// Returns the number that determines the places of its words.
    #[inline]
    pub fn number(self) -> usize
        ensures { result ≡ object_of self }
    {
        match self {
            Object::Mutex(m) => m.0 as usize,
            Object::Sem(s) => SEMAPHORES + s.0 as usize,
            Object::Cond(c) => CONDITIONS + c.0 as usize,
        }
    }

    /// Returns the place of its bit. A condition's bit is never set.
    #[inline]
    pub(crate) fn bit_word(self) -> usize
        ensures { result ≡ bit_at (object_of self) }
    {
        16 * self.number()
    }

    /// Returns the place of its spin word.
    #[inline]
    pub(crate) fn spin_word(self) -> usize
        ensures { result ≡ spin_at (object_of self) }
    {
        16 * self.number() + 1
    }

    /// Returns the place of the length of its queue.
    #[inline]
    pub(crate) fn length_word(self) -> usize
        ensures { result ≡ length_at (object_of self) }
    {
        16 * self.number() + 2
    }
}
