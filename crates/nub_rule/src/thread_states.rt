//! A thread before its fork and after its end, as the user of the package gets it.
ghost use Rattle.std.specs.Prelude.{◌≡◌};

use crate::package::Thread;
use crate::uses::Uses;
use std::marker::Model;

/// The right to fork one thread of a package. The thread has its seat already.
#[derive(Drop)]
pub struct Unborn<U: Uses> {
    thread: Thread<U>,
}

impl<U: Uses> Model for Unborn<U> {
    ghost use Rattle.nub_rule.specs.Known.{Known};
    ghost use Rattle.nub_rule.specs.Forks.{IsUnborn};

    ghost Value = { Known U.Value U.Share U.World };

    ghost view = { λ u. u.thread };

    ghost invariant = { λ u. IsUnborn U.begin u.thread };
}

impl<U: Uses> Unborn<U> {
    ghost use Rattle.nub_rule.specs.Forks.{IsUnborn};

    /// Wraps a thread that was cut off at the opening.
    pub fn of(thread: Thread<U>) -> Unborn<U>
        requires unborn { IsUnborn U.begin thread }
        ensures { result ≡ thread }
    {
        Unborn { thread }
    }

    /// Returns the number of the thread.
    pub fn number(&self) -> u32
        ensures { result ≡ self.now.number }
    {
        self.thread.number()
    }

    /// Returns the seat of the thread, with all that belongs to it.
    pub fn into_thread(self) -> Thread<U>
        ensures same { result ≡ self }
        ensures unborn { IsUnborn U.begin result }
    {
        let Unborn { thread } = self;
        thread
    }
}

/// What is left of a thread that has ended.
#[derive(Drop)]
pub struct Ended<U: Uses> {
    thread: Thread<U>,
}

impl<U: Uses> Model for Ended<U> {
    ghost use Rattle.nub_rule.specs.Known.{Known};
    ghost use Rattle.nub_rule.specs.Forks.{IsOver};

    ghost Value = { Known U.Value U.Share U.World };

    ghost view = { λ e. e.thread };

    ghost invariant = { λ e. IsOver e.thread };
}

impl<U: Uses> Ended<U> {
    ghost use Rattle.nub_rule.specs.Forks.{IsOver};

    /// Wraps a thread whose call of its end is over.
    pub fn of(thread: Thread<U>) -> Ended<U>
        requires over { IsOver thread }
        ensures { result ≡ thread }
    {
        Ended { thread }
    }

    /// Returns the number of the thread.
    pub fn number(&self) -> u32
        ensures { result ≡ self.now.number }
    {
        self.thread.number()
    }

    /// Returns the seat of the thread, with all that belongs to it.
    pub fn into_thread(self) -> Thread<U>
        ensures same { result ≡ self }
        ensures over { IsOver result }
    {
        let Ended { thread } = self;
        thread
    }
}
