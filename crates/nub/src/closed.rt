//! The remains of a closed package.
ghost use Rattle.std.specs.Prelude.{◌≡◌, MatchOption};

use larch_actions::{Event, Layout};
use nub_rule::{Ended, Thread, Unborn, Uses};
use std::marker::Model;
use std::mem::ManuallyDrop;
use std::snapshot::Snapshot;

/// What is left of a package that was closed. Only closing makes one. Contracts also see each
/// thread as it came back.
#[derive(Drop)]
pub struct Closed<U: Uses> {
    pub(crate) layout: Layout,
    pub(crate) values: Vec<U::Value>,
    pub(crate) trace: Option<Vec<Event>>,
    /// The threads of version one. They are under `ManuallyDrop`, so that dropping this needs no
    /// proof about the drop of a thread.
    pub(crate) threads: Snapshot<ManuallyDrop<Vec<Thread<U>>>>,
    /// The threads of version two, in any order.
    pub(crate) over: Snapshot<ManuallyDrop<Vec<Ended<U>>>>,
    pub(crate) never: Snapshot<ManuallyDrop<Vec<Unborn<U>>>>,
}

impl<U: Uses> Model for Closed<U> {
    ghost use Rattle.std.specs.Prelude.{◌++◌};
    ghost use Rattle.nub_rule.specs.Forks.{in_order};
    ghost use Rattle.nub.specs.Ended.{Ended, ended};

    ghost Value = { Ended U.Value U.Share U.World };

    ghost view = { λ c. ended c.layout c.values c.trace (c.threads.value.value.items
        ++ in_order c.layout.threads (c.over.value.value.items ++ c.never.value.value.items)) };
}

impl<U: Uses> Closed<U> {
    /// Returns the layout of the package.
    pub fn layout(&self) -> Layout
        ensures { result ≡ self.now.layout }
    {
        self.layout
    }

    /// Returns the value of each mutex, as it was last released.
    ///
    /// ```rust
    /// let left = closed.values()[0];
    /// ```
    pub fn values(&self) -> &[U::Value]
        ensures { result.now ≡ self.now.values }
    {
        self.values.as_slice()
    }

    /// Returns the values of the mutexes themselves, as they were last released.
    ///
    /// ```rust
    /// let mut rings = closed.into_values();
    /// ```
    pub fn into_values(self) -> Vec<U::Value>
        ensures { result.items ≡ self.values }
    {
        let Closed {
            layout: _,
            values,
            trace: _,
            threads: _,
            over: _,
            never: _,
        } = self;
        values
    }

    /// Returns the whole history of the package if the run was traced, and `None` otherwise.
    ///
    /// ```rust
    /// let Some(events) = closed.trace() else {
    ///     unreachable!()
    /// };
    /// ```
    pub fn trace(&self) -> Option<&[Event]>
        ensures { MatchOption result (self.now.trace ≡ None) (λ x. self.now.trace ≡ Some x.now) }
    {
        match &self.trace {
            Some(events) => Some(events.as_slice()),
            None => None,
        }
    }
}
