//! The step of each action: the first clause that fails, or the change.
//!
//! Here the actions stand one by one and not by their rows: each step of its own takes twelve instructions less of each event that is
//! checked, of some 140, than one that looks first at what an action asks.
ghost use Rattle.std.specs.Prelude.{◌≡◌, ◌<◌, true};
ghost use mathlib.Core.Option.{none, some};
ghost use Rattle.larch_actions.specs.Actions.{put, without_member};
ghost use Rattle.larch_actions.specs.Layout.{most_objects, most_threads};
ghost use Rattle.larch_actions.specs.State.{spec_of, Answers};
ghost use Rattle.larch_actions.specs.declared.event.Action.{Action};
ghost use Rattle.larch_actions.specs.declared.event.Life.TheVariants as Life;
ghost use Rattle.larch_actions.specs.declared.event.Pending.TheVariants.{Nothing};

use super::State;
use crate::{Broken, CondId, Life, MutexId, Pending, SemId, ThreadId, ThreadSet};

impl State {
    // The first part of a wait: the thread gives the mutex back and goes into the condition.
    fn begin_wait(&mut self, t: ThreadId, mutex: MutexId, cond: CondId, what: Pending)
        requires thread { t.0 < most_threads }
        requires live { (spec_of self.old).life t.0 ≡ Life.Live }
        requires mutex { mutex.0 < most_objects }
        requires cond { cond.0 < most_objects }
        ensures layout { self.new.layout ≡ self.old.layout }
        ensures spec { spec_of self.new ≡
            record (spec_of self.old) {
              holder = put (spec_of self.old).holder mutex.0 none;
              members = put (spec_of self.old).members cond.0 (put ((spec_of self.old).members cond.0) t.0 true);
              pending = put (spec_of self.old).pending t.0 what;
            } }
    {
        let mut members = self.members_of(cond);
        members.insert(t);
        self.set_members(cond, members);
        self.set_holder(mutex, None);
        self.set_pending(t, what);
    }

    // The second part of a wait, as far as all have it: the thread has the mutex again.
    fn end_wait(&mut self, t: ThreadId, mutex: MutexId)
        requires thread { t.0 < most_threads }
        requires live { (spec_of self.old).life t.0 ≡ Life.Live }
        requires mutex { mutex.0 < most_objects }
        ensures layout { self.new.layout ≡ self.old.layout }
        ensures spec { spec_of self.new ≡
            record (spec_of self.old) {
              holder = put (spec_of self.old).holder mutex.0 (some t.0);
              pending = put (spec_of self.old).pending t.0 Nothing;
            } }
    {
        self.set_holder(mutex, Some(t));
        self.set_pending(t, Pending::Nothing);
    }

    // A thread leaves a condition by itself.
    fn leave_condition(&mut self, t: ThreadId, cond: CondId)
        requires thread { t.0 < most_threads }
        requires cond { cond.0 < most_objects }
        ensures layout { self.new.layout ≡ self.old.layout }
        ensures spec { spec_of self.new ≡
            record (spec_of self.old) {
              members = without_member (spec_of self.old) cond.0 t.0;
            } }
    {
        let mut members = self.members_of(cond);
        members.remove(t);
        self.set_members(cond, members);
    }

    pub(super) fn acquire(&mut self, t: ThreadId, mutex: MutexId) -> Result<(), Broken>
        requires thread { t.0 < most_threads }
        requires mutex { mutex.0 < most_objects }
        ensures { Answers self.old self.new (record { thread = t; action = Action.Acquire mutex }) result }
    {
        if !self.has_begun(t, Pending::Nothing) {
            return Err(Broken::Order);
        }
        if !self.is_free(mutex) {
            return Err(Broken::When);
        }
        self.set_holder(mutex, Some(t));
        Ok(())
    }

    pub(super) fn release(&mut self, t: ThreadId, mutex: MutexId) -> Result<(), Broken>
        requires thread { t.0 < most_threads }
        requires mutex { mutex.0 < most_objects }
        ensures { Answers self.old self.new (record { thread = t; action = Action.Release mutex }) result }
    {
        if !self.has_begun(t, Pending::Nothing) {
            return Err(Broken::Order);
        }
        if !self.is_holder(t, mutex) {
            return Err(Broken::Requires);
        }
        self.set_holder(mutex, None);
        Ok(())
    }

    pub(super) fn enqueue(
        &mut self,
        t: ThreadId,
        mutex: MutexId,
        cond: CondId,
    ) -> Result<(), Broken>
        requires thread { t.0 < most_threads }
        requires mutex { mutex.0 < most_objects }
        requires cond { cond.0 < most_objects }
        ensures { Answers self.old self.new
            (record { thread = t; action = Action.Enqueue mutex cond }) result }
    {
        if !self.has_begun(t, Pending::Nothing) {
            return Err(Broken::Order);
        }
        if !self.is_holder(t, mutex) {
            return Err(Broken::Requires);
        }
        self.begin_wait(t, mutex, cond, Pending::Waiting { mutex, cond });
        Ok(())
    }

    pub(super) fn resume(&mut self, t: ThreadId, mutex: MutexId, cond: CondId) -> Result<(), Broken>
        requires thread { t.0 < most_threads }
        requires mutex { mutex.0 < most_objects }
        requires cond { cond.0 < most_objects }
        ensures { Answers self.old self.new
            (record { thread = t; action = Action.Resume mutex cond }) result }
    {
        if !self.has_begun(t, Pending::Waiting { mutex, cond }) {
            return Err(Broken::Order);
        }
        if !self.is_free(mutex) || self.members_of(cond).has(t) {
            return Err(Broken::When);
        }
        self.end_wait(t, mutex);
        Ok(())
    }

    pub(super) fn alert_enqueue(
        &mut self,
        t: ThreadId,
        mutex: MutexId,
        cond: CondId,
    ) -> Result<(), Broken>
        requires thread { t.0 < most_threads }
        requires mutex { mutex.0 < most_objects }
        requires cond { cond.0 < most_objects }
        ensures { Answers self.old self.new
            (record { thread = t; action = Action.AlertEnqueue mutex cond }) result }
    {
        if !self.has_begun(t, Pending::Nothing) {
            return Err(Broken::Order);
        }
        if !self.is_holder(t, mutex) {
            return Err(Broken::Requires);
        }
        self.begin_wait(t, mutex, cond, Pending::AlertWaiting { mutex, cond });
        Ok(())
    }

    pub(super) fn alert_return(
        &mut self,
        t: ThreadId,
        mutex: MutexId,
        cond: CondId,
    ) -> Result<(), Broken>
        requires thread { t.0 < most_threads }
        requires mutex { mutex.0 < most_objects }
        requires cond { cond.0 < most_objects }
        ensures { Answers self.old self.new
            (record { thread = t; action = Action.AlertReturn mutex cond }) result }
    {
        if !self.has_begun(t, Pending::AlertWaiting { mutex, cond }) {
            return Err(Broken::Order);
        }
        if !self.is_free(mutex) || self.members_of(cond).has(t) {
            return Err(Broken::When);
        }
        self.end_wait(t, mutex);
        Ok(())
    }

    pub(super) fn alert_raise(
        &mut self,
        t: ThreadId,
        mutex: MutexId,
        cond: CondId,
    ) -> Result<(), Broken>
        requires thread { t.0 < most_threads }
        requires mutex { mutex.0 < most_objects }
        requires cond { cond.0 < most_objects }
        ensures { Answers self.old self.new
            (record { thread = t; action = Action.AlertRaise mutex cond }) result }
    {
        if !self.has_begun(t, Pending::AlertWaiting { mutex, cond }) {
            return Err(Broken::Order);
        }
        if !self.is_free(mutex) || !self.is_alerted(t) {
            return Err(Broken::When);
        }
        self.leave_condition(t, cond);
        self.clear_alert(t);
        self.end_wait(t, mutex);
        Ok(())
    }

    pub(super) fn signal(
        &mut self,
        t: ThreadId,
        cond: CondId,
        left: ThreadSet,
    ) -> Result<(), Broken>
        requires thread { t.0 < most_threads }
        requires cond { cond.0 < most_objects }
        ensures { Answers self.old self.new (record { thread = t; action = Action.Signal cond left }) result }
    {
        if !self.has_begun(t, Pending::Nothing) {
            return Err(Broken::Order);
        }
        if !self.members_of(cond).may_leave(&left) {
            return Err(Broken::Ensures);
        }
        self.set_members(cond, left);
        Ok(())
    }

    pub(super) fn broadcast(&mut self, t: ThreadId, cond: CondId) -> Result<(), Broken>
        requires thread { t.0 < most_threads }
        requires cond { cond.0 < most_objects }
        ensures { Answers self.old self.new (record { thread = t; action = Action.Broadcast cond }) result }
    {
        if !self.has_begun(t, Pending::Nothing) {
            return Err(Broken::Order);
        }
        self.set_members(cond, ThreadSet::empty());
        Ok(())
    }

    pub(super) fn p(&mut self, t: ThreadId, sem: SemId) -> Result<(), Broken>
        requires thread { t.0 < most_threads }
        requires sem { sem.0 < most_objects }
        ensures { Answers self.old self.new (record { thread = t; action = Action.P sem }) result }
    {
        if !self.has_begun(t, Pending::Nothing) {
            return Err(Broken::Order);
        }
        if !self.is_available(sem) {
            return Err(Broken::When);
        }
        self.set_available(sem, false);
        Ok(())
    }

    pub(super) fn v(&mut self, t: ThreadId, sem: SemId) -> Result<(), Broken>
        requires thread { t.0 < most_threads }
        requires sem { sem.0 < most_objects }
        ensures { Answers self.old self.new (record { thread = t; action = Action.V sem }) result }
    {
        if !self.has_begun(t, Pending::Nothing) {
            return Err(Broken::Order);
        }
        self.set_available(sem, true);
        Ok(())
    }

    pub(super) fn alert(&mut self, t: ThreadId, who: ThreadId) -> Result<(), Broken>
        requires thread { t.0 < most_threads }
        requires who { who.0 < most_threads }
        ensures { Answers self.old self.new (record { thread = t; action = Action.Alert who }) result }
    {
        if !self.has_begun(t, Pending::Nothing) {
            return Err(Broken::Order);
        }
        self.set_alert(who);
        Ok(())
    }

    pub(super) fn test_alert(&mut self, t: ThreadId, yes: bool) -> Result<(), Broken>
        requires { t.0 < most_threads }
        ensures { Answers self.old self.new (record { thread = t; action = Action.TestAlert yes }) result }
    {
        if !self.has_begun(t, Pending::Nothing) {
            return Err(Broken::Order);
        }
        if yes != self.is_alerted(t) {
            return Err(Broken::Ensures);
        }
        self.clear_alert(t);
        Ok(())
    }

    pub(super) fn alert_p_return(&mut self, t: ThreadId, sem: SemId) -> Result<(), Broken>
        requires thread { t.0 < most_threads }
        requires sem { sem.0 < most_objects }
        ensures { Answers self.old self.new (record { thread = t; action = Action.AlertPReturn sem }) result }
    {
        if !self.has_begun(t, Pending::Nothing) {
            return Err(Broken::Order);
        }
        if !self.is_available(sem) {
            return Err(Broken::When);
        }
        self.set_available(sem, false);
        Ok(())
    }

    pub(super) fn alert_p_raise(&mut self, t: ThreadId, sem: SemId) -> Result<(), Broken>
        requires thread { t.0 < most_threads }
        requires sem { sem.0 < most_objects }
        ensures { Answers self.old self.new (record { thread = t; action = Action.AlertPRaise sem }) result }
    {
        if !self.has_begun(t, Pending::Nothing) {
            return Err(Broken::Order);
        }
        if !self.is_alerted(t) {
            return Err(Broken::When);
        }
        self.clear_alert(t);
        Ok(())
    }

    pub(super) fn fork(&mut self, t: ThreadId, who: ThreadId) -> Result<(), Broken>
        requires thread { t.0 < most_threads }
        requires who { who.0 < most_threads }
        ensures { Answers self.old self.new (record { thread = t; action = Action.Fork who }) result }
    {
        if !self.has_begun(t, Pending::Nothing) {
            return Err(Broken::Order);
        }
        if !self.is_unborn(who) {
            return Err(Broken::Requires);
        }
        self.set_life(who, Life::Live);
        Ok(())
    }

    pub(super) fn end(&mut self, t: ThreadId) -> Result<(), Broken>
        requires { t.0 < most_threads }
        ensures { Answers self.old self.new (record { thread = t; action = Action.End }) result }
    {
        if !self.has_begun(t, Pending::Nothing) {
            return Err(Broken::Order);
        }
        if !self.holds_none(t) {
            return Err(Broken::Requires);
        }
        self.set_life(t, Life::Ended);
        Ok(())
    }

    pub(super) fn join(&mut self, t: ThreadId, who: ThreadId) -> Result<(), Broken>
        requires thread { t.0 < most_threads }
        requires who { who.0 < most_threads }
        ensures { Answers self.old self.new (record { thread = t; action = Action.Join who }) result }
    {
        if !self.has_begun(t, Pending::Nothing) {
            return Err(Broken::Order);
        }
        if !self.has_ended(who) {
            return Err(Broken::When);
        }
        Ok(())
    }
}
