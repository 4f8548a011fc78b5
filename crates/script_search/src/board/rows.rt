//! The step of each action on a board: whether it may come, and the change.
ghost use Rattle.std.specs.Prelude.{◌≡◌, ◌<◌, ◌≤◌, ◌↔◌, IsTrue, ℕ, true, false, vec_len, length, if◌then◌else◌};
ghost use Rattle.larch_actions.specs.Actions.{put, MayLeave};
ghost use Rattle.larch_actions.specs.Layout.{HasNames, IsLawful};
ghost use Rattle.larch_actions.specs.Sets.{in_set};
ghost use Rattle.larch_actions.specs.declared.event.Action.TheVariants as Action;
ghost use Rattle.script_text.specs.Runs.{event};
ghost use Rattle.script_search.specs.Boards.{moment_of, spec_of, IsBoard, Keeps, Steps};
ghost use Rattle.script_search.specs.Thinned.{thin, IsThinned, members_in};

use super::parts::is_inside;
use super::{Board, Place, Thread};
use larch_actions::{Action, CondId, Layout, MutexId, Pending, ThreadId, ThreadSet};

// The thread, which is taken out of the condition unless it stays there.
fn leave_unless(thread: Thread, cond: u32, stays: bool) -> Thread
    ensures { result ≡ thin cond stays thread }
{
    let place = match thread.place {
        Place::Waiting {
            mutex,
            cond: own,
            inside,
        } => Place::Waiting {
            mutex,
            cond: own,
            inside: inside && (stays || own != cond),
        },
        Place::AlertWaiting {
            mutex,
            cond: own,
            inside,
        } => Place::AlertWaiting {
            mutex,
            cond: own,
            inside: inside && (stays || own != cond),
        },
        other => other,
    };
    Thread { place, ..thread }
}

// Takes all threads out of the condition that don't stay there.
fn thin_all(threads: &mut Vec<Thread>, cond: u32, left: &ThreadSet)
    requires { vec_len threads.old ≤ 256 }
    ensures { IsThinned cond (in_set left.now) threads.old.items threads.new.items }
{
    for t in 0..threads.len() {
        threads[t] = leave_unless(threads[t], cond, left.has(ThreadId(t as u32)));
    }
}

// Whether no thread below n is in the set.
fn is_none(left: &ThreadSet, n: usize) -> bool
    requires few { n ≤ 256 }
    requires within { (t : ℕ) → in_set left.now t ≡ true → t < n }
    ensures { IsTrue result ↔ ((t : ℕ) → in_set left.now t ≡ false) }
{
    for t in 0..n {
        if left.has(ThreadId(t as u32)) {
            return false;
        }
    }
    true
}

// Whether each thread of the set is in the condition.
fn are_inside(threads: &[Thread], cond: u32, left: &ThreadSet) -> bool
    requires few { length threads.now ≤ 256 }
    requires within { (t : ℕ) → in_set left.now t ≡ true → t < length threads.now }
    ensures { IsTrue result ↔ ((t : ℕ) → in_set left.now t ≡ true → members_in threads.now cond t ≡ true) }
{
    for t in 0..threads.len() {
        if left.has(ThreadId(t as u32)) && !is_inside(threads[t].place, cond) {
            return false;
        }
    }
    true
}

// Whether some thread in the condition isn't in the set.
fn one_leaves(threads: &[Thread], cond: u32, left: &ThreadSet) -> bool
    requires { length threads.now ≤ 256 }
    ensures { IsTrue result ↔ ((t : ℕ) × (members_in threads.now cond t ≡ true) × (in_set left.now t ≡ false)) }
{
    for t in 0..threads.len() {
        if is_inside(threads[t].place, cond) && !left.has(ThreadId(t as u32)) {
            return true;
        }
    }
    false
}

// Whether a Signal may leave that set of these threads in the condition: none, or some of those inside and not all.
fn may_leave(threads: &[Thread], cond: u32, left: &ThreadSet) -> bool
    requires few { length threads.now ≤ 256 }
    requires within { (t : ℕ) → in_set left.now t ≡ true → t < length threads.now }
    ensures { IsTrue result ↔ MayLeave (members_in threads.now cond) (in_set left.now) }
{
    if is_none(left, threads.len()) {
        return true;
    }
    if !are_inside(threads, cond, left) {
        return false;
    }
    one_leaves(threads, cond, left)
}

impl Board {
    // Takes all threads out of the condition that don't stay there.
    fn leave_only(&mut self, cond: u32, left: &ThreadSet)
        requires { vec_len self.old.threads ≤ 256 }
        ensures keeps { Keeps (moment_of self.old) (moment_of self.new) }
        ensures spec { spec_of (moment_of self.new) ≡
            record (spec_of (moment_of self.old)) {
              members = put (spec_of (moment_of self.old)).members cond
                  (λ t. if in_set left.now t then (spec_of (moment_of self.old)).members cond t else false);
            } }
    {
        thin_all(&mut self.threads, cond, left);
    }

    fn acquire(&mut self, t: u32, mutex: u32) -> bool
        requires thread { t < vec_len self.old.threads }
        requires mutex { mutex < vec_len self.old.holders }
        ensures { Steps (moment_of self.old) (moment_of self.new) (event t (Action.Acquire (record { 0 = mutex }))) result }
    {
        if !self.has_begun(t, Pending::Nothing) || !self.is_free(mutex) {
            return false;
        }
        self.set_holder(mutex, Some(t));
        true
    }

    fn release(&mut self, t: u32, mutex: u32) -> bool
        requires thread { t < vec_len self.old.threads }
        requires mutex { mutex < vec_len self.old.holders }
        ensures { Steps (moment_of self.old) (moment_of self.new) (event t (Action.Release (record { 0 = mutex }))) result }
    {
        if !self.has_begun(t, Pending::Nothing) || !self.is_holder(t, mutex) {
            return false;
        }
        self.set_holder(mutex, None);
        true
    }

    fn enqueue(&mut self, t: u32, mutex: u32, cond: u32) -> bool
        requires thread { t < vec_len self.old.threads }
        requires mutex { mutex < vec_len self.old.holders }
        ensures { Steps (moment_of self.old) (moment_of self.new)
            (event t (Action.Enqueue (record { 0 = mutex }) (record { 0 = cond }))) result }
    {
        if !self.has_begun(t, Pending::Nothing) || !self.is_holder(t, mutex) {
            return false;
        }
        let inside = true;
        self.set_place(
            t,
            Place::Waiting {
                mutex,
                cond,
                inside,
            },
        );
        self.set_holder(mutex, None);
        true
    }

    fn alert_enqueue(&mut self, t: u32, mutex: u32, cond: u32) -> bool
        requires thread { t < vec_len self.old.threads }
        requires mutex { mutex < vec_len self.old.holders }
        ensures { Steps (moment_of self.old) (moment_of self.new)
            (event t (Action.AlertEnqueue (record { 0 = mutex }) (record { 0 = cond }))) result }
    {
        if !self.has_begun(t, Pending::Nothing) || !self.is_holder(t, mutex) {
            return false;
        }
        let inside = true;
        self.set_place(
            t,
            Place::AlertWaiting {
                mutex,
                cond,
                inside,
            },
        );
        self.set_holder(mutex, None);
        true
    }

    fn resume(&mut self, t: u32, mutex: u32, cond: u32) -> bool
        requires thread { t < vec_len self.old.threads }
        requires mutex { mutex < vec_len self.old.holders }
        ensures { Steps (moment_of self.old) (moment_of self.new)
            (event t (Action.Resume (record { 0 = mutex }) (record { 0 = cond }))) result }
    {
        let what = Pending::Waiting {
            mutex: MutexId(mutex),
            cond: CondId(cond),
        };
        if !self.has_begun(t, what) || !self.is_free(mutex) || self.is_inside(cond, t) {
            return false;
        }
        self.set_place(t, Place::Running);
        self.set_holder(mutex, Some(t));
        true
    }

    fn alert_return(&mut self, t: u32, mutex: u32, cond: u32) -> bool
        requires thread { t < vec_len self.old.threads }
        requires mutex { mutex < vec_len self.old.holders }
        ensures { Steps (moment_of self.old) (moment_of self.new)
            (event t (Action.AlertReturn (record { 0 = mutex }) (record { 0 = cond }))) result }
    {
        let what = Pending::AlertWaiting {
            mutex: MutexId(mutex),
            cond: CondId(cond),
        };
        if !self.has_begun(t, what) || !self.is_free(mutex) || self.is_inside(cond, t) {
            return false;
        }
        self.set_place(t, Place::Running);
        self.set_holder(mutex, Some(t));
        true
    }

    fn alert_raise(&mut self, t: u32, mutex: u32, cond: u32) -> bool
        requires thread { t < vec_len self.old.threads }
        requires mutex { mutex < vec_len self.old.holders }
        ensures { Steps (moment_of self.old) (moment_of self.new)
            (event t (Action.AlertRaise (record { 0 = mutex }) (record { 0 = cond }))) result }
    {
        let what = Pending::AlertWaiting {
            mutex: MutexId(mutex),
            cond: CondId(cond),
        };
        if !self.has_begun(t, what) || !self.is_free(mutex) || !self.is_alerted(t) {
            return false;
        }
        self.set_place(t, Place::Running);
        self.set_alerted(t, false);
        self.set_holder(mutex, Some(t));
        true
    }

    fn signal(&mut self, t: u32, cond: u32, left: &ThreadSet) -> bool
        requires thread { t < vec_len self.old.threads }
        requires few { vec_len self.old.threads ≤ 256 }
        requires within { (u : ℕ) → in_set left.now u ≡ true → u < vec_len self.old.threads }
        ensures { Steps (moment_of self.old) (moment_of self.new) (event t (Action.Signal (record { 0 = cond }) left.now)) result }
    {
        if !self.has_begun(t, Pending::Nothing) || !may_leave(self.threads.as_slice(), cond, left) {
            return false;
        }
        self.leave_only(cond, left);
        true
    }

    fn broadcast(&mut self, t: u32, cond: u32) -> bool
        requires thread { t < vec_len self.old.threads }
        requires few { vec_len self.old.threads ≤ 256 }
        ensures { Steps (moment_of self.old) (moment_of self.new) (event t (Action.Broadcast (record { 0 = cond }))) result }
    {
        if !self.has_begun(t, Pending::Nothing) {
            return false;
        }
        self.leave_only(cond, &ThreadSet::empty());
        true
    }

    // P, and AlertP that returns.
    fn take(&mut self, t: u32, sem: u32) -> bool
        requires thread { t < vec_len self.old.threads }
        requires sem { sem < vec_len self.old.available }
        ensures p { Steps (moment_of self.old) (moment_of self.new) (event t (Action.P (record { 0 = sem }))) result }
        ensures alert_p { Steps (moment_of self.old) (moment_of self.new) (event t (Action.AlertPReturn (record { 0 = sem }))) result }
    {
        if !self.has_begun(t, Pending::Nothing) || !self.is_available(sem) {
            return false;
        }
        self.set_available(sem, false);
        true
    }

    fn v(&mut self, t: u32, sem: u32) -> bool
        requires thread { t < vec_len self.old.threads }
        requires sem { sem < vec_len self.old.available }
        ensures { Steps (moment_of self.old) (moment_of self.new) (event t (Action.V (record { 0 = sem }))) result }
    {
        if !self.has_begun(t, Pending::Nothing) {
            return false;
        }
        self.set_available(sem, true);
        true
    }

    fn alert(&mut self, t: u32, who: u32) -> bool
        requires thread { t < vec_len self.old.threads }
        requires who { who < vec_len self.old.threads }
        ensures { Steps (moment_of self.old) (moment_of self.new) (event t (Action.Alert (record { 0 = who }))) result }
    {
        if !self.has_begun(t, Pending::Nothing) {
            return false;
        }
        self.set_alerted(who, true);
        true
    }

    fn test_alert(&mut self, t: u32, yes: bool) -> bool
        requires { t < vec_len self.old.threads }
        ensures { Steps (moment_of self.old) (moment_of self.new) (event t (Action.TestAlert yes)) result }
    {
        if !self.has_begun(t, Pending::Nothing) || yes != self.is_alerted(t) {
            return false;
        }
        self.set_alerted(t, false);
        true
    }

    fn alert_p_raise(&mut self, t: u32, sem: u32) -> bool
        requires { t < vec_len self.old.threads }
        ensures { Steps (moment_of self.old) (moment_of self.new) (event t (Action.AlertPRaise (record { 0 = sem }))) result }
    {
        if !self.has_begun(t, Pending::Nothing) || !self.is_alerted(t) {
            return false;
        }
        self.set_alerted(t, false);
        true
    }

    fn fork(&mut self, t: u32, who: u32) -> bool
        requires thread { t < vec_len self.old.threads }
        requires who { who < vec_len self.old.threads }
        ensures { Steps (moment_of self.old) (moment_of self.new) (event t (Action.Fork (record { 0 = who }))) result }
    {
        if !self.has_begun(t, Pending::Nothing) || !self.is_unborn(who) {
            return false;
        }
        self.set_place(who, Place::Running);
        true
    }

    fn end(&mut self, t: u32) -> bool
        requires { t < vec_len self.old.threads }
        ensures { Steps (moment_of self.old) (moment_of self.new) (event t Action.End) result }
    {
        if !self.has_begun(t, Pending::Nothing) || !self.holds_none(t) {
            return false;
        }
        self.set_place(t, Place::Ended);
        true
    }

    fn join(&mut self, t: u32, who: u32) -> bool
        requires thread { t < vec_len self.old.threads }
        requires who { who < vec_len self.old.threads }
        ensures { Steps (moment_of self.old) (moment_of self.new) (event t (Action.Join (record { 0 = who }))) result }
    {
        self.has_begun(t, Pending::Nothing) && self.has_ended(who)
    }

    // Makes the step of the action by the thread where it may come. Else the board is of no use any more.
    pub(crate) fn act(&mut self, layout: &Layout, t: u32, action: &Action) -> bool
        requires lawful { IsLawful layout.now }
        requires board { IsBoard layout.now (moment_of self.old) }
        requires named { HasNames layout.now (event t action.now) }
        ensures { Steps (moment_of self.old) (moment_of self.new) (event t action.now) result }
    {
        match *action {
            Action::Acquire { mutex } => self.acquire(t, mutex.0),
            Action::Release { mutex } => self.release(t, mutex.0),
            Action::Enqueue { mutex, cond } => self.enqueue(t, mutex.0, cond.0),
            Action::Resume { mutex, cond } => self.resume(t, mutex.0, cond.0),
            Action::AlertEnqueue { mutex, cond } => self.alert_enqueue(t, mutex.0, cond.0),
            Action::AlertReturn { mutex, cond } => self.alert_return(t, mutex.0, cond.0),
            Action::AlertRaise { mutex, cond } => self.alert_raise(t, mutex.0, cond.0),
            Action::Signal { cond, left } => self.signal(t, cond.0, &left),
            Action::Broadcast { cond } => self.broadcast(t, cond.0),
            Action::P { sem } => self.take(t, sem.0),
            Action::V { sem } => self.v(t, sem.0),
            Action::Alert { who } => self.alert(t, who.0),
            Action::TestAlert { yes } => self.test_alert(t, yes),
            Action::AlertPReturn { sem } => self.take(t, sem.0),
            Action::AlertPRaise { sem } => self.alert_p_raise(t, sem.0),
            Action::Fork { who } => self.fork(t, who.0),
            Action::End => self.end(t),
            Action::Join { who } => self.join(t, who.0),
        }
    }
}
