//! The parts of threads in tests of alerts. Thread 0 is alerted.
use crate::alerted::{raise_alone, wait_for_wakes};
use crate::alerted_thread::{alert_often, alert_oneself, raise_often, test_twice, wait_often};
use crate::notes::Notes;
use crate::races::{ALERTED, Act, act_often, await_start};
use crate::untils::{returns_once, works_once};
use alerts::alert;
use nub::{Package, Thread};
use std::sync::Wait;
use std::sync::atomic::Ordering;
use sum_uses::SumUses;
use test_support::Part;

/// The task of the threads of a test.
#[derive(Clone, Copy)]
pub enum AlertTask {
    /// Thread 1 alerts thread 0 this many times, which waits for a semaphore that no thread makes
    /// available.
    Raises(u32),
    /// This many times thread 1 makes a semaphore available for which thread 0 waits, while thread
    /// 2 alerts thread 0.
    AtOnce(u32),
    /// Thread 0 alerts itself, and waits for a semaphore that it has taken.
    Oneself,
    /// Thread 0 alerts itself twice, and tests twice.
    Twice,
    /// Thread 1 alerts thread 0, which is at rest.
    AtRest,
    /// Thread 0 alerts itself and waits in a condition.
    Alone,
    /// Thread 0 works on a number that is accepted at once, and after an alert of itself on none.
    Works,
    /// Thread 0 finds a number accepted at once, and after an alert of itself none.
    Returns,
    /// This many times thread 0 waits in a condition while thread 1 signals once and thread 2
    /// alerts thread 0 once.
    Race(u32),
}

/// A task, and where its threads leave what they see.
#[derive(Drop)]
pub struct AlertPart<'a>(pub AlertTask, pub &'a Notes);

impl Part for AlertPart<'_> {
    fn act<R: Wait>(&self, rt: &R, pkg: &Package<SumUses>, me: Thread<SumUses>) -> Thread<SumUses> {
        let (mut me, notes) = (me, self.1);
        match (self.0, me.number()) {
            (AlertTask::Raises(times), 0) => raise_often(rt, pkg, &mut me, times, notes),
            (AlertTask::Raises(times), 1) => alert_often(rt, pkg, &mut me, times),
            (AlertTask::AtOnce(times), 0) => wait_often(rt, pkg, &mut me, times, notes),
            (AlertTask::AtOnce(times), 1) => act_often(rt, pkg, &mut me, Act::Free, times, notes),
            (AlertTask::AtOnce(times), 2) => act_often(rt, pkg, &mut me, Act::Alert, times, notes),
            (AlertTask::Oneself, 0) => alert_oneself(rt, pkg, &mut me, notes),
            (AlertTask::Twice, 0) => {
                alert(rt, pkg, &mut me, ALERTED);
                alert(rt, pkg, &mut me, ALERTED);
                test_twice(rt, pkg, &mut me, notes);
            }
            (AlertTask::AtRest, 0) => {
                await_start(rt, notes);
                test_twice(rt, pkg, &mut me, notes);
            }
            (AlertTask::AtRest, 1) => {
                alert(rt, pkg, &mut me, ALERTED);
                notes.third.store(1, Ordering::SeqCst);
            }
            (AlertTask::Alone, 0) => raise_alone(rt, pkg, &mut me, notes),
            (AlertTask::Works, 0) => works_once(rt, pkg, &mut me, notes),
            (AlertTask::Returns, 0) => returns_once(rt, pkg, &mut me, notes),
            (AlertTask::Race(times), 0) => wait_for_wakes(rt, pkg, &mut me, times, notes),
            (AlertTask::Race(times), 1) => act_often(rt, pkg, &mut me, Act::Signal, times, notes),
            (AlertTask::Race(times), 2) => act_often(rt, pkg, &mut me, Act::Alert, times, notes),
            _ => {}
        }
        me
    }
}
