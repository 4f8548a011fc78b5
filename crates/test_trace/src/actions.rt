//! Runs of the state by hand.
ghost use Rattle.std.specs.Prelude.{◌≡◌, ◌<◌};
ghost use Rattle.larch_actions.specs.Layout.{IsNamed};
ghost use Rattle.test_trace.specs.Boards.{board};

use crate::same::same;
use larch_actions::{
    Action, Broken, CondId, Event, Layout, MutexId, SemId, State, ThreadId, ThreadSet, Totals,
};
use std::process::Abort;

// The first state of two threads, and one thing of each other kind.
fn first() -> State
    ensures { result.layout ≡ board }
{
    State::new(Layout::of(2, 1, 1, 1))
}

// Applies the action of this thread. It promises only the layout, so that no more is alive in the tests.
fn step(state: &mut State, thread: u32, action: Action) -> Result<(), Broken>
    requires board { state.old.layout ≡ board }
    requires thread { thread < 2 }
    requires action { IsNamed board action }
    ensures { state.new.layout ≡ board }
{
    state.apply(&Event {
        thread: ThreadId(thread),
        action,
    })
}

// So many are held, waited for and alerted.
fn counts(rt: &impl Abort, state: &State, held: u64, waiting: u64, alerted: u64) {
    let totals = Totals {
        held,
        waiting,
        alerted,
    };
    same(rt, &state.summary(), &totals);
}

#[test]
fn a_signalled_thread_takes_the_mutex_again(rt: HostRuntime) {
    let (mutex, cond) = (MutexId(0), CondId(0));
    let left = ThreadSet::empty();
    let mut state = first();
    let answers = [
        step(&mut state, 0, Action::Acquire { mutex }),
        step(&mut state, 0, Action::Enqueue { mutex, cond }),
        step(&mut state, 0, Action::Release { mutex }),
        step(&mut state, 0, Action::Resume { mutex, cond }),
    ];
    same(
        &rt,
        &answers,
        &[Ok(()), Ok(()), Err(Broken::Order), Err(Broken::When)],
    );
    counts(&rt, &state, 0, 1, 0);
    let answers = [
        step(&mut state, 1, Action::Signal { cond, left }),
        step(&mut state, 0, Action::Resume { mutex, cond }),
    ];
    same(&rt, &answers, &[Ok(()), Ok(())]);
    counts(&rt, &state, 1, 0, 0);
    let answers = [
        step(&mut state, 1, Action::Release { mutex }),
        step(&mut state, 0, Action::Release { mutex }),
    ];
    same(&rt, &answers, &[Err(Broken::Requires), Ok(())]);
}

#[test]
fn an_alerted_thread_leaves_its_condition(rt: HostRuntime) {
    let (mutex, cond) = (MutexId(0), CondId(0));
    let mut state = first();
    let mut left = ThreadSet::empty();
    left.insert(ThreadId(0));
    let answers = [
        step(&mut state, 0, Action::Acquire { mutex }),
        step(&mut state, 0, Action::AlertEnqueue { mutex, cond }),
        step(&mut state, 0, Action::AlertRaise { mutex, cond }),
        step(&mut state, 1, Action::Alert { who: ThreadId(0) }),
    ];
    same(&rt, &answers, &[Ok(()), Ok(()), Err(Broken::When), Ok(())]);
    counts(&rt, &state, 0, 1, 1);
    let answers = [
        step(&mut state, 1, Action::Signal { cond, left }),
        step(&mut state, 0, Action::AlertRaise { mutex, cond }),
        step(&mut state, 0, Action::TestAlert { yes: true }),
    ];
    same(
        &rt,
        &answers,
        &[Err(Broken::Ensures), Ok(()), Err(Broken::Ensures)],
    );
}

#[test]
fn a_semaphore_is_taken_once(rt: HostRuntime) {
    let sem = SemId(0);
    let mut state = first();
    let answers = [
        step(&mut state, 0, Action::P { sem }),
        step(&mut state, 1, Action::AlertPReturn { sem }),
        step(&mut state, 1, Action::AlertPRaise { sem }),
        step(&mut state, 0, Action::V { sem }),
        step(&mut state, 1, Action::AlertPReturn { sem }),
    ];
    same(
        &rt,
        &answers,
        &[Ok(()), Err(Broken::When), Err(Broken::When), Ok(()), Ok(())],
    );
}
