//! A mutex and the value that it protects.
use crate::notes::Notes;
use crate::work::{Task, WorkPart};
use std::test::Fail;
use test_support::{few_of_each, has_numbers, largest, leaves};

// A thread gets the value with which it released the mutex.
#[test]
fn alone(rt: HostRuntime) -> Result<(), Fail> {
    let notes = Notes::new();
    let part = WorkPart(Task::TwoTurns, &notes);
    leaves(&rt, rt.alloc(), few_of_each(1), &part, &[5, 0], None)?;
    has_numbers(&notes.numbers(), &[0, 5, 1])
}

// Two threads add, untraced and traced: no addition is lost, and the trace has every event.
#[test]
fn contended(rt: HostRuntime) -> Result<(), Fail> {
    let (notes, values) = (Notes::new(), [2000, 0]);
    let part = WorkPart(Task::Together(1000), &notes);
    leaves(&rt, rt.alloc(), few_of_each(2), &part, &values, None)?;
    leaves(&rt, rt.alloc(), few_of_each(2), &part, &values, Some(4000))
}

// No thread waits for the holder of another mutex: the value of mutex 0 is 1 only if its holder saw
// the other thread go through mutex 1 in time. If no second thread can be started, thread 0 gives
// up its wait, passes first, and the value is 1 too.
#[test]
fn two_objects_apart(rt: HostRuntime) -> Result<(), Fail> {
    let notes = Notes::new();
    let part = WorkPart(Task::PassBy, &notes);
    leaves(&rt, rt.alloc(), few_of_each(2), &part, &[1, 1], None)?;
    let part = WorkPart(Task::Apart(1000), &notes);
    leaves(&rt, rt.alloc(), few_of_each(2), &part, &[1000; 2], None)
}

#[test]
fn many_threads(rt: HostRuntime) -> Result<(), Fail> {
    let notes = Notes::new();
    let part = WorkPart(Task::Together(1000), &notes);
    leaves(&rt, rt.alloc(), few_of_each(8), &part, &[8000, 0], None)
}

// Each of 64 threads adds under a mutex of its own.
#[test]
fn largest_layout(rt: HostRuntime) -> Result<(), Fail> {
    let notes = Notes::new();
    let part = WorkPart(Task::Apart(10), &notes);
    leaves(&rt, rt.alloc(), largest(), &part, &[10; 64], Some(1280))
}
