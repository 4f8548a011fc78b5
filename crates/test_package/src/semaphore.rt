//! A binary semaphore.
use crate::notes::Notes;
use crate::work::{Task, WorkPart};
use nub::{Action, SemId};
use std::test::Fail;
use test_support::{event, few_of_each, has_numbers, largest, leaves, plays};

// A semaphore is available at first and after a V.
#[test]
fn alone(rt: HostRuntime) -> Result<(), Fail> {
    let notes = Notes::new();
    let part = WorkPart(Task::TakeTurns(2), &notes);
    let sem = SemId(0);
    let (taken, freed) = (event(0, Action::P { sem }), event(0, Action::V { sem }));
    let expected = [taken, freed, taken, freed];
    plays(&rt, rt.alloc(), few_of_each(1), &part, &expected)
}

// Two threads take turns, untraced and traced: they never meet, and the trace has every event.
#[test]
fn contended(rt: HostRuntime) -> Result<(), Fail> {
    let notes = Notes::new();
    let part = WorkPart(Task::TakeTurns(500), &notes);
    leaves(&rt, rt.alloc(), few_of_each(2), &part, &[0; 2], None)?;
    leaves(&rt, rt.alloc(), few_of_each(2), &part, &[0; 2], Some(2000))?;
    has_numbers(&notes.numbers()[1..2], &[0])
}

// No thread waits for one that is between P and V of another semaphore: that one saw the other
// thread go through semaphore 1 in time.
#[test]
fn two_objects_apart(rt: HostRuntime) -> Result<(), Fail> {
    let notes = Notes::new();
    let part = WorkPart(Task::PassBySem, &notes);
    leaves(&rt, rt.alloc(), few_of_each(2), &part, &[0; 2], None)?;
    has_numbers(&notes.numbers()[2..], &[1])
}

#[test]
fn many_threads(rt: HostRuntime) -> Result<(), Fail> {
    let notes = Notes::new();
    let part = WorkPart(Task::TakeTurns(1000), &notes);
    leaves(&rt, rt.alloc(), few_of_each(8), &part, &[0; 2], None)?;
    has_numbers(&notes.numbers()[1..2], &[0])
}

// Each of 64 threads takes turns by a semaphore of its own.
#[test]
fn largest_layout(rt: HostRuntime) -> Result<(), Fail> {
    let notes = Notes::new();
    let part = WorkPart(Task::TurnApart(10), &notes);
    leaves(&rt, rt.alloc(), largest(), &part, &[0; 64], Some(1280))
}
