//! Tests of put, take and shut.
use crate::calls::{PutAnswer, TakeAnswer};
use crate::ring_run::ended;
use crate::work::{ITEMS, InTurn, Left, MANY, Taken, Task};
use bounded_buffer::{PutEnd, TakeEnd};
use std::alloc::{AllocError, Global};
use std::process::Abort;
use std::test::Fail;
use test_support::has_numbers;

/// Checks that the put has this result.
fn put_has(rt: &impl Abort, answer: PutAnswer, expected: PutAnswer) {
    assert_eq!(rt; answer, expected);
}

/// Checks that the take has this result.
fn take_has(rt: &impl Abort, answer: TakeAnswer, expected: TakeAnswer) {
    assert_eq!(rt; answer, expected);
}

/// Checks that items came out in order of puts, that the shut buffer took no more, and that what
/// was left came out.
fn is_in_turn(rt: &impl Abort, answers: &InTurn) {
    put_has(rt, answers.first_put, Ok(0));
    put_has(rt, answers.second_put, Ok(1));
    take_has(rt, answers.first_take, Ok((0, 7)));
    put_has(rt, answers.late_put, Err((PutEnd::Closed, 9)));
    take_has(rt, answers.second_take, Ok((1, 8)));
    take_has(rt, answers.last_take, Err(TakeEnd::ClosedEmpty));
}

/// Returns whether the first of these is a thread that put, took and shut, and checks its results.
fn begins_in_turn(rt: &impl Abort, left: &[Left]) -> bool {
    match left.first() {
        Some(Left::InTurn(answers)) => {
            is_in_turn(rt, answers);
            true
        }
        _ => false,
    }
}

// Items come out in order of puts. A shut buffer takes no more, and what is left comes out.
#[test]
fn one_thread(rt: HostRuntime) -> Result<(), Fail> {
    let (end, left) = ended(&rt, rt.alloc(), 1, 2, Task::InTurn)?;
    let answered = begins_in_turn(&rt, &left);
    drop(left);
    assert!(rt; answered);
    assert!(rt; !end.traced);
    Ok(())
}

/// Returns how many threads took once, and how many of these takes an alert ended, which was
/// cleared then.
fn takes_of(left: &[Left]) -> [u64; 2] {
    let mut all: u64 = 0;
    let mut cancelled: u64 = 0;
    for one in left {
        let Left::AlertedTake(taken, still) = one else {
            continue;
        };
        all = all.saturating_add(1);
        if *taken == Err(TakeEnd::Alerted) && !*still {
            cancelled = cancelled.saturating_add(1);
        }
    }
    [all, cancelled]
}

// A thread that has alerted itself raises if there is nothing to take, and is no longer alerted.
#[test]
fn alerted_take(rt: HostRuntime) -> Result<(), Fail> {
    let (_, left) = ended(&rt, rt.alloc(), 1, 1, Task::AlertedTake)?;
    let takes = takes_of(&left);
    drop(left);
    has_numbers(&takes, &[1, 1])
}

/// Returns how many puts were refused, of all threads together.
fn refusals(left: &[Left]) -> u64 {
    let mut all: u64 = 0;
    for one in left {
        if let Left::Refused(refused) = one {
            all = all.saturating_add(*refused as u64);
        }
    }
    all
}

/// The numbers and the items that came, of those that threads took, and how often they took.
#[derive(Drop)]
struct Came {
    taken: u64,
    numbers: [bool; ITEMS],
    items: [bool; ITEMS],
}

impl Came {
    /// Adds what one thread took.
    fn add(&mut self, took: &Taken) {
        self.taken = self.taken.saturating_add(took.count as u64);
        for (number, item) in took.items.iter().enumerate() {
            let Some(item) = item else {
                continue;
            };
            if let Some(place) = self.numbers.get_mut(number) {
                *place = true;
            }
            if let Some(place) = self.items.get_mut(*item as usize) {
                *place = true;
            }
        }
    }
}

/// Returns how many of these came.
fn how_many_came(places: &[bool]) -> u64 {
    let mut many: u64 = 0;
    for came in places {
        if *came {
            many = many.saturating_add(1);
        }
    }
    many
}

/// Returns how often threads took, and how many of the numbers and how many of the items came.
fn count_all(left: &[Left]) -> [u64; 3] {
    let mut came = Came {
        taken: 0,
        numbers: [false; ITEMS],
        items: [false; ITEMS],
    };
    for one in left {
        if let Left::Taken(took) = one {
            came.add(took);
        }
    }
    let (numbers, items) = (how_many_came(&came.numbers), how_many_came(&came.items));
    [came.taken, numbers, items]
}

// Two threads put 500 items each, two others take them. They take 1000 times; all 1000 items came,
// and all numbers from 0 to 999.
#[test]
fn each_item_once(rt: HostRuntime) -> Result<(), Fail> {
    let (_, left) = ended(&rt, rt.alloc(), 4, 1, Task::Pass)?;
    let (refused, came) = (refusals(&left), count_all(&left));
    drop(left);
    has_numbers(&came, &[1000, 1000, 1000])?;
    has_numbers(&[refused], &[0])
}

/// Returns how often each item was taken.
fn counts(alloc: Global, left: &[Left]) -> Result<Vec<u32>, AllocError> {
    let mut counts = vec![in alloc; 0u32; MANY]?;
    for one in left {
        let Left::TookMany(took) = one else {
            continue;
        };
        for item in &took.items {
            if let Some(count) = counts.get_mut(*item as usize) {
                *count = count.saturating_add(1);
            }
        }
    }
    Ok(counts)
}

/// Returns how many of the items were taken once.
fn taken_once(alloc: Global, left: &[Left]) -> Result<u64, AllocError> {
    let counts = counts(alloc, left)?;
    let mut once: u64 = 0;
    for count in &counts {
        if *count == 1 {
            once = once.saturating_add(1);
        }
    }
    Ok(once)
}

/// Returns how many items threads took, and for how many of these they had no memory.
fn how_many(left: &[Left]) -> [u64; 2] {
    let mut all: u64 = 0;
    let mut lost: u64 = 0;
    for one in left {
        let Left::TookMany(took) = one else {
            continue;
        };
        all = all.saturating_add(took.items.len() as u64);
        lost = lost.saturating_add(took.lost as u64);
    }
    [all, lost]
}

// Four threads put 50,000 items each into a buffer of eight places, four others take them: 200,000
// were taken, each once.
#[test]
fn many_items_once(rt: HostRuntime) -> Result<(), Fail> {
    let (end, left) = ended(&rt, rt.alloc(), 8, 8, Task::PassMany)?;
    let (refused, taken) = (refusals(&left), how_many(&left));
    let once = taken_once(rt.alloc(), &left);
    drop(left);
    has_numbers(&taken, &[200_000, 0])?;
    has_numbers(&[refused, once?, end.taken], &[0, 200_000, 200_000])?;
    assert!(rt; end.empty);
    Ok(())
}

// Four threads take from an empty buffer into which no thread puts, and a fifth alerts them: each
// take ends by the alert, which is cleared then.
#[test]
fn all_takers_cancelled(rt: HostRuntime) -> Result<(), Fail> {
    let (_, left) = ended(&rt, rt.alloc(), 5, 8, Task::Cancel)?;
    let takes = takes_of(&left);
    drop(left);
    has_numbers(&takes, &[4, 4])
}
