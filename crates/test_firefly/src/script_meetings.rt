//! Scripts whose threads wait for each other, before their first lines or in a line.
use crate::same::same;
use firefly::{Script, read_script, run_script};
use firefly_outside::MemSource;
use indexer::BeforeStart;
use std::alloc::{AllocError, Global};
use std::sync::Wait;
use std::sync::atomic::{AtomicU64, Ordering};
use std::test::Fail;
use std::thread::Threads;
use test_project::Meeting;

// Appends, `times` times, the lines in which this thread adds one.
fn add_lines(alloc: Global, text: &mut String, thread: u32, times: u32) -> Result<(), AllocError> {
    let lines = format!(in alloc;
        "t{thread} acquire m0\nt{thread} add m0 1\nt{thread} release m0\n"
    )?;
    for _ in 0..times {
        text.push_str(lines.as_str())?;
    }
    Ok(())
}

// The layout of two threads, and for each of them, `times` times, the lines in which it adds one.
fn adding(alloc: Global, times: u32) -> Result<String, AllocError> {
    let mut text = String::from_str(alloc, "threads 2 mutexes 1 conditions 0 semaphores 0\n")?;
    add_lines(alloc, &mut text, 0, times)?;
    add_lines(alloc, &mut text, 1, times)?;
    Ok(text)
}

// Runs the script, and returns the values at the end and how many events were recorded. What else
// is known of the run isn't alive in the test.
fn run_with<R: Threads + Wait + Sync>(
    rt: &R,
    alloc: Global,
    script: &Script,
    meeting: &Meeting,
) -> Result<(Vec<u64>, Option<usize>), AllocError> {
    let closed = run_script(rt, alloc, script, meeting)?;
    Ok((
        closed.values().to_vec(alloc)?,
        closed.trace().map(|events| events.len()),
    ))
}

// The script of this text.
fn script_of(alloc: Global, text: &str) -> Result<Script, Fail> {
    let mut input = MemSource::new(text.as_bytes().to_vec(alloc)?);
    Ok(read_script(alloc, &mut input)?)
}

// Runs the script in which each of two threads adds one a thousand times, as above. The script
// isn't alive in the test.
fn run_adding<R: Threads + Wait + Sync>(
    rt: &R,
    alloc: Global,
    meeting: &Meeting,
) -> Result<(Vec<u64>, Option<usize>), Fail> {
    let text = adding(alloc, 1000)?;
    let script = script_of(alloc, text.as_str())?;
    Ok(run_with(rt, alloc, &script, meeting)?)
}

#[test]
fn two_threads_of_a_script_meet(rt: HostRuntime) -> Result<(), Fail> {
    let meeting = Meeting::new(0);
    let (values, events) = run_adding(&rt, rt.alloc(), &meeting)?;
    assert!(rt; meeting.was_kept());
    same(&rt, &values.as_slice(), &[2000].as_slice());
    same(&rt, &events, &Some(4000));
    Ok(())
}

// The numbers of three threads plus one, in the order in which they begin: that of the first in the
// hundreds, of the second in the tens, of the third in the ones.
#[derive(Drop)]
struct Order(AtomicU64);

impl BeforeStart for Order {
    ghost begun = { λ o n. Unit };

    fn begins(&self, number: u32) {
        let before = self.0.load(Ordering::SeqCst);
        let number = u64::from(number);
        self.0.store(
            before.wrapping_mul(10).wrapping_add(number).wrapping_add(1),
            Ordering::SeqCst,
        );
    }
}

// Runs a script in which each of three threads but the last forks the next one and waits for its
// end. The script isn't alive in the test.
fn run_in_order<R: Threads + Wait + Sync>(
    rt: &R,
    alloc: Global,
    order: &Order,
) -> Result<(), Fail> {
    let script = script_of(
        alloc,
        "firefly-script 2\nthreads 3 mutexes 0 conditions 0 semaphores 0\nt0 fork t1\nt0 join t1\nt1 fork t2\nt1 join t2\n",
    )?;
    drop(run_script(rt, alloc, &script, order)?);
    Ok(())
}

// A thread begins before its first line: if its lines came first, the first would begin last, since
// it waits in them for the end of the second.
#[test]
fn threads_begin_before_their_lines(rt: HostRuntime) -> Result<(), Fail> {
    let order = Order(AtomicU64::new(0));
    run_in_order(&rt, rt.alloc(), &order)?;
    same(&rt, &order.0.load(Ordering::SeqCst), &123);
    Ok(())
}
