//! Inputs that fail or are past their budget, and sinks that are full.
use crate::answers::{Answer, is_answer, run_on, run_program};
use crate::same::same;
use firefly::Status;
use firefly_outside::MemSource;
use std::alloc::{AllocError, Global};
use std::process::Abort;
use std::sync::Wait;
use std::test::Fail;
use std::thread::Threads;
use test_project::project;
use trace_check::{Summary, Verdict, check};

// The texts are in functions without a clause, which keeps their bytes out of the proofs.

fn no_event() -> &'static str {
    "firefly-trace 1
threads 1 mutexes 1 conditions 0 semaphores 0
end 0
"
}

fn signal_script() -> &'static str {
    "firefly-trace 1
threads 2 mutexes 1 conditions 1 semaphores 0
0 t0 acquire m0
1 t0 enqueue m0 c0
2 t1 acquire m0
3 t1 signal c0 left
4 t1 release m0
5 t0 resume m0 c0
6 t0 release m0
end 7
"
}

fn bad_second_line() -> &'static str {
    "threads 1 mutexes 1 conditions 0 semaphores 0
t0 release m0
t0 acquire m0
"
}

fn five_lines() -> &'static str {
    "threads 1 mutexes 2 conditions 0 semaphores 1
t0 p s0
t0 acquire m1
t0 add m1 7
t0 release m1
t0 v s0
"
}

fn four_events() -> &'static str {
    "firefly-trace 1
threads 1 mutexes 2 conditions 0 semaphores 1
0 t0 p s0
1 t0 acquire m1
2 t0 release m1
3 t0 v s0
end 4
value m0 0
value m1 7
"
}

// Calls the command `run` on this text, with room for `room` bytes of its answer.
fn run<R: Threads + Wait + Sync>(
    rt: &R,
    alloc: Global,
    text: &str,
    room: usize,
) -> Result<Answer, AllocError> {
    let mut input = MemSource::new(text.as_bytes().to_vec(alloc)?);
    run_program(rt, alloc, &["run"], &mut input, room)
}

// Calls the command on this text, of which `given` bytes are given before the read fails.
fn failing<R: Threads + Wait + Sync>(
    rt: &R,
    alloc: Global,
    command: &str,
    text: &str,
    given: usize,
) -> Result<Answer, AllocError> {
    let mut input = MemSource::new(text.as_bytes().to_vec(alloc)?);
    input.fail_after(given);
    run_program(rt, alloc, &[command], &mut input, 200)
}

// The verdict on this text.
fn verdict_on(alloc: Global, text: &str, budget: u32) -> Result<Verdict, AllocError> {
    let mut input = MemSource::new(text.as_bytes().to_vec(alloc)?);
    Ok(check(&mut input, u64::from(budget)))
}

const UNREAD: &str = "firefly: input could not be read\n";

const UNWRITTEN: &str = "firefly: output could not be written\n";

// Checks that this is the verdict on the text with this budget.
fn has_verdict(
    rt: &impl Abort,
    alloc: Global,
    text: &str,
    budget: u32,
    verdict: Verdict,
) -> Result<(), AllocError> {
    let found = verdict_on(alloc, text, budget)?;
    same(rt, &found, &verdict);
    Ok(())
}

#[test]
fn a_budget_of_all_bytes_is_enough_and_one_less_is_not(rt: HostRuntime) -> Result<(), Fail> {
    same(&rt, &no_event().len(), &68);
    let none = Summary {
        events: 0,
        held: 0,
        waiting: 0,
        alerted: 0,
    };
    has_verdict(&rt, rt.alloc(), no_event(), 68, Verdict::Legal(none))?;
    has_verdict(&rt, rt.alloc(), no_event(), 67, Verdict::TooLong)?;
    Ok(())
}

// Checks that the failed read is reported, and nothing is printed.
fn reports_read<R: Threads + Wait + Sync + Abort>(
    rt: &R,
    alloc: Global,
    command: &str,
    text: &str,
    given: usize,
) -> Result<(), AllocError> {
    let found = failing(rt, alloc, command, text, given)?;
    is_answer(rt, &found, Status::ReadFault, b"", UNREAD);
    Ok(())
}

#[test]
fn a_failed_read_is_reported_and_nothing_is_printed(rt: HostRuntime) -> Result<(), AllocError> {
    reports_read(&rt, rt.alloc(), "check", signal_script(), 20)
}

#[test]
fn a_failed_read_of_a_script_is_reported(rt: HostRuntime) -> Result<(), AllocError> {
    reports_read(&rt, rt.alloc(), "run", five_lines(), 60)
}

#[test]
fn a_bad_byte_of_a_script_goes_before_a_failed_read(rt: HostRuntime) -> Result<(), Fail> {
    let found = failing(&rt, rt.alloc(), "run", bad_second_line(), 50)?;
    same(&rt, &found.status, &Status::BadText);
    Ok(())
}

#[test]
fn a_full_sink_holds_the_prefix_of_the_line(rt: HostRuntime) -> Result<(), Fail> {
    let mut input = MemSource::new(no_event().as_bytes().to_vec(rt.alloc())?);
    let found = run_program(&rt, rt.alloc(), &["check"], &mut input, 5);
    drop(input);
    let found = found?;
    is_answer(&rt, &found, Status::SinkFault, b"legal", UNWRITTEN);
    Ok(())
}

// Checks that with room for `room` bytes the answer to the five lines is a prefix of this text with
// as many bytes.
fn is_cut<R: Threads + Wait + Sync + Abort>(
    rt: &R,
    alloc: Global,
    text: &[u8],
    room: usize,
) -> Result<(), AllocError> {
    let prefix = text.get(..room).unwrap_or(text);
    let found = run(rt, alloc, five_lines(), room)?;
    is_answer(rt, &found, Status::SinkFault, prefix, UNWRITTEN);
    Ok(())
}

#[test]
fn a_full_sink_holds_the_prefix_of_the_trace(rt: HostRuntime) -> Result<(), Fail> {
    let whole = four_events().as_bytes();
    for room in [0, 1, 16, 100, whole.len().saturating_sub(1)] {
        is_cut(&rt, rt.alloc(), whole, room)?;
    }
    let found = run(&rt, rt.alloc(), five_lines(), whole.len())?;
    is_answer(&rt, &found, Status::Done, whole, "");
    Ok(())
}

#[test]
fn a_full_sink_holds_the_prefix_of_the_index(rt: HostRuntime) -> Result<(), Fail> {
    let tree = project(rt.alloc())?;
    let mut input = MemSource::new(Vec::new(rt.alloc()));
    let found = run_on(&rt, rt.alloc(), &["index", "proj"], &tree, &mut input, 10);
    drop(input);
    drop(tree);
    let found = found?;
    is_answer(&rt, &found, Status::SinkFault, b"1 1\n  1 2 ", UNWRITTEN);
    Ok(())
}
