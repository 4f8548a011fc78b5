//! The workloads of bench_workloads, to be timed: `program_bench WORKLOAD NUMBERS` prints one line,
//! which its words determine. Without words it runs each workload once, small. No part of the
//! product is built on this crate.
#![tactic(auto)]

ghost use Rattle.std.specs.Prelude.{◌≡◌, ◌≤◌, ◌%◌, ◌^◌};
ghost use Rattle.std.specs.List.{sum};

mod words;

use anyhow::{Context, Result};
use bench_workloads::{
    Capacity, Count, Pair, Play, Sides, add_at_once, alert_at_once, call_alone, pass_at_once,
    play_at_once, read_at_once, turn_at_once,
};
use std::alloc::Global;
use std::env;
use std::sync::Wait;
use std::thread::Threads;
use words::Workload;

/// The workloads that run if there are no words.
const SMALL: [&str; 13] = [
    "uncontended 1000",
    "contended 2 1000",
    "contended 4 500 20",
    "semaphore 1000",
    "sem_pingpong 1000",
    "uncontended_signal 1000",
    "uncontended_broadcast 1000",
    "pingpong 1000",
    "pingpong_after 1000",
    "broadcast 3 500",
    "alert_wake 500",
    "producer_consumer 2 2 500 8",
    "readers_writers 2 2 500",
];

/// The sum of the numbers, modulo 2^64.
fn sum_of(numbers: &[u64]) -> u64
    ensures { result ≡ sum numbers.now % 2 ^ 64 }
{
    let mut sum = 0u64;
    for number in numbers {
        sum = sum.wrapping_add(*number);
    }
    sum
}

/// Threads that add under one mutex, with some turns outside in between.
fn contended<R: Threads + Wait + Sync + Print>(
    rt: &R,
    alloc: Global,
    threads: Count,
    times: u32,
    outside: u32,
) -> Result<()> {
    let added = add_at_once(rt, alloc, threads, times, outside)?;
    let sum = added.closed.values()[0];
    let own = sum_of(&added.own);
    drop(added);
    println!(rt; "contended {} {times} sum {sum} own {own}", threads.number)?;
    Ok(())
}

/// One thread that adds under a mutex.
fn uncontended<R: Threads + Wait + Sync + Print>(rt: &R, alloc: Global, times: u32) -> Result<()> {
    let added = add_at_once(rt, alloc, Count::ONE, times, 0)?;
    let sum = added.closed.values()[0];
    drop(added);
    println!(rt; "uncontended {times} sum {sum}")?;
    Ok(())
}

/// So many threads that take turns by semaphores.
fn by_semaphores<R: Threads + Wait + Sync + Print>(
    rt: &R,
    alloc: Global,
    name: &str,
    threads: u32,
    times: u32,
) -> Result<()>
    requires { (1 ≤ threads) × (threads ≤ 2) }
{
    let turned = turn_at_once(rt, alloc, threads, times)?;
    let sum = sum_of(&turned.turns);
    drop(turned);
    println!(rt; "{name} {times} sum {sum}")?;
    Ok(())
}

/// One thread that wakes nobody.
fn calls<R: Threads + Wait + Sync + Print>(
    rt: &R,
    alloc: Global,
    all: bool,
    times: u32,
) -> Result<()> {
    let closed = call_alone(rt, alloc, all, times)?;
    let sum = sum_of(closed.values());
    drop(closed);
    let name = if all { "broadcast" } else { "signal" };
    println!(rt; "uncontended_{name} {times} sum {sum}")?;
    Ok(())
}

/// Two threads that take turns by two conditions.
fn pingpong<R: Threads + Wait + Sync + Print>(
    rt: &R,
    alloc: Global,
    after: bool,
    times: u32,
) -> Result<()> {
    let (what, name) = if after {
        (Play::After, "pingpong_after")
    } else {
        (Play::Before, "pingpong")
    };
    let closed = play_at_once(rt, alloc, Count::TWO, what, times)?;
    let sum = closed.values()[0];
    drop(closed);
    println!(rt; "{name} {times} sum {sum}")?;
    Ok(())
}

/// One thread that opens rounds, and those that count them.
fn broadcast<R: Threads + Wait + Sync + Print>(
    rt: &R,
    alloc: Global,
    threads: Count,
    times: u32,
) -> Result<()> {
    let closed = play_at_once(rt, alloc, threads, Play::Rounds, times)?;
    // The thread that opens the rounds has added 1 in each; only the others count for the line.
    let sum = closed.values()[0].wrapping_sub(u64::from(times));
    drop(closed);
    println!(rt; "broadcast {} {times} sum {sum}", threads.number - 1)?;
    Ok(())
}

/// One thread whose waits another ends by alerts.
fn alert_wake<R: Threads + Wait + Sync + Print>(rt: &R, alloc: Global, times: u32) -> Result<()> {
    let woken = alert_at_once(rt, alloc, times)?;
    let sum = sum_of(&woken.alerted);
    drop(woken);
    println!(rt; "alert_wake {times} sum {sum}")?;
    Ok(())
}

/// Makers and takers of a bounded buffer.
fn producer_consumer<R: Threads + Wait + Sync + Print>(
    rt: &R,
    alloc: Global,
    sides: Sides,
    times: u32,
    capacity: Capacity,
) -> Result<()> {
    let passed = pass_at_once(rt, alloc, sides, times, capacity)?;
    let sum = sum_of(&passed.sums);
    drop(passed);
    println!(rt;
        "producer_consumer {} {} {times} {} sum {sum}",
        sides.first, sides.second, capacity.number
    )?;
    Ok(())
}

/// Readers and writers of two numbers.
fn readers_writers<R: Threads + Wait + Sync + Print>(
    rt: &R,
    alloc: Global,
    sides: Sides,
    times: u32,
) -> Result<()> {
    let pair = Pair::new();
    let played = read_at_once(rt, alloc, sides, times, &pair)?;
    let writes = sum_of(&played.writes);
    drop(played);
    println!(rt;
        "readers_writers {} {} {times} sum {writes} torn {}",
        sides.first,
        sides.second,
        pair.torn(writes)
    )?;
    Ok(())
}

/// Runs the workload that the words name, and prints its line.
fn run<R: Threads + Wait + Sync + Print>(rt: &R, alloc: Global, words: &[&str]) -> Result<()> {
    let workload = words::read(words).context(format_args!("no such workload"))?;
    match workload {
        Workload::Uncontended { times } => uncontended(rt, alloc, times),
        Workload::Contended {
            threads,
            times,
            outside,
        } => contended(rt, alloc, threads, times, outside),
        Workload::Semaphore { times } => by_semaphores(rt, alloc, "semaphore", 1, times),
        Workload::SemPingpong { times } => by_semaphores(rt, alloc, "sem_pingpong", 2, times),
        Workload::Wake { all, times } => calls(rt, alloc, all, times),
        Workload::Pingpong { after, times } => pingpong(rt, alloc, after, times),
        Workload::Broadcast { threads, times } => broadcast(rt, alloc, threads, times),
        Workload::AlertWake { times } => alert_wake(rt, alloc, times),
        Workload::ProducerConsumer {
            sides,
            times,
            capacity,
        } => producer_consumer(rt, alloc, sides, times, capacity),
        Workload::ReadersWriters { sides, times } => readers_writers(rt, alloc, sides, times),
    }
}

/// Runs each workload once, small.
fn run_small<R: Threads + Wait + Sync + Print>(rt: &R, alloc: Global) -> Result<()> {
    for line in SMALL {
        let words: Vec<&str> = line.split(' ').collect(alloc)?;
        run(rt, alloc, &words)?;
    }
    Ok(())
}

fn main(rt: HostRuntime) -> Result<()> {
    let alloc = rt.alloc();
    let given: Vec<String> = env::args(&rt)?.skip(1).collect(alloc)?;
    if given.is_empty() {
        return run_small(&rt, alloc);
    }
    let words: Vec<&str> = given.iter().map(|word| word.as_str()).collect(alloc)?;
    run(&rt, alloc, &words)
}
