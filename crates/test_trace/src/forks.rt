//! Traces of version two: their verdicts, the byte that decides, and their printing.
use crate::same::same;
use crate::verdicts::{asking_verdict, verdict_on};
use firefly_outside::{MemSink, Sink, SinkFault};
use larch_actions::{Action, Broken, CondId, Event, Layout, ThreadId, ThreadSet, Version};
use std::alloc::Global;
use std::process::Abort;
use std::test::Fail;
use trace_check::{Summary, Verdict};
use trace_core::{print_end, print_event, print_head};

fn legal(events: u64, waiting: u64, alerted: u64) -> Verdict {
    Verdict::Legal(Summary {
        events,
        held: 0,
        waiting,
        alerted,
    })
}

fn illegal(place: u64, why: Broken) -> Verdict {
    Verdict::Illegal { place, why }
}

// A function without a clause keeps the bytes out of the proofs.
fn head() -> &'static [u8] {
    b"firefly-trace 2\nthreads 256 mutexes 1 conditions 1 semaphores 0\n"
}

// Lines after that head, each with its verdict.
fn lives() -> [(&'static [u8], Verdict); 8] {
    [
        (
            b"0 t0 fork t1\n1 t1 acquire m0\n2 t1 release m0\n3 t1 end\n4 t0 join t1\n5 t0 end\nend 6\n",
            legal(6, 0, 0),
        ),
        (b"0 t0 fork t1\n1 t0 join t1\n", illegal(1, Broken::When)),
        (b"0 t0 join t0\n", illegal(0, Broken::When)),
        (b"0 t0 fork t0\n", illegal(0, Broken::Requires)),
        (
            b"0 t0 fork t1\n1 t1 end\n2 t0 fork t1\n",
            illegal(2, Broken::Requires),
        ),
        (b"0 t0 acquire m0\n1 t0 end\n", illegal(1, Broken::Requires)),
        (
            b"0 t0 alert t255\n1 t0 fork t255\n2 t255 end\nend 3\n",
            legal(3, 0, 1),
        ),
        (
            b"0 t0 acquire m0\n1 t0 enqueue m0 c0\n2 t0 end\n",
            illegal(2, Broken::Order),
        ),
    ]
}

// The same of threads that do not live.
fn no_lives() -> [(&'static [u8], Verdict); 7] {
    [
        (b"0 t1 acquire m0\n", illegal(0, Broken::Order)),
        (b"0 t1 fork t2\n", illegal(0, Broken::Order)),
        (b"0 t255 end\n", illegal(0, Broken::Order)),
        (b"0 t1 join t0\n", illegal(0, Broken::Order)),
        (b"0 t0 end\n1 t0 fork t1\n", illegal(1, Broken::Order)),
        (b"0 t0 end\n1 t0 end\n", illegal(1, Broken::Order)),
        (b"0 t0 end\n1 t0 join t0\n", illegal(1, Broken::Order)),
    ]
}

// This is the verdict on the head and these lines, read at once and byte by byte.
fn has_verdict(rt: &impl Abort, alloc: Global, lines: &[u8], verdict: Verdict) -> Result<(), Fail> {
    let mut text = head().to_vec(alloc)?;
    text.extend_from_slice(lines)?;
    let at_once = verdict_on(alloc, &text, 1000, None)?;
    let (one_by_one, _) = asking_verdict(alloc, &text, 1000, None)?;
    same(rt, &at_once, &verdict);
    same(rt, &one_by_one, &verdict);
    Ok(())
}

#[test]
fn a_thread_lives_from_its_fork_to_its_end(rt: HostRuntime) -> Result<(), Fail> {
    for (lines, verdict) in lives() {
        has_verdict(&rt, rt.alloc(), lines, verdict)?;
    }
    Ok(())
}

#[test]
fn a_thread_that_does_not_live_makes_no_event(rt: HostRuntime) -> Result<(), Fail> {
    for (lines, verdict) in no_lives() {
        has_verdict(&rt, rt.alloc(), lines, verdict)?;
    }
    Ok(())
}

// Prefixes of texts whose last byte decides, each with its bad line.
fn last_bytes() -> [(&'static [u8], u64); 12] {
    [
        (b"firefly-trace 3", 1),
        (b"firefly-trace 21", 1),
        (b"firefly-trace 1\nthreads 65", 2),
        (b"firefly-trace 2\nthreads 257", 2),
        (
            b"firefly-trace 1\nthreads 2 mutexes 1 conditions 1 semaphores 0\n0 t0 f",
            3,
        ),
        (
            b"firefly-trace 1\nthreads 2 mutexes 1 conditions 1 semaphores 0\n0 t0 end",
            3,
        ),
        (
            b"firefly-trace 1\nthreads 2 mutexes 1 conditions 1 semaphores 0\n0 t0 j",
            3,
        ),
        (
            b"firefly-trace 2\nthreads 256 mutexes 1 conditions 1 semaphores 0\n0 t256",
            3,
        ),
        (
            b"firefly-trace 2\nthreads 256 mutexes 1 conditions 1 semaphores 0\n0 t0 fork t256",
            3,
        ),
        (
            b"firefly-trace 2\nthreads 256 mutexes 1 conditions 1 semaphores 0\n0 t0 signal c0 left t255 ",
            3,
        ),
        (
            b"firefly-trace 2\nthreads 256 mutexes 1 conditions 1 semaphores 0\n0 t0 signal c0 left t199 t1",
            3,
        ),
        (
            b"firefly-trace 2\nthreads 256 mutexes 1 conditions 1 semaphores 0\n0 t0 signal c0 left t198 t198",
            3,
        ),
    ]
}

// The last byte of the text decides: the source is asked for it, and fails if it is asked again.
fn decided_by(rt: &impl Abort, alloc: Global, text: &[u8], line: u64) -> Result<(), Fail> {
    let mut more = text.to_vec(alloc)?;
    more.extend_from_slice(b"0")?;
    let (found, asked) = asking_verdict(alloc, &more, 1000, Some(text.len()))?;
    same(rt, &found, &Verdict::BadLine(line));
    same(rt, &asked, &text.len());
    Ok(())
}

#[test]
fn the_first_byte_of_no_text_is_the_last_that_is_asked_for(rt: HostRuntime) -> Result<(), Fail> {
    for (text, line) in last_bytes() {
        decided_by(&rt, rt.alloc(), text, line)?;
    }
    Ok(())
}

fn event(thread: u32, action: Action) -> Event {
    Event {
        thread: ThreadId(thread),
        action,
    }
}

fn events() -> [Event; 4] {
    let mut left = ThreadSet::empty();
    left.insert(ThreadId(255));
    left.insert(ThreadId(64));
    left.insert(ThreadId(9));
    let cond = CondId(0);
    [
        event(0, Action::Fork { who: ThreadId(255) }),
        event(100, Action::Signal { cond, left }),
        event(255, Action::End),
        event(0, Action::Join { who: ThreadId(255) }),
    ]
}

fn print_all<O: Sink>(out: &mut O) -> Result<(), SinkFault> {
    print_head(&Layout::of_version(Version::Two, 256, 1, 1, 0), out)?;
    let mut place = 0u64;
    for e in &events() {
        print_event(place, e, out)?;
        place = place.wrapping_add(1);
    }
    print_end(4, out)
}

// What is printed.
fn fork_text() -> &'static [u8] {
    b"firefly-trace 2
threads 256 mutexes 1 conditions 1 semaphores 0
0 t0 fork t255
1 t100 signal c0 left t9 t64 t255
2 t255 end
3 t0 join t255
end 4
"
}

#[test]
fn forks_ends_and_joins_are_printed(rt: HostRuntime) -> Result<(), Fail> {
    let mut sink = MemSink::with_room(rt.alloc(), 2000)?;
    print_all(&mut sink)?;
    same(&rt, &sink.bytes(), &fork_text());
    Ok(())
}
