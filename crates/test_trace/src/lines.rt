//! Each kind of line, read and printed, and texts that are no traces.
ghost use Rattle.std.specs.Prelude.{◌≡◌, ◌^◌, ◌-◌, ◌<◌};
ghost use Rattle.trace_core.specs.declared.reader_state.Phase.TheVariants as phase;
ghost use Rattle.trace_core.specs.Reader.{standing};

use crate::same::same;
use crate::sources::{OneByOne, source_of};
use firefly_outside::{MemSink, Sink, SinkFault, Source};
use larch_actions::{Action, CondId, Event, Layout, MutexId, SemId, ThreadId, ThreadSet};
use std::alloc::{AllocError, Global};
use std::process::Abort;
use std::test::Fail;
use trace_core::laws::print_whole;
use trace_core::{EventReader, TextFault, print_end, print_event, print_head, print_value};

const HEAD: &[u8] = b"firefly-trace 1\nthreads 12 mutexes 2 conditions 1 semaphores 1\n";

const EACH: &[u8] = b"firefly-trace 1
threads 12 mutexes 2 conditions 1 semaphores 1
0 t0 acquire m0
1 t11 release m1
2 t0 enqueue m0 c0
3 t1 resume m0 c0
4 t2 alert-enqueue m1 c0
5 t2 alert-resume m1 c0 returns
6 t2 alert-resume m1 c0 raises
7 t3 signal c0 left t1 t4 t11
8 t3 signal c0 left
9 t4 broadcast c0
10 t5 p s0
11 t5 v s0
12 t6 alert t1
13 t1 test-alert yes
14 t1 test-alert no
15 t7 alert-p s0 returns
16 t7 alert-p s0 raises
end 17
value m0 18446744073709551615
value m1 0
";

// How many events the text has.
fn count<I: Source>(input: &mut I, budget: u64) -> Result<u64, TextFault>
    requires { budget < 2 ^ 64 - 1 }
{
    let mut reader = EventReader::new(input, budget);
    count_events(&mut reader)
}

fn count_events<I: Source>(reader: &mut EventReader<I>) -> Result<u64, TextFault>
    requires { (standing I.left reader.old).phase ≡ phase.Head }
{
    match reader.head() {
        Ok(_) => {}
        Err(fault) => return Err(fault),
    }
    let mut count = 0u64;
    for _ in 0..u64::MAX {
        match reader.next_event() {
            Ok(Some(_)) => count = count.wrapping_add(1),
            Ok(None) => break,
            Err(fault) => return Err(fault),
        }
    }
    Ok(count)
}

// The same of this text, of which the source gives so many bytes and then fails where a number stands.
fn count_of(
    alloc: Global,
    text: &[u8],
    budget: u32,
    given: Option<usize>,
) -> Result<Result<u64, TextFault>, AllocError> {
    let mut source = source_of(alloc, text, given)?;
    Ok(count(&mut source, u64::from(budget)))
}

// The same where the bytes come one by one.
fn slow_count_of(alloc: Global, text: &[u8]) -> Result<Result<u64, TextFault>, AllocError> {
    let mut source = OneByOne::new(source_of(alloc, text, None)?);
    Ok(count(&mut source, 10_000))
}

#[test]
fn each_kind_of_line_is_read(rt: HostRuntime) -> Result<(), Fail> {
    same(&rt, &count_of(rt.alloc(), EACH, 10_000, None)?, &Ok(17));
    same(&rt, &slow_count_of(rt.alloc(), EACH)?, &Ok(17));
    Ok(())
}

// Lines that are bad after the head, each with its fault.
fn bad_lines() -> [(&'static [u8], TextFault); 12] {
    [
        (b"00 t0 acquire m0\nend 1\n", TextFault::BadLine(3)),
        (b"0  t0 acquire m0\nend 1\n", TextFault::BadLine(3)),
        (b"0 t0 acquire m0 \nend 1\n", TextFault::BadLine(3)),
        (b"0 t0 acquire m00\nend 1\n", TextFault::BadLine(3)),
        (b"0 t12 acquire m0\nend 1\n", TextFault::BadLine(3)),
        (b"0 t0 signal c0 left t4 t1\nend 1\n", TextFault::BadLine(3)),
        (b"0 t0 signal c0 left t11 t", TextFault::BadLine(3)),
        (b"0 t0 acquire m0\nend 2\n", TextFault::BadLine(4)),
        (b"end 0\nvalue m1 0\nvalue m0 0\n", TextFault::BadLine(5)),
        (
            b"end 0\nvalue m0 18446744073709551616\n",
            TextFault::BadLine(4),
        ),
        (b"end 0\nvalue m1 7\n\n", TextFault::BadLine(5)),
        (b"0 t0 acquire m0\n", TextFault::BadLine(4)),
    ]
}

// How many events a text of the head and these lines has.
fn count_after_head(alloc: Global, lines: &[u8]) -> Result<Result<u64, TextFault>, AllocError> {
    let mut text = HEAD.to_vec(alloc)?;
    text.extend_from_slice(lines)?;
    count_of(alloc, &text, 10_000, None)
}

#[test]
fn bad_lines_show(rt: HostRuntime) -> Result<(), Fail> {
    for (lines, fault) in bad_lines() {
        same(&rt, &count_after_head(rt.alloc(), lines)?, &Err(fault));
    }
    Ok(())
}

#[test]
fn long_texts_and_failed_reads(rt: HostRuntime) -> Result<(), Fail> {
    let long = count_of(rt.alloc(), EACH, 100, None)?;
    same(&rt, &long, &Err(TextFault::TooLong));
    let failing = count_of(rt.alloc(), EACH, 10_000, Some(100))?;
    same(&rt, &failing, &Err(TextFault::Read));
    Ok(())
}

fn set_of_three() -> ThreadSet {
    let mut left = ThreadSet::empty();
    left.insert(ThreadId(4));
    left.insert(ThreadId(11));
    left.insert(ThreadId(1));
    left
}

fn event(thread: u32, action: Action) -> Event {
    Event {
        thread: ThreadId(thread),
        action,
    }
}

fn waits() -> [Event; 9] {
    let mutex = MutexId(1);
    let cond = CondId(0);
    let left = set_of_three();
    let first = MutexId(0);
    [
        event(0, Action::Acquire { mutex: first }),
        event(11, Action::Release { mutex }),
        event(0, Action::Enqueue { mutex: first, cond }),
        event(1, Action::Resume { mutex: first, cond }),
        event(2, Action::AlertEnqueue { mutex, cond }),
        event(2, Action::AlertReturn { mutex, cond }),
        event(2, Action::AlertRaise { mutex, cond }),
        event(3, Action::Signal { cond, left }),
        event(
            3,
            Action::Signal {
                cond,
                left: ThreadSet::empty(),
            },
        ),
    ]
}

fn others() -> [Event; 8] {
    let sem = SemId(0);
    [
        event(4, Action::Broadcast { cond: CondId(0) }),
        event(5, Action::P { sem }),
        event(5, Action::V { sem }),
        event(6, Action::Alert { who: ThreadId(1) }),
        event(1, Action::TestAlert { yes: true }),
        event(1, Action::TestAlert { yes: false }),
        event(7, Action::AlertPReturn { sem }),
        event(7, Action::AlertPRaise { sem }),
    ]
}

// Prints these events, of which the first has this place.
fn print_events<O: Sink>(out: &mut O, first: u64, events: &[Event]) -> Result<(), SinkFault> {
    let mut place = first;
    for e in events {
        print_event(place, e, out)?;
        place = place.wrapping_add(1);
    }
    Ok(())
}

// Prints each kind of line.
fn print_each<O: Sink>(out: &mut O) -> Result<(), SinkFault> {
    let layout = Layout::of(12, 2, 1, 1);
    print_head(&layout, out)?;
    print_events(out, 0, &waits())?;
    print_events(out, 9, &others())?;
    print_end(17, out)?;
    print_value(MutexId(0), u64::MAX, out)?;
    print_value(MutexId(1), 0, out)
}

#[test]
fn each_kind_of_line_is_printed(rt: HostRuntime) -> Result<(), Fail> {
    let mut sink = MemSink::with_room(rt.alloc(), 2000)?;
    print_each(&mut sink)?;
    same(&rt, &sink.bytes(), &EACH);
    Ok(())
}

// The text of one event and one value, printed into so much room, and whether it fitted.
fn printed(alloc: Global, room: usize) -> Result<(Result<(), SinkFault>, Vec<u8>), AllocError> {
    let layout = Layout::of(1, 1, 0, 0);
    let events = [Event {
        thread: ThreadId(0),
        action: Action::Acquire { mutex: MutexId(0) },
    }];
    let mut sink = MemSink::with_room(alloc, room)?;
    let put = print_whole(&layout, &events, &[5], &mut sink);
    Ok((put, sink.bytes().to_vec(alloc)?))
}

// With so much room this is what printing answers, and this is what is there then.
fn is_printed(
    rt: &impl Abort,
    alloc: Global,
    room: usize,
    answer: Result<(), SinkFault>,
    text: &[u8],
) -> Result<(), Fail> {
    let (put, bytes) = printed(alloc, room)?;
    same(rt, &put, &answer);
    same(rt, &bytes.as_slice(), &text);
    Ok(())
}

#[test]
fn whole_text_is_printed(rt: HostRuntime) -> Result<(), Fail> {
    let text: &[u8] =
        b"firefly-trace 1\nthreads 1 mutexes 1 conditions 0 semaphores 0\n0 t0 acquire m0\nend 1\nvalue m0 5\n";
    is_printed(&rt, rt.alloc(), 100, Ok(()), text)?;
    let prefix = b"firefly-trace 1\nthre";
    is_printed(&rt, rt.alloc(), 20, Err(SinkFault), prefix)
}
