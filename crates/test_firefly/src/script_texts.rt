//! Scripts as they are read: each operation, and a read that fails.
use crate::same::same;
use exact_text::TextFault;
use firefly_outside::MemSource;
use larch_actions::{CondId, MutexId, SemId, ThreadId};
use script_text::{Line, Operation, Script, read_script};
use std::alloc::{AllocError, Global};
use std::process::Abort;
use std::test::Fail;

// Reads a text, of which only the first bytes are given if there is a number.
fn read(
    alloc: Global,
    text: &str,
    given: Option<usize>,
) -> Result<Result<Script, TextFault>, AllocError> {
    let mut source = MemSource::new(Vec::from_slice(alloc, text.as_bytes())?);
    if let Some(given) = given {
        source.fail_after(given);
    }
    Ok(read_script(alloc, &mut source))
}

// The script of this text.
fn script_of(alloc: Global, text: &str) -> Result<Script, Fail> {
    match read(alloc, text, None)? {
        Ok(script) => Ok(script),
        Err(_) => Err(Fail::from("refused")),
    }
}

// Checks that the script has these lines for `threads` threads.
fn has_lines(rt: &impl Abort, script: &Script, threads: u32, lines: &[Line]) {
    same(rt, &script.layout().threads, &threads);
    same(rt, &script.lines(), &lines);
}

fn line(thread: u32, operation: Operation) -> Line {
    Line {
        thread: ThreadId(thread),
        operation,
    }
}

// The lines of the text below.
fn five_lines() -> [Line; 5] {
    let (mutex, sem) = (MutexId(1), SemId(0));
    let number = 1_000_000;
    [
        line(0, Operation::P { sem }),
        line(11, Operation::Acquire { mutex }),
        line(11, Operation::Add { mutex, number }),
        line(11, Operation::Release { mutex }),
        line(0, Operation::V { sem }),
    ]
}

#[test]
fn lines_are_read_in_order(rt: HostRuntime) -> Result<(), Fail> {
    let text =
        "threads 12 mutexes 2 conditions 0 semaphores 1\nt0 p s0\nt11 acquire m1\nt11 add m1 1000000\nt11 release m1\nt0 v s0\n";
    let script = script_of(rt.alloc(), text)?;
    has_lines(&rt, &script, 12, &five_lines());
    Ok(())
}

// The lines of the text below.
fn forked_lines() -> [Line; 3] {
    let who = ThreadId(255);
    [
        line(0, Operation::Fork { who }),
        line(255, Operation::TestAlert),
        line(0, Operation::Join { who }),
    ]
}

#[test]
fn forks_and_joins_are_read(rt: HostRuntime) -> Result<(), Fail> {
    let text =
        "firefly-script 2\nthreads 256 mutexes 0 conditions 0 semaphores 0\nt0 fork t255\nt255 test-alert\nt0 join t255\n";
    let script = script_of(rt.alloc(), text)?;
    has_lines(&rt, &script, 256, &forked_lines());
    Ok(())
}

// Checks that the text is refused with this fault, if `given` of its bytes are given. The script
// isn't alive where that is compared.
fn is_refused(
    rt: &impl Abort,
    alloc: Global,
    text: &str,
    given: usize,
    fault: TextFault,
) -> Result<(), AllocError> {
    let found = read(alloc, text, Some(given))?.err();
    same(rt, &found, &Some(fault));
    Ok(())
}

#[test]
fn a_bad_byte_goes_before_a_later_failed_read(rt: HostRuntime) -> Result<(), Fail> {
    let text = "threads 1 mutexes 1 conditions 0 semaphores 0\nt0 release m0\nt0 acquire m0\n";
    is_refused(&rt, rt.alloc(), text, 50, TextFault::BadLine(2))?;
    is_refused(&rt, rt.alloc(), text, 49, TextFault::Read)?;
    Ok(())
}

// The second of the three lines of a script.
fn second(script: &Script) -> Option<Operation> {
    match script.lines() {
        [_, found, _] => Some(found.operation),
        _ => None,
    }
}

// The operation of this line between an acquire and a release, if the script isn't refused. The
// script isn't alive in the test.
fn read_second(alloc: Global, line: &str) -> Result<Option<Operation>, AllocError> {
    let text = format!(in alloc;
        "threads 3 mutexes 2 conditions 12 semaphores 1\nt2 acquire m1\nt2 {line}\nt2 release m1\n"
    )?;
    match read(alloc, text.as_str(), None)? {
        Ok(script) => Ok(second(&script)),
        Err(_) => Ok(None),
    }
}

// Operations of waits and alerts, each with its line.
fn waits_and_alerts() -> [(&'static str, Operation); 9] {
    let (mutex, cond, sem, who) = (MutexId(1), CondId(11), SemId(0), ThreadId(2));
    [
        ("wait m1 c11", Operation::Wait { mutex, cond }),
        ("alert-wait m1 c11", Operation::AlertWait { mutex, cond }),
        ("signal c11", Operation::Signal { cond }),
        ("broadcast c11", Operation::Broadcast { cond }),
        ("alert t2", Operation::Alert { who }),
        ("test-alert", Operation::TestAlert),
        ("alert-p s0", Operation::AlertP { sem }),
        (
            "until m1 c11 18446744073709551615",
            Operation::Until {
                mutex,
                cond,
                number: u64::MAX,
            },
        ),
        (
            "alert-until m1 c11 0",
            Operation::AlertUntil {
                mutex,
                cond,
                number: 0,
            },
        ),
    ]
}

#[test]
fn waits_and_alerts_are_read(rt: HostRuntime) -> Result<(), Fail> {
    for (line, operation) in waits_and_alerts() {
        same(&rt, &read_second(rt.alloc(), line)?, &Some(operation));
    }
    Ok(())
}
