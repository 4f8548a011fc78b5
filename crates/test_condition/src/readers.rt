//! Tests of readers and writers.
use crate::late_writer::run_coming;
use crate::turns::{Pair, run_four, run_two};
use nub::Closed;
use readers_writers::{RwState, RwUses};
use std::process::Abort;
use std::sync::atomic::{AtomicU64, Ordering};
use std::test::Fail;
use test_support::has_numbers;

/// Checks that no thread reads or writes.
fn is_free(rt: &impl Abort, closed: &Closed<RwUses>) {
    let free = RwState {
        readers: 0,
        writer: None,
    };
    assert_eq!(rt; closed.values(), [free].as_slice());
}

// Two threads read at once; when both have ended, one of them writes. In the end no thread reads or
// writes.
#[test]
fn two_threads(rt: HostRuntime) -> Result<(), Fail> {
    let closed = run_two(&rt, rt.alloc())?;
    is_free(&rt, &closed);
    drop(closed);
    Ok(())
}

// A writer comes while another thread reads, 200 times, so the end of the reader has to wake it: it
// waits, and no other thread would wake it.
#[test]
fn a_reader_that_ends_wakes_the_writer(rt: HostRuntime) -> Result<(), Fail> {
    let note = AtomicU64::new(0);
    let closed = run_coming(&rt, rt.alloc(), 200, &note)?;
    is_free(&rt, &closed);
    drop(closed);
    Ok(())
}

// Two threads write a pair of numbers 2000 times each while two others read it: no thread sees the
// numbers differ, and no write is lost.
#[test]
fn never_torn(rt: HostRuntime) -> Result<(), Fail> {
    let pair = Pair {
        first: AtomicU64::new(0),
        second: AtomicU64::new(0),
    };
    let torn = run_four(&rt, rt.alloc(), 2000, &pair)?;
    has_numbers(&torn, &[0, 0, 0, 0])?;
    drop(torn);
    let last = [
        pair.first.load(Ordering::SeqCst),
        pair.second.load(Ordering::SeqCst),
    ];
    has_numbers(&last, &[4000, 4000])
}
