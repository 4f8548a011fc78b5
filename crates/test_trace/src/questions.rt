//! The source is asked until the bytes decide, and not once more.
use crate::same::same;
use crate::verdicts::{asking_verdict, trace_of};
use larch_actions::Broken;
use std::alloc::{AllocError, Global};
use std::process::Abort;
use std::test::Fail;
use trace_check::{Summary, Verdict};

// What the checker answers to these bytes after the head, how often it asks for one, and how many there are with the head. Where it is
// `cut`, more bytes come after them, and the source fails before it gives these.
fn asking(
    alloc: Global,
    bytes: &[u8],
    budget: u32,
    cut: bool,
) -> Result<(Verdict, usize, usize), AllocError> {
    let mut text = trace_of(alloc, bytes)?;
    let many = text.len();
    let mut given = None;
    if cut {
        text.extend_from_slice(b"0 t0 acquire m0\nend 1\n")?;
        given = Some(many);
    }
    let (verdict, asked) = asking_verdict(alloc, &text, budget, given)?;
    Ok((verdict, asked, many))
}

// The last of these bytes after the head decides: the source is asked for it, and fails if it is asked again.
fn decided_by(
    rt: &impl Abort,
    alloc: Global,
    bytes: &[u8],
    budget: u32,
    verdict: Verdict,
) -> Result<(), Fail> {
    let (found, asked, many) = asking(alloc, bytes, budget, true)?;
    same(rt, &found, &verdict);
    same(rt, &asked, &many);
    Ok(())
}

const MANY: u32 = 1_000;

#[test]
fn an_event_that_fails_is_the_last_that_is_asked_for(rt: HostRuntime) -> Result<(), Fail> {
    let why = Broken::Requires;
    let first = Verdict::Illegal { place: 0, why };
    decided_by(&rt, rt.alloc(), b"0 t0 release m0\n", MANY, first)?;
    let second = Verdict::Illegal { place: 1, why };
    decided_by(
        &rt,
        rt.alloc(),
        b"0 t0 p s0\n1 t1 release m0\n",
        MANY,
        second,
    )
}

#[test]
fn a_bad_byte_is_the_last_that_is_asked_for(rt: HostRuntime) -> Result<(), Fail> {
    decided_by(&rt, rt.alloc(), b"0 t2", MANY, Verdict::BadLine(3))?;
    decided_by(
        &rt,
        rt.alloc(),
        b"0 t1 acquire m0 ",
        MANY,
        Verdict::BadLine(3),
    )?;
    decided_by(&rt, rt.alloc(), b"end 0\nx", MANY, Verdict::BadLine(4))?;
    decided_by(
        &rt,
        rt.alloc(),
        b"end 0\nvalue m0 1\nv",
        MANY,
        Verdict::BadLine(5),
    )
}

#[test]
fn one_byte_past_the_budget_is_the_last_that_is_asked_for(rt: HostRuntime) -> Result<(), Fail> {
    // The head has 62 bytes.
    decided_by(&rt, rt.alloc(), b"0", 62, Verdict::TooLong)
}

#[test]
fn the_end_is_asked_for_once(rt: HostRuntime) -> Result<(), Fail> {
    let legal = Verdict::Legal(Summary {
        events: 1,
        held: 0,
        waiting: 0,
        alerted: 0,
    });
    let (found, asked, many) = asking(rt.alloc(), b"0 t0 p s0\nend 1\n", MANY, false)?;
    same(&rt, &found, &legal);
    same(&rt, &asked.saturating_sub(many), &1);
    Ok(())
}
