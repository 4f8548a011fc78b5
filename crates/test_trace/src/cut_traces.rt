//! The checker over sources that stop, fail or give little at a time.
use crate::same::same;
use crate::verdicts::{asking_verdict, trace_of, verdict_on};
use larch_actions::Broken;
use std::alloc::Global;
use std::process::Abort;
use std::test::Fail;
use trace_check::{Summary, Verdict};

// This is the verdict on the head and these lines, read at once and byte by byte.
fn has_verdict(
    rt: &impl Abort,
    alloc: Global,
    lines: &[u8],
    budget: u32,
    verdict: Verdict,
) -> Result<(), Fail> {
    let text = trace_of(alloc, lines)?;
    let at_once = verdict_on(alloc, &text, u64::from(budget), None)?;
    let (one_by_one, _) = asking_verdict(alloc, &text, budget, None)?;
    same(rt, &at_once, &verdict);
    same(rt, &one_by_one, &verdict);
    Ok(())
}

#[test]
fn the_first_event_that_fails_is_named(rt: HostRuntime) -> Result<(), Fail> {
    let when = Verdict::Illegal {
        place: 1,
        why: Broken::When,
    };
    let text = b"0 t0 acquire m0\n1 t1 acquire m0\n2 x";
    has_verdict(&rt, rt.alloc(), text, 1000, when)?;
    let release = Verdict::Illegal {
        place: 0,
        why: Broken::Requires,
    };
    has_verdict(&rt, rt.alloc(), b"0 t0 release m0\nend 1\n", 1000, release)
}

#[test]
fn a_bad_line_is_shown_by_its_first_bad_byte(rt: HostRuntime) -> Result<(), Fail> {
    let bad = Verdict::BadLine(4);
    has_verdict(&rt, rt.alloc(), b"0 t0 acquire m0\n1 t2", 1000, bad)?;
    has_verdict(&rt, rt.alloc(), b"0 t0 acquire m0\n1 t1", 1000, bad)
}

#[test]
fn a_text_past_the_budget_is_too_long(rt: HostRuntime) -> Result<(), Fail> {
    let text = b"0 t0 acquire m0\nend 1\n";
    has_verdict(&rt, rt.alloc(), text, 83, Verdict::TooLong)?;
    let legal = Verdict::Legal(Summary {
        events: 1,
        held: 1,
        waiting: 0,
        alerted: 0,
    });
    has_verdict(&rt, rt.alloc(), text, 84, legal)
}
