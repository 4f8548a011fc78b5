//! Traced runs, whose traces the check finds legal.
ghost use Rattle.indexer.specs.Plans.{IsPlan};

use crate::runs::{run_on, traced_plan};
use firefly_outside::{MemSink, MemSource, MemTree};
use indexer::{BeginsAtOnce, IndexAnswer, Plan, index_layout};
use larch_actions::Event;
use std::alloc::Global;
use std::sync::Wait;
use std::test::Fail;
use std::thread::Threads;
use test_project::project;
use trace_check::{Summary, Verdict, check};
use trace_core::{print_end, print_event, print_head};

// The text of a trace, as far as there was room for it.
fn text_of(alloc: Global, plan: &Plan, events: &[Event]) -> Result<MemSink, Fail>
    requires { IsPlan plan.now }
{
    let mut out = MemSink::with_room(alloc, 1_000_000)?;
    let mut place = 0u64;
    let _ = print_head(&index_layout(plan), &mut out);
    for event in events {
        let _ = print_event(place, event, &mut out);
        place = place.saturating_add(1);
    }
    let _ = print_end(place, &mut out);
    Ok(out)
}

// The verdict of the check on the trace, and the number of its events.
fn verdict_on(alloc: Global, plan: &Plan, answer: &IndexAnswer) -> Result<(Verdict, u64), Fail>
    requires { IsPlan plan.now }
{
    let IndexAnswer::Done(_, closed) = answer else {
        return Err(Fail::from("no index"));
    };
    let Some(events) = closed.trace() else {
        return Err(Fail::from("no trace"));
    };
    let out = text_of(alloc, plan, events)?;
    let mut input = MemSource::new(out.bytes().to_vec(alloc)?);
    Ok((check(&mut input, 1_000_000), events.len() as u64))
}

// The same for the run of a plan.
fn verdict_of<R: Threads + Wait + Sync>(
    rt: &R,
    alloc: Global,
    tree: &MemTree,
    plan: &Plan,
) -> Result<(Verdict, u64), Fail>
    requires { IsPlan plan.now }
{
    let (answer, trees) = run_on(rt, alloc, tree, plan, &[], &[], &BeginsAtOnce)?;
    drop(trees);
    let verdict = verdict_on(alloc, plan, &answer);
    drop(answer);
    verdict
}

#[test]
fn the_trace_of_a_run_is_legal(rt: HostRuntime) -> Result<(), Fail> {
    let tree = project(rt.alloc())?;
    for workers in [1u32, 2, 8] {
        let plan = traced_plan(workers);
        let (verdict, events) = verdict_of(&rt, rt.alloc(), &tree, &plan)?;
        let expected = Verdict::Legal(Summary {
            events,
            held: 0,
            waiting: 0,
            alerted: 0,
        });
        assert_eq!(rt; verdict, expected);
    }
    Ok(())
}
