//! Runs of the index by threads over copies of a tree.
ghost use Rattle.std.specs.Prelude.{◌≡◌, ◌≤◌, ◌<◌};
ghost use Rattle.indexer.specs.Plans.{IsPlan};

use crate::copies::{copies_of, listed_by, read_by};
use firefly_outside::MemTree;
use indexer::{BeforeStart, IndexAnswer, Plan, index};
use std::alloc::{AllocError, Global};
use std::sync::Wait;
use std::test::Fail;
use std::thread::Threads;
use test_project::is_text;

// The number, or the nearest from 1 to 8.
fn few(many: u32) -> u32
    ensures least { 1 ≤ result }
    ensures most { result ≤ 8 }
{
    many.max(1).min(8)
}

/// Returns a plan of these numbers of workers, 1 to 8 of each kind, that isn't stopped and isn't
/// traced.
pub fn plan_of(walkers: u32, parsers: u32, mergers: u32) -> Plan
    ensures { IsPlan result }
{
    Plan {
        walkers: few(walkers),
        parsers: few(parsers),
        mergers: few(mergers),
        stop_after: None,
        traced: false,
    }
}

/// Returns a plan of two workers of each kind that is stopped after `most` files.
pub fn stopping_plan(most: u64) -> Plan
    requires { most ≤ 1000 }
    ensures { IsPlan result }
{
    Plan {
        walkers: 2,
        parsers: 2,
        mergers: 2,
        stop_after: Some(most),
        traced: false,
    }
}

/// Returns a plan of `workers` workers of each kind that is traced.
pub fn traced_plan(workers: u32) -> Plan
    ensures { IsPlan result }
{
    Plan {
        walkers: few(workers),
        parsers: few(workers),
        mergers: few(workers),
        stop_after: None,
        traced: true,
    }
}

/// Runs the plan on copies of the tree. Returns the answer, and the copies as they came back. The
/// workers' copies fail at the first paths and the closing walk's at the last ones.
pub fn run_on<'a, R: Threads + Wait + Sync, G: BeforeStart>(
    rt: &R,
    alloc: Global,
    tree: &MemTree,
    plan: &Plan,
    first: &[&'a str],
    last: &[&'a str],
    before_start: &G,
) -> Result<(IndexAnswer, Vec<Option<MemTree>>), AllocError>
    requires { IsPlan plan.now }
{
    let mut trees = copies_of(alloc, tree, plan.walkers + plan.parsers, first, last)?;
    let answer = index(rt, alloc, "proj", plan, trees.as_mut_slice(), before_start);
    Ok((answer, trees))
}

/// What came of a run, and how often its trees were asked.
#[derive(Clone, Copy)]
pub struct Seen {
    /// Whether there is an index, with the expected text.
    pub found: bool,
    /// The number of files found, if the run was stopped.
    pub stop: Option<u64>,
    /// How many paths were listed, in these trees together.
    pub lists: usize,
    /// How many files were read.
    pub reads: usize,
}

/// Runs a plan on copies of the tree, of which the closing walk's fails at these paths. Returns
/// what the run did, and whether the index has this text. So tests compare with no answer and no
/// trees alive, which makes their proofs far shorter.
pub fn seen_of<R: Threads + Wait + Sync, G: BeforeStart>(
    rt: &R,
    alloc: Global,
    tree: &MemTree,
    plan: &Plan,
    last: &[&str],
    before_start: &G,
    text: &str,
) -> Result<Seen, Fail>
    requires { IsPlan plan.now }
{
    let (answer, trees) = run_on(rt, alloc, tree, plan, &[], last, before_start)?;
    let lists = listed_by(&trees);
    let reads = read_by(&trees);
    drop(trees);
    let stop = stopped_at(&answer);
    let found = has_index(alloc, &answer, text);
    drop(answer);
    let found = found?;
    Ok(Seen {
        found,
        stop,
        lists,
        reads,
    })
}

/// Returns whether there is an index, and this is its text.
pub fn has_index(alloc: Global, answer: &IndexAnswer, text: &str) -> Result<bool, Fail> {
    match answer {
        IndexAnswer::Done(piece, _) => is_text(alloc, piece, text),
        _ => Ok(false),
    }
}

// The number of files found, if the run was stopped.
fn stopped_at(answer: &IndexAnswer) -> Option<u64> {
    match answer {
        IndexAnswer::Stopped(many) => Some(*many),
        _ => None,
    }
}

/// Returns the path that failed, if the answer has one.
pub fn failed_at(answer: &IndexAnswer) -> Option<&str> {
    match answer {
        IndexAnswer::ReadFault(path) => Some(path.as_str()),
        _ => None,
    }
}
