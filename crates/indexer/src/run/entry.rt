//! The index of a tree, made by threads.
ghost use Rattle.std.specs.Prelude.{◌≡◌, ◌+◌, ◌≤◌, ◌<◌, ℕ, true, false, length, slice_index_or, All, IfSome, Option, Some, None};
ghost use Rattle.firefly_outside.specs.Trees.{Contents};
ghost use Rattle.walker.specs.Listings.{IsListingOf, IsReportedBy};
ghost use Rattle.index_findings.specs.Gathered.{Ends};
ghost use Rattle.index_findings.specs.Pieces.{IsFilesPiece};
ghost use Rattle.index_findings.specs.Rest.{CallsRest};
ghost use Rattle.index_findings.specs.Visits.{AreFound, AreVisits};
ghost use Rattle.walker.specs.Pile.{AreApart};
ghost use Rattle.indexer.specs.Once.{EachOnce};
ghost use Rattle.indexer.specs.Plans.{IsPlan, layout_of};
ghost use Rattle.indexer.specs.Says.{AllShow, HasCause, IndexSays, TreesAfter, answer_of};

use crate::answer::IndexAnswer;
use crate::plan::Plan;
use crate::run::package::worked_run;
use crate::run::trees::put_at;
use firefly_outside::Tree;
use index_findings::{Findings, decide, gather};
use index_rule::IndexUses;
use nub::Closed;
use package_crew::BeforeStart;
use std::alloc::Global;
use std::sync::Wait;
use std::thread::Threads;
use walker::WalkAnswer;

// Lets the closing walk decide, with the tree at this place, which comes back.
fn decided_at<S: Tree>(
    alloc: Global,
    root: &str,
    trees: &mut [Option<S>],
    at: usize,
    found: Findings,
    stop_after: Option<u64>,
) -> WalkAnswer
    requires within { at < length trees.old }
    requires there { (s : S) × (slice_index_or trees.old at None ≡ Some s) }
    requires lawful { All (λ v. IsListingOf v.dir v.listing) found.visits.items }
    requires reported { (s : S) → slice_index_or trees.old at None ≡ Some s
        → IfSome (S.tree s) (λ t. All (λ v. IsReportedBy t v.dir v.listing) found.visits.items) }
    requires pieces { (s : S) → slice_index_or trees.old at None ≡ Some s → All (IsFilesPiece (S.tree s) root.now) found.pieces.items }
    requires once { found.lost ≡ false → AreVisits root.now found.visits.items }
    requires apart { found.lost ≡ false → AreApart found.pieces.items }
    requires found { found.lost ≡ false → AreFound root.now found.visits.items found.pieces.items }
    requires stop { IfSome stop_after (λ n. n ≤ 1000000000) }
    ensures lost { found.lost ≡ true → result ≡ WalkAnswer.Memory }
    ensures rest { (s r : S) → slice_index_or trees.old at None ≡ Some s → slice_index_or trees.new at None ≡ Some r
        → IfSome (S.tree s) (λ t. CallsRest t root.now found.visits.items found.pieces.items (S.calls s) (S.calls r) result) }
    ensures ends { (s : S) → slice_index_or trees.old at None ≡ Some s → (r : S) × (slice_index_or trees.new at None ≡ Some r)
        × (S.tree r ≡ S.tree s) × (S.may_fail r ≡ S.may_fail s)
        × Ends (S.tree s) (S.may_fail s) root.now stop_after found.fault (S.faults s) (S.faults r) (S.calls s) (S.calls r) result }
    ensures others { (i : ℕ) (d : Option S) → (i ≡ at → ⊥) → slice_index_or trees.new i d ≡ slice_index_or trees.old i d }
{
    let Some(mut tree) = put_at(trees, at, None) else {
        unreachable!()
    };
    let answer = decide(alloc, root, &mut tree, found, stop_after);
    put_at(trees, at, Some(tree));
    answer
}

// The answer of the run, whose closing walk gave this answer. Only an index comes with the closed
// package.
fn answer_of(answer: WalkAnswer, closed: Closed<IndexUses>) -> IndexAnswer
    ensures { result ≡ answer_of answer closed }
{
    match answer {
        WalkAnswer::Done(piece) => IndexAnswer::Done(piece, closed),
        WalkAnswer::Stopped(many) => {
            drop(closed);
            IndexAnswer::Stopped(many)
        }
        WalkAnswer::ReadFault(path) => {
            drop(closed);
            IndexAnswer::ReadFault(path)
        }
        WalkAnswer::TooMany(many) => {
            drop(closed);
            IndexAnswer::TooMany(many)
        }
        WalkAnswer::Memory => {
            drop(closed);
            IndexAnswer::Memory
        }
    }
}

/// The greatest number of workers of a plan.
const MOST_WORKERS: u32 = 24;

/// Makes the index of all files under the root: walkers list the directories, parsers read the
/// files and mergers put their pieces together, all at once, the walkers and the parsers each with
/// a tree of its own. A closing walk on the next tree does what they left.
///
/// Each parser calls `before_start` once with its number, counted from 1, before it takes a file.
/// Blocks until all have ended. A fault that a worker met is reported even if a stop or a limit was
/// passed too.
pub fn index<R: Threads + Wait + Sync, S: Tree, G: BeforeStart>(
    rt: &R,
    alloc: Global,
    root: &str,
    plan: &Plan,
    trees: &mut [Option<S>],
    before_start: &G,
) -> IndexAnswer
    requires plan { IsPlan plan.now }
    requires trees { plan.now.walkers + plan.now.parsers < length trees.old }
    requires there { (k : ℕ) → k ≤ plan.now.walkers + plan.now.parsers → (s : S) × (slice_index_or trees.old k None ≡ Some s) }
    requires shows { (o : Option Contents) × AllShow S.tree o trees.old }
    ensures says { (o : Option Contents) → AllShow S.tree o trees.old → IndexSays o root.now plan.now result }
    ensures cause { HasCause S.tree S.may_fail S.faults S.calls root.now trees.old trees.new result }
    ensures trees { TreesAfter S.tree S.may_fail S.faults S.calls plan.now.walkers
        (plan.now.walkers + plan.now.parsers) trees.old trees.new result }
    ensures once { (o : Option Contents) → AllShow S.tree o trees.old
        → EachOnce S.calls o root.now (plan.now.walkers + plan.now.parsers) trees.old trees.new result }
{
    index_with(rt, alloc, root, plan, trees, before_start, MOST_WORKERS)
}

/// Makes the index as `index` does, but starts at most the first `starts` workers, in order of
/// thread number. Each other worker is treated as one that the system refused to start.
pub fn index_with<R: Threads + Wait + Sync, S: Tree, G: BeforeStart>(
    rt: &R,
    alloc: Global,
    root: &str,
    plan: &Plan,
    trees: &mut [Option<S>],
    before_start: &G,
    starts: u32,
) -> IndexAnswer
    requires plan { IsPlan plan.now }
    requires trees { plan.now.walkers + plan.now.parsers < length trees.old }
    requires there { (k : ℕ) → k ≤ plan.now.walkers + plan.now.parsers → (s : S) × (slice_index_or trees.old k None ≡ Some s) }
    requires shows { (o : Option Contents) × AllShow S.tree o trees.old }
    ensures says { (o : Option Contents) → AllShow S.tree o trees.old → IndexSays o root.now plan.now result }
    ensures cause { HasCause S.tree S.may_fail S.faults S.calls root.now trees.old trees.new result }
    ensures trees { TreesAfter S.tree S.may_fail S.faults S.calls plan.now.walkers
        (plan.now.walkers + plan.now.parsers) trees.old trees.new result }
    ensures once { (o : Option Contents) → AllShow S.tree o trees.old
        → EachOnce S.calls o root.now (plan.now.walkers + plan.now.parsers) trees.old trees.new result }
{
    let Ok((closed, findings)) = worked_run(rt, alloc, root, plan, trees, before_start, starts)
    else {
        return IndexAnswer::Memory;
    };
    let Ok(found) = gather(alloc, findings) else {
        drop(closed);
        return IndexAnswer::Memory;
    };
    let at = (plan.walkers + plan.parsers) as usize;
    let answer = decided_at(alloc, root, trees, at, found, plan.stop_after);
    answer_of(answer, closed)
}
