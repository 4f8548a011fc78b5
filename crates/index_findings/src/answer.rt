//! The answer of a run, after its workers have ended.
ghost use Rattle.std.specs.Prelude.{◌≡◌, ◌≤◌, ◌↔◌, All, Contains, IfSome, true, false};
ghost use Rattle.firefly_outside.specs.Trees.{Path};
ghost use Rattle.index_findings.specs.Gathered.{Ends, EndsByWalk};
ghost use Rattle.index_findings.specs.Pieces.{IsCovered, IsFilesPiece};
ghost use Rattle.index_findings.specs.Rest.{CallsRest, WalksRest};
ghost use Rattle.index_findings.specs.Visits.{AreFound, AreVisits, dirs_listed};
ghost use Rattle.walker.specs.Pile.{AreApart};
ghost use Rattle.walker.specs.Listings.{IsListingOf, IsReportedBy};
ghost use Rattle.walker.specs.Walk.{IsWalkOf};

use crate::faults::fault_answer;
use crate::findings::Findings;
use crate::visited::collect;
use crate::whole_piece::whole_of;
use firefly_outside::Tree;
use std::alloc::Global;
use walker::{WalkAnswer, Walked, close_walk};
use word_index::Piece;

/// The answer of the closing walk over what the workers listed and the pieces that they made; or the path that failed, where these
/// listings show that it was found. Where something was lost, want of memory is answered: the closing walk would list or read it again.
pub fn decide<S: Tree>(
    alloc: Global,
    root: &str,
    tree: &mut S,
    found: Findings,
    stop_after: Option<u64>,
) -> WalkAnswer
    requires lawful { All (λ v. IsListingOf v.dir v.listing) found.visits.items }
    requires reported { IfSome (S.tree tree.old) (λ t. All (λ v. IsReportedBy t v.dir v.listing) found.visits.items) }
    requires pieces { All (IsFilesPiece (S.tree tree.old) root.now) found.pieces.items }
    requires once { found.lost ≡ false → AreVisits root.now found.visits.items }
    requires apart { found.lost ≡ false → AreApart found.pieces.items }
    requires found { found.lost ≡ false → AreFound root.now found.visits.items found.pieces.items }
    requires stop { IfSome stop_after (λ n. n ≤ 1000000000) }
    ensures tree_stays { S.tree tree.new ≡ S.tree tree.old }
    ensures weak_stays { S.may_fail tree.new ≡ S.may_fail tree.old }
    ensures lost { found.lost ≡ true → result ≡ WalkAnswer.Memory }
    ensures ends { Ends (S.tree tree.old) (S.may_fail tree.old) root.now stop_after found.fault (S.faults tree.old) (S.faults tree.new)
        (S.calls tree.old) (S.calls tree.new) result }
    ensures rest { IfSome (S.tree tree.old) (λ t. CallsRest t root.now found.visits.items found.pieces.items (S.calls tree.old)
        (S.calls tree.new) result) }
{
    let Findings {
        visits,
        pieces,
        fault,
        lost,
    } = found;
    if lost {
        drop(visits);
        drop(pieces);
        drop(fault);
        return WalkAnswer::Memory;
    }
    let Ok(walked) = collect(alloc, root, visits) else {
        drop(pieces);
        drop(fault);
        return WalkAnswer::Memory;
    };
    match fault {
        Some(fault) => {
            drop(pieces);
            let answer = fault_answer(&walked, fault);
            drop(walked);
            answer
        }
        None => close(alloc, root, tree, walked, pieces, stop_after),
    }
}

// The answer of the closing walk over this walk and these pieces.
fn close<S: Tree>(
    alloc: Global,
    root: &str,
    tree: &mut S,
    walked: Walked,
    pieces: Vec<Piece>,
    stop_after: Option<u64>,
) -> WalkAnswer
    requires root { walked.root ≡ root.now }
    requires reported { IfSome (S.tree tree.old) (IsWalkOf walked) }
    requires pieces { All (IsFilesPiece (S.tree tree.old) root.now) pieces.items }
    requires apart { AreApart pieces.items }
    requires found { (p : Path) → IsCovered pieces.items p → Contains walked.files p }
    requires stop { IfSome stop_after (λ n. n ≤ 1000000000) }
    ensures tree_stays { S.tree tree.new ≡ S.tree tree.old }
    ensures weak_stays { S.may_fail tree.new ≡ S.may_fail tree.old }
    ensures ends { EndsByWalk (S.tree tree.old) (S.may_fail tree.old) root.now stop_after (S.faults tree.old) (S.faults tree.new)
        (S.calls tree.old) (S.calls tree.new) result }
    ensures rest { IfSome (S.tree tree.old) (λ t. WalksRest t walked pieces.items (S.calls tree.old) (S.calls tree.new) result) }
{
    match whole_of(alloc, pieces) {
        Ok(piece) => close_walk(alloc, tree, root, walked, piece, stop_after),
        Err(_) => {
            drop(walked);
            WalkAnswer::Memory
        }
    }
}
