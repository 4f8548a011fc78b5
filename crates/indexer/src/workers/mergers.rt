//! The work of a merger.
ghost use Rattle.std.specs.Prelude.{◌≡◌, ℕ, [], Option, None, Ok, true, false};
ghost use Rattle.bounded_buffer.specs.Plain.{part_of};
ghost use Rattle.firefly_outside.specs.Trees.{Path, Contents};
ghost use Rattle.walker.specs.Pile.{AreApart};
ghost use Rattle.index_findings.specs.Pieces.{AreMergedFrom};
ghost use Rattle.indexer.specs.Gets.{OfShare};
ghost use Rattle.indexer.specs.Hands.{IsLeft};
ghost use Rattle.indexer.specs.States.{HasMerged, merge_lost};
ghost use Rattle.indexer.specs.Turns.{HasCalled, HasLists, IsBetween, IsReady, Worker};

use crate::calls::pieces::next_piece;
use crate::run::early_end::cancel;
use bounded_buffer::TakeEnd;
use index_findings::{Findings, keep, merge_rest};
use index_rule::IndexUses;
use nub_rule::{Package, Thread};
use std::alloc::{AllocError, Global};
use std::sync::Wait;
use word_index::Piece;

// One turn of a merger: it takes a piece and keeps it with the others. Returns whether more may
// come. An alert ends nothing: all is shut then, and what the buffer still has is taken. On `Err`
// the piece is lost, and all workers are to end.
fn merge_once<R: Wait>(
    rt: &R,
    p: &Package<IndexUses>,
    me: &mut Thread<IndexUses>,
    kept: &mut Vec<Piece>,
) -> Result<bool, AllocError>
    requires layout { HasLists p.now.layout }
    requires between { IsBetween p.now me.old }
    requires share { OfShare me.old (HasMerged p.now.world kept.old.items false) }
    ensures called { (o : Option Contents) (root : Path) (a : Worker) → HasCalled o root kept.old.items p.now 0 0 a me.old
        → HasCalled o root kept.new.items p.now 0 0 a me.new }
    ensures share { OfShare me.new (HasMerged p.now.world kept.new.items (merge_lost result)) }
    ensures ended { result ≡ Ok false → OfShare me.new (λ s. (part_of s.notes 2).seen_end ≡ true) }
{
    match next_piece(rt, p, me) {
        Ok(piece) => match keep(kept, piece) {
            Ok(()) => Ok(true),
            Err(error) => {
                cancel(rt, p, me);
                Err(error)
            }
        },
        Err(TakeEnd::Alerted) => Ok(true),
        Err(TakeEnd::ClosedEmpty) => Ok(false),
    }
}

// The findings of a merger: its pieces, merged as far as they may be.
fn findings_of(alloc: Global, mut kept: Vec<Piece>, lost: bool) -> Findings
    requires { AreApart kept.items }
    ensures pieces { AreMergedFrom kept.items result.pieces.items }
    ensures visits { result.visits.items ≡ [] }
    ensures fault { result.fault ≡ None }
    ensures lost { result.lost ≡ lost }
{
    merge_rest(&mut kept);
    Findings {
        visits: Vec::new(alloc),
        pieces: kept,
        fault: None,
        lost,
    }
}

/// Takes pieces from their buffer until it is shut and empty. Merges those of like size at once,
/// and all that it has at the end. If memory runs out for one more piece, alerts all workers.
///
/// Blocks as `next_piece` does.
pub fn merge_all<R: Wait>(
    rt: &R,
    alloc: Global,
    p: &Package<IndexUses>,
    me: &mut Thread<IndexUses>,
) -> Findings
    requires layout { HasLists p.now.layout }
    requires ready { IsReady p.now me.old }
    ensures share { OfShare me.new (IsLeft p.now.world [] result) }
    ensures ended { result.lost ≡ false → OfShare me.new (λ s. (part_of s.notes 2).seen_end ≡ true) }
    ensures called { (o : Option Contents) (root : Path) → HasCalled o root result.pieces.items p.now 0 0 me.old me.new }
    ensures visits { result.visits.items ≡ [] }
    ensures fault { result.fault ≡ None }
{
    let mut kept = Vec::new(alloc);
    for _ in rt.forever() {
        match merge_once(rt, p, me, &mut kept) {
            Ok(true) => {}
            Ok(false) => return findings_of(alloc, kept, false),
            Err(_) => return findings_of(alloc, kept, true),
        }
    }
    unreachable!()
}
