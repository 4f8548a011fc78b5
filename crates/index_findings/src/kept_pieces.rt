//! Pieces that are kept until they are merged.
ghost use Rattle.std.specs.Prelude.{◌≡◌, ◌++◌, ◌∷◌, [], ◌<◌, IsTrue, OnOk, OnErr, vec_len};
ghost use Rattle.walker.specs.Pile.{AreApart};
ghost use Rattle.index_findings.specs.Pieces.{AreMergedFrom};

use std::alloc::AllocError;
use word_index::{Piece, merge};

// How much of a piece a merge goes over.
fn size(piece: &Piece) -> u64 {
    piece.files().saturating_add(piece.entries())
}

// Whether the last piece is to be merged with the one before: that one is at most about twice as large, or may be of any size.
fn is_to_merge(before: &Piece, last: &Piece, of_any_size: bool) -> bool {
    of_any_size || size(before) / 2 <= size(last)
}

// Merges the last piece with the one before, if they are to be, and says whether it did. Where memory wants, both stay.
fn merge_last(kept: &mut Vec<Piece>, of_any_size: bool) -> bool
    requires { AreApart kept.old.items }
    ensures merged { AreMergedFrom kept.old.items kept.new.items }
    ensures fewer { IsTrue result → vec_len kept.new < vec_len kept.old }
{
    let Some(last) = kept.pop() else {
        return false;
    };
    let Some(before) = kept.pop() else {
        kept.push_reserved(last);
        return false;
    };
    if !is_to_merge(&before, &last, of_any_size) {
        kept.push_reserved(before);
        kept.push_reserved(last);
        return false;
    }
    match merge(before, last) {
        Ok(both) => {
            kept.push_reserved(both);
            true
        }
        Err((before, last)) => {
            kept.push_reserved(before);
            kept.push_reserved(last);
            false
        }
    }
}

/// Keeps one piece more. Each piece kept is more than about twice as large as the next, but where memory wanted; so a piece is merged again
/// only when it has grown by half.
pub fn keep(kept: &mut Vec<Piece>, piece: Piece) -> Result<(), AllocError>
    requires { AreApart (kept.old.items ++ piece ∷ []) }
    ensures kept { OnOk result (AreMergedFrom (kept.old.items ++ piece ∷ []) kept.new.items) }
    ensures refused { OnErr result (kept.new.items ≡ kept.old.items) }
{
    kept.push(piece)?;
    while merge_last(kept, false) {}
    Ok(())
}

/// Merges the pieces, from the last on, until memory wants.
pub fn merge_rest(kept: &mut Vec<Piece>)
    requires { AreApart kept.old.items }
    ensures { AreMergedFrom kept.old.items kept.new.items }
{
    while merge_last(kept, true) {}
}
