//! One piece of all that the workers made.
ghost use Rattle.std.specs.Prelude.{◌∷◌, [], IfOk};
ghost use Rattle.walker.specs.Pile.{AreApart};
ghost use Rattle.index_findings.specs.Pieces.{AreMergedFrom};

use crate::kept_pieces::keep;
use std::alloc::{AllocError, Global};
use word_index::{Piece, merge_or_drop};

// All in one, from the last on.
fn join_all(alloc: Global, mut kept: Vec<Piece>) -> Result<Piece, AllocError>
    requires { AreApart kept.items }
    ensures { IfOk result (λ p. AreMergedFrom kept.items (p ∷ [])) }
{
    let Some(mut whole) = kept.pop() else {
        return Ok(Piece::empty(alloc));
    };
    while let Some(piece) = kept.pop() {
        whole = merge_or_drop(piece, whole)?;
    }
    Ok(whole)
}

/// One piece of all of these, no two of which cover a common path.
pub fn whole_of(alloc: Global, pieces: Vec<Piece>) -> Result<Piece, AllocError>
    requires { AreApart pieces.items }
    ensures { IfOk result (λ p. AreMergedFrom pieces.items (p ∷ [])) }
{
    let mut kept = Vec::new(alloc);
    for piece in pieces {
        keep(&mut kept, piece)?;
    }
    join_all(alloc, kept)
}
