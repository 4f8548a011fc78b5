//! The calls at the buffer of pieces.
ghost use Rattle.std.specs.Prelude.{◌≡◌, ℕ, [], Option, IfOk, IfSome, Err, true};
ghost use Rattle.std.specs.List.{flat_map};
ghost use Rattle.bounded_buffer.specs.Plain.{part_of};
ghost use Rattle.bounded_buffer.specs.declared.ends.TakeEnd.{TakeEnd};
ghost use Rattle.firefly_outside.specs.Trees.{Path, Contents};
ghost use Rattle.index_findings.specs.Pieces.{IsFilesPiece};
ghost use Rattle.index_rule.specs.Distinct.{AreDisjoint};
ghost use Rattle.index_rule.specs.Shares.{IsItemAt, MayPut, covered, paths_taken};
ghost use Rattle.indexer.specs.Gets.{Gets, Makes, OfShare, given, nothing};
ghost use Rattle.indexer.specs.Taken.{piece_in, piece_of};
ghost use Rattle.indexer.specs.Turns.{HasCalled, HasLists, IsBetween};

use bounded_buffer::{BufferAt, TakeEnd, put, shut, take};
use index_rule::{IndexItem, IndexUses};
use larch_actions::{CondId, MutexId};
use nub_rule::{Package, Thread};
use std::sync::Wait;
use word_index::Piece;

/// Where the buffer of pieces is.
const PIECES: BufferAt = BufferAt {
    mutex: MutexId(2),
    room: CondId(3),
    more: CondId(4),
};

/// Puts a piece into the buffer. Returns the piece if the buffer is shut, or if the thread was
/// alerted.
///
/// Blocks while another thread holds the buffer, and while the buffer is full and open.
pub fn put_piece<R: Wait>(
    rt: &R,
    p: &Package<IndexUses>,
    me: &mut Thread<IndexUses>,
    piece: Piece,
) -> Option<Piece>
    requires layout { HasLists p.now.layout }
    requires between { IsBetween p.now me.old }
    requires may { OfShare me.old (MayPut p.now.world 2 (IndexItem.Piece piece)) }
    ensures back { IfSome result (λ x. x ≡ piece) }
    ensures gets { Gets p.now (record nothing { pieces_put = given p.now.world result piece }) me.old me.new }
    ensures called { (o : Option Contents) (root : Path) (m : ℕ) → IsFilesPiece o root piece → HasCalled o root [] p.now m 0 me.old me.new }
{
    match put(rt, p, me, &PIECES, IndexItem::Piece(piece)) {
        Ok(_) => None,
        Err((_, IndexItem::Piece(piece))) => Some(piece),
        Err((_, IndexItem::File(_))) => unreachable!(),
    }
}

// The piece that was taken.
fn as_piece(taken: Result<(u64, IndexItem), TakeEnd>) -> Result<Piece, TakeEnd>
    requires { IfOk taken (λ t. IsItemAt 2 t.1) }
    ensures piece { piece_in result ≡ piece_of taken }
    ensures end { (e : TakeEnd) → result ≡ Err e → taken ≡ Err e }
{
    match taken {
        Ok((_, IndexItem::Piece(piece))) => Ok(piece),
        Ok((_, IndexItem::File(_))) => unreachable!(),
        Err(end) => Err(end),
    }
}

/// Takes a piece. Fails if the buffer is shut and empty, or if the thread was alerted while it
/// waited.
///
/// Blocks while another thread holds the buffer, and while the buffer is empty and open.
pub fn next_piece<R: Wait>(
    rt: &R,
    p: &Package<IndexUses>,
    me: &mut Thread<IndexUses>,
) -> Result<Piece, TakeEnd>
    requires layout { HasLists p.now.layout }
    requires between { IsBetween p.now me.old }
    ensures called { (o : Option Contents) (root : Path) (m : ℕ) → HasCalled o root (piece_in result) p.now m 0 me.old me.new }
    ensures gets { Gets p.now (record nothing { pieces_taken = flat_map (covered p.now.world) (piece_in result) }) me.old me.new }
    ensures new { IfOk result (λ x. OfShare me.old (λ s. AreDisjoint (covered p.now.world x) (paths_taken p.now.world 2 s))) }
    ensures ended { result ≡ Err TakeEnd.ClosedEmpty → OfShare me.new (λ s. (part_of s.notes 2).seen_end ≡ true) }
{
    as_piece(take(rt, p, me, &PIECES))
}

/// Shuts the buffer: no more can be put, and what it has can still be taken.
pub fn shut_pieces<R: Wait>(rt: &R, p: &Package<IndexUses>, me: &mut Thread<IndexUses>)
    requires layout { HasLists p.now.layout }
    requires between { IsBetween p.now me.old }
    ensures { Makes p.now nothing me.old me.new }
{
    shut(rt, p, me, &PIECES);
}
