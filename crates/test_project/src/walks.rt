//! Walks by one thread, and what they return.
ghost use Rattle.std.specs.Prelude.{◌≤◌, IfSome};

use firefly_outside::{MemSink, MemTree, Tree};
use index_print::print_index;
use std::alloc::{AllocError, Global};
use std::test::Fail;
use walker::{WalkAnswer, Walked, close_walk};
use word_index::Piece;

/// Walks the tree by one thread, from nothing.
pub fn walk<S: Tree>(
    alloc: Global,
    tree: &mut S,
    root: &str,
    stop_after: Option<u64>,
) -> Result<WalkAnswer, AllocError>
    requires { IfSome stop_after (λ n. n ≤ 1000000000) }
{
    let walked = Walked::new(alloc, root)?;
    let piece = Piece::empty(alloc);
    Ok(close_walk(alloc, tree, root, walked, piece, stop_after))
}

/// Returns the index of the whole tree.
pub fn index_of(alloc: Global, tree: &mut MemTree, root: &str) -> Result<Piece, Fail> {
    match walk(alloc, tree, root, None)? {
        WalkAnswer::Done(piece) => Ok(piece),
        _ => Err(Fail::from("no index")),
    }
}

/// Returns how many lists and reads the tree has reported.
pub fn calls(tree: &MemTree) -> (usize, usize) {
    (tree.listed().len(), tree.files_read().len())
}

/// Returns whether this is the text of the piece.
pub fn is_text(alloc: Global, piece: &Piece, text: &str) -> Result<bool, Fail> {
    let mut out = MemSink::with_room(alloc, 1000)?;
    let is_put = print_index(piece, &mut out).is_ok();
    Ok(is_put && out.bytes() == text.as_bytes())
}
