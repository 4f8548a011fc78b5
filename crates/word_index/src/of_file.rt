//! The piece of one file.
ghost use Rattle.std.specs.Prelude.{[], ◌∷◌, IfOk};
ghost use Rattle.word_index.specs.Index.{IsIndexOf};
ghost use Rattle.word_index.specs.Read.{read_file};

use crate::{Batch, Piece};
use firefly_outside::FileBytes;
use std::alloc::{AllocError, Global};

/// The index of the one file. Where `long` is set it is skipped.
pub fn piece_of(alloc: Global, path: &str, file: &FileBytes) -> Result<Piece, AllocError>
    ensures { IfOk result (IsIndexOf (read_file path.now file.now ∷ [])) }
{
    Batch::new(alloc).add(path, file)?.into_piece()
}
