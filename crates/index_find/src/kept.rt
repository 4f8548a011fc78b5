//! What is kept of a row.
ghost use Rattle.std.specs.Prelude.{OnOk};
ghost use Rattle.index_find.specs.Kept.{KeepsHit, KeepsRow};

use index_table::Draft;
use std::alloc::AllocError;
use std::str::from_utf8;

/// Keeps the file where its row is wanted, or where every path is wanted and no file of this one is kept yet.
pub fn keep_hit(
    draft: &mut Draft,
    wanted: bool,
    every_path: bool,
    path: &[u8],
    count: u64,
    line: u64,
) -> Result<(), AllocError>
    ensures { OnOk result (KeepsHit wanted every_path draft.old (record { path = path.now; count = count; line = line }) draft.new) }
{
    if !wanted && !every_path {
        return Ok(());
    }
    let Ok(text) = from_utf8(path) else {
        return Err(AllocError);
    };
    if !wanted && draft.has_path(text) {
        return Ok(());
    }
    draft.hit(text, count, line)
}

/// Keeps the row where it is wanted, or some file of it is kept.
pub fn keep_row(draft: &mut Draft, wanted: bool, word: &[u8]) -> Result<(), AllocError>
    ensures { OnOk result (KeepsRow wanted draft.old word.now draft.new) }
{
    if !wanted && draft.last_path().is_none() {
        return Ok(());
    }
    draft.end_row(word)
}
