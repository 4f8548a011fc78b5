//! Lists that lie one after the other in one block.
ghost use Rattle.std.specs.Prelude.{◌≡◌, ◌<◌, ◌≤◌, ◌++◌, ℕ, [], ◌∷◌, length, take, OnOk, OnErr, slice_index, slice_index_or};
ghost use Rattle.word_index.specs.Blocks.{parts, AreEnds};

use std::alloc::AllocError;

// Where the part begins that has this number.
#[inline(always)]
fn start_of(ends: &[usize], at: usize) -> usize
    requires { at < length ends.now }
    ensures { result ≡ slice_index (0 ∷ ends.now) at }
{
    if at == 0 { 0 } else { ends[at - 1] }
}

/// The part of the block that has this number.
#[inline(always)]
pub fn part_of<'a, T>(block: &'a [T], ends: &[usize], at: usize) -> &'a [T]
    requires ends { AreEnds block.now 0 ends.now }
    requires within { at < length ends.now }
    ensures { result.now ≡ slice_index_or (parts block.now 0 ends.now) at [] }
{
    let start = start_of(ends, at);
    let end = ends[at];
    let inside = start <= end && end <= block.len();
    prove!(inside);
    &block[start..end]
}

/// Ends a part that was filled from start on, or takes it back.
pub fn end_part<T: Drop>(
    block: &mut Vec<T>,
    ends: &mut Vec<usize>,
    start: usize,
) -> Result<(), AllocError>
    ensures same { OnOk result (block.new.items ≡ block.old.items) }
    ensures ended { OnOk result (ends.new.items ≡ ends.old.items ++ length block.old.items ∷ []) }
    ensures back { OnErr result (block.new.items ≡ take start block.old.items) }
    ensures none { OnErr result (ends.new.items ≡ ends.old.items) }
{
    let end = block.len();
    match ends.push(end) {
        Ok(()) => Ok(()),
        Err(_) => {
            block.truncate(start);
            Err(AllocError)
        }
    }
}
