//! Paths, each once, and their numbers.
ghost use Rattle.std.specs.Prelude.{◌≡◌, ◌<◌, ℕ, [], List, length, map, IfOk, OnOk, OnErr, slice_index, slice_index_or, slice_get, Some, MatchBool};
ghost use Rattle.std.specs.List.{All, Contains};
ghost use Rattle.index_table.specs.Paths.{texts, values, AreNumbered, Grows, AreRanks, IsRanked};

use indexmap::IndexMap;
use std::alloc::{AllocError, Global};
use word_index::{Keyed, number_of};

/// Paths with their numbers.
pub type Paths = IndexMap<String, u32, Keyed>;

/// The number of the path, which is added where it isn't there.
pub fn place_path(alloc: Global, paths: &mut Paths, path: &str) -> Result<u32, AllocError>
    requires { AreNumbered paths.old.entries }
    ensures placed { IfOk result (λ n. Grows paths.old.entries paths.new.entries path.now n) }
    ensures kept { OnErr result (paths.new.entries ≡ paths.old.entries) }
{
    if let Some(at) = paths.get_index_of(path) {
        return number_of(at);
    }
    let number = number_of(paths.len())?;
    let text = String::from_str(alloc, path)?;
    paths.insert(text, number)?;
    Ok(number)
}

/// Whether the path is there.
pub fn holds_path(paths: &Paths, path: &str) -> bool
    ensures { MatchBool result (Contains (texts paths.now.entries) path.now) (¬ Contains (texts paths.now.entries) path.now) }
{
    match paths.get_index_of(path) {
        Some(_) => true,
        None => false,
    }
}

// Writes down at which place each number stands.
fn fill_ranks(paths: &Paths, ranks: &mut [u32]) -> Result<(), AllocError>
    requires { All (λ n. n < length ranks.old) (values paths.now.entries) }
    ensures { OnOk result (AreRanks (values paths.now.entries) ranks.new) }
{
    for at in 0..paths.len() {
        match paths.get_index(at) {
            Some((_, number)) => ranks[*number as usize] = number_of(at)?,
            None => unreachable!(),
        }
    }
    Ok(())
}

// Puts the rank of each number in its place.
fn renumber(numbers: &mut [u32], ranks: &[u32])
    requires { All (λ n. n < length ranks.now) numbers.old }
    ensures { numbers.new ≡ map (slice_index ranks.now) numbers.old }
{
    for number in numbers.iter_mut() {
        *number = ranks[*number as usize];
    }
}

/// Sorts the paths, and gives the numbers that name some of them anew.
pub fn sort_paths(alloc: Global, paths: &mut Paths, numbers: &mut [u32]) -> Result<(), AllocError>
    requires numbered { AreNumbered paths.old.entries }
    requires within { All (λ n. n < length paths.old.entries) numbers.old }
    ensures { OnOk result (IsRanked paths.old.entries paths.new.entries numbers.old numbers.new) }
{
    let mut ranks = Vec::new(alloc);
    ranks.resize(paths.len(), 0)?;
    paths.sort_unstable_keys()?;
    fill_ranks(paths, &mut ranks)?;
    renumber(numbers, &ranks);
    Ok(())
}
