//! The listings of the sample tree.
ghost use Rattle.std.specs.Prelude.{◌≡◌, ◌≤◌, ◌+◌, ◌-◌, IfOk, map, min};
ghost use Rattle.std.specs.List.{range_with_len};
ghost use Rattle.index_sample.specs.Listings.{sample_entry, IsListed};

use crate::paths::dir_number;
use firefly_outside::{Entry, Kind, Text};
use std::alloc::{AllocError, Global};

// The entry of the directory or the file of this number.
fn entry_of(alloc: Global, kind: Kind, number: u32) -> Result<Entry, AllocError>
    ensures { IfOk result (λ e. e ≡ sample_entry kind number) }
{
    let name = match kind {
        Kind::Dir => format!(in alloc; "d{number}")?,
        Kind::File => format!(in alloc; "f{number}")?,
    };
    Ok(Entry {
        name: Text::from_string(name),
        kind,
    })
}

// `many` entries from this number on.
fn entries_from(alloc: Global, kind: Kind, from: u32, many: u32) -> Result<Vec<Entry>, AllocError>
    requires { from + many ≤ 20000 }
    ensures { IfOk result (λ v. v.items ≡ map (sample_entry kind) (range_with_len from many)) }
{
    let mut entries = Vec::with_capacity(alloc, many as usize)?;
    for n in 0..many {
        entries.push(entry_of(alloc, kind, from + n)?)?;
    }
    Ok(entries)
}

// How many files, of `files` in all, are in the directory whose first file has this number.
fn many_in(files: u32, from: u32) -> u32
    requires { from ≤ files }
    ensures { result ≡ min 100 (files - from) }
{
    if files - from < 100 {
        return files - from;
    }
    100
}

/// Returns the entries of the directory with this path, in the tree of `files` files. Fails only if
/// there is no memory.
pub fn listed_at(alloc: Global, dir: &str, files: u32) -> Result<Option<Vec<Entry>>, AllocError>
    requires { files ≤ 20000 }
    ensures { IfOk result (IsListed files dir.now) }
{
    if dir == "sample" {
        let entries = entries_from(alloc, Kind::Dir, 0, (files + 99) / 100)?;
        return Ok(Some(entries));
    }
    let Some(number) = dir_number(dir, files) else {
        return Ok(None);
    };
    let from = 100 * number;
    let many = many_in(files, from);
    let entries = entries_from(alloc, Kind::File, from, many)?;
    Ok(Some(entries))
}
