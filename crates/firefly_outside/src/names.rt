//! The names of one listing.
ghost use Rattle.std.specs.Prelude.{◌≡◌, ◌≢◌, List, map, IfOk, IfErr, OnOk, IsTrue, None, Some};
ghost use Rattle.std.specs.Bool.{nat_eq};
ghost use Rattle.std.specs.Cmp.Lexicographic.{pointwise};
ghost use Rattle.std.specs.HashMap.{get, Updates};
ghost use Rattle.firefly_outside.specs.Trees.{IsName, AreEntries};

use crate::{Entry, Kind, Text, TreeError};
use std::alloc::Global;
use std::collections::HashMap;

/// Names with what they are.
pub type Names = HashMap<Text, Kind>;

// Whether the text may be a name.
fn is_name(name: &str) -> bool
    ensures { IsTrue result → IsName name.now }
{
    !name.is_empty() && !name.contains('/')
}

/// Adds a name. One that is there already is a fault.
pub fn add_name(alloc: Global, names: &mut Names, name: &str, kind: Kind) -> Result<(), TreeError>
    ensures new { OnOk result (get (pointwise nat_eq) names.old name.now ≡ None) }
    ensures added { OnOk result (Updates (pointwise nat_eq) names.old names.new name.now (Some kind)) }
    ensures twice { IfErr result (λ e. e ≡ TreeError.Failed → get (pointwise nat_eq) names.old name.now ≢ None) }
{
    let Ok(name) = Text::of(alloc, name) else {
        return Err(TreeError::Memory);
    };
    match names.insert(name, kind) {
        Ok(None) => Ok(()),
        Ok(Some(_)) => Err(TreeError::Failed),
        Err(_) => Err(TreeError::Memory),
    }
}

/// The names as entries. One that may be no name is a fault.
pub fn entries_of(alloc: Global, names: Names) -> Result<Vec<Entry>, TreeError>
    ensures { IfOk result (λ v. AreEntries v.items) }
{
    let mut entries = Vec::new(alloc);
    for (name, kind) in names {
        if !is_name(name.as_str()) {
            return Err(TreeError::Failed);
        }
        if let Err(_) = entries.push(Entry { name, kind }) {
            return Err(TreeError::Memory);
        }
    }
    Ok(entries)
}
