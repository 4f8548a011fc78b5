//! A directory of many directories that is made from a count.
ghost use Rattle.std.specs.Prelude.{◌≡◌, ◌∷◌, ◌<◌, IfOk, length, decimal};
ghost use Rattle.firefly_outside.specs.Trees.{AreEntries};
ghost use Rattle.firefly.specs.Looks.{look_of, looks_of, Agree};

use firefly_outside::{Entry, FileBytes, Kind, Text, Tree, TreeError};
use std::alloc::{AllocError, Global};

/// A tree whose one large directory `big` has the empty directories `d0`, `d1` and so on. Its
/// contents aren't known to contracts.
#[derive(Drop)]
pub struct Crowd {
    many: u32,
    faults: u64,
}

// The directory of this number.
fn entry_of(alloc: Global, number: u32) -> Result<Entry, AllocError>
    ensures { IfOk result (λ e. e.name ≡ 100 ∷ decimal number) }
{
    let name = format!(in alloc; "d{number}")?;
    Ok(Entry {
        name: Text::from_string(name),
        kind: Kind::Dir,
    })
}

// So many directories.
fn entries_of(alloc: Global, many: u32) -> Result<Vec<Entry>, AllocError>
    ensures { IfOk result (λ v. AreEntries v.items) }
{
    let mut entries = Vec::new(alloc);
    for number in 0..many {
        entries.push(entry_of(alloc, number)?)?;
    }
    Ok(entries)
}

impl Tree for Crowd {
    ghost use Rattle.std.specs.Prelude.{None, []};

    ghost tree = { λ _. None };

    ghost calls = { λ _. record { listed = []; files_read = []; failed = [] } };

    ghost may_fail = { λ _. [] };

    ghost faults = { λ t. t.faults };

    fn list(&mut self, alloc: Global, dir: &str) -> Result<Vec<Entry>, TreeError> {
        let many = if dir == "big" { self.many } else { 0 };
        match entries_of(alloc, many) {
            Ok(entries) => Ok(entries),
            Err(_) => Err(TreeError::Memory),
        }
    }

    fn read(&mut self, alloc: Global, path: &str) -> Result<FileBytes, TreeError> {
        let _ = path;
        self.faults = self.faults.saturating_add(1);
        Err(TreeError::Failed)
    }
}

/// Returns as many of these trees as a call of the program needs, each with `many` directories.
pub fn crowded_trees(alloc: Global, many: u32) -> Result<Vec<Option<Crowd>>, AllocError>
    ensures many { IfOk result (λ v. length v.items ≡ 17) }
    ensures agree { IfOk result (λ v. Agree (looks_of (look_of ⟦<Crowd as Tree>⟧.tree ⟦<Crowd as Tree>⟧.may_fail ⟦<Crowd as Tree>⟧.calls
        ⟦<Crowd as Tree>⟧.faults) v.items)) }
{
    let mut trees = Vec::new(alloc);
    for made in 0..17usize {
        trees.push(Some(Crowd { many, faults: 0 }))?;
    }
    Ok(trees)
}
