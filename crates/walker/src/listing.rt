//! The listing of one directory.
ghost use Rattle.std.specs.Prelude.{◌≡◌, ◌↔◌, ◌++◌, ◌∷◌, List, map, filter, IfOk, IfSome, Contains, IsSorted, AllPairs, ◌≢◌, OnOk};
ghost use Rattle.std.specs.Cmp.Lexicographic.{slice_cmp};
ghost use Rattle.std.specs.Ordering.{nat_cmp};
ghost use Rattle.firefly_outside.specs.Trees.{Path, Counts, AreEntries, child};

use firefly_outside::{Entry, Kind, Text, Tree, TreeError};
use std::alloc::{AllocError, Global};

/// The whole paths of a directory's children, each list in the order of bytes.
#[derive(Debug, Drop)]
pub struct Listing {
    pub dirs: Vec<Text>,
    pub files: Vec<Text>,
}

ghost use Rattle.walker.specs.Listings.{IsListingOf, ListsDir};
ghost use Rattle.walker.specs.Walk.{IsNamed};
ghost use Rattle.walker.specs.Kinds.{path_as, same_kind};

/// Lists a directory once.
pub fn list_dir<S: Tree>(alloc: Global, tree: &mut S, dir: &str) -> Result<Listing, TreeError>
    ensures tree_stays { S.tree tree.new ≡ S.tree tree.old }
    ensures weak_stays { S.may_fail tree.new ≡ S.may_fail tree.old }
    ensures count { Counts (S.faults tree.old) (S.faults tree.new) result }
    ensures lawful { IfOk result (IsListingOf dir.now) }
    ensures reported { IfSome (S.tree tree.old) (ListsDir (S.may_fail tree.old) dir.now (S.calls tree.old) (S.calls tree.new) result) }
{
    let entries = match tree.list(alloc, dir) {
        Ok(entries) => entries,
        Err(error) => return Err(error),
    };
    match listing_of(alloc, dir, &entries) {
        Ok(listing) => Ok(listing),
        Err(_) => Err(TreeError::Memory),
    }
}

// The paths of the entries, apart by what they are and in order.
fn listing_of(alloc: Global, dir: &str, entries: &Vec<Entry>) -> Result<Listing, AllocError>
    requires { AreEntries entries.now.items }
    ensures lawful { IfOk result (IsListingOf dir.now) }
    ensures dirs { IfOk result (λ l. (p : Path) → Contains l.dirs.items p ↔ IsNamed dir.now entries.now.items Kind.Dir p) }
    ensures files { IfOk result (λ l. (p : Path) → Contains l.files.items p ↔ IsNamed dir.now entries.now.items Kind.File p) }
{
    let dirs = children_of(alloc, dir, entries, Kind::Dir)?;
    let files = children_of(alloc, dir, entries, Kind::File)?;
    Ok(Listing { dirs, files })
}

// The paths of the entries of one kind, in order.
fn children_of(
    alloc: Global,
    dir: &str,
    entries: &Vec<Entry>,
    kind: Kind,
) -> Result<Vec<Text>, AllocError>
    requires { AreEntries entries.now.items }
    ensures sorted { IfOk result (λ v. IsSorted (slice_cmp nat_cmp) v.items) }
    ensures named { IfOk result (λ v. (p : Path) → Contains v.items p ↔ IsNamed dir.now entries.now.items kind p) }
    ensures distinct { IfOk result (λ v. AllPairs (λ p q. p ≢ q) v.items) }
{
    let mut paths = Vec::new(alloc);
    for entry in entries {
        add_child(&mut paths, alloc, dir, entry, kind)?;
    }
    paths.sort()?;
    Ok(paths)
}

fn are_same(kind: Kind, other: Kind) -> bool
    ensures { result ≡ same_kind kind other }
{
    match kind {
        Kind::File => match other {
            Kind::File => true,
            Kind::Dir => false,
        },
        Kind::Dir => match other {
            Kind::File => false,
            Kind::Dir => true,
        },
    }
}

// Adds the path of the entry, if it is of the kind.
fn add_child(
    paths: &mut Vec<Text>,
    alloc: Global,
    dir: &str,
    entry: &Entry,
    kind: Kind,
) -> Result<(), AllocError>
    ensures { OnOk result (paths.new.items ≡ paths.old.items ++ path_as dir.now kind entry.now) }
{
    if are_same(entry.kind, kind) {
        paths.push(child_path(alloc, dir, entry.name.as_str())?)?;
    }
    Ok(())
}

/// The path of a directory's child.
pub fn child_path(alloc: Global, dir: &str, name: &str) -> Result<Text, AllocError>
    ensures { IfOk result (λ t. t ≡ child dir.now name.now) }
{
    let mut path = String::with_capacity(
        alloc,
        dir.len().saturating_add(name.len()).saturating_add(1),
    )?;
    path.push_str(dir)?;
    path.push('/')?;
    path.push_str(name)?;
    Ok(Text::from_string(path))
}
