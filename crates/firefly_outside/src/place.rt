//! What a tree in memory has at a path.
ghost use Rattle.std.specs.Prelude.{◌≡◌, List, OnOk, OnErr, IfOk, IfSome, Some, None, if◌then◌else◌, ◌⊎◌, ◌↔◌, ◌<◌, IsTrue, length};
ghost use Rattle.std.specs.Option.{option_map};
ghost use Rattle.std.specs.Cmp.Lexicographic.{pointwise};
ghost use Rattle.std.specs.Bool.{nat_eq};
ghost use Rattle.std.specs.HashMap.{spare};
ghost use Rattle.firefly_outside.specs.Trees.{Path, Contents, with_last, Names, Adds, IsBare, HasParent, IsLeaf, Directory};
ghost use Rattle.firefly_outside.specs.declared.tree.Entry.{Entry};
ghost use Rattle.firefly_outside.specs.MemTrees.{node_of, reported_by, IsWhole};

use crate::paths::split_last;
use crate::{Entry, Kind, Text};
use std::alloc::{AllocError, Global};
use std::collections::HashMap;

/// The entries of a directory, or the bytes of a file.
#[derive(Drop)]
pub enum Place {
    Dir(Vec<Entry>),
    File(Vec<u8>),
}

impl Clone for Place {
    ghost is_clone = { λ x y. node_of y ≡ node_of x };

    fn clone(&self) -> Result<Place, AllocError> {
        match self {
            Place::Dir(entries) => match entries.clone() {
                Ok(entries) => Ok(Place::Dir(entries)),
                Err(error) => Err(error),
            },
            Place::File(bytes) => match bytes.clone() {
                Ok(bytes) => Ok(Place::File(bytes)),
                Err(error) => Err(error),
            },
        }
    }
}

/// The places by their paths.
pub type Places = HashMap<Text, Place>;

// Names one more child of a directory; a file is left as it is.
fn push_entry(place: &mut Place, entry: Entry) -> Result<(), AllocError>
    ensures ok { OnOk result (node_of place.new ≡ with_last (node_of place.old) entry) }
    ensures err { OnErr result (node_of place.new ≡ node_of place.old) }
{
    match place {
        Place::Dir(entries) => {
            entries.push(entry)?;
            Ok(())
        }
        Place::File(_) => Ok(()),
    }
}

// Names one more child of the directory at this path, if there is one.
pub fn name_child(places: &mut Places, dir: &Text, entry: Entry) -> Result<(), AllocError>
    ensures ok { OnOk result ((q : Path) → reported_by places.new q ≡
        (if pointwise nat_eq dir.now q then option_map (λ n. with_last n entry) (reported_by places.old q) else reported_by places.old q)) }
    ensures err { OnErr result ((q : Path) → reported_by places.new q ≡ reported_by places.old q) }
    ensures spare { spare places.new ≡ spare places.old }
{
    match places.get_mut(dir) {
        Some(place) => push_entry(place, entry),
        None => Ok(()),
    }
}

// Names the path in the directory before its last slash, if there is one.
fn name_in_parent(
    places: &mut Places,
    alloc: Global,
    path: &str,
    kind: Kind,
) -> Result<(), AllocError>
    ensures ok { OnOk result (Names (reported_by places.old) (reported_by places.new) path.now kind) }
    ensures err { OnErr result ((q : Path) → reported_by places.new q ≡ reported_by places.old q) }
    ensures spare { spare places.new ≡ spare places.old }
{
    if let Some((dir, name)) = split_last(path) {
        let dir = Text::of(alloc, dir)?;
        let name = Text::of(alloc, name)?;
        name_child(places, &dir, Entry { name, kind })?;
    }
    Ok(())
}

/// Adds a place and names it in its parent.
pub fn add_place(
    places: &mut Places,
    alloc: Global,
    path: &str,
    kind: Kind,
    place: Place,
) -> Result<(), AllocError>
    requires absent { reported_by places.old path.now ≡ None }
    requires parent { IsBare (reported_by places.old) ⊎ HasParent (reported_by places.old) path.now }
    requires leaf { IsLeaf (node_of place) }
    requires whole { IsWhole (reported_by places.old) }
    ensures ok { OnOk result (Adds (reported_by places.old) (reported_by places.new) path.now kind (node_of place)) }
    ensures err { OnErr result (reported_by places.new ≡ reported_by places.old) }
    ensures whole { IsWhole (reported_by places.new) }
{
    let key = Text::of(alloc, path)?;
    places.reserve(1)?;
    name_in_parent(places, alloc, path, kind)?;
    put_place(places, key, place);
    Ok(())
}

// Puts a place for which there is room.
fn put_place(places: &mut Places, key: Text, place: Place)
    requires { 0 < spare places.old }
    ensures { (q : Path) → reported_by places.new q ≡ (if pointwise nat_eq key q then Some (node_of place) else reported_by places.old q) }
{
    match places.insert(key, place) {
        Ok(_) => {}
        Err(_) => unreachable!(),
    }
}

/// A copy that makes the same tree.
pub fn copy_of(places: &Places) -> Result<Places, AllocError>
    ensures { IfOk result (λ copy. reported_by copy ≡ reported_by places.now) }
{
    let copy = places.clone()?;
    Ok(copy)
}

/// Whether a place may be added at this path: nothing is there, and its parent is a directory.
pub fn may_add(places: &Places, alloc: Global, path: &str) -> Result<bool, AllocError>
    ensures { IfOk result (λ b. IsTrue b ↔ (reported_by places.now path.now ≡ None) × HasParent (reported_by places.now) path.now) }
{
    let key = Text::of(alloc, path)?;
    if places.contains_key(&key) {
        return Ok(false);
    }
    match split_last(path) {
        Some((dir, name)) => has_child(places, alloc, dir, name),
        None => Ok(false),
    }
}

// Whether the directory is there and the name is one.
fn has_child(places: &Places, alloc: Global, dir: &str, name: &str) -> Result<bool, AllocError>
    ensures { IfOk result (λ b. IsTrue b ↔ (0 < length name.now)
        × ((es : List Entry) × (reported_by places.now dir.now ≡ Some (Directory es)))) }
{
    if name.is_empty() {
        return Ok(false);
    }
    let dir = Text::of(alloc, dir)?;
    match places.get(&dir) {
        Some(Place::Dir(_)) => Ok(true),
        _ => Ok(false),
    }
}
