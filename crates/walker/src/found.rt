//! What a walk has found: a map of directories, and the whole paths of files.
ghost use Rattle.std.specs.Prelude.{◌≡◌, ◌≢◌, ◌↔◌, ◌++◌, ◌∷◌, [], ◌+◌, ◌≤◌, ◌<◌, ℕ, false, List, length, map, IfOk, OnOk, IsTrue, Contains, AllPairs, vec_len, vec_capacity, slice_get, Some};
ghost use Rattle.std.specs.String.{string_bytes};
ghost use Rattle.indexmap.specs.IndexMap.{spare as map_spare};
ghost use Rattle.firefly_outside.specs.Trees.{Path, child};
ghost use Rattle.walker.specs.Walk.{pairs_of, marked};
ghost use Rattle.walker.specs.Found.{IsBelow, AreBelow, AreNew, names_in};

use crate::paths::below;
use firefly_outside::Text;
use indexmap::IndexMap;
use std::alloc::{AllocError, Global};

pub type Dirs = IndexMap<String, bool>;

pub type Files = Vec<Text>;

// The path without the root and the slash after it.
fn name_below<'a>(root: &str, path: &'a str) -> &'a str
    requires { IsBelow root.now path.now }
    ensures { child root.now result.now ≡ path.now }
{
    match below(root, path) {
        Some(name) => name,
        None => unreachable!(),
    }
}

/// The path below the root of the file at this place.
pub fn name_at<'a>(root: &str, files: &'a Files, at: usize) -> &'a str
    requires within { at < length files.now.items }
    requires below { AreBelow root.now files.now.items }
    ensures { slice_get (names_in root.now files.now.items) at ≡ Some result.now }
{
    name_below(root, files[at].as_str())
}

/// Marks the directory as listed.
pub fn mark(dirs: &mut Dirs, dir: &str)
    requires { Contains (map (λ d. d.0) (pairs_of dirs.old.entries)) dir.now }
    ensures marked { pairs_of dirs.new.entries ≡ marked dir.now (pairs_of dirs.old.entries) }
    ensures spare { map_spare dirs.new ≡ map_spare dirs.old }
{
    if let Some(listed) = dirs.get_mut(dir) {
        *listed = true;
    }
}

/// Whether the directory was found and isn't listed.
pub fn has_unlisted(dirs: &Dirs, dir: &str) -> bool
    requires { AllPairs (λ p q. p ≢ q) (map (λ d. d.0) (pairs_of dirs.now.entries)) }
    ensures { IsTrue result ↔ Contains (pairs_of dirs.now.entries) (dir.now, false) }
{
    match dirs.get(dir) {
        Some(listed) => !*listed,
        None => false,
    }
}

/// Whether a file of these bytes for its name was found. It looks at one after the other.
pub fn has_file(root: &str, files: &Files, name: &[u8]) -> bool
    requires { AreBelow root.now files.now.items }
    ensures { IsTrue result ↔ Contains (names_in root.now files.now.items) name.now }
{
    for at in 0..files.len() {
        if name_at(root, files, at).as_bytes() == name {
            return true;
        }
    }
    false
}

/// The map of the root alone, which isn't listed.
pub fn first_dirs(alloc: Global, root: &str) -> Result<Dirs, AllocError>
    ensures { IfOk result (λ d. pairs_of d.entries ≡ (root.now, false) ∷ []) }
{
    let name = String::from_str(alloc, root)?;
    let mut dirs = Dirs::new(alloc);
    match dirs.insert(name, false) {
        Ok(_) => Ok(dirs),
        Err(failed) => {
            // The name is dropped by itself, so that no pair is.
            let (name, _) = failed.value;
            drop(name);
            Err(AllocError)
        }
    }
}

// Adds a directory for which there is room.
fn add_dir(dirs: &mut Dirs, dir: String)
    requires room { 0 < map_spare dirs.old }
    requires new { ¬ Contains (map (λ d. d.0) (pairs_of dirs.old.entries)) (string_bytes dir) }
    ensures added { pairs_of dirs.new.entries ≡ pairs_of dirs.old.entries ++ (string_bytes dir, false) ∷ [] }
    ensures spare { map_spare dirs.old ≤ map_spare dirs.new + 1 }
{
    match dirs.insert(dir, false) {
        Ok(_) => {}
        Err(_) => unreachable!(),
    }
}

/// Adds directories for which there is room.
pub fn add_dirs(dirs: &mut Dirs, more: Vec<Text>)
    requires room { vec_len more ≤ map_spare dirs.old }
    requires new { AreNew (map (λ d. d.0) (pairs_of dirs.old.entries)) more.items }
    ensures { pairs_of dirs.new.entries ≡ pairs_of dirs.old.entries ++ map (λ p. (p, false)) more.items }
{
    for dir in more {
        add_dir(dirs, dir.into_string());
    }
}

/// Adds files for which there is room.
pub fn add_files(files: &mut Files, more: Vec<Text>)
    requires { vec_len files.old + vec_len more ≤ vec_capacity files.old }
    ensures { files.new.items ≡ files.old.items ++ more.items }
{
    for file in more {
        files.push_reserved(file);
    }
}
