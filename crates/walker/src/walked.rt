//! The directories and files that a walk has found.
ghost use Rattle.std.specs.Prelude.{◌≡◌, ◌↔◌, ◌+◌, ◌≤◌, ℕ, List, length, map, IfOk, IfErr, OnOk, IfSome, IsTrue, Contains, MatchOption, slice_get, Some, ◌≢◌, ◌<◌, false};
ghost use Rattle.firefly_outside.specs.Trees.{Contents, Path};
ghost use Rattle.walker.specs.Walk.{new_walk, IsUnlisted, IsWalkOf, IsSound};
ghost use Rattle.walker.specs.Listings.{IsListingOf, IsReportedBy, Notes};

use crate::Listing;
use crate::found::{Dirs, Files, first_dirs, has_file, has_unlisted, name_at};
use crate::note::note_in;
use std::alloc::{AllocError, Global};
use std::marker::Model;
use word_index::Piece;

/// The directories found, those of them that were listed, and the files found.
#[derive(Drop)]
pub struct Walked {
    root: String,
    dirs: Dirs,
    files: Files,
}

impl Model for Walked {
    ghost use Rattle.std.specs.String.{string_bytes};
    ghost use Rattle.walker.specs.Walk.{Walk, IsSound, walk_of};
    ghost use Rattle.walker.specs.Found.{AreBelow};

    ghost Value = { Walk };

    ghost view = { λ w. walk_of w.root w.dirs w.files.items };

    ghost invariant = { λ w. IsSound (walk_of w.root w.dirs w.files.items) × AreBelow (string_bytes w.root) w.files.items };
}

impl Walked {
    /// A walk that has found the root alone and listed nothing.
    pub fn new(alloc: Global, root: &str) -> Result<Walked, AllocError>
        ensures new { IfOk result (λ w. w ≡ new_walk root.now) }
        ensures reported { IfOk result (λ w. (t : Contents) → IsWalkOf w t) }
    {
        let name = String::from_str(alloc, root)?;
        let dirs = first_dirs(alloc, root)?;
        Ok(Walked {
            root: name,
            dirs,
            files: Vec::new(alloc),
        })
    }

    /// The number of directories found, the root among them.
    pub fn dirs_found(&self) -> u64
        ensures many { result ≡ length self.now.dirs }
        ensures sound { IsSound self.now }
    {
        self.dirs.len() as u64
    }

    /// The number of files found.
    pub fn files_found(&self) -> u64
        ensures many { result ≡ length self.now.files }
        ensures sound { IsSound self.now }
    {
        self.files.len() as u64
    }

    /// Whether the directory was found and isn't listed.
    pub fn is_unlisted(&self, dir: &str) -> bool
        ensures { IsTrue result ↔ IsUnlisted self.now dir.now }
    {
        has_unlisted(&self.dirs, dir)
    }

    /// Whether each path that the piece covers is that of a file found. Each is looked for among all.
    pub fn all_found(&self, piece: &Piece) -> bool
        ensures { IsTrue result ↔ ((p : Path) → Contains piece.now.paths p → Contains self.now.files p) }
    {
        for at in 0..piece.files() as usize {
            if !has_file(self.root.as_str(), &self.files, piece.path(at)) {
                return false;
            }
        }
        true
    }
}

impl Walked {
    /// Takes a listing of a directory. Where memory wants, the listing comes back and nothing changes.
    pub fn note(&mut self, dir: &str, listing: Listing) -> Result<(), Listing>
        requires unlisted { IsUnlisted self.old dir.now }
        requires lawful { IsListingOf dir.now listing }
        ensures ok { OnOk result (Notes self.old self.new dir.now listing) }
        ensures err { IfErr result (λ l. (l ≡ listing) × (self.new ≡ self.old)) }
        ensures reported { OnOk result ((t : Contents) → IsWalkOf self.old t → IsReportedBy t dir.now listing → IsWalkOf self.new t) }
    {
        note_in(
            self.root.as_str(),
            &mut self.dirs,
            &mut self.files,
            dir,
            listing,
        )
    }

    /// The directory found at this place, if it isn't listed.
    pub fn unlisted_at(&self, at: usize) -> Option<&str>
        requires { at < length self.now.dirs }
        ensures { MatchOption result ((p : Path) → slice_get self.now.dirs at ≢ Some (p, false))
            (λ d. slice_get self.now.dirs at ≡ Some (d.now, false)) }
    {
        match self.dirs.get_index(at) {
            Some((dir, false)) => Some(dir.as_str()),
            _ => None,
        }
    }

    /// The path below the root of the file found at this place.
    pub fn file_at(&self, at: usize) -> &str
        requires { at < length self.now.files }
        ensures { slice_get self.now.files at ≡ Some result.now }
    {
        name_at(self.root.as_str(), &self.files, at)
    }

    /// The root.
    pub fn root(&self) -> &str
        ensures { result.now ≡ self.now.root }
    {
        self.root.as_str()
    }
}
