//! A piece: the index of the files that it covers.
ghost use Rattle.std.specs.Prelude.{◌≡◌, ◌+◌, ◌<◌, ◌↔◌, ℕ, [], length, IsTrue, slice_index_or};
ghost use Rattle.std.specs.List.{Contains};
ghost use Rattle.word_index.specs.Index.{IsIndexOf, Meet, entries, occurrences, row_at, hit_at};

use crate::join::order_at;
use crate::rows::Rows;
use crate::strings::Strings;
use std::alloc::Global;
use std::cmp::Ordering;
use std::marker::Model;

/// A file that has a word: its path, how often it has the word, and on which line first.
#[derive(Clone, Copy)]
pub struct Found<'a> {
    pub path: &'a [u8],
    pub count: u32,
    pub line: u32,
}

/// The index of some files.
#[derive(Drop)]
pub struct Piece {
    pub(crate) alloc: Global,
    pub(crate) paths: Strings,
    pub(crate) skipped: Strings,
    pub(crate) words: Strings,
    pub(crate) places: Rows,
}

impl Model for Piece {
    ghost use Rattle.word_index.specs.Index.{Index};

    ghost Value = { Index };

    ghost use Rattle.word_index.specs.Piece.{rows_of, IsSound};

    ghost view = { λ p. record {
      paths = p.paths;
      skipped = p.skipped;
      rows = rows_of p.paths p.words p.places;
    } };

    ghost invariant = { λ p. IsSound p.paths p.skipped p.words p.places };
}

impl Piece {
    /// Covers nothing.
    pub fn empty(alloc: Global) -> Piece
        ensures { IsIndexOf [] result }
    {
        Piece {
            alloc,
            paths: Strings::new(alloc),
            skipped: Strings::new(alloc),
            words: Strings::new(alloc),
            places: Rows::new(alloc),
        }
    }

    /// Whether the path is covered.
    pub fn covers(&self, path: &str) -> bool
        ensures { IsTrue result ↔ Contains self.now.paths path.now }
    {
        let mut low = 0;
        let mut high = self.paths.len();
        while low < high {
            let middle = low + (high - low) / 2;
            match self.paths.get(middle).cmp(&path.as_bytes()) {
                Ordering::Less => low = middle + 1,
                Ordering::Equal => return true,
                Ordering::Greater => high = middle,
            }
        }
        false
    }

    /// The number of paths covered.
    pub fn files(&self) -> u64
        ensures { result ≡ length self.now.paths }
    {
        self.paths.len() as u64
    }

    /// The number of distinct words.
    pub fn words(&self) -> u64
        ensures { result ≡ length self.now.rows }
    {
        self.words.len() as u64
    }

    /// The number of entries.
    pub fn entries(&self) -> u64
        ensures { result ≡ length (entries self.now) }
    {
        self.places.total() as u64
    }

    /// The sum of the counts of all entries.
    pub fn occurrences(&self) -> u128
        ensures { result ≡ occurrences self.now }
    {
        self.places.total_count()
    }

    /// Whether some path is covered by both.
    pub fn meets(&self, other: &Piece) -> bool
        ensures { IsTrue result ↔ Meet self.now other.now }
    {
        let mut i = 0;
        let mut j = 0;
        while i < self.paths.len() && j < other.paths.len() {
            match order_at(&self.paths, i, &other.paths, j) {
                Ordering::Less => i += 1,
                Ordering::Greater => j += 1,
                Ordering::Equal => return true,
            }
        }
        false
    }

    /// The number of rows, one for each word.
    pub fn rows(&self) -> usize
        ensures { result ≡ length self.now.rows }
    {
        self.words.len()
    }

    /// The word of a row.
    pub fn word(&self, at: usize) -> &[u8]
        requires { at < length self.now.rows }
        ensures { result.now ≡ (row_at self.now at).word }
    {
        self.words.get(at)
    }

    /// The number of files that have the word of a row.
    pub fn hits(&self, at: usize) -> usize
        requires { at < length self.now.rows }
        ensures { result ≡ length (row_at self.now at).hits }
    {
        self.places.get(at).len()
    }

    /// One of the files that have the word of a row.
    pub fn hit(&self, at: usize, number: usize) -> Found<'_>
        requires row { at < length self.now.rows }
        requires hit { number < length (row_at self.now at).hits }
        ensures path { result.path.now ≡ (hit_at (row_at self.now at) number).path }
        ensures among { Contains self.now.paths result.path.now }
        ensures count { result.count ≡ (hit_at (row_at self.now at) number).count }
        ensures line { result.line ≡ (hit_at (row_at self.now at) number).line }
    {
        let place = self.places.get(at)[number];
        Found {
            path: self.paths.get(place.path as usize),
            count: place.count,
            line: place.line,
        }
    }

    /// A path that is covered.
    pub fn path(&self, at: usize) -> &[u8]
        requires { at < length self.now.paths }
        ensures { result.now ≡ slice_index_or self.now.paths at [] }
    {
        self.paths.get(at)
    }

    /// The number of skipped paths.
    pub fn skipped_files(&self) -> usize
        ensures { result ≡ length self.now.skipped }
    {
        self.skipped.len()
    }

    /// A skipped path.
    pub fn skipped_path(&self, at: usize) -> &[u8]
        requires { at < length self.now.skipped }
        ensures { result.now ≡ slice_index_or self.now.skipped at [] }
    {
        self.skipped.get(at)
    }
}
