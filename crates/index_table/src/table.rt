//! An index as a table.
ghost use Rattle.std.specs.Prelude.{◌≡◌, ◌<◌, [], length, slice_index_or};
ghost use Rattle.index_table.specs.Rows.{ArePathsOf, AreFilesWith};

use crate::draft::Figures;
use crate::paths::Paths;
use std::cmp::Ordering;
use std::marker::Model;
use word_index::{Strings, part_of};

/// An index: rows of words with their files, and skipped paths.
#[derive(Drop)]
pub struct Index {
    pub(crate) words: Strings,
    pub(crate) numbers: Vec<u32>,
    pub(crate) figures: Vec<Figures>,
    pub(crate) ends: Vec<usize>,
    pub(crate) paths: Paths,
    pub(crate) skipped: Vec<String>,
}

impl Model for Index {
    ghost use Rattle.index_table.specs.Rows.{Contents};

    ghost Value = { Contents };

    ghost use Rattle.std.specs.Prelude.{map, length};
    ghost use Rattle.std.specs.String.{string_bytes};
    ghost use Rattle.index_table.specs.Paths.{texts};
    ghost use Rattle.index_table.specs.Rows.{rows_of, AreColumns, AreOrdered, ArePathsOf};

    ghost view = { λ i. record {
      rows = rows_of (texts i.paths.entries) i.words i.numbers.items i.figures.items i.ends.items (length i.numbers.items);
      skipped = map string_bytes i.skipped.items;
      paths = texts i.paths.entries;
    } };

    ghost invariant = { λ i.
        let rows = rows_of (texts i.paths.entries) i.words i.numbers.items i.figures.items i.ends.items (length i.numbers.items) in
        AreColumns (length i.paths.entries) i.words i.numbers.items i.figures.items i.ends.items (length i.numbers.items)
        × AreOrdered rows × ArePathsOf rows (texts i.paths.entries) };
}

impl Index {
    /// How many paths the entries have.
    pub fn path_count(&self) -> usize
        ensures many { result ≡ length self.now.paths }
        ensures paths { ArePathsOf self.now.rows self.now.paths }
    {
        self.paths.len()
    }

    /// The path at a place, in the order of bytes.
    pub fn path(&self, place: usize) -> &str
        requires { place < length self.now.paths }
        ensures { result.now ≡ slice_index_or self.now.paths place [] }
    {
        match self.paths.get_index(place) {
            Some((path, _)) => path.as_str(),
            None => unreachable!(),
        }
    }

    /// The places of the files that have the word, rising; empty where no row has it.
    pub fn files_with(&self, word: &[u8]) -> &[u32]
        ensures { AreFilesWith self.now word.now result.now }
    {
        let mut low = 0;
        let mut high = self.words.len();
        while low < high {
            let middle = low + (high - low) / 2;
            match self.words.get(middle).cmp(&word) {
                Ordering::Less => low = middle + 1,
                Ordering::Equal => return part_of(&self.numbers, &self.ends, middle),
                Ordering::Greater => high = middle,
            }
        }
        &[]
    }
}
