//! An index under way.
ghost use Rattle.std.specs.Prelude.{◌≡◌, ◌-◌, ◌∷◌, ◌++◌, [], length, map, IfOk, OnOk, OnErr, slice_get, MatchBool};
ghost use Rattle.std.specs.Option.{option_copied};
ghost use Rattle.word_index.specs.Index.{Row, Hit};
ghost use Rattle.index_table.specs.Rows.{words_of, paths_of, AreOrdered, IsAmong};

use crate::paths::{Paths, holds_path, place_path, sort_paths};
use crate::table::Index;
use std::alloc::{AllocError, Global};
use std::marker::Model;
use word_index::{Keyed, Strings};

/// How often a file has a word, and on which line first.
#[derive(Clone, Copy)]
pub struct Figures {
    pub count: u64,
    pub line: u64,
}

/// An index under way: rows, the hits of the next row, and skipped paths.
#[derive(Drop)]
pub struct Draft {
    alloc: Global,
    words: Strings,
    numbers: Vec<u32>,
    figures: Vec<Figures>,
    ends: Vec<usize>,
    closed: usize,
    paths: Paths,
    skipped: Vec<String>,
}

impl Model for Draft {
    ghost use Rattle.index_table.specs.Rows.{Drafted};

    ghost Value = { Drafted };

    ghost use Rattle.std.specs.Prelude.{map, drop, length};
    ghost use Rattle.std.specs.String.{string_bytes};
    ghost use Rattle.index_table.specs.Paths.{texts, AreNumbered};
    ghost use Rattle.index_table.specs.Rows.{rows_of, hits_of, AreColumns, AreUsed};

    ghost view = { λ d. record {
      rows = rows_of (texts d.paths.entries) d.words d.numbers.items d.figures.items d.ends.items d.closed;
      hits = drop d.closed (hits_of (texts d.paths.entries) d.numbers.items d.figures.items);
      skipped = map string_bytes d.skipped.items;
    } };

    ghost invariant = { λ d. AreNumbered d.paths.entries × AreUsed (length d.paths.entries) d.numbers.items
        × AreColumns (length d.paths.entries) d.words d.numbers.items d.figures.items d.ends.items d.closed };
}

impl Draft {
    /// Nothing yet. Paths are hashed under a key that these bytes make.
    pub fn new(alloc: Global, bytes: &[u8]) -> Draft
        ensures { result ≡ record { rows = []; hits = []; skipped = [] } }
    {
        Draft {
            alloc,
            words: Strings::new(alloc),
            numbers: Vec::new(alloc),
            figures: Vec::new(alloc),
            ends: Vec::new(alloc),
            closed: 0,
            paths: Paths::with_hasher(alloc, Keyed::by(bytes)),
            skipped: Vec::new(alloc),
        }
    }

    /// Adds a file to the row under way: its path, how often it has the word, and on which line first.
    pub fn hit(&mut self, path: &str, count: u64, line: u64) -> Result<(), AllocError>
        ensures added { OnOk result (self.new
            ≡ record self.old { hits = self.old.hits ++ record { path = path.now; count = count; line = line } ∷ [] }) }
        ensures kept { OnErr result (self.new ≡ self.old) }
    {
        self.numbers.reserve(1)?;
        self.figures.reserve(1)?;
        let number = place_path(self.alloc, &mut self.paths, path)?;
        self.numbers.push_reserved(number);
        self.figures.push_reserved(Figures { count, line });
        Ok(())
    }

    /// Ends the row under way: this is its word, and the next row has no hits yet.
    pub fn end_row(&mut self, word: &[u8]) -> Result<(), AllocError>
        ensures added { OnOk result (self.new ≡ record {
          rows = self.old.rows ++ record { word = word.now; hits = self.old.hits } ∷ [];
          hits = [];
          skipped = self.old.skipped;
        }) }
        ensures kept { OnErr result (self.new ≡ self.old) }
    {
        self.ends.reserve(1)?;
        self.words.push(word)?;
        self.closed = self.numbers.len();
        self.ends.push_reserved(self.closed);
        Ok(())
    }

    /// Adds a skipped path.
    pub fn skip(&mut self, path: &str) -> Result<(), AllocError>
        ensures added { OnOk result (self.new ≡ record self.old { skipped = self.old.skipped ++ path.now ∷ [] }) }
        ensures kept { OnErr result (self.new ≡ self.old) }
    {
        self.skipped.reserve(1)?;
        let text = String::from_str(self.alloc, path)?;
        self.skipped.push_reserved(text);
        Ok(())
    }

    /// Whether a row, or the row under way, has a file of this path.
    pub fn has_path(&self, path: &str) -> bool
        ensures { MatchBool result (IsAmong self.now path.now) (¬ IsAmong self.now path.now) }
    {
        holds_path(&self.paths, path)
    }

    /// The word of the last row.
    pub fn last_word(&self) -> Option<&[u8]>
        ensures { option_copied result ≡ slice_get (words_of self.now.rows) (length self.now.rows - 1) }
    {
        let many = self.words.len();
        if many == 0 {
            None
        } else {
            Some(self.words.get(many - 1))
        }
    }

    /// The path of the last hit of the row under way.
    pub fn last_path(&self) -> Option<&str>
        ensures { option_copied result ≡ slice_get (paths_of self.now.hits) (length self.now.hits - 1) }
    {
        let many = self.numbers.len();
        if many <= self.closed {
            return None;
        }
        match self.paths.get_index(self.numbers[many - 1] as usize) {
            Some((path, _)) => Some(path.as_str()),
            None => unreachable!(),
        }
    }

    /// The last skipped path.
    pub fn last_skipped(&self) -> Option<&str>
        ensures { option_copied result ≡ slice_get self.now.skipped (length self.now.skipped - 1) }
    {
        let many = self.skipped.len();
        if many == 0 {
            None
        } else {
            Some(self.skipped[many - 1].as_str())
        }
    }

    /// The index of the rows and skipped paths, once the last row has ended.
    pub fn finish(self) -> Result<Index, AllocError>
        requires ended { self.hits ≡ [] }
        requires ordered { AreOrdered self.rows }
        ensures { IfOk result (λ i. (i.rows ≡ self.rows) × (i.skipped ≡ self.skipped)) }
    {
        let Draft {
            alloc,
            words,
            mut numbers,
            figures,
            ends,
            closed: _,
            mut paths,
            skipped,
        } = self;
        match sort_paths(alloc, &mut paths, &mut numbers) {
            Ok(()) => Ok(Index {
                words,
                numbers,
                figures,
                ends,
                paths,
                skipped,
            }),
            Err(fault) => {
                drop(words);
                drop(paths);
                Err(fault)
            }
        }
    }
}
