//! What a query needs of an index, kept while the index is read.
ghost use Rattle.std.specs.Prelude.{◌≡◌, [], IfOk};

use crate::answer::find;
use crate::kept::{keep_hit, keep_row};
use crate::last::Last;
use crate::query::Query;
use firefly_outside::Text;
use index_table::Draft;
use index_text::Taker;
use std::alloc::{AllocError, Global};

/// Keeps of an index the rows of the query's words, and each path once where the query has a `!`.
#[derive(Drop)]
pub struct Sieve {
    alloc: Global,
    query: Query,
    every_path: bool,
    draft: Draft,
    // The row under way, whether the query asks for its word, and what came last.
    word: Vec<u8>,
    wanted: bool,
    last_word: Last,
    last_path: Last,
    last_skipped: Last,
}

impl Sieve {
    ghost use Rattle.index_table.specs.Rows.{AreOrdered};
    ghost use Rattle.index_text.specs.Offered.{Offered};
    ghost use Rattle.index_find.specs.Postfix.{tree_of};
    ghost use Rattle.index_find.specs.Meaning.{AreMeant};
    ghost use Rattle.index_find.specs.Sieve.{IsSieve};

    /// One that was offered nothing.
    pub fn new(alloc: Global, query: Query) -> Sieve
        ensures { result.query ≡ query }
    {
        Sieve {
            alloc,
            query,
            every_path: false,
            draft: Draft::new(alloc, &[]),
            word: Vec::new(alloc),
            wanted: false,
            last_word: Last::none(alloc),
            last_path: Last::none(alloc),
            last_skipped: Last::none(alloc),
        }
    }

    /// The paths that the query means in the index that was offered, once its last row has ended.
    pub fn answer(self) -> Result<Vec<Text>, AllocError>
        requires { (first : Sieve) × (t : Offered) × IsSieve first t self × (t.hits ≡ []) × AreOrdered t.rows }
        ensures { (first : Sieve) (t : Offered) → IsSieve first t self → IfOk result (λ v. AreMeant t.rows (tree_of first.query) v.items) }
    {
        let Sieve {
            alloc,
            query,
            every_path: _,
            draft,
            word: _,
            wanted: _,
            last_word: _,
            last_path: _,
            last_skipped: _,
        } = self;
        let index = draft.finish()?;
        find(alloc, &index, &query)
    }
}

impl Taker for Sieve {
    ghost use Rattle.index_find.specs.Sieve.{IsSieve};

    ghost keeps = { IsSieve };

    // The first bytes make the key of the table.
    fn begin(&mut self, start: &[u8]) {
        self.every_path = self.query.negates();
        self.draft = Draft::new(self.alloc, start);
        self.word.clear();
        self.wanted = self.query.asks_for(&[]);
        self.last_word.clear();
        self.last_path.clear();
        self.last_skipped.clear();
    }

    fn begin_row(&mut self, word: &[u8]) -> Result<(), AllocError> {
        self.wanted = self.query.asks_for(word);
        self.word.clear();
        self.word.extend_from_slice(word)
    }

    fn hit(&mut self, path: &[u8], count: u64, line: u64) -> Result<(), AllocError> {
        self.last_path.set(path)?;
        keep_hit(
            &mut self.draft,
            self.wanted,
            self.every_path,
            path,
            count,
            line,
        )
    }

    fn end_row(&mut self) -> Result<(), AllocError> {
        self.last_path.clear();
        self.last_word.set(&self.word)?;
        keep_row(&mut self.draft, self.wanted, &self.word)
    }

    fn skip(&mut self, path: &[u8]) -> Result<(), AllocError> {
        self.last_skipped.set(path)
    }

    fn last_word(&self) -> Option<&[u8]> {
        self.last_word.get()
    }

    fn last_path(&self) -> Option<&[u8]> {
        self.last_path.get()
    }

    fn last_skipped(&self) -> Option<&[u8]> {
        self.last_skipped.get()
    }
}
