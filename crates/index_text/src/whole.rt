//! A taker that keeps everything.
ghost use Rattle.std.specs.Prelude.{◌≡◌, [], OnOk, IfOk};
ghost use Rattle.std.specs.Option.{option_copied};

use crate::taker::Taker;
use index_table::{Draft, Index};
use std::alloc::{AllocError, Global};
use std::str::from_utf8;

/// Keeps all that it is offered as an index.
#[derive(Drop)]
pub struct Whole {
    alloc: Global,
    draft: Draft,
    word: Vec<u8>,
}

impl Whole {
    ghost use Rattle.index_table.specs.Rows.{AreOrdered};
    ghost use Rattle.index_text.specs.Offered.{Offered};
    ghost use Rattle.index_text.specs.Whole.{IsWhole};

    /// Nothing yet.
    pub fn new(alloc: Global) -> Whole {
        Whole {
            alloc,
            draft: Draft::new(alloc, &[]),
            word: Vec::new(alloc),
        }
    }

    /// The index that was offered, once its last row has ended.
    pub fn finish(self) -> Result<Index, AllocError>
        requires { (t : Offered) × IsWhole self t × (t.hits ≡ []) × AreOrdered t.rows }
        ensures { (t : Offered) → IsWhole self t → IfOk result (λ i. (i.rows ≡ t.rows) × (i.skipped ≡ t.skipped)) }
    {
        let Whole {
            alloc: _,
            draft,
            word,
        } = self;
        drop(word);
        draft.finish()
    }
}

impl Taker for Whole {
    ghost use Rattle.index_text.specs.Whole.{IsWhole};

    ghost keeps = { λ first t now. IsWhole now t };

    // The first bytes make the key of the table.
    fn begin(&mut self, start: &[u8]) {
        self.draft = Draft::new(self.alloc, start);
        self.word.clear();
    }

    fn begin_row(&mut self, word: &[u8]) -> Result<(), AllocError> {
        self.word.clear();
        self.word.extend_from_slice(word)
    }

    fn hit(&mut self, path: &[u8], count: u64, line: u64) -> Result<(), AllocError> {
        match from_utf8(path) {
            Ok(text) => self.draft.hit(text, count, line),
            Err(_) => Err(AllocError),
        }
    }

    fn end_row(&mut self) -> Result<(), AllocError> {
        self.draft.end_row(&self.word)
    }

    fn skip(&mut self, path: &[u8]) -> Result<(), AllocError> {
        match from_utf8(path) {
            Ok(text) => self.draft.skip(text),
            Err(_) => Err(AllocError),
        }
    }

    fn last_word(&self) -> Option<&[u8]> {
        self.draft.last_word()
    }

    fn last_path(&self) -> Option<&[u8]> {
        bytes_of(self.draft.last_path())
    }

    fn last_skipped(&self) -> Option<&[u8]> {
        bytes_of(self.draft.last_skipped())
    }
}

// The bytes of the last path.
fn bytes_of(last: Option<&str>) -> Option<&[u8]>
    ensures { option_copied result ≡ option_copied last.entry }
{
    match last {
        Some(text) => Some(text.as_bytes()),
        None => None,
    }
}
