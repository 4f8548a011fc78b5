//! What is offered an index text while it is read.
ghost use Rattle.std.specs.Prelude.{◌≡◌, [], OnOk};
ghost use Rattle.std.specs.Option.{option_copied};
ghost use Rattle.index_text.specs.Offered.{Offered, nothing, with_word, with_hit, with_end, with_skipped, last_word, last_path, last_skipped};

use std::alloc::AllocError;

/// What is offered the rows and skipped paths of an index text, in their order, while it is read (`offer_index`). It decides what it keeps.
pub trait Taker {
    // What has become of a taker that was offered this.
    ghost keeps: { Self → Offered → Self → Type 0 };

    /// Is shown the first bytes of the text. Called once, and first.
    fn begin(&mut self, start: &[u8])
        ensures { keeps self.old nothing self.new };

    /// Is offered the word of the next row.
    fn begin_row(&mut self, word: &[u8]) -> Result<(), AllocError>
        ensures { (first : Self) (t : Offered) → keeps first t self.old → t.hits ≡ [] → OnOk result (keeps first (with_word word.now t) self.new) };

    /// Is offered the next file of the row: its path, how often it has the word, and on which line first.
    fn hit(&mut self, path: &[u8], count: u64, line: u64) -> Result<(), AllocError>
        ensures { (first : Self) (t : Offered) → keeps first t self.old
            → OnOk result (keeps first (with_hit (record { path = path.now; count = count; line = line }) t) self.new) };

    /// Is offered that the row has ended.
    fn end_row(&mut self) -> Result<(), AllocError>
        ensures { (first : Self) (t : Offered) → keeps first t self.old → OnOk result (keeps first (with_end t) self.new) };

    /// Is offered the next skipped path.
    fn skip(&mut self, path: &[u8]) -> Result<(), AllocError>
        ensures { (first : Self) (t : Offered) → keeps first t self.old → OnOk result (keeps first (with_skipped path.now t) self.new) };

    /// The word of the last row that has ended.
    fn last_word(&self) -> Option<&[u8]>
        ensures { (first : Self) (t : Offered) → keeps first t self.now → option_copied result ≡ last_word t };

    /// The path of the last file of the row under way.
    fn last_path(&self) -> Option<&[u8]>
        ensures { (first : Self) (t : Offered) → keeps first t self.now → option_copied result ≡ last_path t };

    /// The last skipped path.
    fn last_skipped(&self) -> Option<&[u8]>
        ensures { (first : Self) (t : Offered) → keeps first t self.now → option_copied result ≡ last_skipped t };
}
