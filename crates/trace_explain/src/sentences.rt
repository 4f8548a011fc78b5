//! The forms of sentences, written into a buffer after its first `at` bytes. Each call returns where it ended.
ghost use Rattle.std.specs.Prelude.{◌≡◌, ◌+◌, ◌≤◌, ◌++◌, length, take};
ghost use Rattle.trace_explain.specs.Sentences.{plain, since, standing, ended};

use trace_board::history::Origin;
use trace_core::add;
use trace_shapes::tags::add_with_number;

/// Adds a kind, a number and words, as a line.
#[tactic(auto, unfolding(crate::specs::Sentences::plain))]
pub fn add_plain(buf: &mut [u8], at: usize, kind: &[u8], n: u32, words: &[u8]) -> usize
    requires short { length kind.now ≤ 30 }
    requires shorter { length words.now ≤ 40 }
    requires room { at + 120 ≤ length buf.old }
    ensures text { take result buf.new ≡ take at buf.old ++ plain kind.now n words.now }
    ensures near { result ≤ at + 120 }
{
    let at = add_with_number(buf, at, kind, u64::from(n));
    let at = add(buf, at, words);
    add(buf, at, b"\n")
}

/// Adds what is so by a thread since an event, as a line.
#[tactic(auto, unfolding(crate::specs::Sentences::since))]
pub fn add_since(buf: &mut [u8], at: usize, kind: &[u8], n: u32, words: &[u8], o: &Origin) -> usize
    requires short { length kind.now ≤ 30 }
    requires shorter { length words.now ≤ 40 }
    requires room { at + 160 ≤ length buf.old }
    ensures text { take result buf.new ≡ take at buf.old ++ since kind.now n words.now o.now }
    ensures near { result ≤ at + 160 }
{
    let at = add_with_number(buf, at, kind, u64::from(n));
    let at = add_with_number(buf, at, words, u64::from(o.thread.0));
    let at = add_with_number(buf, at, b" since event ", o.place);
    add(buf, at, b"\n")
}

/// Adds in which condition a thread stands, as a line.
#[tactic(auto, unfolding(crate::specs::Sentences::standing))]
pub fn add_standing(buf: &mut [u8], at: usize, t: u32, c: u32) -> usize
    requires room { at + 160 ≤ length buf.old }
    ensures text { take result buf.new ≡ take at buf.old ++ standing t c }
    ensures near { result ≤ at + 160 }
{
    let at = add_with_number(buf, at, b"t", u64::from(t));
    let at = add_with_number(buf, at, b" stands in c", u64::from(c));
    add(buf, at, b"\n")
}

/// Adds since when a thread has ended, as a line.
#[tactic(auto, unfolding(crate::specs::Sentences::ended))]
pub fn add_ended(buf: &mut [u8], at: usize, t: u32, o: &Origin) -> usize
    requires room { at + 160 ≤ length buf.old }
    ensures text { take result buf.new ≡ take at buf.old ++ ended t o.now }
    ensures near { result ≤ at + 160 }
{
    let at = add_with_number(buf, at, b"t", u64::from(t));
    let at = add_with_number(buf, at, b" has ended since event ", o.place);
    add(buf, at, b"\n")
}
