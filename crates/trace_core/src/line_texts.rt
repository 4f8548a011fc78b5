//! Lines of a trace text, written into a buffer after its first `at` bytes. Each call returns where it ended.
ghost use Rattle.std.specs.Prelude.{◌≡◌, ◌+◌, ◌≤◌, ◌++◌, length, take, codes, decimal};
ghost use Rattle.trace_core.specs.Text.{newline, first_line, layout_line, head_text, members, names_text, with_name, with_names, with_ending, action_text, event_line, end_line, value_line};

use crate::digits::add_short_number;
use itoa::Buffer;
use larch_actions::{
    Action, Ending, Event, Kind, Kinds, Layout, MOST_THREADS, MutexId, Numbers, ThreadId,
    ThreadSet, Version,
};

/// Adds the piece.
pub fn add(buf: &mut [u8], at: usize, piece: &[u8]) -> usize
    requires { at + length piece.now ≤ length buf.old }
    ensures text { take result buf.new ≡ take at buf.old ++ piece.now }
    ensures end { result ≡ at + length piece.now }
{
    let end = at + piece.len();
    buf[at..end].copy_from_slice(piece);
    end
}

/// Adds the number.
pub fn add_number(buf: &mut [u8], at: usize, n: u64) -> usize
    requires { at + 20 ≤ length buf.old }
    ensures text { take result buf.new ≡ take at buf.old ++ decimal n }
    ensures end { result ≡ at + length (decimal n) }
    ensures near { result ≤ at + 20 }
{
    if n < 100_000_000 {
        return add_short_number(buf, at, n);
    }
    add_long_number(buf, at, n)
}

// The same of a number of any size.
#[cold]
#[inline(never)]
fn add_long_number(buf: &mut [u8], at: usize, n: u64) -> usize
    requires { at + 20 ≤ length buf.old }
    ensures text { take result buf.new ≡ take at buf.old ++ decimal n }
    ensures end { result ≡ at + length (decimal n) }
    ensures near { result ≤ at + 20 }
{
    let mut buffer = Buffer::new();
    add(buf, at, buffer.format(n).as_bytes())
}

// Adds a word and a number. Where it is called the word is known, so it is stored and not copied.
#[inline(always)]
fn add_named(buf: &mut [u8], at: usize, word: &[u8], n: u32) -> usize
    requires word { length word.now ≤ 20 }
    requires room { at + 40 ≤ length buf.old }
    ensures text { take result buf.new ≡ take at buf.old ++ (word.now ++ decimal n) }
    ensures end { result ≡ at + length word.now + length (decimal n) }
    ensures near { result ≤ at + length word.now + 20 }
{
    let at = add(buf, at, word);
    add_number(buf, at, u64::from(n))
}

// Adds the names of the threads, each after a space.
fn add_names(buf: &mut [u8], at: usize, left: &ThreadSet) -> usize
    requires { at + 1320 ≤ length buf.old }
    ensures text { take result buf.new ≡ take at buf.old ++ names_text (members left.now) }
    ensures near { result ≤ at + 1280 }
{
    let mut last = at;
    for t in 0..MOST_THREADS {
        if left.has(ThreadId(t)) {
            last = add_named(buf, last, b" t", t);
        }
    }
    last
}

// Adds a name after a space.
#[inline(always)]
fn add_name(buf: &mut [u8], at: usize, kind: Kind, n: u32) -> usize
    requires { at + 22 ≤ length buf.old }
    ensures text { take result buf.new ≡ with_name (take at buf.old) kind n }
    ensures near { result ≤ at + 22 }
{
    let at = add(buf, at, &[b' ', kind.letter()]);
    add_number(buf, at, u64::from(n))
}

// Adds the names of a row.
#[inline(always)]
fn add_row_names(buf: &mut [u8], at: usize, kinds: Kinds, numbers: &Numbers) -> usize
    requires { at + 44 ≤ length buf.old }
    ensures text { take result buf.new ≡ with_names (take at buf.old) kinds numbers.now }
    ensures near { result ≤ at + 44 }
{
    match kinds {
        Kinds::Nothing => at,
        Kinds::One(kind) => add_name(buf, at, kind, numbers.first),
        Kinds::Two(kind, other) => {
            let at = add_name(buf, at, kind, numbers.first);
            add_name(buf, at, other, numbers.second)
        }
    }
}

// Adds the threads that are left.
fn add_left(buf: &mut [u8], at: usize, left: &ThreadSet) -> usize
    requires { at + 1325 ≤ length buf.old }
    ensures text { take result buf.new ≡ with_ending (take at buf.old) (Ending.Left left.now) }
    ensures near { result ≤ at + 1285 }
{
    let at = add(buf, at, b" left");
    add_names(buf, at, left)
}

// Adds the ending of a row.
#[inline(always)]
fn add_ending(buf: &mut [u8], at: usize, ending: &Ending) -> usize
    requires { at + 1325 ≤ length buf.old }
    ensures text { take result buf.new ≡ with_ending (take at buf.old) ending.now }
    ensures near { result ≤ at + 1285 }
{
    match ending {
        Ending::Nothing => at,
        Ending::Returns => add(buf, at, b" returns"),
        Ending::Raises => add(buf, at, b" raises"),
        Ending::Yes => add(buf, at, b" yes"),
        Ending::No => add(buf, at, b" no"),
        Ending::Left(left) => add_left(buf, at, left),
    }
}

// Adds the action by its row.
fn add_action(buf: &mut [u8], at: usize, action: &Action) -> usize
    requires { at + 1386 ≤ length buf.old }
    ensures text { take result buf.new ≡ take at buf.old ++ action_text action.now }
    ensures near { result ≤ at + 1345 }
{
    let row = action.row();
    let at = add(buf, at, row.word.text());
    let at = add_row_names(buf, at, row.word.kinds(), &row.numbers);
    add_ending(buf, at, &row.ending)
}

/// Adds the line of the event in this place, with its newline.
pub fn add_event(buf: &mut [u8], at: usize, place: u64, e: &Event) -> usize
    requires { at + 1430 ≤ length buf.old }
    ensures text { take result buf.new ≡ take at buf.old ++ event_line place e.now }
    ensures near { result ≤ at + 1400 }
{
    let at = add_number(buf, at, place);
    let at = add_named(buf, at, b" t", e.thread.0);
    let at = add(buf, at, b" ");
    let at = add_action(buf, at, &e.action);
    add(buf, at, b"\n")
}

// Adds the layout line.
fn add_layout(buf: &mut [u8], at: usize, layout: &Layout) -> usize
    requires { at + 200 ≤ length buf.old }
    ensures text { take result buf.new ≡ take at buf.old ++ layout_line layout.now }
    ensures near { result ≤ at + 200 }
{
    let at = add_named(buf, at, b"threads ", layout.threads);
    let at = add_named(buf, at, b" mutexes ", layout.mutexes);
    let at = add_named(buf, at, b" conditions ", layout.conditions);
    let at = add_named(buf, at, b" semaphores ", layout.semaphores);
    add(buf, at, b"\n")
}

// The first line of a text of the version.
fn first_line(version: Version) -> &'static [u8]
    ensures text { result.now ≡ first_line version }
    ensures short { length result.now ≤ 16 }
{
    match version {
        Version::One => b"firefly-trace 1\n",
        Version::Two => b"firefly-trace 2\n",
    }
}

// Adds the first line and the layout line.
pub fn add_head(buf: &mut [u8], at: usize, layout: &Layout) -> usize
    requires { at + 400 ≤ length buf.old }
    ensures text { take result buf.new ≡ take at buf.old ++ head_text layout.now }
    ensures near { result ≤ at + 400 }
{
    let at = add(buf, at, first_line(layout.version));
    add_layout(buf, at, layout)
}

// Adds the end line.
pub fn add_end(buf: &mut [u8], at: usize, count: u64) -> usize
    requires { at + 400 ≤ length buf.old }
    ensures text { take result buf.new ≡ take at buf.old ++ end_line count }
    ensures near { result ≤ at + 400 }
{
    let at = add(buf, at, b"end ");
    let at = add_number(buf, at, count);
    add(buf, at, b"\n")
}

// Adds the line of a mutex's value.
pub fn add_value(buf: &mut [u8], at: usize, m: MutexId, value: u64) -> usize
    requires { at + 400 ≤ length buf.old }
    ensures text { take result buf.new ≡ take at buf.old ++ value_line (record { mutex = m.0; value = value }) }
    ensures near { result ≤ at + 400 }
{
    let at = add_named(buf, at, b"value m", m.0);
    let at = add(buf, at, b" ");
    let at = add_number(buf, at, value);
    add(buf, at, b"\n")
}
