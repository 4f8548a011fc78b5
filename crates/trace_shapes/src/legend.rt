//! The marks of events, and the legend that says what each means.
//!
//! A further mark is a row in each function here and in specs/Looks.antt.
ghost use Rattle.std.specs.Prelude.{◌≡◌, ◌+◌, ◌*◌, ◌<◌, ◌≤◌, ◌^◌, ◌∷◌, [], ◌++◌, length, take, codes};
ghost use Rattle.trace_board.specs.History.{entry_of};
ghost use Rattle.trace_shapes.specs.Shapes.{each_below};
ghost use Rattle.trace_shapes.specs.Looks.{look, look_of, has_number, letter_x, words_of};
ghost use Rattle.trace_shapes.specs.Shapes.{with_number};
ghost use Rattle.trace_shapes.specs.Legend.{name_of, entry_at, entry_x, entry_y, place_in_legend, letter_text, shape_text, words_text, mark_body, body_of, entry_text, is_shown, shown_before, entry_if, legend_text, legend_height};

use crate::geometry::{LEFT, LETTER_LEFT, LINE, MIDDLE};
use crate::tags::add_with_number;
use trace_board::history::Table;
use trace_board::marks::Mark;
use trace_core::add;

/// How a mark is called, its class, and how it is shown.
#[derive(Clone, Copy)]
pub struct Look {
    pub letter: u8,
    pub class: u8,
    pub shown: u8,
}

/// What a legend may explain: a mark, arrows, and the bars of semaphores, of mutexes, of threads that wait and of those that were let go on.
#[derive(Clone, Copy)]
pub enum Entry {
    OfMark(Mark),
    Arrows,
    Takings,
    Holds,
    Waits,
    LetGo,
}

/// The names of the entries that are no marks: the classes of what they show.
pub const ARROWS: u8 = b'a';

pub const TAKINGS: u8 = b'e';

pub const HOLDS: u8 = b'm';

pub const WAITS: u8 = b'h';

pub const LET_GO: u8 = b'd';

// All entries, in the order of the legend.
const ENTRIES: [Entry; 24] = [
    Entry::OfMark(Mark::Acquire),
    Entry::OfMark(Mark::Release),
    Entry::OfMark(Mark::Enqueue),
    Entry::OfMark(Mark::Resume),
    Entry::OfMark(Mark::Signal),
    Entry::OfMark(Mark::Broadcast),
    Entry::OfMark(Mark::P),
    Entry::OfMark(Mark::V),
    Entry::OfMark(Mark::Alert),
    Entry::OfMark(Mark::TestAlert),
    Entry::OfMark(Mark::AlertEnqueue),
    Entry::OfMark(Mark::AlertReturn),
    Entry::OfMark(Mark::AlertRaise),
    Entry::OfMark(Mark::AlertPReturn),
    Entry::OfMark(Mark::AlertPRaise),
    Entry::OfMark(Mark::Fork),
    Entry::OfMark(Mark::End),
    Entry::OfMark(Mark::Join),
    Entry::OfMark(Mark::Failed),
    Entry::Arrows,
    Entry::Holds,
    Entry::Takings,
    Entry::Waits,
    Entry::LetGo,
];

#[inline(always)]
fn looks(letter: u8, class: u8, shown: u8) -> Look
    ensures { result ≡ look letter class shown }
{
    Look {
        letter,
        class,
        shown,
    }
}

/// How it looks.
#[inline(always)]
pub fn look_of(mark: Mark) -> Look
    ensures { result ≡ look_of mark }
{
    match mark {
        Mark::Acquire => looks(b'A', b'o', b'A'),
        Mark::Release => looks(b'R', b'o', b'R'),
        Mark::Enqueue => looks(b'W', b'k', b'W'),
        Mark::Resume => looks(b'C', b'k', b'C'),
        Mark::Signal => looks(b'S', b'g', b'S'),
        Mark::Broadcast => looks(b'B', b'g', b'B'),
        Mark::P => looks(b'P', b'b', b'P'),
        Mark::V => looks(b'V', b'b', b'V'),
        Mark::Alert => looks(b'L', b'v', b'!'),
        Mark::TestAlert => looks(b'T', b'v', b'?'),
        Mark::AlertEnqueue => looks(b'w', b'k', b'w'),
        Mark::AlertReturn => looks(b'c', b'k', b'c'),
        Mark::AlertRaise => looks(b'x', b'v', b'x'),
        Mark::AlertPReturn => looks(b'p', b'b', b'p'),
        Mark::AlertPRaise => looks(b'y', b'v', b'y'),
        Mark::Fork => looks(b'f', b'j', b'F'),
        Mark::End => looks(b'E', b'j', b'E'),
        Mark::Join => looks(b'J', b'j', b'J'),
        Mark::Failed => looks(b'F', b'f', b'#'),
    }
}

/// Whether a number stands beside its letter.
#[inline(always)]
pub fn has_number(mark: Mark) -> bool
    ensures { result ≡ has_number mark }
{
    match mark {
        Mark::Acquire => false,
        Mark::Release => false,
        Mark::TestAlert => false,
        Mark::End => false,
        Mark::Failed => false,
        Mark::Enqueue => true,
        Mark::Resume => true,
        Mark::Signal => true,
        Mark::Broadcast => true,
        Mark::P => true,
        Mark::V => true,
        Mark::Alert => true,
        Mark::AlertEnqueue => true,
        Mark::AlertReturn => true,
        Mark::AlertRaise => true,
        Mark::AlertPReturn => true,
        Mark::AlertPRaise => true,
        Mark::Fork => true,
        Mark::Join => true,
    }
}

// Where its letter stands.
fn letter_x(mark: Mark) -> u64
    ensures { result ≡ letter_x mark }
{
    if has_number(mark) {
        LETTER_LEFT
    } else {
        MIDDLE
    }
}

// What it is the mark of.
fn words_of(mark: Mark) -> &'static [u8]
    ensures words { result.now ≡ words_of mark }
    ensures short { length result.now ≤ 30 }
{
    match mark {
        Mark::Acquire => b"acquire",
        Mark::Release => b"release",
        Mark::Enqueue => b"enqueue: a wait begins",
        Mark::Resume => b"resume: a wait ends",
        Mark::Signal => b"signal",
        Mark::Broadcast => b"broadcast",
        Mark::P => b"p",
        Mark::V => b"v",
        Mark::Alert => b"alert",
        Mark::TestAlert => b"test-alert",
        Mark::AlertEnqueue => b"alert-enqueue",
        Mark::AlertReturn => b"alert-resume returns",
        Mark::AlertRaise => b"alert-resume raises",
        Mark::AlertPReturn => b"alert-p returns",
        Mark::AlertPRaise => b"alert-p raises",
        Mark::Fork => b"fork",
        Mark::End => b"end",
        Mark::Join => b"join",
        Mark::Failed => b"event that fails",
    }
}

// How an entry is called.
fn name_of(entry: Entry) -> u8
    ensures { result ≡ name_of entry }
{
    match entry {
        Entry::OfMark(mark) => look_of(mark).letter,
        Entry::Arrows => ARROWS,
        Entry::Takings => TAKINGS,
        Entry::Holds => HOLDS,
        Entry::Waits => WAITS,
        Entry::LetGo => LET_GO,
    }
}

// Adds where an entry stands that so many others stand before.
#[tactic(auto, unfolding(crate::specs::Legend::place_in_legend))]
fn add_place_in_legend(buf: &mut [u8], at: usize, before: u64) -> usize
    requires few { before < 2 ^ 32 }
    requires room { at + 100 ≤ length buf.old }
    ensures text { take result buf.new ≡ take at buf.old ++ place_in_legend before }
    ensures near { result ≤ at + 100 }
{
    let x = LEFT + 200 * (before % 6);
    let y = 6 + LINE * (before / 6);
    let at = add_with_number(buf, at, b"<g transform='translate(", x);
    let at = add_with_number(buf, at, b" ", y);
    add(buf, at, b")'>")
}

// Adds a text and a byte.
fn add_with_byte(buf: &mut [u8], at: usize, text: &[u8], byte: u8) -> usize
    requires { at + length text.now + 1 ≤ length buf.old }
    ensures text { take result buf.new ≡ take at buf.old ++ (text.now ++ byte ∷ []) }
    ensures near { result ≤ at + length text.now + 1 }
{
    let at = add(buf, at, text);
    add(buf, at, &[byte])
}

// Adds where the letter of a mark stands, and the letter.
#[tactic(auto, unfolding(crate::specs::Legend::letter_text))]
fn add_letter(buf: &mut [u8], at: usize, mark: Mark) -> usize
    requires { at + 120 ≤ length buf.old }
    ensures text { take result buf.new ≡ take at buf.old ++ letter_text mark }
    ensures near { result ≤ at + 120 }
{
    let at = add_with_number(
        buf,
        at,
        b"' width='22' height='15' rx='3'/><text class='i' y='12' x='",
        letter_x(mark),
    );
    add_with_byte(buf, at, b"'>", look_of(mark).shown)
}

// Adds a mark as it is drawn, and one that is drawn so.
#[tactic(auto, unfolding(crate::specs::Legend::shape_text))]
fn add_shape(buf: &mut [u8], at: usize, mark: Mark) -> usize
    requires { at + 220 ≤ length buf.old }
    ensures text { take result buf.new ≡ take at buf.old ++ shape_text mark }
    ensures near { result ≤ at + 220 }
{
    let look = look_of(mark);
    let at = add_with_byte(buf, at, b"<defs><g id='", look.letter);
    let at = add_with_byte(buf, at, b"'><rect class='", look.class);
    let at = add_letter(buf, at, mark);
    let at = add_with_byte(buf, at, b"</text></g></defs><use href='#", look.letter);
    add(buf, at, b"'/>")
}

// Adds what the mark is the mark of.
#[tactic(auto, unfolding(crate::specs::Legend::words_text))]
fn add_words(buf: &mut [u8], at: usize, mark: Mark) -> usize
    requires { at + 80 ≤ length buf.old }
    ensures text { take result buf.new ≡ take at buf.old ++ words_text mark }
    ensures near { result ≤ at + 80 }
{
    let at = add(buf, at, b"<text x='26' y='12'>");
    let at = add(buf, at, words_of(mark));
    add(buf, at, b"</text></g>\n")
}

// Adds a mark and what it is the mark of.
fn add_mark_body(buf: &mut [u8], at: usize, mark: Mark) -> usize
    requires { at + 300 ≤ length buf.old }
    ensures text { take result buf.new ≡ take at buf.old ++ mark_body mark }
    ensures near { result ≤ at + 300 }
{
    let at = add_shape(buf, at, mark);
    add_words(buf, at, mark)
}

// Adds what an entry shows, and its words.
fn add_body(buf: &mut [u8], at: usize, entry: Entry) -> usize
    requires { at + 300 ≤ length buf.old }
    ensures text { take result buf.new ≡ take at buf.old ++ body_of entry }
    ensures near { result ≤ at + 300 }
{
    match entry {
        Entry::OfMark(mark) => add_mark_body(buf, at, mark),
        Entry::Arrows => add(
            buf,
            at,
            b"<path class='a' d='M0 8H32'/><text x='39' y='12'>lets another thread go on</text></g>\n",
        ),
        Entry::Takings => add(
            buf,
            at,
            b"<rect class='e' y='2' width='34' height='12' rx='2'/><text class='x' x='4' y='12'>s0</text><text x='39' y='12'>semaphore s0 is taken</text></g>\n",
        ),
        Entry::Holds => add(
            buf,
            at,
            b"<rect class='m0' y='2' width='34' height='12' rx='2'/><text class='x' x='4' y='12'>m0</text><text x='39' y='12'>holds mutex m0</text></g>\n",
        ),
        Entry::Waits => add(
            buf,
            at,
            b"<rect class='h' y='3' width='34' height='9'/><text class='hx' x='4' y='11'>c0</text><text x='39' y='12'>waits in condition c0</text></g>\n",
        ),
        Entry::LetGo => add(
            buf,
            at,
            b"<rect class='d' y='3' width='34' height='9'/><text x='39' y='12'>let go on, not yet resumed</text></g>\n",
        ),
    }
}

// Adds an entry that so many others stand before.
#[tactic(auto, unfolding(crate::specs::Legend::entry_text))]
fn add_entry(buf: &mut [u8], at: usize, before: u64, entry: Entry) -> usize
    requires few { before < 2 ^ 32 }
    requires room { at + 400 ≤ length buf.old }
    ensures text { take result buf.new ≡ take at buf.old ++ entry_text before entry }
    ensures near { result ≤ at + 400 }
{
    let at = add_place_in_legend(buf, at, before);
    add_body(buf, at, entry)
}

// The entry at this place of all.
fn entry_at(place: u64) -> Entry
    requires { place < 24 }
    ensures { result ≡ entry_at place }
{
    ENTRIES[place as usize]
}

// Whether the entry at this place of all is in the table.
fn is_shown(shown: &Table, place: u64) -> bool
    requires { place < 24 }
    ensures { result ≡ is_shown (entry_of shown.now) place }
{
    let name = name_of(entry_at(place));
    shown.at(u32::from(name)).is_some()
}

// Adds the entry at this place of all, if it is in the table.
fn add_entry_if(buf: &mut [u8], at: usize, shown: &Table, place: u64, before: u64) -> usize
    requires within { place < 24 }
    requires before { before ≡ shown_before (entry_of shown.now) place }
    requires few { before < 2 ^ 32 }
    requires room { at + 400 ≤ length buf.old }
    ensures text { take result buf.new ≡ take at buf.old ++ entry_if (entry_of shown.now) place }
    ensures near { result ≤ at + 400 }
{
    if is_shown(shown, place) {
        add_entry(buf, at, before, entry_at(place))
    } else {
        at
    }
}

// How many of the first entries are in the table.
fn count_shown(shown: &Table, places: u64) -> u64
    requires { places ≤ 24 }
    ensures count { result ≡ shown_before (entry_of shown.now) places }
    ensures few { result ≤ places }
{
    let mut count = 0;
    for place in 0..places {
        if is_shown(shown, place) {
            count += 1;
        }
    }
    count
}

/// Adds the legend of what is in the table, by the names of the entries.
#[tactic(auto, unfolding(crate::specs::Legend::legend_text))]
pub fn add_legend(buf: &mut [u8], at: usize, shown: &Table) -> usize
    requires { at + 9600 ≤ length buf.old }
    ensures text { take result buf.new ≡ take at buf.old ++ legend_text (entry_of shown.now) }
    ensures near { result ≤ at + 9600 }
{
    let mut last = at;
    for place in 0..24 {
        last = add_entry_if(buf, last, shown, place, count_shown(shown, place));
    }
    last
}

/// How high the legend is.
pub fn height_of_legend(shown: &Table) -> u64
    ensures height { result ≡ legend_height (entry_of shown.now) }
    ensures small { result < 2 ^ 10 }
{
    14 + LINE * ((count_shown(shown, 24) + 5) / 6)
}
