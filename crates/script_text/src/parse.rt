//! Reading the line that comes next after others.
ghost use Rattle.std.specs.Prelude.{◌≡◌, ◌<◌, ◌≤◌, ◌∷◌, [], ℕ, length, IfOk};
ghost use Rattle.exact_text.specs.Reading.{Gives};
ghost use Rattle.larch_actions.specs.Layout.{IsLawful};
ghost use Rattle.script_text.specs.Drafts.{IsDraft, IsAt, allowed, held_in, forked_in};
ghost use Rattle.script_text.specs.NextLine.{count_first, number_is, some_number, operand_at, operands_at, stop_of, any_below, can_stand, row_at, row_among, line_at};
ghost use Rattle.script_text.specs.Table.{first_of, listed, IsSmall, AreSmall};

use crate::draft::Draft;
use crate::line::{Line, Operation};
use crate::table::{Numbers, Operand, WORDS, Word, kinds, make, text};
use exact_text::{Stop, long_number, number, word};
use itoa::Buffer;
use larch_actions::ThreadId;

/// Which numbers may stand at a place of a line.
#[derive(Clone, Copy)]
pub enum Place {
    /// Those of the threads that may have a line.
    Thread,
    /// Those that may stand first after the word in a line of the thread.
    First { thread: u32, word: Word },
    /// Any below the count.
    Any,
}

// Whether the number may stand there.
fn may_stand(draft: &Draft, place: Place, number: u32) -> bool
    requires draft { IsDraft draft.now }
    requires at { IsAt draft.now.layout place number }
    ensures { result ≡ allowed draft.now place number }
{
    match place {
        Place::Thread => draft.lives(number),
        Place::First { thread, word } => draft.may_stand_first(thread, word, number),
        Place::Any => true,
    }
}

// Reads this number, and the byte that stops it.
fn this_number(bytes: &[u8], value: u32, stop: u8) -> Result<&[u8], Stop>
    ensures { Gives (λ rest. (value, rest.now)) result (number_is stop value bytes.now) }
{
    let mut buffer = Buffer::new();
    let rest = match word(bytes, buffer.format(value).as_bytes()) {
        Ok(rest) => rest,
        Err(stop) => return Err(stop),
    };
    word(rest, &[stop])
}

// Reads one number after another, up to one that stands there or may still come.
#[cold]
fn tried_number<'b>(
    bytes: &'b [u8],
    draft: &Draft,
    place: Place,
    bound: u32,
    stop: u8,
) -> Result<(u32, &'b [u8]), Stop>
    requires draft { IsDraft draft.now }
    requires at { (n : ℕ) → n < bound → IsAt draft.now.layout place n }
    ensures { Gives (λ x. (x.0, x.1.now)) result (some_number (allowed draft.now place) bound stop bytes.now) }
{
    for value in 0..bound {
        if may_stand(draft, place, value) {
            match this_number(bytes, value, stop) {
                Err(Stop::Dead) => {}
                Err(Stop::More) => return Err(Stop::More),
                Ok(rest) => return Ok((value, rest)),
            }
        }
    }
    Err(Stop::Dead)
}

// Reads a number below the bound that may stand there, and the byte that stops it.
fn some_number<'b>(
    bytes: &'b [u8],
    draft: &Draft,
    place: Place,
    bound: u32,
    stop: u8,
) -> Result<(u32, &'b [u8]), Stop>
    requires draft { IsDraft draft.now }
    requires at { (n : ℕ) → n < bound → IsAt draft.now.layout place n }
    requires few { bound ≤ 256 }
    requires stop { stop < 48 }
    ensures { Gives (λ x. (x.0, x.1.now)) result (some_number (allowed draft.now place) bound stop bytes.now) }
{
    // As a rule the number there is one that may stand there.
    if let Ok((value, rest)) = number(bytes, 0, bound, stop) {
        if may_stand(draft, place, value) {
            return Ok((value, rest));
        }
    }
    tried_number(bytes, draft, place, bound, stop)
}

// Reads what stands after a word or after another thing, and the byte that stops it.
fn operand<'b>(
    bytes: &'b [u8],
    draft: &Draft,
    what: Operand,
    place: Place,
    stop: u8,
) -> Result<(u64, &'b [u8]), Stop>
    requires draft { IsDraft draft.now }
    requires at { (n : ℕ) → n < count_first draft.now.layout (what ∷ []) → IsAt draft.now.layout place n }
    requires stop { stop < 48 }
    ensures read { Gives (λ x. (x.0, x.1.now)) result (operand_at draft.now.layout (allowed draft.now place) what stop bytes.now) }
    ensures small { IfOk result (λ x. IsSmall what x.0) }
{
    match what {
        Operand::Name(kind) => {
            let rest = match word(bytes, &[kind.letter()]) {
                Ok(rest) => rest,
                Err(stop) => return Err(stop),
            };
            let count = draft.layout.count(kind);
            match some_number(rest, draft, place, count, stop) {
                Ok((value, rest)) => Ok((u64::from(value), rest)),
                Err(stop) => Err(stop),
            }
        }
        Operand::Amount => match number(bytes, 0, 1_000_001, stop) {
            Ok((value, rest)) => Ok((u64::from(value), rest)),
            Err(stop) => Err(stop),
        },
        Operand::Count => long_number(bytes, 0, stop),
    }
}

// The byte in front of these.
fn stop_before(kinds: &[Operand]) -> u8
    ensures { result ≡ stop_of kinds.now }
{
    if kinds.is_empty() { b'\n' } else { b' ' }
}

// Reads what stands after a word, up to the end of the line.
fn operands<'b>(
    bytes: &'b [u8],
    draft: &Draft,
    kinds: &[Operand],
    place: Place,
) -> Result<(Numbers, &'b [u8]), Stop>
    requires draft { IsDraft draft.now }
    requires at { (n : ℕ) → n < count_first draft.now.layout kinds.now → IsAt draft.now.layout place n }
    requires few { length kinds.now ≤ 3 }
    ensures read { Gives (λ x. (first_of kinds.now x.0, x.1.now)) result (operands_at draft.now.layout (allowed draft.now place) kinds.now
        bytes.now) }
    ensures small { IfOk result (λ x. AreSmall kinds.now (listed x.0)) }
{
    let [kind, later @ ..] = kinds else {
        return Ok((
            Numbers {
                first: 0,
                second: 0,
                third: 0,
            },
            bytes,
        ));
    };
    let (first, rest) = match operand(bytes, draft, *kind, place, stop_before(later)) {
        Ok(read) => read,
        Err(stop) => return Err(stop),
    };
    match operands(rest, draft, later, Place::Any) {
        Ok((others, rest)) => Ok((
            Numbers {
                first,
                second: others.first,
                third: others.second,
            },
            rest,
        )),
        Err(stop) => Err(stop),
    }
}

// Whether some number below the bound may stand there.
fn is_some(draft: &Draft, place: Place, bound: u32) -> bool
    requires draft { IsDraft draft.now }
    requires at { (n : ℕ) → n < bound → IsAt draft.now.layout place n }
    ensures { result ≡ any_below (allowed draft.now place) bound }
{
    for value in 0..bound {
        if may_stand(draft, place, value) {
            return true;
        }
    }
    false
}

// Whether there is something of each kind that may stand after the word.
fn are_some(draft: &Draft, kinds: &[Operand], place: Place) -> bool
    requires draft { IsDraft draft.now }
    requires at { (n : ℕ) → n < count_first draft.now.layout kinds.now → IsAt draft.now.layout place n }
    ensures { result ≡ can_stand draft.now.layout (allowed draft.now place) kinds.now }
{
    let [kind, later @ ..] = kinds else {
        return true;
    };
    let here = match kind {
        Operand::Name(kind) => is_some(draft, place, draft.layout.count(*kind)),
        Operand::Amount => true,
        Operand::Count => true,
    };
    here && are_some(draft, later, Place::Any)
}

// Reads an operation with this word, for a thread that may have a line.
#[tactic(auto, using(crate::proofs::Rows::made_first))]
fn row<'b>(
    bytes: &'b [u8],
    draft: &Draft,
    thread: u32,
    first: Word,
) -> Result<(Operation, &'b [u8]), Stop>
    requires draft { IsDraft draft.now }
    requires thread { thread < draft.now.layout.threads }
    ensures { Gives (λ x. (x.0, x.1.now)) result (row_at draft.now.layout (held_in draft.now) (forked_in draft.now) thread first bytes.now) }
{
    let found = word(bytes, text(first));
    if let Err(Stop::Dead) = found {
        return Err(Stop::Dead);
    }
    let kinds = kinds(first);
    let place = Place::First {
        thread,
        word: first,
    };
    if !are_some(draft, kinds, place) {
        return Err(Stop::Dead);
    }
    let rest = match found {
        Ok(rest) => rest,
        Err(stop) => return Err(stop),
    };
    let rest = match word(rest, &[stop_before(kinds)]) {
        Ok(rest) => rest,
        Err(stop) => return Err(stop),
    };
    match operands(rest, draft, kinds, place) {
        Ok((numbers, rest)) => Ok((make(first, numbers), rest)),
        Err(stop) => Err(stop),
    }
}

// Reads an operation with one of these words, up to the end of its line.
fn operation<'b>(
    bytes: &'b [u8],
    draft: &Draft,
    thread: u32,
    words: &[Word],
) -> Result<(Operation, &'b [u8]), Stop>
    requires draft { IsDraft draft.now }
    requires thread { thread < draft.now.layout.threads }
    ensures { Gives (λ x. (x.0, x.1.now)) result (row_among words.now draft.now.layout (held_in draft.now) (forked_in draft.now) thread
        bytes.now) }
{
    for word in words {
        match row(bytes, draft, thread, *word) {
            Err(Stop::Dead) => {}
            Err(Stop::More) => return Err(Stop::More),
            Ok(read) => return Ok(read),
        }
    }
    Err(Stop::Dead)
}

/// Reads the line that comes next, and returns what follows it.
pub fn line<'b>(bytes: &'b [u8], draft: &Draft) -> Result<(Line, &'b [u8]), Stop>
    requires { IsDraft draft.now }
    ensures { Gives (λ x. (x.0, x.1.now)) result (line_at draft.now.layout (held_in draft.now) (forked_in draft.now) bytes.now) }
{
    let rest = match word(bytes, b"t") {
        Ok(rest) => rest,
        Err(stop) => return Err(stop),
    };
    let threads = draft.layout.threads;
    let (thread, rest) = match some_number(rest, draft, Place::Thread, threads, b' ') {
        Ok(read) => read,
        Err(stop) => return Err(stop),
    };
    match operation(rest, draft, thread, &WORDS) {
        Ok((operation, rest)) => {
            let thread = ThreadId(thread);
            Ok((Line { thread, operation }, rest))
        }
        Err(stop) => Err(stop),
    }
}
