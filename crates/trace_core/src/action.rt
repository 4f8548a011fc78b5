//! Reading actions up to the end of their lines, by their rows. The usual lines are read another way (usual/action.rt).
ghost use Rattle.std.specs.Prelude.{◌≡◌, ◌<◌, true, Err};
ghost use Rattle.larch_actions.specs.Rows.{word_text};
ghost use Rattle.larch_actions.specs.Layout.{IsLawful};
ghost use Rattle.exact_text.specs.Reading.{Gives, word_at};
ghost use Rattle.trace_core.specs.Lines.{stop_of, gap_of, are_some, is_in, may_stand, ending_at, name_at, after_at, row_at, action_at};

use crate::names::names;
use exact_text::{Stop, flag, number, word};
use larch_actions::{
    Action, Ending, Endings, Kind, Kinds, Layout, Numbers, Row, Version, WORDS, Word,
};

// The numbers of the names after a word, the ending, and the bytes after it.
#[derive(Clone, Copy)]
struct Parts<'b> {
    numbers: Numbers,
    ending: Ending,
    rest: &'b [u8],
}

// The byte after the last name, or after a word with none.
fn stop(endings: Endings) -> u8
    ensures { result ≡ stop_of endings }
{
    match endings {
        Endings::Nothing => b'\n',
        _ => b' ',
    }
}

// The byte after a word.
fn gap(kinds: Kinds, endings: Endings) -> u8
    ensures { result ≡ gap_of kinds endings }
{
    match kinds {
        Kinds::Nothing => stop(endings),
        _ => b' ',
    }
}

// Whether there are things of each kind.
fn are_some(layout: &Layout, kinds: Kinds) -> bool
    ensures { result ≡ are_some layout.now kinds }
{
    match kinds {
        Kinds::Nothing => true,
        Kinds::One(kind) => layout.count(kind) > 0,
        Kinds::Two(kind, other) => layout.count(kind) > 0 && layout.count(other) > 0,
    }
}

// Whether what came with the one version is in the other.
fn is_in(since: Version, version: Version) -> bool
    ensures { result ≡ is_in since version }
{
    match since {
        Version::One => true,
        Version::Two => match version {
            Version::One => false,
            Version::Two => true,
        },
    }
}

// Whether the word is one of the version, and there are things of each kind that it names.
fn may_stand(layout: &Layout, word: Word) -> bool
    ensures { result ≡ may_stand layout.now word }
{
    is_in(word.since(), layout.version) && are_some(layout, word.kinds())
}

// Reads the threads that are left.
fn threads_left<'b>(bytes: &'b [u8], layout: &Layout) -> Result<(Ending, &'b [u8]), Stop>
    requires { IsLawful layout.now }
    ensures { Gives (λ x. (x.0, x.1.now)) result (ending_at layout.now Endings.Threads bytes.now) }
{
    let rest = match word(bytes, b"left") {
        Ok(rest) => rest,
        Err(stop) => return Err(stop),
    };
    match names(rest, layout.threads) {
        Ok((left, rest)) => Ok((Ending::Left(left), rest)),
        Err(stop) => Err(stop),
    }
}

// Reads what stands after the names.
fn ending<'b>(
    bytes: &'b [u8],
    layout: &Layout,
    endings: Endings,
) -> Result<(Ending, &'b [u8]), Stop>
    requires { IsLawful layout.now }
    ensures { Gives (λ x. (x.0, x.1.now)) result (ending_at layout.now endings bytes.now) }
{
    match endings {
        Endings::Nothing => Ok((Ending::Nothing, bytes)),
        Endings::Outcome => match flag(bytes, b"returns\n", b"raises\n") {
            Ok((true, rest)) => Ok((Ending::Returns, rest)),
            Ok((false, rest)) => Ok((Ending::Raises, rest)),
            Err(stop) => Err(stop),
        },
        Endings::Answer => match flag(bytes, b"yes\n", b"no\n") {
            Ok((true, rest)) => Ok((Ending::Yes, rest)),
            Ok((false, rest)) => Ok((Ending::No, rest)),
            Err(stop) => Err(stop),
        },
        Endings::Threads => threads_left(bytes, layout),
    }
}

// Reads a name up to the byte that stops it.
fn name<'b>(bytes: &'b [u8], layout: &Layout, kind: Kind, stop: u8) -> Result<(u32, &'b [u8]), Stop>
    requires { IsLawful layout.now }
    ensures { Gives (λ x. (x.0, x.1.now)) result (name_at layout.now kind stop bytes.now) }
{
    match word(bytes, &[kind.letter()]) {
        Ok(rest) => number(rest, 0, layout.count(kind), stop),
        Err(stop) => Err(stop),
    }
}

// Reads one name and the ending.
fn after_one<'b>(
    bytes: &'b [u8],
    layout: &Layout,
    kind: Kind,
    endings: Endings,
) -> Result<Parts<'b>, Stop>
    requires { IsLawful layout.now }
    ensures { Gives (λ x. ((x.numbers, x.ending), x.rest.now)) result (after_at layout.now (Kinds.One kind) endings bytes.now) }
{
    let (first, rest) = match name(bytes, layout, kind, stop(endings)) {
        Ok(read) => read,
        Err(stop) => return Err(stop),
    };
    let numbers = Numbers { first, second: 0 };
    match ending(rest, layout, endings) {
        Ok((ending, rest)) => Ok(Parts {
            numbers,
            ending,
            rest,
        }),
        Err(stop) => Err(stop),
    }
}

// Reads two names and the ending.
fn after_two<'b>(
    bytes: &'b [u8],
    layout: &Layout,
    kinds: (Kind, Kind),
    endings: Endings,
) -> Result<Parts<'b>, Stop>
    requires { IsLawful layout.now }
    ensures { Gives (λ x. ((x.numbers, x.ending), x.rest.now)) result
        (after_at layout.now (Kinds.Two kinds.0 kinds.1) endings bytes.now) }
{
    let (first, rest) = match name(bytes, layout, kinds.0, b' ') {
        Ok(read) => read,
        Err(stop) => return Err(stop),
    };
    match after_one(rest, layout, kinds.1, endings) {
        Ok(more) => Ok(Parts {
            numbers: Numbers {
                first,
                second: more.numbers.first,
            },
            ending: more.ending,
            rest: more.rest,
        }),
        Err(stop) => Err(stop),
    }
}

// Reads the names and the ending.
fn following<'b>(
    bytes: &'b [u8],
    layout: &Layout,
    kinds: Kinds,
    endings: Endings,
) -> Result<Parts<'b>, Stop>
    requires { IsLawful layout.now }
    ensures { Gives (λ x. ((x.numbers, x.ending), x.rest.now)) result (after_at layout.now kinds endings bytes.now) }
{
    match kinds {
        Kinds::Nothing => match ending(bytes, layout, endings) {
            Ok((ending, rest)) => Ok(Parts {
                numbers: Numbers {
                    first: 0,
                    second: 0,
                },
                ending,
                rest,
            }),
            Err(stop) => Err(stop),
        },
        Kinds::One(kind) => after_one(bytes, layout, kind, endings),
        Kinds::Two(kind, other) => after_two(bytes, layout, (kind, other), endings),
    }
}

// Whether the first byte shows that another word stands there.
#[inline(always)]
fn is_other(bytes: &[u8], word: Word) -> bool
    ensures { result ≡ true → word_at (word_text word) bytes.now ≡ Err Stop.Dead }
{
    match (bytes, word.text()) {
        ([found, ..], [first, ..]) => found != first,
        _ => false,
    }
}

// Reads an action with this word.
fn row<'b>(bytes: &'b [u8], layout: &Layout, first: Word) -> Result<(Action, &'b [u8]), Stop>
    requires { IsLawful layout.now }
    ensures { Gives (λ x. (x.0, x.1.now)) result (row_at layout.now first bytes.now) }
{
    if is_other(bytes, first) {
        return Err(Stop::Dead);
    }
    let kinds = first.kinds();
    let endings = first.endings();
    if !may_stand(layout, first) {
        return Err(Stop::Dead);
    }
    let rest = match word(bytes, first.text()) {
        Ok(rest) => rest,
        Err(stop) => return Err(stop),
    };
    let rest = match word(rest, &[gap(kinds, endings)]) {
        Ok(rest) => rest,
        Err(stop) => return Err(stop),
    };
    match following(rest, layout, kinds, endings) {
        Ok(
            Parts {
                numbers,
                ending,
                rest,
            },
        ) => {
            let row = Row {
                word: first,
                numbers,
                ending,
            };
            Ok((row.action(), rest))
        }
        Err(stop) => Err(stop),
    }
}

// Reads an action up to the end of its line.
pub fn action<'b>(bytes: &'b [u8], layout: &Layout) -> Result<(Action, &'b [u8]), Stop>
    requires { IsLawful layout.now }
    ensures { Gives (λ x. (x.0, x.1.now)) result (action_at layout.now bytes.now) }
{
    for word in &WORDS {
        match row(bytes, layout, *word) {
            Err(Stop::Dead) => {}
            Err(Stop::More) => return Err(Stop::More),
            Ok(read) => return Ok(read),
        }
    }
    Err(Stop::Dead)
}
