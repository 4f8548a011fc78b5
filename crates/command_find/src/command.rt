//! The command `find`.
ghost use Rattle.std.specs.Prelude.{◌≤◌, map};
ghost use Rattle.std.specs.String.{string_bytes};
ghost use Rattle.command_endings.specs.Changes.{change_of};
ghost use Rattle.index_find.specs.Postfix.{tree_of};
ghost use Rattle.index_text.specs.Faults.{most_bytes};
ghost use Rattle.command_endings.specs.Endings.{ReportsFault};
ghost use Rattle.command_find.specs.Find.{EndsBy, FindAnswers, Decided};

use crate::lines::print_paths;
use crate::words::read_limit;
use command_endings::{Ending, Status, ends, ends_unread};
use firefly_outside::{Sink, Source};
use index_find::{Query, QueryFault, find_within, read_query};
use std::alloc::Global;

// Answers the query on the index that the input gives, which has at most so many bytes.
fn answer<I: Source, O: Sink, N: Sink>(
    alloc: Global,
    query: Query,
    most: u64,
    input: &mut I,
    out: &mut O,
    notes: &mut N,
) -> Status
    requires { most ≤ most_bytes }
    ensures ends { EndsBy most (tree_of query) (change_of I.left I.faults input.old input.new) (change_of O.held O.faults out.old out.new)
        (change_of N.held N.faults notes.old notes.new) result }
    ensures reported { ReportsFault (change_of I.left I.faults input.old input.new) result }
{
    match find_within(alloc, query, input, most) {
        Ok(paths) => print_paths(paths.as_slice(), out, notes),
        Err(fault) => ends_unread(notes, fault),
    }
}

/// Prints the paths that the words' query means in the index that the input gives, which has at most 67,108,864 bytes, or as many as
/// follow `--limit` in front of the query. Where the words are no such thing, nothing is read.
pub fn run_find<I: Source, O: Sink, N: Sink>(
    alloc: Global,
    words: &[String],
    input: &mut I,
    out: &mut O,
    notes: &mut N,
) -> Status
    ensures answers { FindAnswers (map string_bytes words.now) (change_of I.left I.faults input.old input.new)
        (change_of O.held O.faults out.old out.new) (change_of N.held N.faults notes.old notes.new) result }
    ensures exact { Decided (map string_bytes words.now) (change_of I.left I.faults input.old input.new) result }
    ensures reported { ReportsFault (change_of I.left I.faults input.old input.new) result }
{
    let Some((most, tokens)) = read_limit(words) else {
        return ends(notes, Ending::Usage);
    };
    match read_query(alloc, tokens) {
        Ok(query) => answer(alloc, query, most, input, out, notes),
        Err(QueryFault::NotAQuery) => ends(notes, Ending::Usage),
        Err(QueryFault::Memory) => ends(notes, Ending::Memory),
    }
}
