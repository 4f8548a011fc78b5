//! A query, answered on an index text while it is read.
ghost use Rattle.std.specs.Prelude.{◌≤◌, IfOk, IfErr, OnOk};
ghost use Rattle.std.specs.Io.KnownBytes.{IsAtEnd};
ghost use Rattle.exact_text.specs.Intake.{IsReported};
ghost use Rattle.index_text.specs.Faults.{most_bytes, HasReasonIn};
ghost use Rattle.index_find.specs.Postfix.{tree_of};
ghost use Rattle.index_find.specs.Sieved.{AreFound};

use crate::query::Query;
use crate::sieve::Sieve;
use firefly_outside::{Source, Text};
use index_text::{TextFault, offer_index};
use std::alloc::Global;

/// Gives the paths that the query means in the index that the source gives, which has at most so many bytes, in the order of their bytes, each once.
///
/// Of the index only the rows of the query's words are kept, and where it has a `!` each path once. Each fault is as `read_index` says.
pub fn find_within<I: Source>(
    alloc: Global,
    query: Query,
    input: &mut I,
    most: u64,
) -> Result<Vec<Text>, TextFault>
    requires { most ≤ most_bytes }
    ensures found { IfOk result (λ v. AreFound most (I.left input.old) (tree_of query) v.items) }
    ensures end { OnOk result (IsAtEnd (I.left input.new)) }
    ensures fault { IfErr result (HasReasonIn most (I.left input.old) (I.left input.new) (I.faults input.old) (I.faults input.new)) }
    ensures reported { IsReported (I.faults input.old) (I.faults input.new) result }
{
    let mut sieve = Sieve::new(alloc, query);
    match offer_index(alloc, input, most, &mut sieve) {
        Ok(()) => match sieve.answer() {
            Ok(paths) => Ok(paths),
            Err(_) => Err(TextFault::Memory),
        },
        Err(fault) => Err(fault),
    }
}
