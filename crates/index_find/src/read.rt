//! Queries, read.
ghost use Rattle.std.specs.Prelude.{◌≡◌, map, MatchResult};
ghost use Rattle.std.specs.String.{string_bytes};
ghost use Rattle.index_find.specs.Answers.{IsAnswer};

use crate::query::{Query, Step};
use crate::tokens::{Pending, end_part, take};
use std::alloc::{AllocError, Global};
use thiserror::Error;

/// Why there is no query.
#[derive(Clone, Copy, Debug, PartialEq, Eq, Error)]
pub enum QueryFault {
    /// Memory ran out.
    #[error("out of memory")]
    Memory,
    /// The words are no query.
    #[error("the words are no query")]
    NotAQuery,
}

impl From<AllocError> for QueryFault {
    ghost use Rattle.std.specs.Prelude.{◌≡◌};
    ghost use Rattle.index_find.specs.declared.read.QueryFault.TheVariants.{Memory};

    ghost from_gives = { λ _ e. e ≡ Memory };

    fn from(_: AllocError) -> QueryFault {
        QueryFault::Memory
    }
}

/// How many words a query has at most.
const MOST_TOKENS: usize = 64;

/// Reads a query, of which each word is a token.
///
/// A query is parts with `|` between them, a part is terms with `&` between them, and a term is a word, `!` and a term, or a query between
/// `(` and `)`. A word has 1 to 64 ASCII letters, digits and `_`, and stands for its lower case. At most 64 tokens are a query.
pub fn read_query(alloc: Global, words: &[String]) -> Result<Query, QueryFault>
    ensures { IsAnswer (map string_bytes words.now) result }
{
    if words.len() > MOST_TOKENS {
        return Err(QueryFault::NotAQuery);
    }
    let mut pending: Vec<Pending> = Vec::new(alloc);
    let mut steps: Vec<Step> = Vec::new(alloc);
    let mut following = false;
    for word in words {
        following = take(alloc, following, &mut pending, &mut steps, word.as_str())?;
    }
    if !following {
        return Err(QueryFault::NotAQuery);
    }
    end_part(&mut pending, &mut steps)?;
    if !pending.is_empty() {
        return Err(QueryFault::NotAQuery);
    }
    Ok(Query::of(steps))
}
