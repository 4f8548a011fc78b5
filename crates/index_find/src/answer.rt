//! Queries, answered.
ghost use Rattle.std.specs.Prelude.{IfOk};
ghost use Rattle.index_find.specs.Postfix.{tree_of};
ghost use Rattle.index_find.specs.Meaning.{AreMeant};

use crate::chosen::chosen_paths;
use crate::query::Query;
use crate::stack::marks_of_query;
use firefly_outside::Text;
use index_table::Index;
use std::alloc::{AllocError, Global};

/// Gives the paths of the index that the query means, in the order of their bytes, each once.
pub fn find(alloc: Global, index: &Index, query: &Query) -> Result<Vec<Text>, AllocError>
    ensures { IfOk result (λ v. AreMeant index.now.rows (tree_of query.now) v.items) }
{
    let many = index.path_count();
    let marks = marks_of_query(alloc, index, many, query)?;
    chosen_paths(alloc, index, &marks)
}
