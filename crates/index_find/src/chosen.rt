//! The paths of an index that are marked.
ghost use Rattle.std.specs.Prelude.{◌≡◌, length, IfOk};
ghost use Rattle.word_index.specs.Index.{IsRising};
ghost use Rattle.index_find.specs.Marks.{AreChosen};

use crate::marks::Selected;
use firefly_outside::Text;
use index_table::Index;
use std::alloc::{AllocError, Global};

/// The marked paths, in their order.
pub fn chosen_paths(alloc: Global, index: &Index, marks: &Selected) -> Result<Vec<Text>, AllocError>
    requires many { length marks.now ≡ length index.now.paths }
    requires rising { IsRising index.now.paths }
    ensures { IfOk result (λ v. AreChosen marks.now index.now.paths (length index.now.paths) v.items) }
{
    let mut texts: Vec<Text> = Vec::new(alloc);
    for place in 0..marks.len() {
        if marks.get(place) {
            texts.push(Text::of(alloc, index.path(place))?)?;
        }
    }
    Ok(texts)
}
