//! The steps of a query, one by one.
ghost use Rattle.std.specs.Prelude.{◌≡◌, ◌+◌, ◌<◌, ◌≤◌, List, [], ◌∷◌, ◌++◌, length, IfOk, All, vec_len};
ghost use Rattle.index_table.specs.Rows.{ArePathsOf};
ghost use Rattle.index_find.specs.Tree.{Tree, Word};
ghost use Rattle.index_find.specs.Postfix.{stepped, tree_of};
ghost use Rattle.index_find.specs.Marks.{AreMarks, AreStacked, joined};

use crate::marks::Selected;
use crate::query::{Query, Step};
use index_table::Index;
use std::alloc::{AllocError, Global};

// Marks the files that have the word.
fn marks_of(alloc: Global, index: &Index, many: usize, word: &[u8]) -> Result<Selected, AllocError>
    requires { many ≡ length index.now.paths }
    ensures { IfOk result (λ m. AreMarks index.now (Word word.now) m) }
{
    let mut marks = Selected::none(alloc, many)?;
    for place in index.files_with(word) {
        marks.mark(*place as usize);
    }
    Ok(marks)
}

// Takes the last marks from the stack.
fn take_last(stack: &mut Vec<Selected>) -> Selected
    requires { 0 < vec_len stack.old }
    ensures items { stack.old.items ≡ stack.new.items ++ result ∷ [] }
    ensures len { vec_len stack.new + 1 ≡ vec_len stack.old }
{
    match stack.pop() {
        Some(last) => last,
        None => unreachable!(),
    }
}

// Takes the last marks that the step joins from the stack, and gives what it makes of them.
fn join(
    alloc: Global,
    index: &Index,
    many: usize,
    stack: &mut Vec<Selected>,
    step: &Step,
) -> Result<Selected, AllocError>
    requires many { many ≡ length index.now.paths }
    requires paths { ArePathsOf index.now.rows index.now.paths }
    requires enough { joined step.now ≤ vec_len stack.old }
    requires alike { All (λ m. length m ≡ length index.now.paths) stack.old.items }
    ensures marks { IfOk result (λ m. (ts : List Tree) → AreStacked index.now ts stack.old.items
        → AreStacked index.now (stepped step.now ts) (stack.new.items ++ m ∷ [])) }
    ensures len { IfOk result (λ _. vec_len stack.new + joined step.now ≡ vec_len stack.old) }
{
    match step {
        Step::Word(word) => marks_of(alloc, index, many, word.as_str().as_bytes()),
        Step::Not => {
            let mut marks = take_last(stack);
            marks.turn();
            Ok(marks)
        }
        Step::Both => {
            let second = take_last(stack);
            let mut marks = take_last(stack);
            marks.keep(&second);
            Ok(marks)
        }
        Step::Either => {
            let second = take_last(stack);
            let mut marks = take_last(stack);
            marks.add(&second);
            Ok(marks)
        }
    }
}

/// Marks the paths that the query means.
pub fn marks_of_query(
    alloc: Global,
    index: &Index,
    many: usize,
    query: &Query,
) -> Result<Selected, AllocError>
    requires many { many ≡ length index.now.paths }
    requires paths { ArePathsOf index.now.rows index.now.paths }
    ensures { IfOk result (λ m. AreMarks index.now (tree_of query.now) m) }
{
    let mut stack: Vec<Selected> = Vec::new(alloc);
    for step in query.steps() {
        let marks = join(alloc, index, many, &mut stack, step)?;
        stack.push(marks)?;
    }
    Ok(take_last(&mut stack))
}
