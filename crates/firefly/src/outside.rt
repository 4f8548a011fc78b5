//! What the program gets from the system: the words that it was called with, and the system's
//! directories and files, once for each thread that may read them.
ghost use Rattle.std.specs.Prelude.{◌≡◌, IfOk, length};
ghost use Rattle.firefly.specs.Looks.{look_of, looks_of, Agree, NoneFailed};

use command_endings::Ending;
use firefly_outside::{DirTree, Tree};
use std::alloc::{AllocError, Global};
use std::env::{self, Env};
use std::io::ErrorKind;
use std::rt::Files;

/// The number of trees that a call needs: for 8 walkers, 8 parsers and the closing walk.
const TREES: usize = 17;

/// Returns as many trees of the system as a call needs. Their contents aren't known to contracts,
/// and none has failed yet.
pub fn system_trees<R: Files + AllocGlobal + Clone + Drop + Send>(
    rt: &R,
    alloc: Global,
) -> Result<Vec<Option<DirTree<R>>>, AllocError>
    ensures many { IfOk result (λ v. length v.items ≡ 17) }
    ensures agree { IfOk result (λ v. Agree (looks_of (look_of ⟦<DirTree<R> as Tree>⟧.tree ⟦<DirTree<R> as Tree>⟧.may_fail
        ⟦<DirTree<R> as Tree>⟧.calls ⟦<DirTree<R> as Tree>⟧.faults) v.items)) }
    ensures fresh { IfOk result (λ v. NoneFailed (looks_of
        (look_of ⟦<DirTree<R> as Tree>⟧.tree ⟦<DirTree<R> as Tree>⟧.may_fail ⟦<DirTree<R> as Tree>⟧.calls ⟦<DirTree<R> as Tree>⟧.faults)
        v.items)) }
{
    let mut trees = Vec::new(alloc);
    for made in 0..TREES {
        let Ok(files) = rt.clone() else {
            return Err(AllocError);
        };
        let Ok(()) = trees.push(Some(DirTree::new(files))) else {
            return Err(AllocError);
        };
    }
    Ok(trees)
}

/// Returns the words after the program's name, or how the program ends without them. Nothing is
/// promised about which words they are.
pub fn system_words<R: Env + AllocGlobal>(rt: &R) -> Result<Vec<String>, Ending> {
    match env::args(rt) {
        Ok(args) => match args.skip(1).collect(rt.alloc()) {
            Ok(words) => Ok(words),
            Err(_) => Err(Ending::Memory),
        },
        Err(error) => Err(match error.kind() {
            ErrorKind::OutOfMemory => Ending::Memory,
            // Words that can't be taken name no command.
            _ => Ending::Usage,
        }),
    }
}
