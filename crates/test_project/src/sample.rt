//! A small project and its index.
use crate::trees::{put_dir, put_file, tree_with};
use firefly_outside::MemTree;
use std::alloc::Global;
use std::test::Fail;

// The texts are in a function without a clause, which keeps their bytes out of the proofs.

fn files() -> [(&'static str, &'static [u8]); 5] {
    [
        ("proj/README", b"Firefly index\n"),
        ("proj/src/main.rs", b"fn main() {\n    run(1);\n}\n"),
        (
            "proj/src/run.rs",
            b"fn run(n) {}\r\n// run twice\r\nrun\r\n",
        ),
        ("proj/doc/my notes.txt", b"Index, INDEX\n\nindex_a\n"),
        (
            "proj/doc/logo.bin",
            &[0x00, 0xff, 0x0a, 0x41, 0x62, 0x80, 0x39],
        ),
    ]
}

/// Returns all paths of the project.
pub fn project_paths() -> [&'static str; 8] {
    [
        "proj",
        "proj/src",
        "proj/doc",
        "proj/README",
        "proj/src/main.rs",
        "proj/src/run.rs",
        "proj/doc/my notes.txt",
        "proj/doc/logo.bin",
    ]
}

/// Returns the index of the project.
pub fn project_index() -> &'static str {
    "1 1
  1 2 src/main.rs
9 1
  1 2 doc/logo.bin
ab 1
  1 2 doc/logo.bin
firefly 1
  1 1 README
fn 2
  1 1 src/main.rs
  1 1 src/run.rs
index 2
  1 1 README
  2 1 doc/my notes.txt
index_a 1
  1 3 doc/my notes.txt
main 1
  1 1 src/main.rs
n 1
  1 1 src/run.rs
run 2
  1 2 src/main.rs
  3 1 src/run.rs
twice 1
  1 2 src/run.rs
"
}

// Adds everything below the root. The tree is borrowed, so no early return drops it.
fn fill(alloc: Global, tree: &mut MemTree) -> Result<(), Fail> {
    put_dir(tree, "proj/src")?;
    put_dir(tree, "proj/doc")?;
    for (path, bytes) in &files() {
        put_file(alloc, tree, path, bytes)?;
    }
    Ok(())
}

/// Returns a project of three directories and five files.
pub fn project(alloc: Global) -> Result<MemTree, Fail> {
    let mut tree = tree_with(alloc, "proj")?;
    fill(alloc, &mut tree)?;
    Ok(tree)
}
