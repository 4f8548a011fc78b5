//! Small trees: walked whole, stopped, and with a fault.
use firefly_outside::{MemTree, Text};
use std::alloc::Global;
use std::test::Fail;
use test_project::{calls, index_of, put_dir, put_file, tree_with, walk};
use walker::WalkAnswer;
use word_index::Piece;

// Adds a directory and three files.
fn fill(alloc: Global, tree: &mut MemTree) -> Result<(), Fail> {
    put_dir(tree, "p/d")?;
    put_file(alloc, tree, "p/b", b"one two\n")?;
    put_file(alloc, tree, "p/d/a", b"two\n")?;
    put_file(alloc, tree, "p/d/c", b"")?;
    Ok(())
}

// Three files in two directories.
fn small_tree(alloc: Global) -> Result<MemTree, Fail> {
    let mut tree = tree_with(alloc, "p")?;
    fill(alloc, &mut tree)?;
    Ok(tree)
}

// How many files, words and entries the piece has.
fn counts(piece: &Piece) -> (u64, u64, u64) {
    (piece.files(), piece.words(), piece.entries())
}

// The number of files found, if the walk was stopped.
fn stopped_at(answer: &WalkAnswer) -> Option<u64> {
    match answer {
        WalkAnswer::Stopped(many) => Some(*many),
        _ => None,
    }
}

// The path that failed, if the answer has one.
fn failed_at(answer: WalkAnswer) -> Option<Text> {
    match answer {
        WalkAnswer::ReadFault(path) => Some(path),
        _ => None,
    }
}

// No tree and no piece is alive where values are compared, which makes the proofs far shorter.
#[test]
fn whole_tree_is_indexed(rt: HostRuntime) -> Result<(), Fail> {
    let mut tree = small_tree(rt.alloc())?;
    let piece = index_of(rt.alloc(), &mut tree, "p");
    let calls = calls(&tree);
    drop(tree);
    let piece = piece?;
    let counts = counts(&piece);
    drop(piece);
    assert_eq!(rt; counts, (3, 2, 3));
    assert_eq!(rt; calls, (2, 3));
    Ok(())
}

#[test]
fn walk_stops_at_one_file_too_many(rt: HostRuntime) -> Result<(), Fail> {
    let mut tree = small_tree(rt.alloc())?;
    let answer = walk(rt.alloc(), &mut tree, "p", Some(2));
    drop(tree);
    let answer = answer?;
    let stopped = stopped_at(&answer);
    drop(answer);
    assert_eq!(rt; stopped, Some(3));
    Ok(())
}

#[test]
fn fault_names_its_path(rt: HostRuntime) -> Result<(), Fail> {
    let mut tree = small_tree(rt.alloc())?;
    tree.fail_at("p/d/a")?;
    let answer = walk(rt.alloc(), &mut tree, "p", None);
    drop(tree);
    let Some(path) = failed_at(answer?) else {
        return Err(Fail::from("no fault"));
    };
    assert_eq!(rt; path.as_str(), "p/d/a");
    Ok(())
}
