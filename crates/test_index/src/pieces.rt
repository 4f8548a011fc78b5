//! Pieces of small files.
use firefly_outside::FileBytes;
use std::alloc::Global;
use std::test::Fail;
use word_index::{Piece, merge, piece_of};

// The piece of a file with these bytes.
fn piece(alloc: Global, path: &str, bytes: &[u8]) -> Result<Piece, Fail> {
    let file = FileBytes {
        bytes: bytes.to_vec(alloc)?,
        long: false,
    };
    Ok(piece_of(alloc, path, &file)?)
}

// Merges the two pieces into one. This is a function of its own so that the condition of the merge
// is proved with nothing else alive, which takes far less time.
fn merge_of(one: Piece, other: Piece) -> Result<Piece, Fail> {
    if one.meets(&other) {
        drop(one);
        drop(other);
        return Err(Fail::from("a path is in both"));
    }
    match merge(one, other) {
        Ok(both) => Ok(both),
        Err((one, other)) => {
            drop(one);
            drop(other);
            Err(Fail::from("no memory"))
        }
    }
}

fn meets(one: &Piece, other: &Piece) -> bool {
    one.meets(other)
}

fn covers(piece: &Piece, path: &str) -> bool {
    piece.covers(path)
}

// How many files, words and entries the piece has, and how often its words occur.
fn counts(piece: &Piece) -> (u64, u64, u64, u128) {
    (
        piece.files(),
        piece.words(),
        piece.entries(),
        piece.occurrences(),
    )
}

#[test]
fn a_merge_counts_both_files(rt: HostRuntime) -> Result<(), Fail> {
    let readme = piece(rt.alloc(), "README", b"Firefly index\n")?;
    let run = match piece(
        rt.alloc(),
        "src/run.rs",
        b"fn run(n) {}\r\n// run twice\r\nrun\r\n",
    ) {
        Ok(run) => run,
        Err(fault) => {
            drop(readme);
            return Err(fault);
        }
    };
    let index = merge_of(readme, run)?;
    let counts = counts(&index);
    let (file, dir) = (covers(&index, "src/run.rs"), covers(&index, "src"));
    drop(index);
    assert_eq!(rt; counts, (2, 6, 6, 8));
    assert!(rt; file);
    assert!(rt; !dir);
    Ok(())
}

#[test]
fn a_piece_meets_itself_and_no_empty_one(rt: HostRuntime) -> Result<(), Fail> {
    let piece = piece(rt.alloc(), "a", b"")?;
    let empty = Piece::empty(rt.alloc());
    let (itself, none) = (meets(&piece, &piece), meets(&piece, &empty));
    drop(empty);
    drop(piece);
    assert!(rt; itself);
    assert!(rt; !none);
    Ok(())
}
