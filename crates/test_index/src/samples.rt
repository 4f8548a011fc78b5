//! The sample tree, compared with what another reading of its rule gives.
ghost use Rattle.std.specs.Prelude.{◌≤◌};

use firefly_outside::{Entry, MemTree, Tree, TreeError, sample_tree};
use std::alloc::Global;
use std::test::Fail;

// The path of an entry.
fn path_of(alloc: Global, dir: &str, entry: &Entry) -> Result<String, TreeError> {
    match format!(in alloc; "{dir}/{}", entry.name.as_str()) {
        Ok(path) => Ok(path),
        Err(_) => Err(TreeError::Memory),
    }
}

// Whether the file has these bytes.
fn has(alloc: Global, tree: &mut MemTree, path: &str, text: &str) -> Result<bool, TreeError> {
    let file = tree.read(alloc, path)?;
    Ok(file.bytes.as_slice() == text.as_bytes())
}

// How many bytes the files of a directory have together.
fn bytes_in(alloc: Global, tree: &mut MemTree, dir: &str) -> Result<usize, TreeError> {
    let mut bytes = 0usize;
    for entry in &tree.list(alloc, dir)? {
        let path = path_of(alloc, dir, entry)?;
        bytes = bytes.saturating_add(tree.read(alloc, path.as_str())?.bytes.len());
    }
    Ok(bytes)
}

// How many directories the root has, and how many bytes the files in them have together.
fn sizes(alloc: Global, tree: &mut MemTree) -> Result<(usize, usize), TreeError> {
    let dirs = tree.list(alloc, "sample")?;
    let mut bytes = 0usize;
    for dir in &dirs {
        let path = path_of(alloc, "sample", dir)?;
        bytes = bytes.saturating_add(bytes_in(alloc, tree, path.as_str())?);
    }
    Ok((dirs.len(), bytes))
}

#[test]
fn sample_files_are_at_their_paths(rt: HostRuntime) -> Result<(), Fail> {
    let alloc = rt.alloc();
    let mut tree = sample_tree(alloc, 0, 20_000)?;
    let first = has(
        alloc,
        &mut tree,
        "sample/d0/f0",
        "w0 w1 w4 w9 w16 w25 w36 w49\n",
    )?;
    let second = has(
        alloc,
        &mut tree,
        "sample/d0/f1",
        "w31 w32 w35 w40 w47 w56 w67 w80\nw48 w49 w52 w57 w64 w73 w84 w97\n",
    )?;
    let last = has(
        alloc,
        &mut tree,
        "sample/d199/f19999",
        "w211 w212 w215 w220 w227 w236 w247 w260\n",
    )?;
    let past = tree.read(alloc, "sample/d200/f20000").is_ok();
    drop(tree);
    assert!(&rt; first && second && last && !past);
    Ok(())
}

// Whether a sample tree has `dirs` directories below its root, and files of `bytes` bytes together.
fn has_size(alloc: Global, seed: u64, files: u32, dirs: usize, bytes: usize) -> Result<bool, Fail>
    requires some { 1 ≤ files }
    requires few { files ≤ 20000 }
{
    let mut tree = sample_tree(alloc, seed, files)?;
    let found = sizes(alloc, &mut tree);
    drop(tree);
    Ok(found? == (dirs, bytes))
}

#[test]
fn sample_trees_have_so_many_bytes(rt: HostRuntime) -> Result<(), Fail> {
    let alloc = rt.alloc();
    let right = has_size(alloc, 0, 1, 1, 28)?
        && has_size(alloc, 1, 1, 1, 61)?
        && has_size(alloc, u64::MAX, 1, 1, 280)?
        && has_size(alloc, 1000, 101, 2, 15_204)?
        && has_size(alloc, 0, 20_000, 200, 3_058_832)?
        && has_size(alloc, u64::MAX, 20_000, 200, 3_059_115)?;
    assert!(&rt; right);
    Ok(())
}
