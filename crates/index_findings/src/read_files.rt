//! Files that were read, on the way to their pieces.
ghost use Rattle.std.specs.Prelude.{◌≡◌, ◌+◌, ◌-◌, ◌^◌, ◌++◌, ◌∷◌, ◌↔◌, ◌⊎◌, [], List, min, map, ◌≢◌, AllPairs, vec_len, All, IfOk, OnOk, OnErr, IsTrue, Option};
ghost use Rattle.firefly_outside.specs.Trees.{Path, Contents, child};
ghost use Rattle.word_index.specs.Batch.{HoldsFiles};
ghost use Rattle.word_index.specs.Index.{File};
ghost use Rattle.index_findings.specs.Pieces.{IsCovered, IsFilesPiece};
ghost use Rattle.walker.specs.Pile.{AreApart};
ghost use Rattle.index_findings.specs.ReadFiles.{AreHeldOnce, AreRead, HoldsRead, IsDue, IsHeldAt, IsRead, IsReadAt};

use firefly_outside::{FileBytes, Text};
use std::alloc::{AllocError, Global};
use std::mem;
use walker::below;
use word_index::{Batch, Piece};

/// How many bytes of files are gathered before their pieces are made.
const MOST_BYTES: usize = 1_048_576;

/// How many files are.
const MOST_FILES: usize = 8192;

/// A file that was read, with its whole path.
#[derive(Drop)]
pub struct ReadFile {
    pub path: Text,
    pub file: FileBytes,
}

/// Files that were read, and how many bytes they have together.
#[derive(Drop)]
pub struct ReadFiles {
    pub files: Vec<ReadFile>,
    pub bytes: usize,
}

impl ReadFiles {
    /// No files.
    pub fn new(alloc: Global) -> ReadFiles
        ensures files { result.files.items ≡ [] }
        ensures bytes { result.bytes ≡ 0 }
    {
        ReadFiles {
            files: Vec::new(alloc),
            bytes: 0,
        }
    }

    /// Takes one file more.
    pub fn add(&mut self, path: Text, file: FileBytes) -> Result<(), AllocError>
        ensures added { OnOk result (self.new.files.items ≡ self.old.files.items ++ (record { path = path; file = file }) ∷ []) }
        ensures bytes { OnOk result (self.new.bytes ≡ min (self.old.bytes + vec_len file.bytes) (2 ^ 64 - 1)) }
        ensures refused { OnErr result ((self.new.files.items ≡ self.old.files.items) × (self.new.bytes ≡ self.old.bytes)) }
    {
        let bytes = self.bytes.saturating_add(file.bytes.len());
        self.files.push(ReadFile { path, file })?;
        self.bytes = bytes;
        Ok(())
    }

    /// Gives the files away; none are left.
    pub fn take_all(&mut self, alloc: Global) -> Vec<ReadFile>
        ensures files { result.items ≡ self.old.files.items }
        ensures empty { self.new.files.items ≡ [] }
        ensures bytes { self.new.bytes ≡ 0 }
    {
        self.bytes = 0;
        mem::replace(&mut self.files, Vec::new(alloc))
    }

    /// Whether pieces are to be made of the files: there are some, and enough of them, or no more are to come.
    pub fn is_due(&self, last: bool) -> bool
        ensures { IsTrue result ↔ IsDue self.now last }
    {
        !self.files.is_empty()
            && (last || self.files.len() >= MOST_FILES || self.bytes >= MOST_BYTES)
    }
}

// Appends the piece of a batch.
fn put_batch(pieces: &mut Vec<Piece>, batch: Batch) -> Result<(), AllocError>
    ensures pieces { OnOk result ((o : Option Contents) (root : Path) → HoldsRead o root batch → All (IsFilesPiece o root) pieces.old.items
        → All (IsFilesPiece o root) pieces.new.items) }
    ensures covers { OnOk result ((files : List File) → HoldsFiles files batch → (path : Path)
        → IsCovered pieces.new.items path ↔ IsHeldAt pieces.old.items batch path) }
    ensures apart { OnOk result ((files : List File) → HoldsFiles files batch → AreHeldOnce pieces.old.items batch
        → AreApart pieces.new.items) }
{
    let piece = batch.into_piece()?;
    pieces.push(piece)?;
    Ok(())
}

// Puts a file into the batch, or where that takes no more, the batch's piece to the others and the file into a new one. One that doesn't
// lie below the root is dropped.
fn add_file(
    alloc: Global,
    root: &str,
    pieces: &mut Vec<Piece>,
    batch: Batch,
    read: &ReadFile,
) -> Result<Batch, AllocError>
    ensures pieces { OnOk result ((o : Option Contents) → HoldsRead o root.now batch → All (IsFilesPiece o root.now) pieces.old.items
        → All (IsFilesPiece o root.now) pieces.new.items) }
    ensures batch { IfOk result (λ b. (o : Option Contents) → HoldsRead o root.now batch → IsRead o read.now.path read.now.file
        → HoldsRead o root.now b) }
    ensures covers { IfOk result (λ b. (files : List File) → HoldsFiles files batch → (path : Path)
        → IsHeldAt pieces.new.items b path ↔ (IsHeldAt pieces.old.items batch path ⊎ (read.now.path ≡ child root.now path))) }
    ensures apart { IfOk result (λ b. (files : List File) → HoldsFiles files batch → AreHeldOnce pieces.old.items batch
        → ((path : Path) → read.now.path ≡ child root.now path → ¬ IsHeldAt pieces.old.items batch path) → AreHeldOnce pieces.new.items b) }
{
    let Some(name) = below(root, read.path.as_str()) else {
        return Ok(batch);
    };
    if batch.takes(name, read.file.bytes.len()) {
        return batch.add(name, &read.file);
    }
    put_batch(pieces, batch)?;
    Batch::new(alloc).add(name, &read.file)
}

/// The pieces of these files, in the order of their paths: they cover the paths below the root of those that lie there, and none twice where
/// no two of the files have the same path.
pub fn pieces_of(
    alloc: Global,
    root: &str,
    mut loaded: Vec<ReadFile>,
) -> Result<Vec<Piece>, AllocError>
    ensures files { IfOk result (λ ps. (o : Option Contents) → AreRead o loaded.items → All (IsFilesPiece o root.now) ps.items) }
    ensures covers { IfOk result (λ ps. (path : Path) → IsCovered ps.items path ↔ IsReadAt root.now loaded.items path) }
    ensures apart { AllPairs (λ p q. p ≢ q) (map (λ r. r.path) loaded.items) → IfOk result (λ ps. AreApart ps.items) }
{
    loaded.sort_by(|a, b| a.path.cmp(&b.path))?;
    let mut pieces = Vec::new(alloc);
    let mut batch = Batch::new(alloc);
    for read in loaded {
        let added = add_file(alloc, root, &mut pieces, batch, &read);
        drop(read);
        batch = added?;
    }
    put_batch(&mut pieces, batch)?;
    Ok(pieces)
}
