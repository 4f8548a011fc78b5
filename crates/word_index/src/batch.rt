//! Files that were read, on the way to their piece.
ghost use Rattle.std.specs.Prelude.{◌≡◌, ◌∷◌, ◌++◌, [], List, map, IfOk, OnOk, IsTrue};
ghost use Rattle.std.specs.List.{Contains};
ghost use Rattle.word_index.specs.Index.{File, IsIndexOf};
ghost use Rattle.word_index.specs.Words.{lower};
ghost use Rattle.word_index.specs.Read.{read_file};
ghost use Rattle.word_index.specs.Batch.{HoldsFiles, IsAboveAll, IsShort};

use crate::Piece;
use crate::strings::Strings;
use crate::table::table_of;
use firefly_outside::FileBytes;
use std::alloc::{AllocError, Global};
use std::cmp::Ordering;
use std::marker::Model;

// The numbers of a piece have 32 bits. No file that a tree reads comes near to this.
const MOST_BYTES: usize = 4_294_967_294;

// A batch takes no further file that would make it longer.
const ROOM: usize = 1_048_576;

/// Files in the order of their paths, of which one piece is to be made: what is read of many small files costs little each.
#[derive(Drop)]
pub struct Batch {
    alloc: Global,
    paths: Strings,
    skipped: Strings,
    lows: Strings,
}

impl Model for Batch {
    ghost use Rattle.word_index.specs.Batch.{Held, IsBatch};

    ghost Value = { Held };

    ghost view = { λ b. record { paths = b.paths; skipped = b.skipped; lows = b.lows } };

    ghost invariant = { λ b. IsBatch b.paths b.skipped b.lows };
}

impl Batch {
    /// No files.
    pub fn new(alloc: Global) -> Batch
        ensures none { HoldsFiles [] result }
        ensures empty { result.paths ≡ [] }
    {
        Batch {
            alloc,
            paths: Strings::new(alloc),
            skipped: Strings::new(alloc),
            lows: Strings::new(alloc),
        }
    }

    /// Whether a file of this path and so many bytes may come next: its path is after all others, and there is room.
    pub fn takes(&self, path: &str, bytes: usize) -> bool
        ensures { IsTrue result → IsAboveAll path.now self.now.paths }
    {
        let many = self.paths.len();
        if many == 0 {
            return true;
        }
        if self.lows.bytes().saturating_add(bytes) > ROOM {
            return false;
        }
        match self.paths.get(many - 1).cmp(&path.as_bytes()) {
            Ordering::Less => true,
            _ => false,
        }
    }

    /// The batch with one more file.
    pub fn add(self, path: &str, file: &FileBytes) -> Result<Batch, AllocError>
        requires { IsAboveAll path.now self.paths }
        ensures { IfOk result (λ b. (fs : List File) → HoldsFiles fs self → HoldsFiles (fs ++ read_file path.now file.now ∷ []) b) }
    {
        if file.long {
            add_long(self, path.as_bytes())
        } else {
            add_short(self, path.as_bytes(), &file.bytes)
        }
    }

    /// The index of the files.
    pub fn into_piece(self) -> Result<Piece, AllocError>
        ensures { IfOk result (λ p. (fs : List File) → HoldsFiles fs self → IsIndexOf fs p) }
    {
        let Batch {
            alloc,
            paths,
            skipped,
            lows,
        } = self;
        let table = table_of(alloc, &lows);
        drop(lows);
        match table {
            Ok(table) => Ok(Piece {
                alloc,
                paths,
                skipped,
                words: table.words,
                places: table.places,
            }),
            Err(fault) => {
                drop(paths);
                drop(skipped);
                Err(fault)
            }
        }
    }
}

// The batch with one more file, which is too long.
fn add_long(batch: Batch, path: &[u8]) -> Result<Batch, AllocError>
    requires { IsAboveAll path.now batch.paths }
    ensures { IfOk result (λ b. (b.paths ≡ batch.paths ++ path.now ∷ []) × (b.skipped ≡ batch.skipped ++ path.now ∷ [])
        × (b.lows ≡ batch.lows ++ [] ∷ [])) }
{
    let Batch {
        alloc,
        mut paths,
        mut skipped,
        mut lows,
    } = batch;
    match put_long(&mut paths, &mut skipped, &mut lows, path) {
        Ok(()) => Ok(Batch {
            alloc,
            paths,
            skipped,
            lows,
        }),
        Err(fault) => {
            drop(paths);
            drop(skipped);
            drop(lows);
            Err(fault)
        }
    }
}

// Appends what is kept of a file that is too long.
fn put_long(
    paths: &mut Strings,
    skipped: &mut Strings,
    lows: &mut Strings,
    path: &[u8],
) -> Result<(), AllocError>
    ensures paths { OnOk result (paths.new ≡ paths.old ++ path.now ∷ []) }
    ensures skipped { OnOk result (skipped.new ≡ skipped.old ++ path.now ∷ []) }
    ensures lows { OnOk result (lows.new ≡ lows.old ++ [] ∷ []) }
{
    paths.push(path)?;
    skipped.push(path)?;
    lows.push(b"")?;
    Ok(())
}

// The batch with one more file of these bytes.
fn add_short(batch: Batch, path: &[u8], bytes: &[u8]) -> Result<Batch, AllocError>
    requires { IsAboveAll path.now batch.paths }
    ensures { IfOk result (λ b. (b.paths ≡ batch.paths ++ path.now ∷ []) × (b.skipped ≡ batch.skipped)
        × (b.lows ≡ batch.lows ++ map lower bytes.now ∷ [])) }
{
    let Batch {
        alloc,
        mut paths,
        skipped,
        mut lows,
    } = batch;
    match put_short(&mut paths, &mut lows, path, bytes) {
        Ok(()) => Ok(Batch {
            alloc,
            paths,
            skipped,
            lows,
        }),
        Err(fault) => {
            drop(paths);
            drop(skipped);
            drop(lows);
            Err(fault)
        }
    }
}

// Appends what is kept of a file of these bytes.
fn put_short(
    paths: &mut Strings,
    lows: &mut Strings,
    path: &[u8],
    bytes: &[u8],
) -> Result<(), AllocError>
    ensures short { OnOk result (IsShort bytes.now) }
    ensures paths { OnOk result (paths.new ≡ paths.old ++ path.now ∷ []) }
    ensures lows { OnOk result (lows.new ≡ lows.old ++ map lower bytes.now ∷ []) }
{
    if bytes.len() >= MOST_BYTES {
        return Err(AllocError);
    }
    paths.push(path)?;
    lows.push_lower(bytes)?;
    Ok(())
}
