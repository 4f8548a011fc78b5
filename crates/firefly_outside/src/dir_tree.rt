//! The directories and files of the system as a tree. These lines are the trusted edge.
ghost use Rattle.std.specs.Prelude.{◌≡◌, ◌≤◌, IfOk, None, length};
ghost use Rattle.firefly_outside.specs.Real.{dir_faults};
ghost use Rattle.firefly_outside.specs.Trees.{AreEntries, Counts, IsWithin};

use crate::names::{Names, add_name, entries_of};
use crate::tree::MOST_BYTES;
use crate::{Entry, FileBytes, Kind, Text, Tree, TreeError};
use std::alloc::Global;
use std::fs::{DirEntry, Metadata, OpenFile};
use std::io::{ErrorKind, Read};
use std::os::unix::fs::MetadataExt;
use std::rt::Files;
use std::{fs, io};

/// What the system has, with a count of its failures. It follows no link and passes over special files.
#[derive(Drop)]
pub struct DirTree<R: Files + AllocGlobal + Clone + Drop> {
    files: R,
    faults: u64,
}

impl<R: Files + AllocGlobal + Clone + Drop> DirTree<R> {
    /// The system's tree, which hasn't failed yet.
    pub fn new(files: R) -> DirTree<R>
        ensures { dir_faults result ≡ 0 }
    {
        DirTree { files, faults: 0 }
    }
}

// Counts a failure, and not that memory ran out.
fn note_fault<T>(faults: &mut u64, answer: Result<T, TreeError>) -> Result<T, TreeError>
    ensures same { result ≡ answer }
    ensures count { Counts faults.old faults.new result }
{
    if let Err(TreeError::Failed) = answer {
        *faults = faults.saturating_add(1);
    }
    answer
}

// Want of memory, or a failure.
fn error_of(error: io::Error) -> TreeError {
    match error.kind() {
        ErrorKind::OutOfMemory => TreeError::Memory,
        _ => TreeError::Failed,
    }
}

// What an entry is: nothing for a link or a special file.
fn kind_of<R: Files>(entry: &DirEntry<R>) -> Result<Option<Kind>, TreeError> {
    match entry.file_type() {
        Ok(kind) if kind.is_dir() => Ok(Some(Kind::Dir)),
        Ok(kind) if kind.is_file() => Ok(Some(Kind::File)),
        Ok(_) => Ok(None),
        Err(error) => Err(error_of(error)),
    }
}

// Adds an entry that is a directory or a file.
fn add_entry<R: Files>(
    alloc: Global,
    names: &mut Names,
    entry: &DirEntry<R>,
) -> Result<(), TreeError> {
    match kind_of(entry) {
        Ok(Some(kind)) => add_name(alloc, names, entry.file_name(), kind),
        Ok(None) => Ok(()),
        Err(error) => Err(error),
    }
}

// The path without slashes at its end, at which a link would be followed.
fn bare(path: &str) -> &str {
    let rest = path.trim_end_matches('/');
    if rest.is_empty() { path } else { rest }
}

// Lists a directory that is no link.
fn list_entries<R: Files + AllocGlobal + Clone + Drop>(
    files: &R,
    alloc: Global,
    dir: &str,
) -> Result<Vec<Entry>, TreeError>
    ensures { IfOk result (λ v. AreEntries v.items) }
{
    let looked = match fs::symlink_metadata(files, bare(dir)) {
        Ok(metadata) if metadata.is_dir() => metadata,
        Ok(_) => return Err(TreeError::Failed),
        Err(error) => return Err(error_of(error)),
    };
    let entries = match fs::read_dir(files, dir) {
        Ok(entries) => entries,
        Err(error) => return Err(error_of(error)),
    };
    let mut names = Names::new(alloc);
    let mut seen = 0u32;
    for entry in entries {
        if seen == u32::MAX {
            return Err(TreeError::Failed);
        }
        seen += 1;
        let entry = match entry {
            Ok(entry) => entry,
            Err(error) => return Err(error_of(error)),
        };
        match add_entry(alloc, &mut names, &entry) {
            Ok(()) => {}
            Err(error) => return Err(error),
        }
    }
    // A directory that is removed meanwhile seems to end there, so it has to be in its place still.
    match fs::symlink_metadata(files, bare(dir)) {
        Ok(listed) if is_same_dir(&looked, &listed) => entries_of(alloc, names),
        Ok(_) => Err(TreeError::Failed),
        Err(error) => Err(error_of(error)),
    }
}

// Whether both are of one directory.
fn is_same_dir(looked: &Metadata, listed: &Metadata) -> bool {
    listed.is_dir() && looked.dev() == listed.dev() && looked.ino() == listed.ino()
}

// Whether both are of one file.
fn is_same(looked: &Metadata, opened: &Metadata) -> bool {
    opened.is_file() && looked.dev() == opened.dev() && looked.ino() == opened.ino()
}

// Reads a file that is no link, at most as far as shows that it is too long.
fn read_bytes<R: Files + AllocGlobal>(
    files: &R,
    alloc: Global,
    path: &str,
) -> Result<FileBytes, TreeError>
    ensures { IfOk result IsWithin }
{
    let looked = match fs::symlink_metadata(files, path) {
        Ok(metadata) if metadata.is_file() => metadata,
        Ok(_) => return Err(TreeError::Failed),
        Err(error) => return Err(error_of(error)),
    };
    let file = match fs::open(files, path) {
        Ok(file) => file,
        Err(error) => return Err(error_of(error)),
    };
    // Between the look and the opening the file may have been exchanged for a link.
    match file.metadata() {
        Ok(opened) if is_same(&looked, &opened) => {}
        Ok(_) => return Err(TreeError::Failed),
        Err(error) => return Err(error_of(error)),
    }
    read_open(alloc, file, looked.len())
}

// Reads an open file that says to have so many bytes. Most files are read by one call.
fn read_open<F: Read + Drop>(alloc: Global, file: F, length: u64) -> Result<FileBytes, TreeError>
    ensures { IfOk result IsWithin }
{
    let mut file = file;
    let Ok(mut bytes) = vec![in alloc; 0u8; room_for(length)] else {
        return Err(TreeError::Memory);
    };
    let first = match file.read(&mut bytes) {
        Ok(first) => first,
        Err(error) if error.kind() == ErrorKind::Interrupted => 0,
        Err(error) => return Err(error_of(error)),
    };
    bytes.truncate(first);
    // It gave what it says to have, and no more where more was asked for, so it has ended.
    if first > 0 && first as u64 == length {
        return Ok(within(alloc, bytes));
    }
    let rest = (MOST_BYTES as u64 + 1).saturating_sub(first as u64);
    match file.take(rest).read_to_end(&mut bytes) {
        Ok(_) => Ok(within(alloc, bytes)),
        Err(error) => Err(error_of(error)),
    }
}

// How many bytes are read of a file that says to have so many: all, and one to see its end.
fn room_for(length: u64) -> usize {
    length.min(MOST_BYTES as u64) as usize + 1
}

// What shows of a file that begins with these bytes, and ends with them if they aren't too many.
fn within(alloc: Global, bytes: Vec<u8>) -> FileBytes
    ensures { IsWithin result }
{
    if bytes.len() > MOST_BYTES {
        FileBytes {
            bytes: Vec::new(alloc),
            long: true,
        }
    } else {
        FileBytes { bytes, long: false }
    }
}

impl<R: Files + AllocGlobal + Clone + Drop + Send> Tree for DirTree<R> {
    ghost use Rattle.std.specs.Prelude.{None, []};

    ghost tree = { λ _. None };

    ghost calls = { λ _. record { listed = []; files_read = []; failed = [] } };

    ghost may_fail = { λ _. [] };

    ghost faults = { λ t. t.faults };

    fn list(&mut self, alloc: Global, dir: &str) -> Result<Vec<Entry>, TreeError> {
        note_fault(&mut self.faults, list_entries(&self.files, alloc, dir))
    }

    fn read(&mut self, alloc: Global, path: &str) -> Result<FileBytes, TreeError> {
        note_fault(&mut self.faults, read_bytes(&self.files, alloc, path))
    }
}
