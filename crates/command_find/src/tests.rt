//! Queries on an index text.
use crate::run_find;
use command_endings::Status;
use firefly_outside::{MemSink, MemSource};
use std::alloc::{AllocError, Global};
use std::test::Fail;

const SMALL: &[u8] =
    b"9 1\n  1 2 doc/logo.bin\nab 1\n  1 2 doc/logo.bin\nfirefly 1\n  1 1 README\nindex 2\n  1 1 README\n  2 1 doc/my\\nnotes.txt\nmain 1\n  1 1 src/main.rs\nrun 2\n  1 2 src/main.rs\n  3 1 src/run.rs\n";

// Whether the words, with a space between any two, are answered so.
fn answers(
    alloc: Global,
    words: &str,
    text: &[u8],
    status: Status,
    lines: &[u8],
) -> Result<bool, AllocError> {
    let mut tokens: Vec<String> = Vec::new(alloc);
    for word in words.split(' ') {
        tokens.push(String::from_str(alloc, word)?)?;
    }
    let mut input = MemSource::new(text.to_vec(alloc)?);
    let mut out = MemSink::with_room(alloc, 1000)?;
    let mut notes = MemSink::with_room(alloc, 1000)?;
    let found = run_find(alloc, tokens.as_slice(), &mut input, &mut out, &mut notes);
    Ok(found == status && out.bytes() == lines)
}

#[test]
fn queries_are_answered(rt: HostRuntime) -> Result<(), Fail> {
    let alloc = rt.alloc();
    assert!(rt; answers(alloc, "run & ! main", SMALL, Status::Done, b"src/run.rs\n")?);
    assert!(rt;
        answers(
            alloc,
            "firefly | AB",
            SMALL,
            Status::Done,
            b"README\ndoc/logo.bin\n"
        )?
    );
    assert!(rt;
        answers(
            alloc,
            "! index",
            SMALL,
            Status::Done,
            b"doc/logo.bin\nsrc/main.rs\nsrc/run.rs\n"
        )?
    );
    assert!(rt;
        answers(
            alloc,
            "! ( run | firefly ) & index",
            SMALL,
            Status::Done,
            b"doc/my\\nnotes.txt\n"
        )?
    );
    assert!(rt; answers(alloc, "nothing", SMALL, Status::Done, b"")?);
    Ok(())
}

// Whether a source that gives the text and fails once so many bytes were given ends the command so.
fn fails_after(
    alloc: Global,
    text: &[u8],
    given: usize,
    status: Status,
) -> Result<bool, AllocError> {
    let mut tokens: Vec<String> = Vec::new(alloc);
    tokens.push(String::from_str(alloc, "run")?)?;
    let mut input = MemSource::new(text.to_vec(alloc)?);
    input.fail_after(given);
    let mut out = MemSink::with_room(alloc, 1000)?;
    let mut notes = MemSink::with_room(alloc, 1000)?;
    let found = run_find(alloc, tokens.as_slice(), &mut input, &mut out, &mut notes);
    Ok(found == status && out.bytes().is_empty() && !notes.bytes().is_empty())
}

#[test]
fn a_failed_read_is_reported(rt: HostRuntime) -> Result<(), Fail> {
    let alloc = rt.alloc();
    assert!(rt; fails_after(alloc, SMALL, 0, Status::ReadFault)?);
    assert!(rt; fails_after(alloc, SMALL, 20, Status::ReadFault)?);
    assert!(rt; fails_after(alloc, SMALL, SMALL.len(), Status::ReadFault)?);
    Ok(())
}

#[test]
fn a_bad_byte_comes_before_a_failed_read(rt: HostRuntime) -> Result<(), Fail> {
    let alloc = rt.alloc();
    let text = b"run 1\n  1 x src/run.rs\n".as_slice();
    assert!(rt; fails_after(alloc, text, 11, Status::BadText)?);
    assert!(rt; fails_after(alloc, text, 10, Status::ReadFault)?);
    Ok(())
}

// A row of the word `run` with a file whose path has so many bytes.
fn one_file(alloc: Global, many: usize) -> Result<Vec<u8>, AllocError> {
    let mut text = b"run 1\n  1 1 ".as_slice().to_vec(alloc)?;
    for _ in 0..many {
        text.push(b'p')?;
    }
    text.push(b'\n')?;
    Ok(text)
}

#[test]
fn a_line_may_be_longer_than_what_comes_at_once(rt: HostRuntime) -> Result<(), Fail> {
    let alloc = rt.alloc();
    let mut tokens: Vec<String> = Vec::new(alloc);
    tokens.push(String::from_str(alloc, "run")?)?;
    let mut input = MemSource::new(one_file(alloc, 200_000)?);
    let mut out = MemSink::with_room(alloc, 300_000)?;
    let mut notes = MemSink::with_room(alloc, 1000)?;
    let found = run_find(alloc, tokens.as_slice(), &mut input, &mut out, &mut notes);
    assert!(rt; found == Status::Done && out.bytes().len() == 200_001);
    Ok(())
}

#[test]
fn no_query_is_read_for_nothing(rt: HostRuntime) -> Result<(), Fail> {
    let alloc = rt.alloc();
    assert!(rt; answers(alloc, "& run", SMALL, Status::Usage, b"")?);
    assert!(rt; answers(alloc, "", SMALL, Status::Usage, b"")?);
    assert!(rt; answers(alloc, "( run", SMALL, Status::Usage, b"")?);
    assert!(rt;
        answers(
            alloc,
            "run",
            b"1 2\n  1 2 src/main.rs\n9 1\n",
            Status::BadText,
            b""
        )?
    );
    Ok(())
}
