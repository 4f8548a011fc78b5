//! Lines of jobs from sources that fail.
use crate::run_jobs_command;
use command_endings::Status;
use firefly_outside::{MemSink, MemSource};
use std::alloc::{AllocError, Global};
use std::sync::Wait;
use std::test::Fail;
use std::thread::Threads;

// Whether two workers end in this way, on a text of which this many bytes come before the source
// fails.
fn answers<R: Threads + Wait + Sync>(
    rt: &R,
    alloc: Global,
    text: &[u8],
    given: usize,
    status: Status,
    lines: &[u8],
) -> Result<bool, AllocError> {
    let mut input = MemSource::new(text.to_vec(alloc)?);
    input.fail_after(given);
    let mut out = MemSink::with_room(alloc, 100)?;
    let mut notes = MemSink::with_room(alloc, 100)?;
    let found = run_jobs_command(rt, alloc, 2, &mut input, &mut out, &mut notes);
    Ok(found == status && out.bytes() == lines)
}

#[test]
fn a_failed_read_is_reported(rt: HostRuntime) -> Result<(), Fail> {
    let text = b"sum 3\nsum 0\nsum 1000000\n".as_slice();
    let alloc = rt.alloc();
    let right = answers(&rt, alloc, text, 24, Status::ReadFault, b"")?
        && answers(&rt, alloc, text, 7, Status::ReadFault, b"")?
        && answers(&rt, alloc, text, 0, Status::ReadFault, b"")?
        && answers(
            &rt,
            alloc,
            text,
            25,
            Status::Done,
            b"0 6\n1 0\n2 500000500000\n",
        )?;
    assert!(rt; right);
    Ok(())
}

#[test]
fn a_bad_byte_comes_before_a_failed_read(rt: HostRuntime) -> Result<(), Fail> {
    let text = b"sum 3\nsum 1000001\nstop\n".as_slice();
    let alloc = rt.alloc();
    let right = answers(&rt, alloc, text, 17, Status::BadText, b"")?
        && answers(&rt, alloc, text, 16, Status::ReadFault, b"")?;
    assert!(rt; right);
    Ok(())
}
