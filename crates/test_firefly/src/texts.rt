//! The texts of public values.
use alert_wait::Outcome;
use bounded_buffer::{Over, PutEnd, TakeEnd};
use command_line::WordsFault;
use exact_text::TextFault;
use firefly_outside::{Failed, SinkFault, Text, TreeError};
use index_find::QueryFault;
use indexer::IndexAnswer;
use job_pool::PoolEnd;
use larch_actions::Broken;
use std::alloc::AllocError;
use std::fmt::Display;
use std::test::Fail;
use thread_crew::NotRun;
use walker::WalkAnswer;
use word_index::Piece;

// Whether each value prints as the text beside it.
fn print_so<T: Display>(rt: HostRuntime, rows: &[(T, &str)]) -> Result<bool, AllocError> {
    for (value, text) in rows {
        let printed = format!(in rt.alloc(); "{value}")?;
        if printed.as_str() != *text {
            return Ok(false);
        }
    }
    Ok(true)
}

#[test]
fn ends_of_buffers(rt: HostRuntime) -> Result<(), Fail> {
    let puts = [
        (PutEnd::Closed, "the buffer is shut"),
        (PutEnd::Alerted, "the thread was alerted"),
    ];
    let takes = [
        (TakeEnd::ClosedEmpty, "the buffer is shut and empty"),
        (TakeEnd::Alerted, "the thread was alerted"),
    ];
    assert!(rt; print_so(rt, &puts)?);
    assert!(rt; print_so(rt, &takes)?);
    assert!(rt; print_so(rt, &[(Over, "the buffer is shut and empty")])?);
    Ok(())
}

#[test]
fn outcomes_and_threads_not_run(rt: HostRuntime) -> Result<(), Fail> {
    let outcomes = [
        (Outcome::Returned, "the call returned"),
        (Outcome::Alerted, "the thread was alerted"),
    ];
    let back: NotRun<u64, (), ()> = NotRun {
        jobs: Vec::new(rt.alloc()),
        own: (),
        between: (),
    };
    assert!(rt; print_so(rt, &outcomes)?);
    assert!(rt; print_so(rt, &[(back, "out of memory, nothing has run")])?);
    Ok(())
}

#[test]
fn faults_of_sources_sinks_and_trees(rt: HostRuntime) -> Result<(), Fail> {
    let trees = [
        (TreeError::Memory, "out of memory"),
        (TreeError::Failed, "the path could not be read"),
    ];
    assert!(rt; print_so(rt, &[(Failed, "a read or a write failed")])?);
    assert!(rt; print_so(rt, &[(SinkFault, "output could not be written")])?);
    assert!(rt; print_so(rt, &trees)?);
    Ok(())
}

#[test]
fn broken_rules(rt: HostRuntime) -> Result<(), Fail> {
    let rules = [
        (Broken::Order, "the event comes out of its thread's order"),
        (Broken::Requires, "the event fails a REQUIRES clause"),
        (Broken::When, "the event fails a WHEN clause"),
        (Broken::Ensures, "the event fails an ENSURES clause"),
    ];
    assert!(rt; print_so(rt, &rules)?);
    Ok(())
}

#[test]
fn faults_of_queries_and_words(rt: HostRuntime) -> Result<(), Fail> {
    let queries = [
        (QueryFault::Memory, "out of memory"),
        (QueryFault::NotAQuery, "the words are no query"),
    ];
    let words = [
        (WordsFault::Usage, "the words are no command"),
        (WordsFault::Memory, "out of memory"),
    ];
    assert!(rt; print_so(rt, &queries)?);
    assert!(rt; print_so(rt, &words)?);
    Ok(())
}

#[test]
fn faults_of_texts_and_pools(rt: HostRuntime) -> Result<(), Fail> {
    let texts = [
        (TextFault::Memory, "out of memory"),
        (
            TextFault::BadLine(18446744073709551615),
            "bad line 18446744073709551615",
        ),
        (TextFault::TooLong, "input too long"),
        (TextFault::Read, "input could not be read"),
    ];
    let pools = [
        (PoolEnd::Done(Vec::new(rt.alloc())), "all jobs are done"),
        (PoolEnd::Stopped(7), "stopped by job 7"),
        (PoolEnd::Memory, "out of memory, no job has run"),
    ];
    assert!(rt; print_so(rt, &texts)?);
    assert!(rt; print_so(rt, &pools)?);
    Ok(())
}

#[test]
fn answers_of_walks(rt: HostRuntime) -> Result<(), Fail> {
    let answers = [
        (
            WalkAnswer::ReadFault(Text::of(rt.alloc(), "dir/a")?),
            "dir/a could not be listed or read",
        ),
        (WalkAnswer::Done(Piece::empty(rt.alloc())), "done"),
        (WalkAnswer::Stopped(5), "5 files, one more than are allowed"),
        (
            WalkAnswer::TooMany(9),
            "9 directories, one more than are allowed",
        ),
        (WalkAnswer::Memory, "out of memory"),
    ];
    assert!(rt; print_so(rt, &answers)?);
    Ok(())
}

#[test]
fn answers_of_index_runs(rt: HostRuntime) -> Result<(), Fail> {
    let answers = [
        (
            IndexAnswer::ReadFault(Text::of(rt.alloc(), "dir/a")?),
            "dir/a could not be listed or read",
        ),
        (
            IndexAnswer::Stopped(5),
            "5 files, one more than are allowed",
        ),
        (
            IndexAnswer::TooMany(9),
            "9 directories, one more than are allowed",
        ),
        (IndexAnswer::Memory, "out of memory"),
    ];
    assert!(rt; print_so(rt, &answers)?);
    Ok(())
}
