//! The program: the commands over the system's files, standard input, output and error.
#![tactic(auto)]

use firefly::{Ending, ends, firefly, number, system_trees, system_words};
use firefly_outside::{ReaderSource, WriterSink};
use std::process::ExitCode;

fn main(rt: HostRuntime) -> ExitCode {
    let alloc = rt.alloc();
    let mut notes = WriterSink::new(rt.stderr());
    let words = match system_words(&rt) {
        Ok(words) => words,
        Err(ending) => return ExitCode::from(number(&ends(&mut notes, ending))),
    };
    let Ok(mut trees) = system_trees(&rt, alloc) else {
        return ExitCode::from(number(&ends(&mut notes, Ending::Memory)));
    };
    let mut input = ReaderSource::new(rt.stdin());
    let mut out = WriterSink::new(rt.stdout());
    let status = firefly(
        &rt, alloc, &words, &mut trees, &mut input, &mut out, &mut notes,
    );
    ExitCode::from(number(&status))
}
