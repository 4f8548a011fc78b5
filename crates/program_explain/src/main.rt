//! The program: why a trace is refused, over standard input, output and error.
#![tactic(auto)]

mod command;

use command::explain_input;
use command_endings::{Status, number, say};
use firefly_outside::{ReaderSource, WriterSink};
use std::env;
use std::process::ExitCode;

// Whether there is a word after the program's name. Words that can't be taken are words.
fn has_words(rt: &HostRuntime) -> bool {
    match env::args(rt) {
        Ok(args) => args.skip(1).next().is_some(),
        Err(_) => true,
    }
}

fn main(rt: HostRuntime) -> ExitCode {
    let mut notes = WriterSink::new(rt.stderr());
    let mut input = ReaderSource::new(rt.stdin());
    let mut out = WriterSink::new(rt.stdout());
    let status = if has_words(&rt) {
        say(&mut notes, "usage: explain < TRACE\n");
        Status::Usage
    } else {
        explain_input(&mut input, &mut out, &mut notes)
    };
    ExitCode::from(number(&status))
}
