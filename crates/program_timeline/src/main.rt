//! The program: the picture of a trace, or its events as JSON, over standard input, output and error.
#![tactic(auto)]

mod command;
mod words;

use command::{events, timeline};
use command_endings::{Ending, Status, ends, number, say};
use firefly_outside::{ReaderSource, WriterSink};
use std::alloc::AllocError;
use std::env;
use std::io::ErrorKind;
use std::process::ExitCode;
use words::{Request, read_request};

// The words after the program's name. Words that can't be taken are none of the command line's.
fn take_words(rt: &HostRuntime) -> Result<Vec<String>, AllocError> {
    let mut words = Vec::new(rt.alloc());
    match env::args(rt) {
        Ok(args) => {
            for word in args.skip(1) {
                words.push(word)?;
            }
        }
        Err(fault) if fault.kind() == ErrorKind::OutOfMemory => return Err(AllocError),
        Err(_) => words.push(String::new(rt.alloc()))?,
    }
    Ok(words)
}

fn main(rt: HostRuntime) -> ExitCode {
    let mut notes = WriterSink::new(rt.stderr());
    let Ok(words) = take_words(&rt) else {
        return ExitCode::from(number(&ends(&mut notes, Ending::Memory)));
    };
    let mut input = ReaderSource::new(rt.stdin());
    let mut out = WriterSink::new(rt.stdout());
    let status = match read_request(&words) {
        Some(Request::Picture(view)) => timeline(&view, &mut input, &mut out, &mut notes),
        Some(Request::Json) => events(&mut input, &mut out, &mut notes),
        None => {
            say(
                &mut notes,
                "usage: timeline [--json | [--order] [--from EVENT] [--to EVENT]] < TRACE > OUTPUT\n",
            );
            Status::Usage
        }
    };
    ExitCode::from(number(&status))
}
