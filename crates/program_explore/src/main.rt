//! The program: whether a script can get stuck, over standard input, output and error.
#![tactic(auto)]

use command_endings::{Ending, ends, number as number_of_status};
use command_explore::{explore_input, number};
use firefly_outside::{ReaderSource, WriterSink};
use std::alloc::AllocError;
use std::env;
use std::io::ErrorKind;
use std::process::ExitCode;

// The words after the program's name. Words that can't be taken ask for nothing.
fn take_words(rt: &HostRuntime) -> Result<Vec<String>, AllocError> {
    let mut words = Vec::new(rt.alloc());
    match env::args(rt) {
        Ok(args) => {
            for word in args.skip(1) {
                words.push(word)?;
            }
        }
        Err(fault) if fault.kind() == ErrorKind::OutOfMemory => return Err(AllocError),
        Err(_) => words.push(String::new(rt.alloc()))?,
    }
    Ok(words)
}

fn main(rt: HostRuntime) -> ExitCode {
    let mut notes = WriterSink::new(rt.stderr());
    let Ok(words) = take_words(&rt) else {
        return ExitCode::from(number_of_status(&ends(&mut notes, Ending::Memory)));
    };
    let mut input = ReaderSource::new(rt.stdin());
    let mut out = WriterSink::new(rt.stdout());
    let status = explore_input(rt.alloc(), &words, &mut input, &mut out, &mut notes);
    ExitCode::from(number(&status))
}
