//! Sources and sinks that end, fill up or fail in mid-stream.
ghost use Rattle.std.specs.Prelude.{◌<◌, length};

use crate::same::same;
use crate::sources::source_of;
use firefly_outside::{
    Failed, MemSink, ReaderSource, Sink, SinkFault, Source, WriterSink, put_all,
};
use std::io::{Error, ErrorKind, Read, Write};
use std::test::Fail;

// Gives or takes one byte, and then fails.
#[derive(Drop)]
struct Flaky {
    calls: u8,
}

impl Read for Flaky {
    fn read(&mut self, buf: &mut [u8]) -> std::io::Result<usize> {
        self.calls = self.calls.saturating_add(1);
        if self.calls > 1 || buf.is_empty() {
            return Err(Error::from(ErrorKind::Other));
        }
        buf[0] = b'x';
        Ok(1)
    }
}

impl Write for Flaky {
    fn write(&mut self, buf: &[u8]) -> std::io::Result<usize> {
        self.calls = self.calls.saturating_add(1);
        if self.calls > 1 {
            return Ok(0);
        }
        Ok(buf.len().min(1))
    }

    fn flush(&mut self) -> std::io::Result<()> {
        Ok(())
    }
}

// Asks a source, and keeps nothing alive of its other promises in the tests. So do the sinks below.
fn ask<S: Source>(source: &mut S, buf: &mut [u8]) -> Result<usize, Failed>
    requires { 0 < length buf.old }
{
    source.next(buf)
}

fn put<S: Sink>(sink: &mut S, bytes: &[u8]) -> Result<(), SinkFault> {
    put_all(sink, bytes)
}

fn put_once<S: Sink>(sink: &mut S, piece: &[u8]) -> Result<usize, Failed>
    requires { 0 < length piece.now }
{
    sink.put(piece)
}

fn holds(sink: &MemSink, bytes: &[u8]) -> bool {
    sink.bytes() == bytes
}

#[test]
fn source_gives_its_bytes_and_ends(rt: HostRuntime) -> Result<(), Fail> {
    let mut source = source_of(rt.alloc(), b"abc", None)?;
    let mut buf = [0u8; 2];
    let first = ask(&mut source, &mut buf);
    let bytes = buf;
    let (second, third) = (ask(&mut source, &mut buf), ask(&mut source, &mut buf));
    drop(source);
    same(&rt, &[first, second, third], &[Ok(2), Ok(1), Ok(0)]);
    same(&rt, &bytes, b"ab");
    Ok(())
}

#[test]
fn source_fails_after_its_limit(rt: HostRuntime) -> Result<(), Fail> {
    let mut source = source_of(rt.alloc(), b"abc", Some(2))?;
    let mut buf = [0u8; 8];
    let answers = [
        ask(&mut source, &mut buf),
        ask(&mut source, &mut buf),
        ask(&mut source, &mut buf),
    ];
    drop(source);
    same(&rt, &answers, &[Ok(2), Err(Failed), Err(Failed)]);
    Ok(())
}

#[test]
fn full_sink_keeps_what_fits(rt: HostRuntime) -> Result<(), Fail> {
    let mut sink = MemSink::with_room(rt.alloc(), 5)?;
    let (first, second) = (put(&mut sink, b"abc"), put(&mut sink, b"def"));
    let is_full = holds(&sink, b"abcde");
    let third = put(&mut sink, b"");
    drop(sink);
    same(
        &rt,
        &[first, second, third],
        &[Ok(()), Err(SinkFault), Ok(())],
    );
    assert!(rt; is_full);
    Ok(())
}

#[test]
fn reader_that_fails_in_mid_stream(rt: HostRuntime) -> Result<(), Fail> {
    let mut source = ReaderSource::new(Flaky { calls: 0 });
    let mut buf = [0u8; 4];
    let answers = [ask(&mut source, &mut buf), ask(&mut source, &mut buf)];
    drop(source);
    same(&rt, &answers, &[Ok(1), Err(Failed)]);
    Ok(())
}

#[test]
fn writer_that_takes_nothing_fails(rt: HostRuntime) -> Result<(), Fail> {
    let mut sink = WriterSink::new(Flaky { calls: 0 });
    let (whole, piece) = (put(&mut sink, b"ab"), put_once(&mut sink, b"b"));
    drop(sink);
    same(&rt, &[whole], &[Err(SinkFault)]);
    same(&rt, &[piece], &[Err(Failed)]);
    Ok(())
}
