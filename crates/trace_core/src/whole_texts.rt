//! Whole texts, put in large pieces.
ghost use Rattle.std.specs.Prelude.{◌≡◌, ◌+◌, ◌^◌, ◌<◌, ◌≤◌, ◌++◌, [], length, take, OnErr, IfOk};
ghost use Rattle.std.specs.Io.KnownBytes.{Appends};
ghost use Rattle.firefly_outside.specs.Causes.{HasCause, AppendsPrefix};
ghost use Rattle.trace_core.specs.Text.{event_line, end_line, value_line, values_text};
ghost use Rattle.trace_core.specs.Whole.{event_lines, numbered, Flows};

use crate::line_texts::{add_end, add_event, add_value};
use firefly_outside::{Sink, SinkFault, put_all};
use larch_actions::{Event, MutexId};

// Sends what the buffer holds where it lacks room for another line, and says how much it holds then.
fn make_room<O: Sink>(buf: &[u8], at: usize, out: &mut O) -> Result<usize, SinkFault>
    requires within { at ≤ length buf.now }
    requires large { 2000 ≤ length buf.now }
    ensures ok { IfOk result (λ end. Flows (O.held out.old) (O.held out.new) (take at buf.now) (take end buf.now) []) }
    ensures room { IfOk result (λ end. end + 1430 ≤ length buf.now) }
    ensures err { OnErr result (AppendsPrefix (O.held out.old) (O.held out.new) (take at buf.now)) }
    ensures cause { HasCause (O.faults out.old) (O.faults out.new) result }
{
    if buf.len() - at >= 1430 {
        return Ok(at);
    }
    match put_all(out, &buf[..at]) {
        Ok(()) => Ok(0),
        Err(fault) => Err(fault),
    }
}

// Puts the lines of the events and the end line. A slice has fewer than 2^64 elements.
pub fn put_events<O: Sink>(
    buf: &mut [u8],
    at: usize,
    events: &[Event],
    out: &mut O,
) -> Result<usize, SinkFault>
    requires within { at ≤ length buf.old }
    requires large { 2000 ≤ length buf.old }
    ensures ok { IfOk result (λ end. Flows (O.held out.old) (O.held out.new) (take at buf.old) (take end buf.new)
        (event_lines 0 events.now ++ end_line (length events.now))) }
    ensures within { IfOk result (λ end. end ≤ length buf.old) }
    ensures err { OnErr result (AppendsPrefix (O.held out.old) (O.held out.new)
        (take at buf.old ++ (event_lines 0 events.now ++ end_line (length events.now)))) }
    ensures cause { HasCause (O.faults out.old) (O.faults out.new) result }
    ensures few { length events.now < 2 ^ 64 }
{
    let count = events.len() as u64;
    let mut last = at;
    for (i, e) in events.iter().enumerate() {
        match make_room(buf, last, out) {
            Ok(free) => last = add_event(buf, free, i as u64, e),
            Err(fault) => return Err(fault),
        }
    }
    match make_room(buf, last, out) {
        Ok(free) => Ok(add_end(buf, free, count)),
        Err(fault) => Err(fault),
    }
}

// Puts the lines of the values, the one at place k as that of mutex k.
pub fn put_values<O: Sink>(
    buf: &mut [u8],
    at: usize,
    values: &[u64],
    out: &mut O,
) -> Result<usize, SinkFault>
    requires within { at ≤ length buf.old }
    requires large { 2000 ≤ length buf.old }
    requires few { length values.now ≤ 64 }
    ensures ok { IfOk result (λ end. Flows (O.held out.old) (O.held out.new) (take at buf.old) (take end buf.new)
        (values_text (numbered 0 values.now))) }
    ensures within { IfOk result (λ end. end ≤ length buf.old) }
    ensures err { OnErr result (AppendsPrefix (O.held out.old) (O.held out.new) (take at buf.old ++ values_text (numbered 0 values.now))) }
    ensures cause { HasCause (O.faults out.old) (O.faults out.new) result }
{
    let mut last = at;
    for (k, value) in values.iter().enumerate() {
        match make_room(buf, last, out) {
            Ok(free) => last = add_value(buf, free, MutexId(k as u32), *value),
            Err(fault) => return Err(fault),
        }
    }
    Ok(last)
}
