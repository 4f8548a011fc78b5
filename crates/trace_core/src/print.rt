//! Prints the lines of a trace text.
ghost use Rattle.std.specs.Prelude.{◌++◌, OnOk, OnErr};
ghost use Rattle.std.specs.Io.KnownBytes.{Appends};
ghost use Rattle.firefly_outside.specs.Causes.{HasCause, AppendsPrefix};
ghost use Rattle.trace_core.specs.Text.{head_text, event_line, end_line, value_line};

use crate::line_texts::{add_end, add_event, add_head, add_value};
use firefly_outside::{Sink, SinkFault, put_all};
use larch_actions::{Event, Layout, MutexId};

/// Prints the first line and the layout line. After a fault the sink has got a proper prefix of them.
pub fn print_head<O: Sink>(layout: &Layout, out: &mut O) -> Result<(), SinkFault>
    ensures ok { OnOk result (Appends (O.held out.old) (O.held out.new) (head_text layout.now)) }
    ensures err { OnErr result (AppendsPrefix (O.held out.old) (O.held out.new) (head_text layout.now)) }
    ensures cause { HasCause (O.faults out.old) (O.faults out.new) result }
{
    let mut buf = [0; 400];
    let end = add_head(&mut buf, 0, layout);
    put_all(out, &buf[..end])
}

/// Prints the line of the event in this place. After a fault the sink has got a proper prefix of it.
pub fn print_event<O: Sink>(place: u64, e: &Event, out: &mut O) -> Result<(), SinkFault>
    ensures ok { OnOk result (Appends (O.held out.old) (O.held out.new) (event_line place e.now)) }
    ensures err { OnErr result (AppendsPrefix (O.held out.old) (O.held out.new) (event_line place e.now)) }
    ensures cause { HasCause (O.faults out.old) (O.faults out.new) result }
{
    let mut buf = [0; 1430];
    let end = add_event(&mut buf, 0, place, e);
    put_all(out, &buf[..end])
}

/// Prints the end line. After a fault the sink has got a proper prefix of it.
pub fn print_end<O: Sink>(count: u64, out: &mut O) -> Result<(), SinkFault>
    ensures ok { OnOk result (Appends (O.held out.old) (O.held out.new) (end_line count)) }
    ensures err { OnErr result (AppendsPrefix (O.held out.old) (O.held out.new) (end_line count)) }
    ensures cause { HasCause (O.faults out.old) (O.faults out.new) result }
{
    let mut buf = [0; 400];
    let end = add_end(&mut buf, 0, count);
    put_all(out, &buf[..end])
}

/// Prints the line of a mutex's value. After a fault the sink has got a proper prefix of it.
pub fn print_value<O: Sink>(m: MutexId, value: u64, out: &mut O) -> Result<(), SinkFault>
    ensures ok { OnOk result (Appends (O.held out.old) (O.held out.new) (value_line (record { mutex = m.0; value = value }))) }
    ensures err { OnErr result (AppendsPrefix (O.held out.old) (O.held out.new) (value_line (record { mutex = m.0; value = value }))) }
    ensures cause { HasCause (O.faults out.old) (O.faults out.new) result }
{
    let mut buf = [0; 400];
    let end = add_value(&mut buf, 0, m, value);
    put_all(out, &buf[..end])
}
