//! The history of a closed package as a trace text.
ghost use Rattle.std.specs.Prelude.{◌≡◌, [], List, OnOk, OnErr, Some};
ghost use Rattle.std.specs.Io.KnownBytes.{Appends};
ghost use Rattle.firefly_outside.specs.Causes.{AppendsPrefix, HasCause};
ghost use Rattle.firefly_threads.specs.Traces.{IsTraced};
ghost use Rattle.larch_actions.specs.declared.event.Event.{Event};
ghost use Rattle.trace_core.specs.Text.{ReadsAs, trace_text};

use firefly_outside::{Sink, SinkFault};
use nub::{Closed, Uses};
use trace_core::laws::print_whole;

/// Writes the whole history of a closed package as a trace text: `firefly check` accepts it, and `timeline` draws it.
///
/// The package has to be traced. After a fault the sink has got a proper prefix of the text.
///
/// ```rust
/// let mut out = WriterSink::new(rt.stdout());
/// ```
pub fn write_trace<U: Uses, O: Sink>(closed: &Closed<U>, out: &mut O) -> Result<(), SinkFault>
    requires { IsTraced closed.now }
    ensures ok { (h : List Event) → closed.now.trace ≡ Some h
        → OnOk result (Appends (O.held out.old) (O.held out.new) (trace_text closed.now.layout h [])) }
    ensures err { (h : List Event) → closed.now.trace ≡ Some h
        → OnErr result (AppendsPrefix (O.held out.old) (O.held out.new) (trace_text closed.now.layout h [])) }
    ensures cause { HasCause (O.faults out.old) (O.faults out.new) result }
    ensures reads { (h : List Event) → closed.now.trace ≡ Some h
        → ReadsAs (trace_text closed.now.layout h []) closed.now.layout h [] }
{
    let Some(events) = closed.trace() else {
        unreachable!()
    };
    print_whole(&closed.layout(), events, &[], out)
}
