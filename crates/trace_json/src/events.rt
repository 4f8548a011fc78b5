//! The events of a trace text as JSON.
ghost use Rattle.std.specs.Prelude.{◌≡◌, ◌≢◌, ◌-◌, ◌<◌, ◌≤◌, ◌^◌, ◌++◌, List, ℕ, [], Some, IfOk, OnOk, OnErr, length};
ghost use Rattle.std.specs.Io.KnownBytes.{Appends};
ghost use Rattle.firefly_outside.specs.Causes.{HasCause, AppendsPrefix};
ghost use Rattle.larch_actions.specs.Layout.{IsLawful};
ghost use Rattle.text_output.specs.Sent.{Puts};
ghost use Rattle.trace_check.specs.declared.checker.Verdict.{Verdict};
ghost use Rattle.trace_check.specs.declared.checker.Verdict.TheVariants as verdict;
ghost use Rattle.trace_check.specs.Verdicts.{IsJust};
ghost use Rattle.trace_json.specs.Texts.{closing_text, event_text, head_text};
ghost use Rattle.trace_json.specs.Written.{Answers, HasFailed, HasWritten, IsCutShort, IsWritten};

use crate::texts::{add_head, add_items};
use firefly_outside::{Sink, SinkFault, Source};
use larch_actions::{Event, Layout};
use text_output::{Held, flush, put};
use trace_check::{Verdict, Watch, check_with};

// Puts what stands before the events.
fn put_head<O: Sink>(held: &mut Held, layout: &Layout, out: &mut O) -> Result<(), SinkFault>
    requires { IsLawful layout.now }
    ensures text { Puts (O.held out.old) held.old.items (head_text layout.now) result (O.held out.new) held.new.items }
    ensures cause { HasCause (O.faults out.old) (O.faults out.new) result }
{
    let mut buf = [0; 65000];
    put_head_by(&mut buf, held, layout, out)
}

// Puts it by way of the buffer.
fn put_head_by<O: Sink>(
    buf: &mut [u8],
    held: &mut Held,
    layout: &Layout,
    out: &mut O,
) -> Result<(), SinkFault>
    requires lawful { IsLawful layout.now }
    requires large { 65000 ≤ length buf.old }
    ensures text { Puts (O.held out.old) held.old.items (head_text layout.now) result (O.held out.new) held.new.items }
    ensures cause { HasCause (O.faults out.old) (O.faults out.new) result }
{
    let end = add_head(buf, 0, layout);
    put(held, &buf[..end], out)
}

// Puts an event.
fn put_event<O: Sink>(held: &mut Held, place: u64, e: &Event, out: &mut O) -> Result<(), SinkFault>
    ensures text { Puts (O.held out.old) held.old.items (event_text place e.now) result (O.held out.new) held.new.items }
    ensures cause { HasCause (O.faults out.old) (O.faults out.new) result }
{
    let mut buf = [0; 2000];
    let end = add_items(&mut buf, 0, place, e);
    put(held, &buf[..end], out)
}

// Writes the layout and the events that it is shown, by way of what it holds.
#[derive(Drop)]
struct Writing<'a, O: Sink> {
    held: Held,
    out: &'a mut O,
}

impl<'a, O: Sink> Watch for Writing<'a, O> {
    type Stop = SinkFault;

    ghost keeps = { λ first l es now. HasWritten O.held O.faults first.held.items first.out l es now.held.items now.out };

    ghost stops = { λ first l es now stop. HasFailed O.held O.faults first.held.items first.out l es now.out };

    fn begin(&mut self, layout: &Layout) -> Result<(), SinkFault> {
        put_head(&mut self.held, layout, self.out)
    }

    fn see(&mut self, place: u64, e: &Event) -> Result<(), SinkFault> {
        put_event(&mut self.held, place, e, self.out)
    }
}

// Puts the closing, and sends all that is held.
fn close<O: Sink>(held: &mut Held, verdict: Verdict, out: &mut O) -> Result<Verdict, SinkFault>
    ensures same { IfOk result (λ v. v ≡ verdict) }
    ensures ok { OnOk result (Appends (O.held out.old) (O.held out.new) (held.old.items ++ closing_text)) }
    ensures err { OnErr result (AppendsPrefix (O.held out.old) (O.held out.new) (held.old.items ++ closing_text)) }
    ensures cause { HasCause (O.faults out.old) (O.faults out.new) result }
{
    if let Err(fault) = put(held, b"\n]}\n", out) {
        return Err(fault);
    }
    match flush(held, out) {
        Ok(()) => Ok(verdict),
        Err(fault) => Err(fault),
    }
}

/// Checks at most `budget` bytes of the input, and writes the events on the way as JSON: all of a legal trace, those before the first that fails, or
/// those that were read before the input can't be read further. Nothing is written where its head can't be read.
pub fn write_events<I: Source, O: Sink>(
    input: &mut I,
    budget: u64,
    out: &mut O,
) -> Result<Verdict, SinkFault>
    requires { budget < 2 ^ 64 - 1 }
    // The verdict is just, and where no read failed no other is.
    ensures just { IfOk result (λ v. IsJust budget (I.left input.old) (I.left input.new) (I.faults input.old) (I.faults input.new) v) }
    ensures exact { IfOk result (λ v. (bytes : List ℕ) (other : Verdict) → I.left input.old ≡ Some bytes → v ≢ verdict.ReadFault
        → other ≢ verdict.ReadFault
        → IsJust budget (I.left input.old) (I.left input.new) (I.faults input.old) (I.faults input.new) other → v ≡ other) }
    // The sink got the text, or a prefix of one where it failed.
    ensures written { IfOk result (λ v. IsWritten budget (I.left input.old) (O.held out.old) (O.held out.new) v) }
    ensures cut_short { OnErr result (IsCutShort budget (I.left input.old) (O.held out.old) (O.held out.new)) }
    ensures cause { HasCause (O.faults out.old) (O.faults out.new) result }
    // A failed read is reported, and a read can fail only where no verdict is due yet. So nothing is asked once a byte decides.
    ensures reported { IfOk result (λ v. v ≢ verdict.ReadFault → I.faults input.new ≡ I.faults input.old) }
    ensures later { I.faults input.old ≤ I.faults input.new }
{
    let mut writing = Writing {
        held: Held::new(),
        out,
    };
    write_all(input, budget, &mut writing)
}

// Checks the input and writes what the check shows, and the closing.
fn write_all<I: Source, O: Sink>(
    input: &mut I,
    budget: u64,
    writing: &mut Writing<O>,
) -> Result<Verdict, SinkFault>
    requires budget { budget < 2 ^ 64 - 1 }
    requires empty { writing.old.held.items ≡ [] }
    ensures answers { Answers budget (I.left input.old) (I.left input.new) (I.faults input.old) (I.faults input.new)
        (O.held writing.old.out.now) (O.held writing.new.out.now) (O.faults writing.old.out.now) (O.faults writing.new.out.now) result }
    ensures same_sink { writing.new.out.ghost_name ≡ writing.old.out.ghost_name }
{
    match check_with(input, budget, writing) {
        Ok(found) => match found.layout {
            Some(_) => close(&mut writing.held, found.verdict, writing.out),
            None => Ok(found.verdict),
        },
        Err(fault) => Err(fault),
    }
}
