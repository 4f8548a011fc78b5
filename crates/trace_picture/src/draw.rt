//! The picture of a trace text.
ghost use Rattle.std.specs.Prelude.{◌≡◌, ◌≢◌, ◌+◌, ◌-◌, ◌<◌, ◌≤◌, ◌^◌, ◌++◌, ◌∷◌, List, ℕ, [], true, false, if◌then◌else◌, length, take, Some, None, IfOk, OnOk, OnErr};
ghost use Rattle.std.specs.Io.KnownBytes.{Appends};
ghost use Rattle.firefly_outside.specs.Causes.{HasCause, AppendsPrefix};
ghost use Rattle.trace_core.specs.declared.reader_state.Phase.TheVariants as phase;
ghost use Rattle.trace_core.specs.Reader.{standing, input_of};
ghost use Rattle.trace_core.specs.Whole.{Flows};
ghost use Rattle.trace_check.specs.declared.checker.Verdict.{Verdict};
ghost use Rattle.trace_check.specs.declared.checker.Verdict.TheVariants as verdict;
ghost use Rattle.trace_check.specs.Verdicts.{IsJust, refusal};
ghost use Rattle.larch_actions.specs.declared.event.Version.{Version};
ghost use Rattle.larch_actions.specs.Layout.{IsLawful};
ghost use Rattle.trace_board.specs.Tracked.{IsNoted};
ghost use Rattle.trace_shapes.specs.Places.{in_view};
ghost use Rattle.trace_picture.specs.Keeping.{turned, band_steps, drawn_over, fills, added_on, drawn_on, kept_on, event_text, event_drawn, event_kept};
ghost use Rattle.larch_actions.specs.Actions.{at_first};
ghost use Rattle.lock_order.specs.Kept.{IsKept};
ghost use Rattle.trace_picture.specs.Shown.{drawn_of};
ghost use Rattle.trace_picture.specs.Verdicts.{cut_words};
ghost use Rattle.trace_picture.specs.Picture.{ending};
ghost use Rattle.trace_picture.specs.Drawn.{IsDrawn, IsCutOff};

use crate::bands::add_step;
use crate::endings::{end_failed, end_with};
use crate::head::add_head;
use crate::kept::Kept;
use crate::plan::Page;
use crate::rings::{end_legal, note_if};
use crate::shown::Drawing;
use firefly_outside::{Sink, SinkFault, Source, put_all};
use larch_actions::{Event, Layout, State, Totals};
use lock_order::LockGraph;
use trace_check::{Summary, Verdict};
use trace_core::{EventReader, TextFault};
use trace_shapes::DrawnRange;
use trace_shapes::view::{is_band_open, is_in_view};

// The verdict on a text that can't be read.
fn verdict_of(fault: TextFault) -> Verdict
    ensures { result ≡ refusal fault }
{
    match fault {
        TextFault::BadLine(line) => Verdict::BadLine(line),
        TextFault::TooLong => Verdict::TooLong,
        TextFault::Read | TextFault::Memory => Verdict::ReadFault,
    }
}

// The counts of a legal trace of so many events.
fn summary_of(events: u64, totals: &Totals) -> Summary
    ensures { result ≡ record {
      events = events;
      held = totals.now.held;
      waiting = totals.now.waiting;
      alerted = totals.now.alerted;
    } }
{
    Summary {
        events,
        held: totals.held,
        waiting: totals.waiting,
        alerted: totals.alerted,
    }
}

// Sends what the buffer holds where that is more than 16 KiB, and says how much it holds then: there is room for another event.
fn make_room<O: Sink>(buf: &[u8], at: usize, out: &mut O) -> Result<usize, SinkFault>
    requires within { at ≤ length buf.now }
    requires large { 500000 ≤ length buf.now }
    ensures ok { IfOk result (λ end. Flows (O.held out.old) (O.held out.new) (take at buf.now) (take end buf.now) []) }
    ensures room { IfOk result (λ end. end + 480000 ≤ length buf.now) }
    ensures err { OnErr result (AppendsPrefix (O.held out.old) (O.held out.new) (take at buf.now)) }
    ensures cause { HasCause (O.faults out.old) (O.faults out.new) result }
{
    if at <= 16384 {
        return Ok(at);
    }
    match put_all(out, &buf[..at]) {
        Ok(()) => Ok(0),
        Err(fault) => Err(fault),
    }
}

// Draws the first events that are kept, of which the first has this place.
fn draw_events<O: Sink>(
    buf: &mut [u8],
    at: usize,
    layout: &Layout,
    view: &DrawnRange,
    drawing: &mut Drawing,
    kept: &Kept,
    start: u64,
    count: usize,
    out: &mut O,
) -> Result<usize, SinkFault>
    requires lawful { IsLawful layout.now }
    requires within { at ≤ length buf.old }
    requires large { 500000 ≤ length buf.old }
    requires few { start < 2 ^ 40 + 2 }
    requires some { count ≤ length kept.now }
    requires short { count ≤ 50 }
    ensures ok { IfOk result (λ end. Flows (O.held out.old) (O.held out.new) (take at buf.old) (take end buf.new)
        (band_steps layout.now view.now start (drawn_of drawing.old) (take count kept.now))) }
    ensures within { IfOk result (λ end. end ≤ length buf.new) }
    ensures kept { IfOk result (λ end. drawn_of drawing.new ≡
        drawn_over layout.now view.now start (drawn_of drawing.old) (take count kept.now)) }
    ensures err { OnErr result (AppendsPrefix (O.held out.old) (O.held out.new)
        (take at buf.old ++ band_steps layout.now view.now start (drawn_of drawing.old) (take count kept.now))) }
    ensures cause { HasCause (O.faults out.old) (O.faults out.new) result }
{
    let mut last = at;
    for i in 0..count {
        let free = match make_room(buf, last, out) {
            Ok(free) => free,
            Err(fault) => return Err(fault),
        };
        let e = kept.at(i);
        last = add_step(buf, free, layout, view, drawing, start + i as u64, &e);
    }
    Ok(last)
}

// Plans the band of the events that are kept, and draws the first of them.
fn draw_kept<O: Sink>(
    buf: &mut [u8],
    at: usize,
    layout: &Layout,
    view: &DrawnRange,
    drawing: &mut Drawing,
    kept: &Kept,
    start: u64,
    count: usize,
    out: &mut O,
) -> Result<usize, SinkFault>
    requires lawful { IsLawful layout.now }
    requires low { drawing.old.page.next < 2 ^ 59 }
    requires within { at ≤ length buf.old }
    requires large { 500000 ≤ length buf.old }
    requires few { start < 2 ^ 40 + 2 }
    requires some { count ≤ length kept.now }
    requires short { count ≤ 50 }
    ensures ok { IfOk result (λ end. Flows (O.held out.old) (O.held out.new) (take at buf.old) (take end buf.new)
        (band_steps layout.now view.now start (turned layout.now kept.now (drawn_of drawing.old)) (take count kept.now))) }
    ensures within { IfOk result (λ end. end ≤ length buf.new) }
    ensures kept { IfOk result (λ end. drawn_of drawing.new ≡
        drawn_over layout.now view.now start (turned layout.now kept.now (drawn_of drawing.old)) (take count kept.now)) }
    ensures low { (turned layout.now kept.now (drawn_of drawing.old)).page.next ≤ drawing.old.page.next + 2 ^ 16 }
    ensures err { OnErr result (AppendsPrefix (O.held out.old) (O.held out.new)
        (take at buf.old ++ band_steps layout.now view.now start (turned layout.now kept.now (drawn_of drawing.old)) (take count kept.now))) }
    ensures cause { HasCause (O.faults out.old) (O.faults out.new) result }
{
    turn(layout, drawing, kept);
    draw_events(buf, at, layout, view, drawing, kept, start, count, out)
}

// Plans the band of the events that are kept, where there are any.
fn turn(layout: &Layout, drawing: &mut Drawing, kept: &Kept)
    requires lawful { IsLawful layout.now }
    requires low { drawing.old.page.next < 2 ^ 59 }
    ensures turned { drawn_of drawing.new ≡ turned layout.now kept.now (drawn_of drawing.old) }
    ensures low { drawing.new.page.next ≤ drawing.old.page.next + 2 ^ 16 }
{
    if 0 < kept.len() {
        drawing.page = Page::of_band(layout, &drawing.board, kept, drawing.page.next);
    }
}

// Draws the band of the events that are kept, where the last of them, which has this place, fills it.
fn draw_if_full<O: Sink>(
    buf: &mut [u8],
    at: usize,
    layout: &Layout,
    view: &DrawnRange,
    drawing: &mut Drawing,
    kept: &mut Kept,
    place: u64,
    out: &mut O,
) -> Result<usize, SinkFault>
    requires lawful { IsLawful layout.now }
    requires low { drawing.old.page.next < 2 ^ 59 }
    requires within { at ≤ length buf.old }
    requires large { 500000 ≤ length buf.old }
    requires few { place < 2 ^ 40 + 1 }
    requires some { length kept.old ≤ place + 1 }
    ensures ok { IfOk result (λ end. Flows (O.held out.old) (O.held out.new) (take at buf.old) (take end buf.new)
        (added_on layout.now view.now place (drawn_of drawing.old) kept.old)) }
    ensures within { IfOk result (λ end. end ≤ length buf.new) }
    ensures drawn { IfOk result (λ end. drawn_of drawing.new ≡ drawn_on layout.now view.now place (drawn_of drawing.old) kept.old) }
    ensures kept { IfOk result (λ end. kept.new ≡ kept_on view.now place kept.old) }
    ensures low { fills view.now place ≡ true →
        (turned layout.now kept.old (drawn_of drawing.old)).page.next ≤ drawing.old.page.next + 2 ^ 16 }
    ensures err { OnErr result (AppendsPrefix (O.held out.old) (O.held out.new)
        (take at buf.old ++ added_on layout.now view.now place (drawn_of drawing.old) kept.old)) }
    ensures cause { HasCause (O.faults out.old) (O.faults out.new) result }
{
    if is_band_open(view, place + 1) {
        return Ok(at);
    }
    let count = kept.len();
    let start = place + 1 - count as u64;
    match draw_kept(buf, at, layout, view, drawing, kept, start, count, out) {
        Ok(end) => {
            kept.clear();
            Ok(end)
        }
        Err(fault) => Err(fault),
    }
}

// Keeps the event, and draws its band where it fills this; out of view it is only noted.
fn draw_on<O: Sink>(
    buf: &mut [u8],
    at: usize,
    layout: &Layout,
    view: &DrawnRange,
    drawing: &mut Drawing,
    kept: &mut Kept,
    place: u64,
    e: &Event,
    out: &mut O,
) -> Result<usize, SinkFault>
    requires lawful { IsLawful layout.now }
    requires noted { IsNoted e.now }
    requires low { drawing.old.page.next < 2 ^ 59 }
    requires within { at ≤ length buf.old }
    requires large { 500000 ≤ length buf.old }
    requires few { place < 2 ^ 40 + 1 }
    requires some { length kept.old ≤ place }
    requires free { length kept.old < 50 }
    ensures ok { IfOk result (λ end. Flows (O.held out.old) (O.held out.new) (take at buf.old) (take end buf.new)
        (event_text layout.now view.now place (drawn_of drawing.old) kept.old e.now)) }
    ensures within { IfOk result (λ end. end ≤ length buf.new) }
    ensures drawn { IfOk result (λ end. drawn_of drawing.new
        ≡ event_drawn layout.now view.now place (drawn_of drawing.old) kept.old e.now) }
    ensures kept { IfOk result (λ end. kept.new ≡ event_kept view.now place kept.old e.now) }
    ensures low { in_view view.now place ≡ true → fills view.now place ≡ true →
        (turned layout.now (kept.old ++ e.now ∷ []) (drawn_of drawing.old)).page.next ≤ drawing.old.page.next + 2 ^ 16 }
    ensures err { OnErr result (AppendsPrefix (O.held out.old) (O.held out.new)
        (take at buf.old ++ event_text layout.now view.now place (drawn_of drawing.old) kept.old e.now)) }
    ensures cause { HasCause (O.faults out.old) (O.faults out.new) result }
{
    if is_in_view(view, place) {
        kept.push(e);
        draw_if_full(buf, at, layout, view, drawing, kept, place, out)
    } else {
        drawing.board.note(place, e);
        Ok(at)
    }
}

// Draws the first of the events that are kept, and makes room for the end of the picture.
fn draw_rest<O: Sink>(
    buf: &mut [u8],
    at: usize,
    layout: &Layout,
    view: &DrawnRange,
    drawing: &mut Drawing,
    kept: &Kept,
    start: u64,
    count: usize,
    out: &mut O,
) -> Result<usize, SinkFault>
    requires lawful { IsLawful layout.now }
    requires low { drawing.old.page.next < 2 ^ 59 }
    requires within { at ≤ length buf.old }
    requires large { 500000 ≤ length buf.old }
    requires few { start < 2 ^ 40 + 2 }
    requires some { count ≤ length kept.now }
    requires short { count ≤ 50 }
    ensures ok { IfOk result (λ end. Flows (O.held out.old) (O.held out.new) (take at buf.old) (take end buf.new)
        (band_steps layout.now view.now start (turned layout.now kept.now (drawn_of drawing.old)) (take count kept.now))) }
    ensures room { IfOk result (λ end. end + 480000 ≤ length buf.new) }
    ensures kept { IfOk result (λ end. drawn_of drawing.new ≡
        drawn_over layout.now view.now start (turned layout.now kept.now (drawn_of drawing.old)) (take count kept.now)) }
    ensures low { IfOk result (λ end. drawing.new.page.next < 2 ^ 60) }
    ensures err { OnErr result (AppendsPrefix (O.held out.old) (O.held out.new)
        (take at buf.old ++ band_steps layout.now view.now start (turned layout.now kept.now (drawn_of drawing.old)) (take count kept.now))) }
    ensures cause { HasCause (O.faults out.old) (O.faults out.new) result }
{
    let end = match draw_kept(buf, at, layout, view, drawing, kept, start, count, out) {
        Ok(end) => end,
        Err(fault) => return Err(fault),
    };
    make_room(buf, end, out)
}

// Keeps the event that fails, where it is in view, so that its band is planned with it.
fn keep_failing(view: &DrawnRange, kept: &mut Kept, place: u64, e: &Event)
    requires noted { IsNoted e.now }
    requires free { length kept.old < 50 }
    ensures { kept.new ≡ (if in_view view.now place then kept.old ++ e.now ∷ [] else kept.old) }
{
    if is_in_view(view, place) {
        kept.push(e);
    }
}

// Ends the picture of an input that can't be read further.
fn end_cut<O: Sink>(
    buf: &mut [u8],
    at: usize,
    layout: &Layout,
    view: &DrawnRange,
    drawing: &Drawing,
    count: u64,
    out: &mut O,
) -> Result<(), SinkFault>
    requires lawful { IsLawful layout.now }
    requires low { drawing.now.page.next < 2 ^ 60 }
    requires few { count < 2 ^ 42 }
    requires room { at + 440000 ≤ length buf.old }
    ensures ok { OnOk result (Appends (O.held out.old) (O.held out.new)
        (take at buf.old ++ ending layout.now view.now (drawn_of drawing.now) count cut_words None)) }
    ensures err { OnErr result (AppendsPrefix (O.held out.old) (O.held out.new)
        (take at buf.old ++ ending layout.now view.now (drawn_of drawing.now) count cut_words None)) }
    ensures cause { HasCause (O.faults out.old) (O.faults out.new) result }
{
    end_with(
        buf,
        at,
        layout,
        view,
        drawing,
        count,
        b"<text class='hd' x='44' y='18'><tspan class='no'>the input can't be read further</tspan>, events: ",
        None,
        out,
    )
}

/// Checks at most `budget` bytes of the input, and draws the events on the way. The picture ends with the trace, at the first event
/// that fails, or where the input can't be read further; nothing is drawn where its head can't be read. Where the lock order is wanted, the
/// picture of a legal trace has a ring around each event that takes a step of a cycle, or says that there is no cycle.
pub fn draw_trace<I: Source, O: Sink>(
    input: &mut I,
    budget: u64,
    view: &DrawnRange,
    out: &mut O,
) -> Result<Verdict, SinkFault>
    requires { budget ≤ 2 ^ 40 }
    // The verdict is just, and where no read failed no other is.
    ensures just { IfOk result (λ v. IsJust budget (I.left input.old) (I.left input.new) (I.faults input.old) (I.faults input.new) v) }
    ensures exact { IfOk result (λ v. (bytes : List ℕ) (other : Verdict) → I.left input.old ≡ Some bytes → v ≢ verdict.ReadFault
        → other ≢ verdict.ReadFault
        → IsJust budget (I.left input.old) (I.left input.new) (I.faults input.old) (I.faults input.new) other → v ≡ other) }
    // The sink got the picture, or a prefix of one where it failed.
    ensures drawn { IfOk result (λ v. IsDrawn budget view.now (I.left input.old) (O.held out.old) (O.held out.new) v) }
    ensures cut_off { OnErr result (IsCutOff budget view.now (I.left input.old) (O.held out.old) (O.held out.new)) }
    ensures cause { HasCause (O.faults out.old) (O.faults out.new) result }
    // A failed read is reported, and a read can fail only where no verdict is due yet. So nothing is asked once a byte decides.
    ensures reported { IfOk result (λ v. v ≢ verdict.ReadFault → I.faults input.new ≡ I.faults input.old) }
    ensures later { I.faults input.old ≤ I.faults input.new }
{
    let mut buf = [0; 501760];
    draw_by(&mut buf, input, budget, view, out)
}

// Checks and draws by way of the buffer.
fn draw_by<I: Source, O: Sink>(
    buf: &mut [u8],
    input: &mut I,
    budget: u64,
    view: &DrawnRange,
    out: &mut O,
) -> Result<Verdict, SinkFault>
    requires large { 500000 ≤ length buf.old }
    requires budget { budget ≤ 2 ^ 40 }
    ensures just { IfOk result (λ v. IsJust budget (I.left input.old) (I.left input.new) (I.faults input.old) (I.faults input.new) v) }
    ensures exact { IfOk result (λ v. (bytes : List ℕ) (other : Verdict) → I.left input.old ≡ Some bytes → v ≢ verdict.ReadFault
        → other ≢ verdict.ReadFault
        → IsJust budget (I.left input.old) (I.left input.new) (I.faults input.old) (I.faults input.new) other → v ≡ other) }
    ensures drawn { IfOk result (λ v. IsDrawn budget view.now (I.left input.old) (O.held out.old) (O.held out.new) v) }
    ensures cut_off { OnErr result (IsCutOff budget view.now (I.left input.old) (O.held out.old) (O.held out.new)) }
    ensures cause { HasCause (O.faults out.old) (O.faults out.new) result }
    ensures reported { IfOk result (λ v. v ≢ verdict.ReadFault → I.faults input.new ≡ I.faults input.old) }
    ensures later { I.faults input.old ≤ I.faults input.new }
{
    let mut reader = EventReader::new(input, budget);
    let mut graph = LockGraph::new();
    draw_all(&mut reader, view, &mut graph, buf, out)
}

// Draws what a new reader gives.
fn draw_all<I: Source, O: Sink>(
    reader: &mut EventReader<I>,
    view: &DrawnRange,
    graph: &mut LockGraph,
    buf: &mut [u8],
    out: &mut O,
) -> Result<Verdict, SinkFault>
    requires phase { (standing I.left reader.old).phase ≡ phase.Head }
    requires lines { (standing I.left reader.old).lines ≡ 0 }
    requires large { 500000 ≤ length buf.old }
    requires fits { (standing I.left reader.old).room ≤ 2 ^ 40 }
    requires empty { (version : Version) → IsKept [] (at_first version) graph.old }
    ensures just { IfOk result (λ v. IsJust (standing I.left reader.old).room (standing I.left reader.old).rest (I.left
        (input_of reader.new).now)
        (I.faults (input_of reader.old).now) (I.faults (input_of reader.new).now) v) }
    ensures drawn { IfOk result (λ v. IsDrawn (standing I.left reader.old).room view.now (standing I.left reader.old).rest
        (O.held out.old) (O.held out.new) v) }
    ensures cut_off { OnErr result (IsCutOff (standing I.left reader.old).room view.now (standing I.left reader.old).rest
        (O.held out.old) (O.held out.new)) }
    ensures cause { HasCause (O.faults out.old) (O.faults out.new) result }
    ensures same_input { (input_of reader.new).ghost_name ≡ (input_of reader.old).ghost_name }
    ensures reported { IfOk result (λ v. v ≢ verdict.ReadFault → I.faults (input_of reader.new).now ≡ I.faults (input_of reader.old).now) }
    ensures later { I.faults (input_of reader.old).now ≤ I.faults (input_of reader.new).now }
{
    let layout = match reader.head() {
        Ok(layout) => layout,
        Err(fault) => return Ok(verdict_of(fault)),
    };
    let mut at = add_head(buf, 0, &layout);
    let mut state = State::new(layout);
    let mut drawing = Drawing::new();
    let mut kept = Kept::new();
    let mut place = 0;
    loop {
        match reader.next_event() {
            Ok(Some(event)) => match state.apply(&event) {
                Ok(()) => {
                    note_if(graph, view.ordered, &event, place);
                    at = match draw_on(
                        buf,
                        at,
                        &layout,
                        view,
                        &mut drawing,
                        &mut kept,
                        place,
                        &event,
                        out,
                    ) {
                        Ok(end) => end,
                        Err(fault) => return Err(fault),
                    };
                    place += 1;
                }
                Err(why) => {
                    let count = kept.len();
                    keep_failing(view, &mut kept, place, &event);
                    let free = match draw_rest(
                        buf,
                        at,
                        &layout,
                        view,
                        &mut drawing,
                        &kept,
                        place - count as u64,
                        count,
                        out,
                    ) {
                        Ok(free) => free,
                        Err(fault) => return Err(fault),
                    };
                    return match end_failed(
                        buf,
                        free,
                        &layout,
                        view,
                        &mut drawing,
                        place,
                        &event,
                        why,
                        out,
                    ) {
                        Ok(()) => Ok(Verdict::Illegal { place, why }),
                        Err(fault) => Err(fault),
                    };
                }
            },
            Ok(None) => {
                let totals = state.summary();
                let left = summary_of(place, &totals);
                let count = kept.len();
                let free = match draw_rest(
                    buf,
                    at,
                    &layout,
                    view,
                    &mut drawing,
                    &kept,
                    place - count as u64,
                    count,
                    out,
                ) {
                    Ok(free) => free,
                    Err(fault) => return Err(fault),
                };
                return match end_legal(
                    buf, free, &layout, view, &drawing, graph, place, left, out,
                ) {
                    Ok(()) => Ok(Verdict::Legal(left)),
                    Err(fault) => Err(fault),
                };
            }
            Err(broken) => {
                let count = kept.len();
                let free = match draw_rest(
                    buf,
                    at,
                    &layout,
                    view,
                    &mut drawing,
                    &kept,
                    place - count as u64,
                    count,
                    out,
                ) {
                    Ok(free) => free,
                    Err(fault) => return Err(fault),
                };
                return match end_cut(buf, free, &layout, view, &drawing, place, out) {
                    Ok(()) => Ok(verdict_of(broken)),
                    Err(fault) => Err(fault),
                };
            }
        }
    }
}
