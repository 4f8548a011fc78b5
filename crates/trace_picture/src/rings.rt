//! Rings around the events of a cycle of the lock order, and how the picture of a legal trace ends.
ghost use Rattle.std.specs.Prelude.{◌≡◌, ◌+◌, ◌*◌, ◌<◌, ◌≤◌, ◌^◌, ◌++◌, ◌∷◌, [], length, take, codes, ℕ, List, true, OnOk, OnErr};
ghost use Rattle.std.specs.Io.KnownBytes.{Appends};
ghost use Rattle.firefly_outside.specs.Causes.{HasCause, AppendsPrefix};
ghost use Rattle.larch_actions.specs.declared.event.Event.{Event};
ghost use Rattle.larch_actions.specs.Layout.{IsLawful};
ghost use Rattle.larch_actions.specs.Actions.{Spec, Acts};
ghost use Rattle.lock_order.specs.declared.answer.Edge.{Edge};
ghost use Rattle.lock_order.specs.Kept.{HasPlace, IsKept};
ghost use Rattle.trace_picture.specs.Shown.{drawn_of};
ghost use Rattle.trace_picture.specs.Rings.{ring_text, rings_text, ringed_ending, ShowsOrdered, IsEnding, AreNoted, Sends};

use crate::endings::{add_last_closing, add_ringed_end, end_with};
use crate::shown::Drawing;
use firefly_outside::{Sink, SinkFault, put_all};
use larch_actions::{Event, Layout};
use lock_order::{Cycle, Edge, LockGraph, cycle_in};
use trace_check::Summary;
use trace_core::add;
use trace_shapes::tags::add_with_number;
use trace_shapes::view::DrawnRange;

/// Notes what the event nests, where the lock order is wanted.
#[inline(always)]
pub fn note_if(graph: &mut LockGraph, ordered: bool, e: &Event, place: u64)
    requires { HasPlace e.now }
    ensures { ordered ≡ true → (es : List Event) (now next : Spec) → place ≡ length es → Acts now e.now next
        → IsKept es now graph.old → IsKept (es ++ e.now ∷ []) next graph.new }
{
    if ordered {
        graph.note(e, place);
    }
}

// Adds a ring: the edge of the mark that is called so.
#[tactic(auto, unfolding(crate::specs::Rings::ring_text))]
fn add_ring(buf: &mut [u8], at: usize, edge: &Edge) -> usize
    requires { at + 80 ≤ length buf.old }
    ensures text { take result buf.new ≡ take at buf.old ++ ring_text edge.now }
    ensures near { result ≤ at + 80 }
{
    let at = add_with_number(buf, at, b"<style>#e", edge.place);
    add(buf, at, b"{stroke:#cf222e;stroke-width:3}</style>\n")
}

// Adds the rings of a cycle.
fn add_rings(buf: &mut [u8], at: usize, cycle: &Cycle) -> usize
    requires { at + 80 * 64 ≤ length buf.old }
    ensures text { take result buf.new ≡ take at buf.old ++ rings_text cycle.now }
    ensures near { result ≤ at + 80 * 64 }
{
    let mut last = at;
    for k in 0..cycle.len() {
        let edge = cycle.at(k);
        last = add_ring(buf, last, &edge);
    }
    last
}

// Adds the end of a picture in which a cycle is ringed.
fn add_ringed_ending(
    buf: &mut [u8],
    at: usize,
    layout: &Layout,
    view: &DrawnRange,
    drawing: &Drawing,
    cycle: &Cycle,
    count: u64,
    left: Summary,
) -> usize
    requires lawful { IsLawful layout.now }
    requires low { drawing.now.page.next < 2 ^ 60 }
    requires few { count < 2 ^ 42 }
    requires room { at + 440000 ≤ length buf.old }
    ensures text { take result buf.new ≡ take at buf.old ++ ringed_ending layout.now view.now (drawn_of drawing.now) count left cycle.now }
    ensures near { result ≤ at + 440000 }
{
    let at = add_last_closing(
        buf,
        at,
        layout,
        view,
        &drawing.page.plan,
        &drawing.board,
        count,
    );
    let at = add_rings(buf, at, cycle);
    add_ringed_end(buf, at, layout, view, drawing, count, left, cycle)
}

// Sends what the buffer holds, and the end of a picture in which a cycle is ringed.
fn end_ringed<O: Sink>(
    buf: &mut [u8],
    at: usize,
    layout: &Layout,
    view: &DrawnRange,
    drawing: &Drawing,
    cycle: &Cycle,
    count: u64,
    left: Summary,
    out: &mut O,
) -> Result<(), SinkFault>
    requires lawful { IsLawful layout.now }
    requires low { drawing.now.page.next < 2 ^ 60 }
    requires few { count < 2 ^ 42 }
    requires room { at + 440000 ≤ length buf.old }
    ensures ok { OnOk result (Appends (O.held out.old) (O.held out.new)
        (take at buf.old ++ ringed_ending layout.now view.now (drawn_of drawing.now) count left cycle.now)) }
    ensures err { OnErr result (AppendsPrefix (O.held out.old) (O.held out.new)
        (take at buf.old ++ ringed_ending layout.now view.now (drawn_of drawing.now) count left cycle.now)) }
    ensures cause { HasCause (O.faults out.old) (O.faults out.new) result }
{
    let end = add_ringed_ending(buf, at, layout, view, drawing, cycle, count, left);
    put_all(out, &buf[..end])
}

// Ends the picture of a legal trace whose lock order is wanted.
fn end_ordered<O: Sink>(
    buf: &mut [u8],
    at: usize,
    layout: &Layout,
    view: &DrawnRange,
    drawing: &Drawing,
    graph: &LockGraph,
    count: u64,
    left: Summary,
    out: &mut O,
) -> Result<(), SinkFault>
    requires lawful { IsLawful layout.now }
    requires low { drawing.now.page.next < 2 ^ 60 }
    requires few { count < 2 ^ 42 }
    requires noted { AreNoted graph.now count }
    requires room { at + 440000 ≤ length buf.old }
    ensures ended { (es : List Event) (now : Spec) → IsKept es now graph.now
        → (end : List ℕ) × ShowsOrdered layout.now view.now (drawn_of drawing.now) count left es end
        × Sends result (O.held out.old) (O.held out.new) (take at buf.old ++ end) }
    ensures cause { HasCause (O.faults out.old) (O.faults out.new) result }
{
    match cycle_in(graph) {
        Some(cycle) => end_ringed(buf, at, layout, view, drawing, &cycle, count, left, out),
        None => end_with(
            buf,
            at,
            layout,
            view,
            drawing,
            count,
            b"<text class='hd' x='44' y='18'><tspan class='ok'>legal</tspan>, no lock-order cycle, events: ",
            Some(left),
            out,
        ),
    }
}

/// Ends the picture of a legal trace with these counts.
pub fn end_legal<O: Sink>(
    buf: &mut [u8],
    at: usize,
    layout: &Layout,
    view: &DrawnRange,
    drawing: &Drawing,
    graph: &LockGraph,
    count: u64,
    left: Summary,
    out: &mut O,
) -> Result<(), SinkFault>
    requires lawful { IsLawful layout.now }
    requires low { drawing.now.page.next < 2 ^ 60 }
    requires few { count < 2 ^ 42 }
    requires noted { view.now.ordered ≡ true → AreNoted graph.now count }
    requires room { at + 440000 ≤ length buf.old }
    ensures ended { (es : List Event) (now : Spec) → (view.now.ordered ≡ true → IsKept es now graph.now)
        → (end : List ℕ) × IsEnding view.now.ordered layout.now view.now (drawn_of drawing.now) count left es end
        × Sends result (O.held out.old) (O.held out.new) (take at buf.old ++ end) }
    ensures cause { HasCause (O.faults out.old) (O.faults out.new) result }
{
    if view.ordered {
        end_ordered(buf, at, layout, view, drawing, graph, count, left, out)
    } else {
        end_with(
            buf,
            at,
            layout,
            view,
            drawing,
            count,
            b"<text class='hd' x='44' y='18'><tspan class='ok'>legal</tspan>, events: ",
            Some(left),
            out,
        )
    }
}
