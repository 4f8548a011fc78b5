//! The steps of a reader.
ghost use Rattle.std.specs.Prelude.{◌≡◌, ◌⊎◌, ◌+◌, ◌<◌, ◌≤◌, ◌++◌, length, drop, IfOk, IfErr, IfSome, IfNone};
ghost use Rattle.trace_core.specs.declared.reader_state.Phase.TheVariants as phase;
ghost use Rattle.trace_core.specs.Text.{IsTrace, head_text};
ghost use Rattle.larch_actions.specs.Layout.{IsLawful};
ghost use Rattle.trace_core.specs.Usual.{IsEventAt};
ghost use Rattle.exact_text.specs.Intake.{IsReported};
ghost use Rattle.trace_core.specs.Lacking.{IsUndecided};
ghost use Rattle.trace_core.specs.ReaderState.{reader_state_of};
ghost use Rattle.trace_core.specs.Steps.{TakesHead, Breaks, GoesOn, IsEventOpen, IsTaken};

use crate::place::Place;
use crate::reader_state::{Phase, Progress};
use crate::sections::{take_event, take_head};
use crate::usual::{UsualEvent, usual_event};
use exact_text::{Intake, TextFault};
use firefly_outside::Source;
use larch_actions::{Event, Layout};

/// Takes the head, and notes what comes next.
pub fn begin<I: Source>(progress: &mut Progress, input: &mut I) -> Result<Layout, TextFault>
    ensures head { IfOk result (TakesHead (reader_state_of progress.old (I.left input.old)) (reader_state_of progress.new (I.left input.new))) }
    ensures fault { IfErr result (Breaks IsTrace IsLawful head_text (reader_state_of progress.old (I.left input.old))
        (reader_state_of progress.new (I.left input.new)) (I.left input.new) (I.faults input.old) (I.faults input.new)) }
    ensures reported { IsReported (I.faults input.old) (I.faults input.new) result }
    ensures asks { (input.new ≡ input.old) ⊎ IsUndecided IsTrace IsLawful head_text progress.old.intake.window }
{
    progress.place = Place::first();
    match take_head(&mut progress.intake, input) {
        Ok(layout) => {
            progress.layout = layout;
            progress.phase = Phase::Events;
            Ok(layout)
        }
        Err(fault) => {
            progress.phase = Phase::Failed(fault);
            Err(fault)
        }
    }
}

// Reads the event whose line the window holds whole, where it has a form that is read at once.
#[inline(always)]
fn event_in(intake: &Intake, layout: &Layout, place: &Place) -> Option<UsualEvent>
    ensures { IfSome result (IsEventAt layout.now place.now intake.now.window) }
{
    let bytes = intake.window.bytes();
    if bytes.len() < 64 {
        return None;
    }
    usual_event(bytes, layout, place)
}

// Passes over a line of this size, and counts it.
#[inline(always)]
fn pass_line(intake: &mut Intake, size: usize)
    requires some { 0 < size }
    requires held { size ≤ length intake.old.window }
    ensures window { intake.new.window ≡ drop size intake.old.window }
    ensures lines { intake.new.lines ≡ intake.old.lines + 1 }
    ensures given { intake.new.given ≡ intake.old.given }
    ensures budget { intake.new.budget ≡ intake.old.budget }
{
    intake.window.skip(size);
    intake.lines += 1;
}

// Takes the event whose line the window holds whole, where it has a form that is read at once.
#[inline(always)]
fn take_usual(progress: &mut Progress) -> Option<Event>
    ensures taken { IfSome result (IsTaken progress.old progress.new) }
    ensures same { IfNone result (progress.new ≡ progress.old) }
{
    let held = event_in(&progress.intake, &progress.layout, &progress.place)?;
    pass_line(&mut progress.intake, held.end);
    progress.place.step();
    Some(held.event)
}

/// Takes an event or the end, and notes what comes next.
#[inline(always)]
pub fn go_on<I: Source>(progress: &mut Progress, input: &mut I) -> Result<Option<Event>, TextFault>
    requires { progress.old.phase ≡ phase.Events }
    ensures goes { GoesOn (reader_state_of progress.old (I.left input.old)) (reader_state_of progress.new (I.left input.new))
        (I.left input.new) (I.faults input.old) (I.faults input.new) result }
    ensures reported { IsReported (I.faults input.old) (I.faults input.new) result }
    ensures asks { (input.new ≡ input.old) ⊎ IsEventOpen progress.old }
{
    match take_usual(progress) {
        Some(event) => Ok(Some(event)),
        None => go_on_apart(progress, input),
    }
}

// The same of any event, and of the end. What the call writes has memory of its own here, so that the event above needs none.
#[inline(always)]
fn go_on_apart<I: Source>(
    progress: &mut Progress,
    input: &mut I,
) -> Result<Option<Event>, TextFault>
    requires { progress.old.phase ≡ phase.Events }
    ensures goes { GoesOn (reader_state_of progress.old (I.left input.old)) (reader_state_of progress.new (I.left input.new))
        (I.left input.new) (I.faults input.old) (I.faults input.new) result }
    ensures reported { IsReported (I.faults input.old) (I.faults input.new) result }
    ensures asks { (input.new ≡ input.old) ⊎ IsEventOpen progress.old }
{
    match go_on_slowly(progress, input) {
        Ok(found) => Ok(found),
        Err(fault) => Err(fault),
    }
}

// The same of any event, and of the end.
#[cold]
#[inline(never)]
fn go_on_slowly<I: Source>(
    progress: &mut Progress,
    input: &mut I,
) -> Result<Option<Event>, TextFault>
    requires { progress.old.phase ≡ phase.Events }
    ensures goes { GoesOn (reader_state_of progress.old (I.left input.old)) (reader_state_of progress.new (I.left input.new))
        (I.left input.new) (I.faults input.old) (I.faults input.new) result }
    ensures reported { IsReported (I.faults input.old) (I.faults input.new) result }
    ensures asks { (input.new ≡ input.old) ⊎ IsEventOpen progress.old }
{
    let layout = progress.layout;
    let place = progress.place.value();
    progress.place = Place::first();
    match take_event(&mut progress.intake, input, &layout, place) {
        Ok(Some(event)) => {
            progress.place = Place::at(place + 1);
            Ok(Some(event))
        }
        Ok(None) => {
            progress.phase = Phase::Ended;
            Ok(None)
        }
        Err(fault) => {
            progress.phase = Phase::Failed(fault);
            Err(fault)
        }
    }
}
