//! A reader of trace texts.
ghost use Rattle.std.specs.Prelude.{◌≡◌, ◌≢◌, ◌⊎◌, ◌≤◌, ◌++◌, ◌^◌, ◌-◌, ◌<◌, IfOk, IfErr, IfSome, IfNone, OnOk};
ghost use Rattle.exact_text.specs.declared.fault.TextFault.{TextFault};
ghost use Rattle.trace_core.specs.declared.reader_state.Phase.TheVariants as phase;
ghost use Rattle.trace_core.specs.Text.{IsTrace, IsRest, head_text, event_line};
ghost use Rattle.larch_actions.specs.Layout.{IsLawful, HasNames};
ghost use Rattle.trace_core.specs.Steps.{TakesHead, TakesEvent, TakesEnd, Breaks};
ghost use Rattle.trace_core.specs.Lacking.{IsUndecided};
ghost use Rattle.trace_core.specs.Reader.{IsFresh, standing, input_of, held_of};

use crate::phases::{begin, go_on};
use crate::place::Place;
use crate::reader_state::{Phase, Progress};
use exact_text::{Intake, TextFault};
use firefly_outside::Source;
use larch_actions::{Event, Layout};

/// Reads the layout and the events of a trace text, one after another.
#[derive(Drop)]
pub struct EventReader<'a, I: Source> {
    input: &'a mut I,
    progress: Progress,
}

impl<'a, I: Source> EventReader<'a, I> {
    /// A reader of at most `budget` bytes of the input.
    pub fn new(input: &'a mut I, budget: u64) -> EventReader<'a, I>
        requires { budget < 2 ^ 64 - 1 }
        ensures { IsFresh I.left result input.entry budget }
    {
        EventReader {
            input,
            progress: Progress {
                intake: Intake::new(budget),
                // Replaced by the text's own when its head is read.
                layout: Layout::of(1, 0, 0, 0),
                place: Place::first(),
                phase: Phase::Head,
            },
        }
    }

    /// Reads the head of the text. Called once, and first.
    pub fn head(&mut self) -> Result<Layout, TextFault>
        requires { (standing I.left self.old).phase ≡ phase.Head }
        // On success.
        ensures head { IfOk result (TakesHead (standing I.left self.old) (standing I.left self.new)) }
        // On a fault.
        ensures fault { IfErr result (Breaks IsTrace IsLawful head_text (standing I.left self.old)
            (standing I.left self.new) (I.left (input_of self.new).now) (I.faults (input_of self.old).now)
            (I.faults (input_of self.new).now)) }
        // The source is asked only where the bytes that it gave don't decide.
        ensures asks { ((input_of self.new).now ≡ (input_of self.old).now)
            ⊎ IsUndecided IsTrace IsLawful head_text (held_of self.old) }
        // What stays.
        ensures same_input { (input_of self.new).ghost_name ≡ (input_of self.old).ghost_name }
        // A failed question is reported, and one fails only where the bytes given don't decide: none is asked where they do.
        ensures unfailed { OnOk result (I.faults (input_of self.new).now ≡ I.faults (input_of self.old).now) }
        ensures reported { IfErr result (λ fault. fault ≢ TextFault.Read
            → I.faults (input_of self.new).now ≡ I.faults (input_of self.old).now) }
        ensures later { I.faults (input_of self.old).now ≤ I.faults (input_of self.new).now }
    {
        begin(&mut self.progress, self.input)
    }

    /// Reads the next event, or the end. Called after `head`. From the end or a fault on it answers the same again.
    pub fn next_event(&mut self) -> Result<Option<Event>, TextFault>
        requires { (standing I.left self.old).phase ≢ phase.Head }
        // On success.
        ensures event { (standing I.left self.old).phase ≡ phase.Events
            → IfOk result (λ found. IfSome found (TakesEvent (standing I.left self.old) (standing I.left self.new))) }
        ensures end { (standing I.left self.old).phase ≡ phase.Events → IfOk result
            (λ found. IfNone found (TakesEnd (standing I.left self.old) (standing I.left self.new))) }
        // On a fault.
        ensures fault { (standing I.left self.old).phase ≡ phase.Events
            → IfErr result (let old = standing I.left self.old in Breaks (IsRest old.layout old.place) (HasNames old.layout)
            (event_line old.place) old (standing I.left self.new) (I.left (input_of self.new).now) (I.faults (input_of self.old).now)
            (I.faults (input_of self.new).now)) }
        // The source is asked only where the bytes that it gave don't decide.
        ensures asks { ((input_of self.new).now ≡ (input_of self.old).now)
            ⊎ (let old = standing I.left self.old in IsUndecided (IsRest old.layout old.place) (HasNames old.layout) (event_line old.place)
            (held_of self.old)) }
        // Once it has ended or failed.
        ensures ended { (standing I.left self.old).phase ≡ phase.Ended → result ≡ Ok None }
        ensures failed { (fault : TextFault) → (standing I.left self.old).phase ≡ phase.Failed fault → result ≡ Err fault }
        ensures stays { (standing I.left self.old).phase ≢ phase.Events → self.new ≡ self.old }
        // What stays.
        ensures same_input { (input_of self.new).ghost_name ≡ (input_of self.old).ghost_name }
        // A failed question is reported, and one fails only where the bytes given don't decide: none is asked where they do.
        ensures unfailed { OnOk result (I.faults (input_of self.new).now ≡ I.faults (input_of self.old).now) }
        ensures reported { IfErr result (λ fault. fault ≢ TextFault.Read
            → I.faults (input_of self.new).now ≡ I.faults (input_of self.old).now) }
        ensures later { I.faults (input_of self.old).now ≤ I.faults (input_of self.new).now }
    {
        match self.progress.phase {
            Phase::Head => unreachable!(),
            Phase::Events => go_on(&mut self.progress, self.input),
            Phase::Ended => Ok(None),
            Phase::Failed(fault) => Err(fault),
        }
    }
}
