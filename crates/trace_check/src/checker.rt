//! The check of a trace text.
ghost use Rattle.std.specs.Prelude.{◌≡◌, ◌≢◌, ◌≤◌, ◌^◌, ◌-◌, ◌<◌, List, ℕ, Some, IfOk, IfErr, OnErr};
ghost use Rattle.trace_core.specs.declared.reader_state.Phase.TheVariants as phase;
ghost use Rattle.trace_core.specs.Reader.{standing, input_of};
ghost use Rattle.trace_check.specs.declared.checker.Verdict.TheVariants as verdict;
ghost use Rattle.trace_check.specs.Verdicts.{IsJust, refusal};
ghost use Rattle.trace_check.specs.Watching.{HasWatched, HasStopped};

use crate::watch::Watch;
use firefly_outside::Source;
use larch_actions::{Broken, Event, Layout, State, Totals};
use trace_core::{EventReader, TextFault};

/// Counts of a legal trace: its events, and at its end the mutexes held, the threads between the two parts of a wait and the
/// threads alerted.
#[derive(Clone, Copy, Debug, PartialEq, Eq)]
pub struct Summary {
    pub events: u64,
    pub held: u64,
    pub waiting: u64,
    pub alerted: u64,
}

/// What a check finds.
#[derive(Clone, Copy, Debug, PartialEq, Eq)]
pub enum Verdict {
    Legal(Summary),
    /// The place of the first event that fails, and what it fails first.
    Illegal { place: u64, why: Broken },
    /// The bad line of the input.
    BadLine(u64),
    /// The input has more bytes than the budget.
    TooLong,
    ReadFault,
}

/// What a check finds: the verdict, the layout of the trace where its head could be read, and the event that fails.
#[derive(Drop)]
pub struct Found {
    pub verdict: Verdict,
    pub layout: Option<Layout>,
    pub failed: Option<Event>,
}

// The verdict on a text that can't be read.
fn verdict_of(fault: TextFault) -> Verdict
    ensures { result ≡ refusal fault }
{
    match fault {
        TextFault::BadLine(line) => Verdict::BadLine(line),
        TextFault::TooLong => Verdict::TooLong,
        TextFault::Read | TextFault::Memory => Verdict::ReadFault,
    }
}

// The verdict on a legal trace of so many events.
fn legal(events: u64, totals: &Totals) -> Verdict
    ensures { result ≡ verdict.Legal (record {
      events = events;
      held = totals.now.held;
      waiting = totals.now.waiting;
      alerted = totals.now.alerted;
    }) }
{
    Verdict::Legal(Summary {
        events,
        held: totals.held,
        waiting: totals.waiting,
        alerted: totals.alerted,
    })
}

/// Checks at most `budget` bytes of the input, and shows the watcher the layout and each event that keeps the rules, in order. From the
/// byte that decides on it reads nothing more. A watcher that stops ends the check.
pub fn check_with<I: Source, W: Watch>(
    input: &mut I,
    budget: u64,
    watcher: &mut W,
) -> Result<Found, W::Stop>
    requires { budget < 2 ^ 64 - 1 }
    ensures just { IfOk result (λ f. IsJust budget (I.left input.old) (I.left input.new) (I.faults input.old) (I.faults input.new)
        f.verdict) }
    // Where no read failed, no other verdict is just.
    ensures exact { IfOk result (λ f. (bytes : List ℕ) (other : Verdict) → I.left input.old ≡ Some bytes → f.verdict ≢ verdict.ReadFault
        → other ≢ verdict.ReadFault
        → IsJust budget (I.left input.old) (I.left input.new) (I.faults input.old) (I.faults input.new) other → f.verdict ≡ other) }
    ensures watched { IfOk result (λ f. HasWatched W.keeps budget (I.left input.old) watcher.old f.layout f.failed f.verdict
        watcher.new) }
    ensures stopped { IfErr result (HasStopped W.stops budget (I.left input.old) watcher.old watcher.new) }
    // A failed read is reported, and a read can fail only where no verdict is due yet. So nothing is asked once a byte decides.
    ensures reported { IfOk result (λ f. f.verdict ≢ verdict.ReadFault → I.faults input.new ≡ I.faults input.old) }
    ensures unfailed { OnErr result (I.faults input.new ≡ I.faults input.old) }
    ensures later { I.faults input.old ≤ I.faults input.new }
{
    let mut reader = EventReader::new(input, budget);
    watch_all(&mut reader, watcher)
}

// Checks what a new reader gives, and shows it to the watcher.
fn watch_all<I: Source, W: Watch>(
    reader: &mut EventReader<I>,
    watcher: &mut W,
) -> Result<Found, W::Stop>
    requires phase { (standing I.left reader.old).phase ≡ phase.Head }
    requires lines { (standing I.left reader.old).lines ≡ 0 }
    requires fits { (standing I.left reader.old).room < 2 ^ 64 - 1 }
    ensures just { IfOk result (λ f. IsJust (standing I.left reader.old).room (standing I.left reader.old).rest
        (I.left (input_of reader.new).now) (I.faults (input_of reader.old).now) (I.faults (input_of reader.new).now) f.verdict) }
    ensures watched { IfOk result (λ f. HasWatched W.keeps (standing I.left reader.old).room (standing I.left reader.old).rest
        watcher.old f.layout f.failed f.verdict watcher.new) }
    ensures stopped { IfErr result (HasStopped W.stops (standing I.left reader.old).room (standing I.left reader.old).rest watcher.old
        watcher.new) }
    ensures same_input { (input_of reader.new).ghost_name ≡ (input_of reader.old).ghost_name }
    ensures reported { IfOk result (λ f. f.verdict ≢ verdict.ReadFault
        → I.faults (input_of reader.new).now ≡ I.faults (input_of reader.old).now) }
    ensures unfailed { OnErr result (I.faults (input_of reader.new).now ≡ I.faults (input_of reader.old).now) }
    ensures later { I.faults (input_of reader.old).now ≤ I.faults (input_of reader.new).now }
{
    let layout = match reader.head() {
        Ok(layout) => layout,
        Err(fault) => {
            return Ok(Found {
                verdict: verdict_of(fault),
                layout: None,
                failed: None,
            });
        }
    };
    let mut state = State::new(layout);
    if let Err(stop) = watcher.begin(&layout) {
        return Err(stop);
    }
    let mut events = 0;
    loop {
        match reader.next_event() {
            Ok(Some(event)) => match state.apply(&event) {
                Ok(()) => {
                    if let Err(stop) = watcher.see(events, &event) {
                        return Err(stop);
                    }
                    events += 1;
                }
                Err(why) => {
                    return Ok(Found {
                        verdict: Verdict::Illegal { place: events, why },
                        layout: Some(layout),
                        failed: Some(event),
                    });
                }
            },
            Ok(None) => {
                let totals = state.summary();
                return Ok(Found {
                    verdict: legal(events, &totals),
                    layout: Some(layout),
                    failed: None,
                });
            }
            Err(fault) => {
                return Ok(Found {
                    verdict: verdict_of(fault),
                    layout: Some(layout),
                    failed: None,
                });
            }
        }
    }
}

// Watches nothing.
#[derive(Drop)]
struct Unwatched;

impl Watch for Unwatched {
    type Stop = ();

    ghost keeps = { λ first l es now. Unit {0} };

    ghost stops = { λ first l es now stop. ⊥ };

    fn begin(&mut self, _layout: &Layout) -> Result<(), ()> {
        Ok(())
    }

    fn see(&mut self, _place: u64, _e: &Event) -> Result<(), ()> {
        Ok(())
    }
}

/// Checks at most `budget` bytes of the input. From the byte that decides on it reads nothing more.
pub fn check<I: Source>(input: &mut I, budget: u64) -> Verdict
    requires { budget < 2 ^ 64 - 1 }
    ensures just { IsJust budget (I.left input.old) (I.left input.new) (I.faults input.old) (I.faults input.new) result }
    // Where no read failed, no other verdict is just.
    ensures exact { (bytes : List ℕ) (verdict : Verdict) → I.left input.old ≡ Some bytes → result ≢ Verdict.ReadFault
        → verdict ≢ Verdict.ReadFault
        → IsJust budget (I.left input.old) (I.left input.new) (I.faults input.old) (I.faults input.new) verdict → result ≡ verdict }
    // A failed read is reported, and a read can fail only where no verdict is due yet. So nothing is asked once a byte decides.
    ensures reported { result ≢ Verdict.ReadFault → I.faults input.new ≡ I.faults input.old }
    ensures later { I.faults input.old ≤ I.faults input.new }
{
    match check_with(input, budget, &mut Unwatched) {
        Ok(found) => found.verdict,
        Err(()) => unreachable!(),
    }
}
