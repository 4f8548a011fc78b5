//! Laws of what is kept.
ghost use Rattle.trace_board.specs.Laws.{BarsAreHolds, BarsAreTakings, ArrowsAreCauses, LanesAreOwn, HoldsAreLongest, RunsAreSeen, RowsAreLives, ForksAreBirths};

/// A bar of a mutex goes on in a thread's row exactly while the state has the mutex held by this thread, from the event that took it.
pub fn bars_are_holds()
    ensures { BarsAreHolds }
{}

/// A bar of a semaphore goes on exactly while the state has it not available, from the event that took it, in the row of the thread that did.
pub fn bars_are_takings()
    ensures { BarsAreTakings }
{}

/// An arrow goes from the event that made hold what a thread went on by: that it is out of its condition, that its semaphore is available,
/// that it is alerted, or that the thread which it joins has ended. Since that event it has held.
pub fn arrows_are_causes()
    ensures { ArrowsAreCauses }
{}

/// A thread is unborn, lives or has ended as the events say that are kept as its fork and its end.
pub fn rows_are_lives()
    ensures { RowsAreLives }
{}

/// A thread begins to go on, at its first event, by the event that made it live, as it has since.
pub fn forks_are_births()
    ensures { ForksAreBirths }
{}

/// No two bars have one lane of a row but the last, and a bar keeps its lane.
pub fn lanes_are_own()
    ensures { LanesAreOwn }
{}

/// What is shown as the longest hold of a mutex is one of its holds, and none is longer.
pub fn holds_are_longest()
    ensures { HoldsAreLongest }
{}

/// A thread is shown to have run since an event exactly where one of the events from that one on is its own.
pub fn runs_are_seen()
    ensures { RunsAreSeen }
{}
