//! Laws of the picture. What a bar, an arrow and a longest hold say stands in the laws of trace_board.
ghost use Rattle.trace_picture.specs.Seen.{MarksDiffer, MarksAreExplained, DrawnAreExplained, EventsAreMarked, RingsAreNamed, BarsAreDrawn, TakingsAreDrawn, RowsStand, IdleAreNamed, RowsBegin, RowsEnd, JoinsAreDrawn, ForksAreDrawn, BirthsAreDrawn, SignalsAreDrawn, WaitsAreDrawn, HoldsAreReported};

/// Actions of different kinds have marks of different names, in which different letters are seen.
pub fn marks_differ()
    ensures { MarksDiffer }
{}

/// The mark of each event in view has its entry in the legend.
pub fn marks_are_explained()
    ensures { MarksAreExplained }
{}

/// A mark that the legend explains is that of an event in view.
pub fn drawn_are_explained()
    ensures { DrawnAreExplained }
{}

/// Each event in view has its mark, by the letter of its action, in its column and in the row of its thread.
pub fn events_are_marked()
    ensures { EventsAreMarked }
{}

/// Where the lock order is wanted, the marks that a ring may have are called by the places of their events.
pub fn rings_are_named()
    ensures { RingsAreNamed }
{}

/// An event that gives a mutex back ends a bar in its thread's row, from the column of the event that took the mutex to its own.
pub fn bars_are_drawn()
    ensures { BarsAreDrawn }
{}

/// An event that makes a taken semaphore available ends a bar in the row of the thread that took it, from the column of the taking to its own.
pub fn takings_are_drawn()
    ensures { TakingsAreDrawn }
{}

/// In version two a band begins with the rows of the threads that live, but for those without one by its plan.
pub fn rows_stand()
    ensures { RowsStand }
{}

/// Each of the first forty of those is named there.
pub fn idle_are_named()
    ensures { IdleAreNamed }
{}

/// A fork begins the row of its thread in its own column.
pub fn rows_begin()
    ensures { RowsBegin }
{}

/// An end cuts the row of its thread off after its own column.
pub fn rows_end()
    ensures { RowsEnd }
{}

/// A join has an arrow from the end of the thread that it joins.
pub fn joins_are_drawn()
    ensures { JoinsAreDrawn }
{}

/// A fork has an arrow into the row of its thread, in its own column.
pub fn forks_are_drawn()
    ensures { ForksAreDrawn }
{}

/// Of a thread that was forked, the event that made it live has that arrow.
pub fn births_are_drawn()
    ensures { BirthsAreDrawn }
{}

/// A Signal or a Broadcast has an arrow into the row of each thread that it takes out, in its own column.
pub fn signals_are_drawn()
    ensures { SignalsAreDrawn }
{}

/// The end of a wait has its strip: in the condition up to the event that let its thread go on, and let go on from there.
pub fn waits_are_drawn()
    ensures { WaitsAreDrawn }
{}

/// The last lines show the longest hold of each mutex: by whom, how many events, and from which event to which.
pub fn holds_are_reported()
    ensures { HoldsAreReported }
{}
