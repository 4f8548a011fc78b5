//! What was drawn so far, for the legend: by the name of each entry, the latest event that showed it.
ghost use Rattle.std.specs.Prelude.{◌≡◌, ◌<◌, ◌≤◌, is_some};
ghost use Rattle.larch_actions.specs.Layout.{IsLawful};
ghost use Rattle.larch_actions.specs.State.{count_below};
ghost use Rattle.trace_board.specs.History.{entry_of};
ghost use Rattle.trace_board.specs.Causes.{cause_of};
ghost use Rattle.trace_board.specs.Tracked.{tracked_of, came};
ghost use Rattle.trace_picture.specs.Shown.{drawn_of, nothing_drawn, ends, frees, shown_if, going_on, opened, lets_go_on, shown_by, shown_failed};

use crate::plan::Page;
use larch_actions::Layout;
use trace_board::board::{Reason, TraceState};
use trace_board::causes::CauseChange;
use trace_board::history::{Change, Origin, Table};
use trace_board::marks::{Effects, Mark};
use trace_shapes::legend::{ARROWS, HOLDS, LET_GO, TAKINGS, WAITS, look_of};
use trace_shapes::shapes::begins;
use trace_shapes::view::{DrawnRange, column_of, is_in_view};

/// What is kept of the events before, what was drawn, and the band under way.
#[derive(Drop)]
pub struct Drawing {
    pub board: TraceState,
    pub shown: Table,
    pub page: Page,
}

impl Drawing {
    /// Nothing was drawn.
    pub fn new() -> Drawing
        ensures { drawn_of result ≡ nothing_drawn }
    {
        let board = TraceState::new();
        let shown = Table::new();
        let page = Page::none();
        Drawing { board, shown, page }
    }
}

// Whether it ends something.
fn ends(effect: Change) -> bool
    ensures { result ≡ ends effect }
{
    match effect {
        Change::Ends(_) => true,
        Change::Begins(_) => false,
        Change::Stays => false,
    }
}

// Whether it may take threads out of a condition.
fn frees(change: CauseChange) -> bool
    ensures { result ≡ frees change }
{
    match change {
        CauseChange::Frees(_, _) => true,
        CauseChange::Awaits(_, _) => false,
        CauseChange::Ends(_) => false,
        CauseChange::Opens(_) => false,
        CauseChange::Comes(_) => false,
        CauseChange::Stays => false,
    }
}

// Notes that the event shows what has this name, if so.
fn show_if(shown: &mut Table, name: u8, so: bool, by: Origin)
    ensures { entry_of shown.new ≡ shown_if name so by (entry_of shown.old) }
{
    if so {
        shown.note(Change::Begins(u32::from(name)), by);
    }
}

// Whether the thing is in the table.
fn is_in(table: &Table, k: u32) -> bool
    requires { k < 256 }
    ensures { result ≡ is_some (entry_of table.now k) }
{
    table.at(k).is_some()
}

// How many of the first things are in the table.
fn count_in(table: &Table, things: u32) -> u32
    requires { things ≤ 256 }
    ensures count { result ≡ count_below (λ k. is_some (entry_of table.now k)) things }
    ensures few { result ≤ things }
{
    let mut count = 0;
    for k in 0..things {
        if is_in(table, k) {
            count += 1;
        }
    }
    count
}

// Whether the thread was let go on and has not resumed.
fn is_let_go(board: &TraceState, t: u32) -> bool
    requires { t < 256 }
    ensures { result ≡ is_some (came (cause_of board.now.stands t)) }
{
    board.waker(Reason::Condition(t)).is_some()
}

// How many of the first threads were let go on and have not resumed.
fn count_let_go(board: &TraceState, threads: u32) -> u32
    requires { threads ≤ 256 }
    ensures count { result ≡ count_below (λ t. is_some (came (cause_of board.now.stands t))) threads }
    ensures few { result ≤ threads }
{
    let mut count = 0;
    for t in 0..threads {
        if is_let_go(board, t) {
            count += 1;
        }
    }
    count
}

// Notes what goes on into the band that the event begins.
#[tactic(auto, using(larch_actions::proofs::Names::few_threads))]
fn note_going_on(shown: &mut Table, layout: &Layout, board: &TraceState, by: Origin)
    requires { IsLawful layout.now }
    ensures { entry_of shown.new ≡ going_on layout.now (tracked_of board.now) by (entry_of shown.old) }
{
    let held = 0 < count_in(&board.held, layout.mutexes);
    let taken = 0 < count_in(&board.taken, layout.semaphores);
    let waits = 0 < count_in(&board.waits, layout.threads);
    let let_go = 0 < count_let_go(board, layout.threads);
    show_if(shown, HOLDS, held, by);
    show_if(shown, TAKINGS, taken, by);
    show_if(shown, WAITS, waits, by);
    show_if(shown, LET_GO, let_go, by);
}

/// Notes what goes on into the band of the event, where this begins it.
pub fn note_opening(
    shown: &mut Table,
    layout: &Layout,
    view: &DrawnRange,
    board: &TraceState,
    by: Origin,
)
    requires { IsLawful layout.now }
    ensures { entry_of shown.new ≡ opened layout.now view.now (tracked_of board.now) by (entry_of shown.old) }
{
    if column_of(view, by.place) == 0 {
        note_going_on(shown, layout, board, by);
    }
}

// Whether the event ends a wait, or takes a thread out of its condition, to which it has an arrow then.
fn lets_go_on(effects: &Effects, arrows: bool) -> bool
    ensures { result ≡ lets_go_on effects.now arrows }
{
    let ended = ends(effects.wait);
    let freed = frees(effects.stand);
    ended || (freed && arrows)
}

/// Notes what the event shows that has these effects, and has arrows or none.
pub fn note_event(shown: &mut Table, effects: &Effects, arrows: bool, by: Origin)
    ensures { entry_of shown.new ≡ shown_by by effects.now arrows (entry_of shown.old) }
{
    let mark = look_of(effects.mark);
    show_if(shown, mark.letter, true, by);
    show_if(shown, HOLDS, begins(effects.mutex), by);
    show_if(shown, TAKINGS, begins(effects.semaphore), by);
    show_if(shown, WAITS, begins(effects.wait), by);
    show_if(shown, ARROWS, arrows, by);
    show_if(shown, LET_GO, lets_go_on(effects, arrows), by);
}

/// Notes the mark of an event that fails, where it is drawn.
pub fn note_failing(
    shown: &mut Table,
    layout: &Layout,
    view: &DrawnRange,
    board: &TraceState,
    by: Origin,
)
    requires { IsLawful layout.now }
    ensures { entry_of shown.new ≡ shown_failed layout.now view.now (tracked_of board.now) by (entry_of shown.old) }
{
    if is_in_view(view, by.place) {
        note_opening(shown, layout, view, board, by);
        show_if(shown, look_of(Mark::Failed).letter, true, by);
    }
}
