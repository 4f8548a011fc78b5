//! Which lane of its thread's row each bar has.
ghost use Rattle.std.specs.Prelude.{◌≡◌, ◌<◌, ◌≤◌, ℕ};
ghost use Rattle.larch_actions.specs.Actions.{put};
ghost use Rattle.larch_actions.specs.Layout.{most_threads};
ghost use Rattle.trace_board.specs.History.{entry_of, IsWithin};
ghost use Rattle.trace_board.specs.Rows.{empty_row, same_bar, with_bar, let_go, without_bar, has, lane_in, begun_in, ended_in, turned, left, turned_by_semaphore, row_of};

use crate::history::{Change, Origin, Table};
use larch_actions::ThreadId;

/// What a bar is of: a mutex that is held, or a semaphore that is taken.
#[derive(Clone, Copy)]
pub enum Bar {
    Mutex(u32),
    Semaphore(u32),
}

/// What has the first three lanes of a row. The last lane has the bars for which none was free.
#[derive(Clone, Copy)]
pub struct Row {
    first: Option<Bar>,
    second: Option<Bar>,
    third: Option<Bar>,
}

// Whether the two are one.
#[inline(always)]
fn is_same(bar: Bar, other: Bar) -> bool
    ensures { result ≡ same_bar bar other }
{
    match bar {
        Bar::Mutex(i) => match other {
            Bar::Mutex(k) => i == k,
            Bar::Semaphore(_) => false,
        },
        Bar::Semaphore(i) => match other {
            Bar::Mutex(_) => false,
            Bar::Semaphore(k) => i == k,
        },
    }
}

// The lane without the bar.
#[inline(always)]
fn let_go(lane: Option<Bar>, bar: Bar) -> Option<Bar>
    ensures { result ≡ let_go bar lane }
{
    match lane {
        Some(other) => {
            if is_same(other, bar) {
                None
            } else {
                Some(other)
            }
        }
        None => None,
    }
}

// Whether the lane is that of the bar.
#[inline(always)]
fn has(lane: Option<Bar>, bar: Bar) -> bool
    ensures { result ≡ has bar lane }
{
    match lane {
        Some(other) => is_same(other, bar),
        None => false,
    }
}

impl Row {
    // No bar is open.
    fn empty() -> Row
        ensures { result ≡ empty_row }
    {
        Row {
            first: None,
            second: None,
            third: None,
        }
    }

    // The bar opens, in the first lane that is free.
    #[inline(always)]
    fn with_bar(&self, bar: Bar) -> Row
        ensures { result ≡ with_bar bar self.now }
    {
        let mut now = *self;
        match self.first {
            None => now.first = Some(bar),
            Some(_) => match self.second {
                None => now.second = Some(bar),
                Some(_) => match self.third {
                    None => now.third = Some(bar),
                    Some(_) => {}
                },
            },
        }
        now
    }

    // The bar is no longer open.
    #[inline(always)]
    fn without_bar(&self, bar: Bar) -> Row
        ensures { result ≡ without_bar bar self.now }
    {
        let first = let_go(self.first, bar);
        let second = let_go(self.second, bar);
        let third = let_go(self.third, bar);
        Row {
            first,
            second,
            third,
        }
    }

    // The lane of the bar, which is open.
    fn lane(&self, bar: Bar) -> u32
        ensures { result ≡ lane_in self.now bar }
    {
        if has(self.first, bar) {
            0
        } else if has(self.second, bar) {
            1
        } else if has(self.third, bar) {
            2
        } else {
            3
        }
    }
}

/// The row of each of 256 threads.
#[derive(Drop)]
pub struct Rows {
    entries: [Row; 256],
}

impl Rows {
    /// No bar is open.
    pub fn new() -> Rows
        ensures { row_of result ≡ (λ (k : ℕ). empty_row) }
    {
        let row = Row::empty();
        Rows {
            entries: [row; 256],
        }
    }

    // The row of the thread.
    fn at(&self, t: u32) -> Row
        ensures { result ≡ row_of self.now t }
    {
        if t < 256 {
            self.entries[t as usize]
        } else {
            Row::empty()
        }
    }

    /// The lane of the bar in the row of the thread that holds or took what it is of.
    pub fn lane(&self, t: ThreadId, bar: Bar) -> u32
        ensures { result ≡ lane_in (row_of self.now t.0) bar }
    {
        let row = self.at(t.0);
        row.lane(bar)
    }

    // Sets the row of the thread.
    fn put(&mut self, t: u32, now: Row)
        requires { t < most_threads }
        ensures { row_of self.new ≡ put (row_of self.old) t now }
    {
        self.entries[t as usize] = now;
    }

    // The bar opens in the row of the thread.
    fn begin(&mut self, bar: Bar, t: u32)
        requires { t < most_threads }
        ensures { row_of self.new ≡ begun_in bar t (row_of self.old) }
    {
        let was = self.at(t);
        let now = was.with_bar(bar);
        self.put(t, now);
    }

    // The bar is no longer open in the row of the thread.
    fn end(&mut self, bar: Bar, t: u32)
        ensures { row_of self.new ≡ ended_in bar t (row_of self.old) }
    {
        if t < 256 {
            let was = self.at(t);
            let now = was.without_bar(bar);
            self.put(t, now);
        }
    }

    /// Notes the effect on a mutex by this thread.
    pub fn note(&mut self, effect: Change, t: u32)
        requires { t < most_threads }
        ensures { row_of self.new ≡ turned effect t (row_of self.old) }
    {
        match effect {
            Change::Begins(m) => self.begin(Bar::Mutex(m), t),
            Change::Ends(m) => self.end(Bar::Mutex(m), t),
            Change::Stays => {}
        }
    }

    // The bar of the semaphore is no longer open in the row of the thread that took it.
    fn leave(&mut self, sem: u32, since: Option<Origin>)
        ensures { row_of self.new ≡ left sem since (row_of self.old) }
    {
        match since {
            Some(o) => self.end(Bar::Semaphore(sem), o.thread.0),
            None => {}
        }
    }

    /// Notes the effect on a semaphore by this thread.
    pub fn note_semaphore(&mut self, effect: Change, t: u32, taken: &Table)
        requires thread { t < most_threads }
        requires within { IsWithin effect }
        ensures { row_of self.new ≡ turned_by_semaphore effect t (entry_of taken.now) (row_of self.old) }
    {
        match effect {
            Change::Begins(s) => self.begin(Bar::Semaphore(s), t),
            Change::Ends(s) => self.leave(s, taken.at(s)),
            Change::Stays => {}
        }
    }
}
