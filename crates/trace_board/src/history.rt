//! Since which event each mutex is held, each semaphore is taken, each thread waits, lives or has ended.
ghost use Rattle.std.specs.Prelude.{◌≡◌, ◌<◌, ℕ, None};
ghost use Rattle.larch_actions.specs.Layout.{most_threads};
ghost use Rattle.std.specs.declared.option.Option.{Option};
ghost use Rattle.trace_board.specs.History.{changed, begun_by, ended_by, entry_of, IsWithin};

use larch_actions::ThreadId;

/// The event since which something is so: by which thread, of which object, and its place.
#[derive(Clone, Copy)]
pub struct Origin {
    pub thread: ThreadId,
    pub object: u32,
    pub place: u64,
}

/// What an event does to a thing of this number.
#[derive(Clone, Copy)]
pub enum Change {
    Begins(u32),
    Ends(u32),
    Stays,
}

/// What has ended from the effect on.
#[inline(always)]
pub fn ended_by(effect: Change) -> Change
    ensures { result ≡ ended_by effect }
{
    match effect {
        Change::Begins(_) => Change::Stays,
        Change::Ends(k) => Change::Begins(k),
        Change::Stays => Change::Stays,
    }
}

/// Of each of 256 things, since which event it is taken.
#[derive(Drop)]
pub struct Table {
    entries: [Option<Origin>; 256],
}

impl Table {
    /// Nothing is taken.
    pub fn new() -> Table
        ensures { entry_of result ≡ (λ (k : ℕ). None) }
    {
        Table {
            entries: [None; 256],
        }
    }

    /// Since when the thing is taken.
    pub fn at(&self, k: u32) -> Option<Origin>
        requires { k < most_threads }
        ensures { result ≡ entry_of self.now k }
    {
        self.entries[k as usize]
    }

    /// Notes the effect, by this event.
    pub fn note(&mut self, effect: Change, by: Origin)
        requires { IsWithin effect }
        ensures { entry_of self.new ≡ changed effect by (entry_of self.old) }
    {
        match effect {
            Change::Begins(k) => self.entries[k as usize] = Some(by),
            Change::Ends(k) => self.entries[k as usize] = None,
            Change::Stays => {}
        }
    }
}

/// Which event forked each thread, and by which each ended.
#[derive(Drop)]
pub struct Lives {
    pub born: Table,
    pub over: Table,
}

impl Lives {
    /// None was forked, and none has ended.
    pub fn new() -> Lives
        ensures born { entry_of result.born ≡ (λ (k : ℕ). None) }
        ensures over { entry_of result.over ≡ (λ (k : ℕ). None) }
    {
        let born = Table::new();
        let over = Table::new();
        Lives { born, over }
    }

    /// Notes the effect on a thread's life, by this event.
    #[inline(always)]
    pub fn note(&mut self, effect: Change, by: Origin)
        requires { IsWithin effect }
        ensures born { entry_of self.new.born ≡ changed (begun_by effect) by (entry_of self.old.born) }
        ensures over { entry_of self.new.over ≡ changed (ended_by effect) by (entry_of self.old.over) }
    {
        match effect {
            Change::Begins(k) => self.born.note(Change::Begins(k), by),
            Change::Ends(k) => self.over.note(Change::Begins(k), by),
            Change::Stays => {}
        }
    }
}
