//! Which event let a thread go on.
ghost use Rattle.std.specs.Prelude.{◌≡◌, ◌<◌, ◌≤◌, ℕ};
ghost use Rattle.larch_actions.specs.Actions.{put};
ghost use Rattle.larch_actions.specs.Layout.{most_threads};
ghost use Rattle.larch_actions.specs.Sets.{in_set};
ghost use Rattle.trace_board.specs.declared.causes.Cause.TheVariants.{Never};
ghost use Rattle.trace_board.specs.Awaited.{NoneFrom};

use crate::history::Origin;
use larch_actions::{ThreadId, ThreadSet};

/// How it stands with something that may let a thread go on.
#[derive(Clone, Copy)]
pub enum Cause {
    /// It isn't awaited.
    Never,
    /// It is awaited: a thread stands in the condition of this number, or the semaphore of this number isn't available.
    Awaited(u32),
    /// It came, by this event.
    By(Origin),
}

/// What an event does to the causes of a kind.
#[derive(Clone, Copy)]
pub enum CauseChange {
    /// The first is awaited from now on, at the second.
    Awaits(u32, u32),
    /// It isn't awaited any more.
    Ends(u32),
    /// All come that are awaited at the condition, but for those left.
    Frees(u32, ThreadSet),
    /// It comes, where it is awaited.
    Opens(u32),
    /// It comes, unless it came before.
    Comes(u32),
    Stays,
}

impl Cause {
    ghost use Rattle.trace_board.specs.Causes.{opened, come};

    // What the event makes of a cause that it makes come, where it is awaited.
    fn opened_by(self, by: Origin) -> Cause
        ensures { result ≡ opened by self }
    {
        match self {
            Cause::Never => Cause::Never,
            Cause::Awaited(_) => Cause::By(by),
            Cause::By(other) => Cause::By(other),
        }
    }

    // What the event makes of a cause that may have come.
    fn come_by(self, by: Origin) -> Cause
        ensures { result ≡ come by self }
    {
        match self {
            Cause::Never => Cause::By(by),
            Cause::Awaited(_) => Cause::By(by),
            Cause::By(other) => Cause::By(other),
        }
    }
}

/// A cause for each of 256 threads or semaphores.
#[derive(Drop)]
pub struct Causes {
    entries: [Cause; 256],
    // None is awaited from this number on.
    limit: u32,
    ghost within: { limit ≤ 256 },
    ghost few: { NoneFrom limit entries },
}

impl Causes {
    ghost use Rattle.trace_board.specs.Causes.{take_out, moved, cause_of, IsSmall};

    /// Nothing is awaited, and nothing came.
    pub fn new() -> Causes
        ensures { cause_of result ≡ (λ (k : ℕ). Never) }
    {
        Causes {
            entries: [Cause::Never; 256],
            limit: 0,
        }
    }

    /// The cause of this number.
    pub fn at(&self, k: u32) -> Cause
        requires { k < most_threads }
        ensures { result ≡ cause_of self.now k }
    {
        self.entries[k as usize]
    }

    // Sets the cause of this number.
    fn put(&mut self, k: u32, now: Cause)
        requires { k < most_threads }
        ensures { cause_of self.new ≡ put (cause_of self.old) k now }
    {
        self.entries[k as usize] = now;
        self.limit = self.limit.max(k + 1);
    }

    // What the event makes of a thread that may stand in the condition and may stay.
    #[inline(always)]
    fn free_one(&mut self, t: u32, cond: u32, left: &ThreadSet, by: Origin)
        requires { t < most_threads }
        ensures { cause_of self.new ≡ put (cause_of self.old) t (take_out cond (in_set left.now t) by (cause_of self.old t)) }
    {
        match self.at(t) {
            Cause::Awaited(k) => {
                if k == cond {
                    let stays = left.has(ThreadId(t));
                    if !stays {
                        self.put(t, Cause::By(by));
                    }
                }
            }
            Cause::Never => {}
            Cause::By(_) => {}
        }
    }

    // What the event makes of all who stand in the condition, but for those left.
    #[inline(never)]
    fn free(&mut self, cond: u32, left: &ThreadSet, by: Origin)
        ensures { cause_of self.new ≡ (λ t. take_out cond (in_set left.now t) by (cause_of self.old t)) }
    {
        for t in 0..self.limit {
            self.free_one(t, cond, left, by);
        }
    }

    /// Notes the move, by this event.
    #[inline(always)]
    pub fn note(&mut self, change: CauseChange, by: Origin)
        requires { IsSmall change }
        ensures { cause_of self.new ≡ moved change by (cause_of self.old) }
    {
        match change {
            CauseChange::Awaits(k, at) => self.put(k, Cause::Awaited(at)),
            CauseChange::Ends(k) => self.put(k, Cause::Never),
            CauseChange::Frees(cond, left) => self.free(cond, &left, by),
            CauseChange::Opens(k) => {
                let was = self.at(k);
                let now = was.opened_by(by);
                self.put(k, now);
            }
            CauseChange::Comes(k) => {
                let was = self.at(k);
                let now = was.come_by(by);
                self.put(k, now);
            }
            CauseChange::Stays => {}
        }
    }
}
