//! The lines of a script that were read so far.
ghost use Rattle.std.specs.Prelude.{◌≡◌, ◌+◌, ◌*◌, ◌<◌, ◌↔◌, IsTrue, OnOk, true, not, []};
ghost use Rattle.std.specs.List.{list_all};
ghost use Rattle.larch_actions.specs.Layout.{IsLawful};
ghost use Rattle.script_text.specs.Operations.{Holding, Forked, MayCome, is_born, holding_with, held_after, none_held, forked_with, AllFree};
ghost use Rattle.script_text.specs.Table.{use_of, fate_of};
ghost use Rattle.script_text.specs.Held.{Shows, Marks, UseWithin, FateWithin};
ghost use Rattle.script_text.specs.NextLine.{lives, may_use, may_meet, may_do, may_stand_first, first_count};
ghost use Rattle.script_text.specs.Drafts.{IsDraft, Takes, held_in, forked_in};

use crate::line::{Line, Operation};
use crate::table::{Fate, Numbers, Use, Word, make, mutex_use, thread_fate};
use larch_actions::{Layout, MutexId, Version};
use std::alloc::{AllocError, Global};

/// The lines so far, which thread holds which mutex after them, and which threads they forked.
#[derive(Drop)]
pub struct Draft {
    pub layout: Layout,
    pub lines: Vec<Line>,
    pub held: [bool; 16384],
    pub forked: [bool; 256],
}

// Where the table says whether the thread holds the mutex.
#[inline]
fn entry(thread: u32, mutex: MutexId, layout: &Layout) -> usize
    requires lawful { IsLawful layout.now }
    requires thread { thread < layout.now.threads }
    requires mutex { mutex.0 < layout.now.mutexes }
    ensures at { result ≡ 64 * thread + mutex.0 }
    ensures within { result < 16384 }
{
    64 * thread as usize + mutex.0 as usize
}

// Whether the thread may use the mutex so.
fn may_use(held: &[bool], thread: u32, wanted: Use, layout: &Layout) -> bool
    requires lawful { IsLawful layout.now }
    requires thread { thread < layout.now.threads }
    requires within { UseWithin layout.now wanted }
    requires shows { (h : Holding) × Shows held.now h }
    ensures { (h : Holding) → Shows held.now h → result ≡ may_use h thread wanted }
{
    match wanted {
        Use::Takes(mutex) => !held[entry(thread, mutex, layout)],
        Use::Gives(mutex) => held[entry(thread, mutex, layout)],
        Use::Needs(mutex) => held[entry(thread, mutex, layout)],
        Use::Nothing => true,
    }
}

// Notes that the thread has used it so.
fn note_use(held: &mut [bool], thread: u32, used: Use, layout: &Layout)
    requires lawful { IsLawful layout.now }
    requires thread { thread < layout.now.threads }
    requires within { UseWithin layout.now used }
    requires shows { (h : Holding) × Shows held.old h }
    ensures { (h : Holding) → Shows held.old h → Shows held.new (holding_with h thread used) }
{
    match used {
        Use::Takes(mutex) => held[entry(thread, mutex, layout)] = true,
        Use::Gives(mutex) => held[entry(thread, mutex, layout)] = false,
        Use::Needs(_) => {}
        Use::Nothing => {}
    }
}

// Whether the thread is thread 0, or was forked.
#[inline]
fn born(forked: &[bool], thread: u32) -> bool
    requires thread { thread < 256 }
    requires marks { (f : Forked) × Marks forked.now f }
    ensures { (f : Forked) → Marks forked.now f → result ≡ is_born f thread }
{
    thread == 0 || forked[thread as usize]
}

// Whether a thread that lives may do this with a thread.
fn may_meet(forked: &[bool], version: Version, thread: u32, fate: Fate) -> bool
    requires few { FateWithin fate }
    requires marks { (f : Forked) × Marks forked.now f }
    ensures { (f : Forked) → Marks forked.now f → result ≡ may_meet version f thread fate }
{
    match fate {
        Fate::Begins(who) => match version {
            Version::One => false,
            Version::Two => !born(forked, who.0),
        },
        Fate::Awaits(who) => match version {
            Version::One => false,
            Version::Two => who.0 != thread && forked[who.0 as usize],
        },
        Fate::Nothing => true,
    }
}

// Notes that this was done with a thread.
fn note_fate(forked: &mut [bool], fate: Fate)
    requires few { FateWithin fate }
    requires marks { (f : Forked) × Marks forked.old f }
    ensures { (f : Forked) → Marks forked.old f → Marks forked.new (forked_with f fate) }
{
    match fate {
        Fate::Begins(who) => forked[who.0 as usize] = true,
        Fate::Awaits(_) => {}
        Fate::Nothing => {}
    }
}

// Whether no entry is set.
fn none_set(table: &[bool]) -> bool
    ensures { result ≡ list_all (λ b. not b) table.now }
{
    table.iter().all(|set| !*set)
}

impl Draft {
    /// No line yet.
    pub fn new(alloc: Global, layout: Layout) -> Draft
        requires { IsLawful layout }
        ensures layout { result.layout ≡ layout }
        ensures lines { result.lines.items ≡ [] }
        ensures draft { IsDraft result }
    {
        Draft {
            layout,
            lines: Vec::new(alloc),
            held: [false; 16384],
            forked: [false; 256],
        }
    }

    /// Whether the thread may have a line.
    pub fn lives(&self, thread: u32) -> bool
        requires draft { IsDraft self.now }
        requires thread { thread < self.now.layout.threads }
        ensures { result ≡ lives self.now.layout.version (forked_in self.now) thread }
    {
        match self.layout.version {
            Version::One => true,
            Version::Two => born(&self.forked, thread),
        }
    }

    // Whether a thread that lives may do this.
    fn may_do(&self, thread: u32, operation: &Operation) -> bool
        requires draft { IsDraft self.now }
        requires thread { thread < self.now.layout.threads }
        requires within { UseWithin self.now.layout (use_of operation.now) }
        requires few { FateWithin (fate_of operation.now) }
        ensures { result ≡ may_do self.now.layout.version (held_in self.now) (forked_in self.now) thread operation.now }
    {
        may_use(&self.held, thread, mutex_use(operation), &self.layout)
            && may_meet(
                &self.forked,
                self.layout.version,
                thread,
                thread_fate(operation),
            )
    }

    /// Whether the number may stand first after the word in a line of this thread.
    pub fn may_stand_first(&self, thread: u32, word: Word, number: u32) -> bool
        requires draft { IsDraft self.now }
        requires thread { thread < self.now.layout.threads }
        requires number { number < first_count self.now.layout word }
        ensures { result ≡ may_stand_first self.now.layout.version (held_in self.now) (forked_in self.now) thread word number }
    {
        let numbers = Numbers {
            first: u64::from(number),
            second: 0,
            third: 0,
        };
        let operation = make(word, numbers);
        self.may_do(thread, &operation)
    }

    /// Takes a line that may come next.
    pub fn take(&mut self, line: Line) -> Result<(), AllocError>
        requires draft { IsDraft self.old }
        requires may { MayCome self.old.layout (held_in self.old) (forked_in self.old) line }
        ensures taken { OnOk result (Takes self.old self.new line) }
        ensures layout { self.new.layout ≡ self.old.layout }
    {
        self.lines.push(line)?;
        let used = mutex_use(&line.operation);
        note_use(&mut self.held, line.thread.0, used, &self.layout);
        note_fate(&mut self.forked, thread_fate(&line.operation));
        Ok(())
    }

    /// Whether no thread holds a mutex.
    pub fn is_free(&self) -> bool
        requires { IsDraft self.now }
        ensures { IsTrue result ↔ AllFree (held_after none_held self.now.lines.items) }
    {
        none_set(&self.held)
    }
}
