//! The call that runs a script.
ghost use Rattle.std.specs.Prelude.{◌≡◌, ◌<◌, ◌≤◌, ℕ, List, [], map, replicate, length, slice_index, IfOk, Some};
ghost use Rattle.std.specs.List.{AllByRecursion};
ghost use Rattle.larch_actions.specs.declared.event.Event.{Event};
ghost use Rattle.larch_actions.specs.declared.event.Version.TheVariants.{One};
ghost use Rattle.larch_actions.specs.Layout.{HasNames};
ghost use Rattle.larch_actions.specs.Actions.{IsClosed, by_thread};
ghost use Rattle.nub_rule.specs.Items.{Each};
ghost use Rattle.nub.specs.Ended.{IsFirst};
ghost use Rattle.script_text.specs.Text.{IsScript};
ghost use Rattle.script_text.specs.Runs.{AreEventsOf, total};
ghost use Rattle.script_run.specs.Playing.{IsPlayed, StayFirst};
ghost use Rattle.script_text.specs.Visited.{AreVisited};

use crate::forked::run_forked;
use crate::play::play;
use larch_actions::Version;
use nub::{Closed, close_package, open_package};
use nub_rule::{Package, Thread};
use package_crew::{BeforeStart, at_once};
use script_text::{Line, Operation, Script};
use std::alloc::{AllocError, Global};
use std::sync::Wait;
use std::thread::Threads;
use sum_uses::SumUses;

/// Returns the first numbers of the mutexes: zeros.
pub fn zeros(alloc: Global, count: u32) -> Result<Vec<u64>, AllocError>
    ensures { IfOk result (λ v. v.items ≡ replicate count 0) }
{
    vec![in alloc; 0; count as usize]
}

// How many events the call makes. `until` and `alert-until` count as one wait, since their number
// can't be known beforehand.
fn call_events(operation: &Operation) -> usize
    ensures { result ≤ 2 }
{
    match operation {
        Operation::Add {
            mutex: _,
            number: _,
        } => 0,
        Operation::Wait { mutex: _, cond: _ } => 2,
        Operation::AlertWait { mutex: _, cond: _ } => 2,
        Operation::Until {
            mutex: _,
            cond: _,
            number: _,
        } => 2,
        Operation::AlertUntil {
            mutex: _,
            cond: _,
            number: _,
        } => 2,
        _ => 1,
    }
}

/// Returns how many events the thread's own lines make.
pub fn own_events(lines: &[Line], number: u32) -> usize
    requires { length lines.now < 100000 }
    ensures { result < 200000 }
{
    let mut events = 0;
    for line in lines {
        if line.thread.0 == number {
            events += call_events(&line.operation);
        }
    }
    events
}

// The threads, with room for the events of their lines. If an `until` waits more than once, the
// list grows in the run.
fn with_room(
    mut threads: Vec<Thread<SumUses>>,
    lines: &[Line],
) -> Result<Vec<Thread<SumUses>>, AllocError>
    requires { length lines.now < 100000 }
    ensures count { IfOk result (λ ts. length ts.items ≡ length threads.items) }
    ensures threads { IfOk result (λ ts. StayFirst threads.items ts.items) }
{
    for at in 0..threads.len() {
        let further = own_events(lines, threads[at].number());
        threads[at].reserve(further)?;
    }
    Ok(threads)
}

// Plays the lines of each thread in an operating-system thread of its own, which first calls
// `before_start`.
fn play_all<R: Threads + Wait + Sync, G: BeforeStart>(
    rt: &R,
    alloc: Global,
    pkg: &Package<SumUses>,
    threads: Vec<Thread<SumUses>>,
    lines: &[Line],
    before_start: &G,
) -> Result<Vec<Thread<SumUses>>, AllocError>
    requires version { pkg.now.layout.version ≡ One }
    requires script { IsScript pkg.now.layout lines.now }
    requires few { length lines.now < 100000 }
    requires threads { Each (IsFirst pkg.now (λ w t. [])) threads.items }
    ensures count { IfOk result (λ ts. length ts.items ≡ length threads.items) }
    ensures played { IfOk result (λ ts. Each (IsPlayed pkg.now lines.now) ts.items) }
{
    let (threads, _nothing) = at_once(
        rt,
        alloc,
        threads,
        &|me: Thread<SumUses>| -> (Thread<SumUses>, ())
            requires { IsFirst pkg.now (λ w t. []) me.number me × (pkg.now.layout.version ≡ One) × IsScript pkg.now.layout lines.now
                × (length lines.now < 100000) }
            ensures { IsPlayed pkg.entry.now lines.entry.now me.number result.0 }
        {
            before_start.begins(me.number());
            (play(rt, pkg, me, lines, before_start), ())
        },
    )?;
    Ok(threads)
}

/// Runs a script in a traced package of its own, and closes the package when all threads have
/// ended. In version one there is a thread for each number. In version two there is thread 0 and
/// each thread that a line forks, which is started after that line and the forks that directly
/// follow it. Each thread calls `before_start` once, with its number, before its first line.
///
/// Room for the events is allocated before the first thread starts, or at the thread's fork, with
/// one wait for each `until` and `alert-until`. If these wait more often and there is no memory for
/// that, the run goes on to its end and fails then. If a thread can't be started, its lines are
/// played on the thread that starts it: in version one after all others have been started, and in
/// version two before the rest of the lines of the thread that forks it.
///
/// May block for ever, as the calls of the script may. Fails only if there is no memory.
pub fn run_script<R: Threads + Wait + Sync, G: BeforeStart>(
    rt: &R,
    alloc: Global,
    script: &Script,
    before_start: &G,
) -> Result<Closed<SumUses>, AllocError>
    ensures layout { IfOk result (λ c. c.layout ≡ script.now.layout) }
    ensures trace { IfOk result (λ c. (h : List Event) × (c.trace ≡ Some h) × IsClosed script.now.layout.version h
        × AllByRecursion (HasNames script.now.layout) h × ((t : ℕ) → t < script.now.layout.threads
        → AreEventsOf script.now.layout.version script.now.lines t (by_thread t h))) }
    ensures visits { IfOk result (λ c. (h : List Event) × (c.trace ≡ Some h) × AreVisited script.now.layout script.now.lines h) }
    ensures count { IfOk result (λ c. length c.values ≡ script.now.layout.mutexes) }
    ensures values { IfOk result (λ c. (m : ℕ) → m < script.now.layout.mutexes → slice_index c.values m ≡ total script.now.lines m) }
{
    match script.layout().version {
        Version::One => run_all(rt, alloc, script, before_start),
        Version::Two => run_forked(rt, alloc, script, before_start),
    }
}

// Runs a script of version one.
fn run_all<R: Threads + Wait + Sync, G: BeforeStart>(
    rt: &R,
    alloc: Global,
    script: &Script,
    before_start: &G,
) -> Result<Closed<SumUses>, AllocError>
    requires version { script.now.layout.version ≡ One }
    ensures layout { IfOk result (λ c. c.layout ≡ script.now.layout) }
    ensures trace { IfOk result (λ c. (h : List Event) × (c.trace ≡ Some h) × IsClosed script.now.layout.version h
        × AllByRecursion (HasNames script.now.layout) h × ((t : ℕ) → t < script.now.layout.threads
        → AreEventsOf script.now.layout.version script.now.lines t (by_thread t h))) }
    ensures visits { IfOk result (λ c. (h : List Event) × (c.trace ≡ Some h) × AreVisited script.now.layout script.now.lines h) }
    ensures count { IfOk result (λ c. length c.values ≡ script.now.layout.mutexes) }
    ensures values { IfOk result (λ c. (m : ℕ) → m < script.now.layout.mutexes → slice_index c.values m ≡ total script.now.lines m) }
{
    let layout = script.layout();
    let values = zeros(alloc, layout.mutexes)?;
    let (pkg, threads) = open_package::<SumUses>(alloc, layout, &(), values, true)?;
    let roomy = with_room(threads, script.lines())?;
    let threads = play_all(rt, alloc, &pkg, roomy, script.lines(), before_start)?;
    close_package(pkg, threads)
}
