//! Opening and closing a package.
ghost use Rattle.std.specs.Prelude.{◌≡◌, ℕ, ◌+◌, ◌≤◌, ◌++◌, List, [], Some, None, true, false, length, vec_capacity, IfOk, is_ok};
ghost use Rattle.larch_actions.specs.declared.event.Event.{Event};
ghost use Rattle.larch_actions.specs.Layout.{IsLawful};
ghost use Rattle.larch_actions.specs.declared.event.Version.TheVariants.{One, Two};
ghost use Rattle.nub_rule.specs.Ends.{firsts};
ghost use Rattle.nub_rule.specs.Forks.{AreAll, IsUnborn, in_order};
ghost use Rattle.nub_rule.specs.Items.{Each};
ghost use Rattle.nub.specs.Ended.{IsFirst, IsDone, KeepsLocks, KeepsStints, IsWhole, trace_of};
ghost use Rattle.nub.specs.Forks.{IsLeft, IsRight};
ghost use Rattle.nub.specs.History.{AreStored};

use super::closed::Closed;
use super::trace_order::in_order;
use larch_actions::{Event, Layout};
use nub_rule::{Ended, Package, Remains, Stored, Thread, Unborn, Uses};
use std::alloc::{AllocError, Global};
use std::mem::ManuallyDrop;
use std::snapshot::Snapshot;

/// Opens a package of version one, and returns it with its threads, in order of their numbers.
/// `values` are the first values of the mutexes. If `traced` is true, the events are numbered and
/// stored.
///
/// Fails only if there is no memory, and the values are dropped then.
///
/// ```rust
/// let (p, threads) = open_package::<Numbers>(alloc, layout, &(), rings, false)?;
/// ```
pub fn open_package<U: Uses>(
    alloc: Global,
    layout: Layout,
    world: &U::World,
    values: Vec<U::Value>,
    traced: bool,
) -> Result<(Package<U>, Vec<Thread<U>>), AllocError>
    requires lawful { IsLawful layout }
    requires version { layout.version ≡ One }
    requires values { length values.items ≡ layout.mutexes }
    requires holds { U.holds world.now values.items (firsts (U.begin world.now) layout.threads) }
    ensures package { IfOk result (λ o. (o.0.layout ≡ layout) × (o.0.traced ≡ traced) × (o.0.world ≡ world.now)) }
    ensures count { IfOk result (λ o. length o.1.items ≡ layout.threads) }
    ensures threads { IfOk result (λ o. Each (IsFirst o.0 U.begin) o.1.items) }
{
    let (package, threads) = nub_rule::open_package(alloc, layout, world, values, traced)?;
    Ok((package, threads))
}

/// Opens a package of version two, whose threads begin and end in the history. Returns it with its
/// first thread, and with the rights to fork the others, in order of their numbers. `values` are
/// the first values of the mutexes. If `traced` is true, the events are numbered and stored.
///
/// Fails only if there is no memory, and the values are dropped then.
///
/// ```rust
/// let (pkg, first, rights) = open_forked::<SumUses>(alloc, layout, &(), values, traced)?;
/// ```
pub fn open_forked<U: Uses>(
    alloc: Global,
    layout: Layout,
    world: &U::World,
    values: Vec<U::Value>,
    traced: bool,
) -> Result<(Package<U>, Thread<U>, Vec<Unborn<U>>), AllocError>
    requires lawful { IsLawful layout }
    requires version { layout.version ≡ Two }
    requires values { length values.items ≡ layout.mutexes }
    requires holds { U.holds world.now values.items (firsts (U.begin world.now) layout.threads) }
    ensures package { IfOk result (λ o. (o.0.layout ≡ layout) × (o.0.traced ≡ traced) × (o.0.world ≡ world.now)) }
    ensures first { IfOk result (λ o. IsFirst o.0 U.begin 0 o.1) }
    ensures count { IfOk result (λ o. length o.2.items + 1 ≡ layout.threads) }
    ensures rights { IfOk result (λ o. Each (λ n k. IsRight o.0 U.begin (n + 1) k) o.2.items) }
{
    let room = Vec::with_capacity(alloc, layout.threads as usize)?;
    let (package, mut threads) = nub_rule::open_package(alloc, layout, world, values, traced)?;
    let first = threads.remove(0);
    Ok((package, first, rights_of(threads, room)))
}

// Turns these threads into rights to fork them, in a list that has room.
fn rights_of<U: Uses>(threads: Vec<Thread<U>>, mut rights: Vec<Unborn<U>>) -> Vec<Unborn<U>>
    requires unborn { Each (λ _ t. IsUnborn U.begin t) threads.items }
    requires room { (rights.items ≡ []) × (length threads.items ≤ vec_capacity rights) }
    ensures { result.items ≡ threads.items }
{
    for thread in threads {
        rights.push_reserved(Unborn::of(thread));
    }
    rights
}

/// Closes a package whose threads have all come back, in order of their numbers, each at rest and
/// without a mutex. Returns the last values and, if the run was traced, the history.
///
/// Fails only in a traced run, and only if there is no memory, now or earlier, when a thread's list
/// lost an entry. The values are dropped then.
///
/// ```rust
/// let closed = close_package(p, threads)?;
/// ```
pub fn close_package<U: Uses>(
    p: Package<U>,
    threads: Vec<Thread<U>>,
) -> Result<Closed<U>, AllocError>
    requires version { p.layout.version ≡ One }
    requires count { length threads.items ≡ p.layout.threads }
    requires threads { Each (IsDone p) threads.items }
    ensures layout { IfOk result (λ c. c.layout ≡ p.layout) }
    ensures threads { IfOk result (λ c. c.threads ≡ threads.items) }
    ensures values { IfOk result (λ c. (length c.values ≡ p.layout.mutexes) × KeepsLocks (U.holds p.world) threads.items c.values) }
    ensures untraced { p.traced ≡ false → (is_ok result ≡ true) × IfOk result (λ c. c.trace ≡ None) }
    ensures traced { p.traced ≡ true → IfOk result (λ c. (h : List Event) × (c.trace ≡ Some h) × IsWhole p.layout threads.items h) }
    ensures stints { p.traced ≡ true → IfOk result (λ c. (h : List Event) × (c.trace ≡ Some h)
        × KeepsStints (U.holds p.world) threads.items c.values h) }
{
    let alloc = *threads.allocator();
    let layout = p.layout();
    let traced = p.traced();
    let threads = ManuallyDrop::new(threads);
    let last = Snapshot::of(&threads);
    let Remains { values, stored } = nub_rule::close_package(
        alloc,
        p,
        ManuallyDrop::into_inner(threads),
    );
    let recorded = history(alloc, traced, stored.as_slice());
    drop(stored);
    let trace = recorded?;
    Ok(Closed {
        layout,
        values,
        trace,
        threads: last,
        over: Snapshot::of(&ManuallyDrop::new(Vec::new(alloc))),
        never: Snapshot::of(&ManuallyDrop::new(Vec::new(alloc))),
    })
}

/// Closes a package of `open_forked`. Its threads must all have come back, each once and in any
/// order: those that have ended, and the rights to fork the others. Returns the last values and, if
/// the run was traced, the history.
///
/// Fails only in a traced run, and only if there is no memory, now or earlier, when a thread's list
/// lost an entry. The values are dropped then.
///
/// ```rust
/// Ok(close_forked(pkg, ended, unborn)?)
/// ```
pub fn close_forked<U: Uses>(
    p: Package<U>,
    ended: Vec<Ended<U>>,
    unborn: Vec<Unborn<U>>,
) -> Result<Closed<U>, AllocError>
    requires version { p.layout.version ≡ Two }
    requires left { Each (λ _ k. IsLeft p k) (ended.items ++ unborn.items) }
    requires all { AreAll p.layout.threads (ended.items ++ unborn.items) }
    ensures layout { IfOk result (λ c. c.layout ≡ p.layout) }
    ensures threads { IfOk result (λ c. c.threads ≡ in_order p.layout.threads (ended.items ++ unborn.items)) }
    ensures values { IfOk result (λ c. (length c.values ≡ p.layout.mutexes) × KeepsLocks (U.holds p.world) c.threads c.values) }
    ensures untraced { p.traced ≡ false → (is_ok result ≡ true) × IfOk result (λ c. c.trace ≡ None) }
    ensures traced { p.traced ≡ true → IfOk result (λ c. (h : List Event) × (c.trace ≡ Some h) × IsWhole p.layout c.threads h) }
    ensures stints { p.traced ≡ true → IfOk result (λ c. (h : List Event) × (c.trace ≡ Some h)
        × KeepsStints (U.holds p.world) c.threads c.values h) }
{
    let alloc = *ended.allocator();
    let layout = p.layout();
    let traced = p.traced();
    let ended = ManuallyDrop::new(ended);
    let unborn = ManuallyDrop::new(unborn);
    let over = Snapshot::of(&ended);
    let never = Snapshot::of(&unborn);
    let Remains { values, stored } = nub_rule::close_forked(
        alloc,
        p,
        ManuallyDrop::into_inner(ended),
        ManuallyDrop::into_inner(unborn),
    );
    let recorded = history(alloc, traced, stored.as_slice());
    drop(stored);
    let trace = recorded?;
    Ok(Closed {
        layout,
        values,
        trace,
        threads: Snapshot::of(&ManuallyDrop::new(Vec::new(alloc))),
        over,
        never,
    })
}

// Returns the history that the threads have stored, if the run was traced.
fn history(alloc: Global, traced: bool, stored: &[Stored]) -> Result<Option<Vec<Event>>, AllocError>
    requires { traced ≡ true → (h : List Event) × AreStored h stored.now }
    ensures untraced { traced ≡ false → (is_ok result ≡ true) × IfOk result (λ t. trace_of t ≡ None) }
    ensures traced { traced ≡ true → (h : List Event) → AreStored h stored.now → IfOk result (λ t. trace_of t ≡ Some h) }
{
    if !traced {
        return Ok(None);
    }
    let events = in_order(alloc, stored)?;
    Ok(Some(events))
}
