//! The run of a script of version two, whose threads are forked and end in it.
ghost use Rattle.std.specs.Prelude.{◌≡◌, ◌<◌, ℕ, List, map, length, slice_index, IfOk, Some};
ghost use Rattle.std.specs.Thread.{IsSync};
ghost use Rattle.std.specs.List.{AllByRecursion};
ghost use Rattle.larch_actions.specs.declared.event.Event.{Event};
ghost use Rattle.larch_actions.specs.declared.event.Version.TheVariants.{Two};
ghost use Rattle.larch_actions.specs.Layout.{HasNames};
ghost use Rattle.larch_actions.specs.Actions.{IsClosed, by_thread};
ghost use Rattle.script_text.specs.Text.{IsScript};
ghost use Rattle.script_text.specs.Runs.{AreEventsOf, total};
ghost use Rattle.script_run.specs.Slots.{AreRegions, MayPlay, AreOver, slot_number};
ghost use Rattle.script_text.specs.Visited.{AreVisited};

use crate::cut::cut_in_two;
use crate::places::{ends, place};
use crate::regions::order_of;
use crate::run::{own_events, zeros};
use crate::slots::Slot;
use nub::{Closed, close_forked, open_forked};
use nub_rule::Package;
use package_crew::BeforeStart;
use script_text::{Line, Script};
use std::alloc::{AllocError, Global};
use std::sync::Wait;
use std::thread::{Threads, join_mut};
use sum_uses::SumUses;

// What all threads of a run share.
#[derive(Drop)]
struct Stage<'a, R, G> {
    rt: &'a R,
    pkg: &'a Package<SumUses>,
    lines: &'a [Line],
    before_start: &'a G,
}

// Plays the threads of all slots to their ends: cuts the slots in two, and plays each part beside
// the other. If several threads may go on, the last of them is the second part, and is started
// here, and so are all that were forked together. If each were started by the one before, each
// start would wait until the last runs, and each end until the last ends.
//
// If no thread can be made, the first part comes first: it has the threads whose ends the second
// may await.
fn play_all<R: Threads + Wait + Sync, G: BeforeStart>(stage: &Stage<'_, R, G>, slots: &mut [Slot])
    requires script { IsScript stage.now.pkg.now.layout stage.now.lines.now }
    requires version { stage.now.pkg.now.layout.version ≡ Two }
    requires few { length stage.now.lines.now < 100000 }
    requires any { 0 < length slots.old }
    requires regions { AreRegions stage.now.pkg.now stage.now.lines.now slots.old }
    ensures { AreOver stage.now.pkg.now stage.now.lines.now (map slot_number slots.old) slots.new }
{
    let cut = cut_in_two(stage.rt, stage.pkg, stage.lines, stage.before_start, slots);
    let (first, rest) = slots.split_at_mut(cut.at);
    if cut.is_rest_over {
        if cut.at > 0 {
            play_all(stage, first);
        }
        return;
    }
    join_mut(
        stage.rt,
        &mut ||
            requires sync { IsSync R.row }
            requires part { MayPlay stage.now.pkg.now stage.now.lines.now rest.now }
            ensures { AreOver stage.entry.now.pkg.now stage.entry.now.lines.now (map slot_number rest.entry.now) rest.exit.now }
        { play_all(stage, rest) },
        &mut ||
            requires sync { IsSync R.row }
            requires part { MayPlay stage.now.pkg.now stage.now.lines.now first.now }
            ensures { AreOver stage.entry.now.pkg.now stage.entry.now.lines.now (map slot_number first.entry.now) first.exit.now }
        { play_all(stage, first) },
    );
}

/// Runs a script of version two. Thread 0 is played here. Each other thread is started once it is
/// forked, beside the rest of the lines of the thread that forks it, or before these if no thread
/// can be made. Each calls `before_start` before its first line.
pub fn run_forked<R: Threads + Wait + Sync, G: BeforeStart>(
    rt: &R,
    alloc: Global,
    script: &Script,
    before_start: &G,
) -> Result<Closed<SumUses>, AllocError>
    requires version { script.now.layout.version ≡ Two }
    ensures layout { IfOk result (λ c. c.layout ≡ script.now.layout) }
    ensures trace { IfOk result (λ c. (h : List Event) × (c.trace ≡ Some h) × IsClosed script.now.layout.version h
        × AllByRecursion (HasNames script.now.layout) h × ((t : ℕ) → t < script.now.layout.threads
        → AreEventsOf script.now.layout.version script.now.lines t (by_thread t h))) }
    ensures visits { IfOk result (λ c. (h : List Event) × (c.trace ≡ Some h) × AreVisited script.now.layout script.now.lines h) }
    ensures count { IfOk result (λ c. length c.values ≡ script.now.layout.mutexes) }
    ensures values { IfOk result (λ c. (m : ℕ) → m < script.now.layout.mutexes → slice_index c.values m ≡ total script.now.lines m) }
{
    let layout = script.layout();
    let lines = script.lines();
    let values = zeros(alloc, layout.mutexes)?;
    let order = order_of(alloc, lines)?;
    let over = Vec::with_capacity(alloc, order.len())?;
    let (pkg, mut first, rights) = open_forked::<SumUses>(alloc, layout, &(), values, true)?;
    first.reserve(own_events(lines, 0) + 1)?;
    let (mut slots, others) = place(alloc, first, rights, &order[..order.len() - 1])?;
    let stage = Stage {
        rt,
        pkg: &pkg,
        lines,
        before_start,
    };
    play_all(&stage, slots.as_mut_slice());
    close_forked(pkg, ends(slots, over), others)
}
