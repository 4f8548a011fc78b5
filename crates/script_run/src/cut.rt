//! How the slots of a run of version two are split: threads play on until others are to be started
//! beside them.
ghost use Rattle.std.specs.Prelude.{◌≡◌, ◌≢◌, ◌+◌, ◌-◌, ◌<◌, ◌≤◌, ℕ, map, length, slice_get, IfSome, Some, None};
ghost use Rattle.larch_actions.specs.declared.event.Version.TheVariants.{Two};
ghost use Rattle.script_text.specs.Text.{IsScript};
ghost use Rattle.script_run.specs.Slots.{AreForked, AreOver, AreRegions, IsCut, IsRegion, slot_number};

use crate::parts::{end, play_to_fork, start};
use crate::slots::{Slot, boundary};
use larch_actions::ThreadId;
use nub_rule::Package;
use package_crew::BeforeStart;
use script_text::{Line, Operation};
use std::mem;
use std::sync::Wait;
use sum_uses::SumUses;

/// Where slots are cut in two.
#[derive(Clone, Copy)]
pub struct Cut {
    /// The number of slots in the first part, whose threads may all go on.
    pub at: usize,
    /// Whether the threads of the second part have ended. If not, they may go on too.
    pub is_rest_over: bool,
}

// How many slots the thread's region has: those up to its own.
fn width(slots: &[Slot], who: ThreadId) -> usize
    requires { (n : ℕ) × (n < length slots.now) × (slice_get (map slot_number slots.now) n ≡ Some who.0) }
    ensures within { (0 < result) × (result ≤ length slots.now) }
    ensures first { (n : ℕ) → n + 1 < result → slice_get (map slot_number slots.now) n ≢ Some who.0 }
    ensures at { slice_get (map slot_number slots.now) (result - 1) ≡ Some who.0 }
{
    for at in 0..slots.len() {
        if slots[at].number() == who.0 {
            return at + 1;
        }
    }
    unreachable!()
}

// Plays the lines of the thread in the last slot up to the next that forks a thread, and forks that
// thread in its slot. Returns how many slots the region of the forked thread has. If there is no
// such line, the thread ends.
fn advance<R: Wait>(
    rt: &R,
    pkg: &Package<SumUses>,
    lines: &[Line],
    slots: &mut [Slot],
) -> Option<usize>
    requires script { IsScript pkg.now.layout lines.now }
    requires version { pkg.now.layout.version ≡ Two }
    requires few { length lines.now < 100000 }
    requires region { IsRegion pkg.now lines.now slots.old }
    ensures over { result ≡ None → AreOver pkg.now lines.now (map slot_number slots.old) slots.new }
    ensures forked { IfSome result (λ w. AreForked pkg.now lines.now w slots.old slots.new) }
{
    let last = slots.len() - 1;
    let Slot::Live {
        playing,
        next: at,
        is_new: _,
    } = mem::replace(&mut slots[last], Slot::Taken)
    else {
        unreachable!()
    };
    let (playing, next) = play_to_fork(rt, pkg, lines, at, playing);
    if next == lines.len() {
        slots[last] = Slot::Ended(end(rt, pkg, lines, playing));
        return None;
    }
    let Operation::Fork { who } = lines[next].operation else {
        unreachable!()
    };
    let width = width(slots, who);
    let Slot::Unborn(right) = mem::replace(&mut slots[width - 1], Slot::Taken) else {
        unreachable!()
    };
    let (parent, child) = start(rt, pkg, lines, next, playing, right);
    let following = next + 1;
    slots[width - 1] = Slot::Live {
        playing: child,
        next: following,
        is_new: true,
    };
    slots[last] = Slot::Live {
        playing: parent,
        next: following,
        is_new: false,
    };
    Some(width)
}

// Whether the next line of the thread in the last slot forks another. This decides only how many
// threads are started together.
fn forks_next(lines: &[Line], slots: &[Slot]) -> bool {
    let Some(
        Slot::Live {
            playing,
            next,
            is_new: _,
        },
    ) = slots.last()
    else {
        return false;
    };
    let number = playing.me.number();
    for at in *next..lines.len() {
        if lines[at].thread.0 == number {
            return match lines[at].operation {
                Operation::Fork { who: _ } => true,
                _ => false,
            };
        }
    }
    false
}

// Plays the thread in the last slot up to a line that forks another, and on while its next line
// does too. The slots are cut after those of the threads that it has forked.
//
// Not inlined: its frame takes some 20 KB, and the recursion of a run in which each thread forks
// the next would have that at every step.
#[inline(never)]
fn play_on<R: Wait>(rt: &R, pkg: &Package<SumUses>, lines: &[Line], slots: &mut [Slot]) -> Cut
    requires script { IsScript pkg.now.layout lines.now }
    requires version { pkg.now.layout.version ≡ Two }
    requires few { length lines.now < 100000 }
    requires region { IsRegion pkg.now lines.now slots.old }
    ensures { IsCut pkg.now lines.now result.at result.is_rest_over slots.old slots.new }
{
    let mut at = 0;
    loop {
        let (_, rest) = slots.split_at_mut(at);
        let Some(width) = advance(rt, pkg, lines, rest) else {
            return Cut {
                at,
                is_rest_over: true,
            };
        };
        at += width;
        if !forks_next(lines, slots) {
            return Cut {
                at,
                is_rest_over: false,
            };
        }
    }
}

// Lets the thread in the last slot begin, if it hasn't yet.
fn begin_last<G: BeforeStart>(before_start: &G, slots: &[Slot]) {
    if let Some(
        Slot::Live {
            playing,
            next: _,
            is_new: true,
        },
    ) = slots.last()
    {
        before_start.begins(playing.me.number());
    }
}

/// Cuts the slots in two parts that may be played beside each other: before the last region. If
/// there is only that one, its thread first begins, if it hasn't yet, and plays on.
pub fn cut_in_two<R: Wait, G: BeforeStart>(
    rt: &R,
    pkg: &Package<SumUses>,
    lines: &[Line],
    before_start: &G,
    slots: &mut [Slot],
) -> Cut
    requires script { IsScript pkg.now.layout lines.now }
    requires version { pkg.now.layout.version ≡ Two }
    requires few { length lines.now < 100000 }
    requires any { 0 < length slots.old }
    requires regions { AreRegions pkg.now lines.now slots.old }
    ensures { IsCut pkg.now lines.now result.at result.is_rest_over slots.old slots.new }
{
    let at = boundary(slots);
    if at > 0 {
        return Cut {
            at,
            is_rest_over: false,
        };
    }
    begin_last(before_start, slots);
    play_on(rt, pkg, lines, slots)
}
