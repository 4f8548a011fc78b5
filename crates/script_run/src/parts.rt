//! The part of one thread of a run of version two: its lines from one on up to its next fork, that
//! fork, and its end.
ghost use Rattle.std.specs.Prelude.{◌≡◌, ◌+◌, ◌<◌, ◌≤◌, ℕ, List, [], length, take, drop, slice_get, Some};
ghost use Rattle.larch_actions.specs.declared.event.ThreadId.{ThreadId};
ghost use Rattle.larch_actions.specs.declared.event.Version.TheVariants.{Two};
ghost use Rattle.nub.specs.Forks.{IsRight};
ghost use Rattle.sum_uses.specs.declared.added.Added.{Added};
ghost use Rattle.script_text.specs.declared.line.Operation.TheVariants.{Fork};
ghost use Rattle.script_text.specs.Text.{IsScript};
ghost use Rattle.script_run.specs.Playing.{IsPlaying};
ghost use Rattle.script_run.specs.Regions.{below};
ghost use Rattle.script_run.specs.Slots.{HasEnded};

use crate::play::play_line;
use crate::run::own_events;
use crate::slots::Playing;
use nub::{end_thread, fork_thread};
use nub_rule::{Ended, Package, Unborn};
use script_text::{Line, Operation};
use std::sync::Wait;
use sum_uses::SumUses;

/// Plays the thread's lines from one of them on, up to the next that forks a thread, and returns
/// the place of that line. If there is no such line, plays them all, and returns how many lines
/// there are.
pub fn play_to_fork<R: Wait>(
    rt: &R,
    pkg: &Package<SumUses>,
    lines: &[Line],
    at: usize,
    playing: Playing,
) -> (Playing, usize)
    requires script { IsScript pkg.now.layout lines.now }
    requires few { length lines.now < 100000 }
    requires at { at ≤ length lines.now }
    requires playing { IsPlaying pkg.now playing.me.number (take at lines.now) playing.numbers playing.me }
    ensures within { (at ≤ result.1) × (result.1 ≤ length lines.now) }
    ensures playing { IsPlaying pkg.now playing.me.number (take result.1 lines.now) result.0.numbers result.0.me }
    ensures none { below (drop at lines.now) playing.me.number ≡ below (drop result.1 lines.now) playing.me.number }
    ensures fork { result.1 < length lines.now
        → (u : ThreadId)
        × (slice_get lines.now result.1 ≡ Some (record { thread = record { 0 = playing.me.number }; operation = Fork u })) }
{
    let Playing {
        mut me,
        mut numbers,
    } = playing;
    let number = me.number();
    for next in at..lines.len() {
        let line = &lines[next];
        if line.thread.0 == number {
            if let Operation::Fork { who: _ } = line.operation {
                return (Playing { me, numbers }, next);
            }
            play_line(rt, pkg, &mut me, &mut numbers, line);
        }
    }
    (Playing { me, numbers }, lines.len())
}

/// Forks the thread of the line, for which this is the right. Returns the forking thread and the
/// new one, which has played no line.
pub fn start<R: Wait>(
    rt: &R,
    pkg: &Package<SumUses>,
    lines: &[Line],
    at: usize,
    parent: Playing,
    right: Unborn<SumUses>,
) -> (Playing, Playing)
    requires script { IsScript pkg.now.layout lines.now }
    requires version { pkg.now.layout.version ≡ Two }
    requires few { length lines.now < 100000 }
    requires parent { IsPlaying pkg.now parent.me.number (take at lines.now) parent.numbers parent.me }
    requires right { IsRight pkg.now (λ w n. let s : List Added = [] in s) right.number right }
    requires fork { slice_get lines.now at
        ≡ Some (record { thread = record { 0 = parent.me.number }; operation = Fork (record { 0 = right.number }) }) }
    ensures parent { IsPlaying pkg.now parent.me.number (take (at + 1) lines.now) result.0.numbers result.0.me }
    ensures child { IsPlaying pkg.now right.number (take (at + 1) lines.now) result.1.numbers result.1.me }
{
    let Playing { mut me, numbers } = parent;
    let who = right.number();
    let Ok(mut child) = fork_thread(rt, pkg, &mut me, right) else {
        unreachable!()
    };
    // Without this room the list would grow in the run.
    let _room = child.reserve(own_events(lines, who) + 1);
    let none = [0u64; 64];
    (
        Playing { me, numbers },
        Playing {
            me: child,
            numbers: none,
        },
    )
}

/// Ends the thread, which has played all its lines.
pub fn end<R: Wait>(
    rt: &R,
    pkg: &Package<SumUses>,
    lines: &[Line],
    playing: Playing,
) -> Ended<SumUses>
    requires script { IsScript pkg.now.layout lines.now }
    requires version { pkg.now.layout.version ≡ Two }
    requires playing { IsPlaying pkg.now playing.me.number lines.now playing.numbers playing.me }
    ensures number { result.number ≡ playing.me.number }
    ensures ended { HasEnded pkg.now lines.now result }
{
    let _all = lines.len();
    let Playing { me, numbers: _ } = playing;
    end_thread(rt, pkg, me)
}
