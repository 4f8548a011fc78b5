//! The work of one thread of a test with conditions.
ghost use Rattle.std.specs.Prelude.{[], ◌≡◌, ◌<◌, ◌≤◌};
ghost use Rattle.nub.specs.Ended.{IsDone};
ghost use Rattle.nub.specs.Idle.{IsIdle};

use crate::kept_mutex::wait_or_keep;
use crate::notes::{Notes, await_count};
use condition::{broadcast, signal};
use nub::{CondId, MutexId, Package, Thread};
use std::sync::Wait;
use std::sync::atomic::Ordering;
use sum_uses::SumUses;
use test_support::Part;
use test_turns::{Turn, Wake, take_turn};

/// The task of the threads of a test with conditions.
#[derive(Clone, Copy)]
pub enum Waits {
    /// It signals and broadcasts while no thread waits.
    Wakes,
    /// Threads 0 and 1 add in turns, this many times, each waiting in a condition of its own, and
    /// signal while they hold the mutex.
    Turns(u32),
    /// Threads 0 and 1 add in turns too, but signal after the release of the mutex, while the other
    /// may be anywhere between its count and its sleep.
    TurnsAfter(u32),
    /// Each pair of threads adds in turns, this many times, in a mutex and a condition of its own,
    /// if there are enough.
    TurnsApart(u32),
    /// Threads 0 and 1 put this many items each into a ring of one place, and threads 2 and 3 take
    /// as many each.
    Ring(u32),
    /// All threads but thread 0 wait in one condition until the value isn't 0, and thread 0
    /// broadcasts once when this many do.
    Gather(u64),
    /// Thread 0 waits this many times with mutex 1, and thread 1 wakes it and keeps mutex 0 until
    /// it has gone on.
    KeepsFirst(u32),
    /// The same, with the mutexes exchanged.
    KeepsSecond(u32),
}

/// Signals and broadcasts while no thread waits.
fn wakes<R: Wait>(rt: &R, pkg: &Package<SumUses>, mut me: Thread<SumUses>) -> Thread<SumUses>
    requires named { 0 < pkg.now.layout.conditions }
    requires idle { IsIdle pkg.now me.number [] me }
    ensures { IsDone pkg.now me.number result }
{
    signal(rt, pkg, &mut me, CondId(0));
    broadcast(rt, pkg, &mut me, CondId(0));
    me
}

/// Adds 1 `times` times, each time when the value has its parity, and wakes one thread in the other
/// condition.
fn turns<R: Wait>(
    rt: &R,
    pkg: &Package<SumUses>,
    mut me: Thread<SumUses>,
    turn: Turn,
    other: CondId,
    times: u32,
) -> Thread<SumUses>
    requires named { (turn.mutex.0 < 64) × (turn.mutex.0 < pkg.now.layout.mutexes)
        × (turn.cond.0 < pkg.now.layout.conditions) × (other.0 < pkg.now.layout.conditions) }
    requires idle { IsIdle pkg.now me.number [] me }
    ensures { IsDone pkg.now me.number result }
{
    let parity = (me.number() % 2) as u64;
    for _i in 0..times {
        take_turn(
            rt,
            pkg,
            &mut me,
            turn,
            &|x: u64| -> bool { x % 2 == parity },
            &|_x: u64| -> Wake { Wake::One(other) },
        );
    }
    me
}

/// Puts `times` items into the ring, or takes as many.
fn ring<R: Wait>(
    rt: &R,
    pkg: &Package<SumUses>,
    mut me: Thread<SumUses>,
    times: u32,
    notes: &Notes,
) -> Thread<SumUses>
    requires named { (0 < pkg.now.layout.mutexes) × (1 < pkg.now.layout.conditions) }
    requires idle { IsIdle pkg.now me.number [] me }
    ensures { IsDone pkg.now me.number result }
{
    let number = me.number();
    let (own, other) = (CondId(number / 2 % 2), CondId((number / 2 + 1) % 2));
    let turn = Turn {
        mutex: MutexId(0),
        cond: own,
        after: false,
    };
    for i in 0..times {
        let part = move |_x: u64| -> Wake {
            if number < 2 {
                notes.ring.put(number as u64, i as u64);
            } else {
                notes.ring.take();
            }
            Wake::One(other)
        };
        // The place is empty if the value is even: then it is a maker's turn, and otherwise a
        // taker's.
        take_turn(
            rt,
            pkg,
            &mut me,
            turn,
            &move |x: u64| -> bool { (x % 2 == 0) == (number < 2) },
            &part,
        );
    }
    me
}

/// Broadcasts once this many threads wait, or waits for that. The note counts the threads that have
/// found the value 0 and so wait before they release the mutex: a thread that gets the mutex after
/// the last of them finds all in the condition.
fn gather<R: Wait>(
    rt: &R,
    pkg: &Package<SumUses>,
    mut me: Thread<SumUses>,
    count: u64,
    notes: &Notes,
) -> Thread<SumUses>
    requires named { (0 < pkg.now.layout.mutexes) × (0 < pkg.now.layout.conditions) }
    requires idle { IsIdle pkg.now me.number [] me }
    ensures { IsDone pkg.now me.number result }
{
    let turn = Turn {
        mutex: MutexId(0),
        cond: CondId(0),
        after: false,
    };
    let opens = me.number() == 0;
    if opens {
        await_count(rt, &notes.begun, count);
    }
    let may_go = move |x: u64| -> bool {
        if !opens && x == 0 {
            let _ = notes.begun.fetch_add(1, Ordering::SeqCst);
        }
        opens || x != 0
    };
    let part = move |_x: u64| -> Wake {
        if opens {
            Wake::All(CondId(0))
        } else {
            Wake::Nobody
        }
    };
    take_turn(rt, pkg, &mut me, turn, &may_go, &part);
    me
}

/// Takes turns with the other thread under mutex 0, in conditions 0 and 1.
fn alternate<R: Wait>(
    rt: &R,
    pkg: &Package<SumUses>,
    me: Thread<SumUses>,
    after: bool,
    times: u32,
) -> Thread<SumUses>
    requires named { (0 < pkg.now.layout.mutexes) × (1 < pkg.now.layout.conditions) }
    requires idle { IsIdle pkg.now me.number [] me }
    ensures { IsDone pkg.now me.number result }
{
    let own = me.number() % 2;
    let turn = Turn {
        mutex: MutexId(0),
        cond: CondId(own),
        after,
    };
    turns(rt, pkg, me, turn, CondId((own + 1) % 2), times)
}

/// The task of the threads of a test, and where they leave what they see.
#[derive(Drop)]
pub struct WaitPart<'a>(pub Waits, pub &'a Notes);

impl Part for WaitPart<'_> {
    fn act<R: Wait>(&self, rt: &R, pkg: &Package<SumUses>, me: Thread<SumUses>) -> Thread<SumUses> {
        let notes = self.1;
        let number = me.number();
        match self.0 {
            Waits::Wakes => wakes(rt, pkg, me),
            Waits::Turns(times) => alternate(rt, pkg, me, false, times),
            Waits::TurnsAfter(times) => alternate(rt, pkg, me, true, times),
            Waits::TurnsApart(times) => {
                let layout = pkg.layout();
                let cond = CondId(number / 2 % layout.conditions);
                let turn = Turn {
                    mutex: MutexId(number / 2 % layout.mutexes),
                    cond,
                    after: false,
                };
                turns(rt, pkg, me, turn, cond, times)
            }
            Waits::Ring(times) => ring(rt, pkg, me, times, notes),
            Waits::Gather(count) => gather(rt, pkg, me, count, notes),
            Waits::KeepsFirst(times) => {
                wait_or_keep(rt, pkg, me, MutexId(1), MutexId(0), times, notes)
            }
            Waits::KeepsSecond(times) => {
                wait_or_keep(rt, pkg, me, MutexId(0), MutexId(1), times, notes)
            }
        }
    }
}
