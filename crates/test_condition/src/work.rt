//! The work of one thread of a test, and what it leaves.
ghost use Rattle.std.specs.Prelude.{◌<◌};
ghost use Rattle.nub.specs.Ended.{IsDone};
ghost use Rattle.test_condition.specs.Free.{IsFree, HasBuffer};

use crate::calls::{Numbers, PutAnswer, TakeAnswer, put_one, shut_it, take_one};
use alerts::{alert, test_alert};
use nub::{Package, Thread, ThreadId};
use std::alloc::Global;
use std::sync::Wait;
use std::sync::atomic::{AtomicU64, Ordering};

/// The number of items that one thread puts, and that both put.
pub const ITEMS_OF_ONE: u32 = 500;

pub const ITEMS: usize = 1000;

/// The number of items that one of four threads puts, and that all four put.
pub const MANY_OF_ONE: u32 = 50_000;

pub const MANY: usize = 200_000;

/// The task of the threads of a test.
#[derive(Clone, Copy)]
pub enum Task {
    /// One thread puts, takes and shuts.
    InTurn,
    /// One thread alerts itself and takes from an empty buffer.
    AlertedTake,
    /// Two threads put, and the one that ends last shuts the buffer; the others take until it is
    /// shut and empty.
    Pass,
    /// Four threads put many items, and the others take them, in the same way.
    PassMany,
    /// Each thread but the last takes once from an empty buffer; the last alerts all others.
    Cancel,
}

/// The results of one thread that put, takes and shuts, in the order of its calls.
#[derive(Drop)]
pub struct InTurn {
    pub first_put: PutAnswer,
    pub second_put: PutAnswer,
    pub first_take: TakeAnswer,
    pub late_put: PutAnswer,
    pub second_take: TakeAnswer,
    pub last_take: TakeAnswer,
}

/// How many items a thread took, and the item that it took under each number.
#[derive(Drop)]
pub struct Taken {
    pub count: u32,
    pub items: [Option<u32>; ITEMS],
}

/// The items that a thread took, in its order, and how many it had no memory for.
#[derive(Drop)]
pub struct TookMany {
    pub items: Vec<u32>,
    pub lost: u32,
}

/// What a thread leaves.
#[derive(Drop)]
pub enum Left {
    InTurn(InTurn),
    /// The result of the take, and whether the thread was still alerted.
    AlertedTake(TakeAnswer, bool),
    /// How many puts were refused.
    Refused(u32),
    Taken(Taken),
    TookMany(TookMany),
    /// It has alerted the others.
    Told,
}

/// Puts two items, takes one, shuts the buffer, and then puts once and takes twice.
fn in_turn<R: Wait>(
    rt: &R,
    pkg: &Package<Numbers>,
    mut me: Thread<Numbers>,
) -> (Thread<Numbers>, Left)
    requires named { HasBuffer pkg.now.layout }
    requires free { IsFree pkg.now me.number me }
    ensures { IsDone pkg.now me.number result.0 }
{
    let first_put = put_one(rt, pkg, &mut me, 7);
    let second_put = put_one(rt, pkg, &mut me, 8);
    let first_take = take_one(rt, pkg, &mut me);
    shut_it(rt, pkg, &mut me);
    let late_put = put_one(rt, pkg, &mut me, 9);
    let second_take = take_one(rt, pkg, &mut me);
    let last_take = take_one(rt, pkg, &mut me);
    let left = InTurn {
        first_put,
        second_put,
        first_take,
        late_put,
        second_take,
        last_take,
    };
    (me, Left::InTurn(left))
}

/// Alerts itself and takes, and then tests whether it is alerted.
fn alerted_take<R: Wait>(
    rt: &R,
    pkg: &Package<Numbers>,
    mut me: Thread<Numbers>,
) -> (Thread<Numbers>, Left)
    requires named { HasBuffer pkg.now.layout }
    requires free { IsFree pkg.now me.number me }
    ensures { IsDone pkg.now me.number result.0 }
{
    alert(rt, pkg, &mut me, ThreadId(0));
    let taken = take_one(rt, pkg, &mut me);
    let still = test_alert(rt, pkg, &mut me);
    (me, Left::AlertedTake(taken, still))
}

/// Takes once, and then tests whether it is alerted.
fn cancelled_take<R: Wait>(
    rt: &R,
    pkg: &Package<Numbers>,
    mut me: Thread<Numbers>,
) -> (Thread<Numbers>, Left)
    requires named { HasBuffer pkg.now.layout }
    requires free { IsFree pkg.now me.number me }
    ensures { IsDone pkg.now me.number result.0 }
{
    let taken = take_one(rt, pkg, &mut me);
    let still = test_alert(rt, pkg, &mut me);
    (me, Left::AlertedTake(taken, still))
}

/// Alerts all threads before this one.
fn alert_others<R: Wait>(
    rt: &R,
    pkg: &Package<Numbers>,
    mut me: Thread<Numbers>,
) -> (Thread<Numbers>, Left)
    requires free { IsFree pkg.now me.number me }
    requires within { me.number < pkg.now.layout.threads }
    ensures { IsDone pkg.now me.number result.0 }
{
    let others = me.number();
    for other in 0..others {
        alert(rt, pkg, &mut me, ThreadId(other));
    }
    (me, Left::Told)
}

/// Puts `times` items, from `first` on. The last thread to end, after `others` others, shuts the
/// buffer.
fn put_many<R: Wait>(
    rt: &R,
    pkg: &Package<Numbers>,
    mut me: Thread<Numbers>,
    first: u32,
    times: u32,
    others: u64,
    ended: &AtomicU64,
) -> (Thread<Numbers>, Left)
    requires named { HasBuffer pkg.now.layout }
    requires free { IsFree pkg.now me.number me }
    ensures { IsDone pkg.now me.number result.0 }
{
    let mut refused: u32 = 0;
    for i in 0..times {
        if put_one(rt, pkg, &mut me, first.wrapping_add(i)).is_err() {
            refused = refused.saturating_add(1);
        }
    }
    if ended.fetch_add(1, Ordering::SeqCst) == others {
        shut_it(rt, pkg, &mut me);
    }
    (me, Left::Refused(refused))
}

/// Takes until the buffer is shut and empty.
fn take_all<R: Wait>(
    rt: &R,
    pkg: &Package<Numbers>,
    mut me: Thread<Numbers>,
) -> (Thread<Numbers>, Left)
    requires named { HasBuffer pkg.now.layout }
    requires free { IsFree pkg.now me.number me }
    ensures { IsDone pkg.now me.number result.0 }
{
    let mut count: u32 = 0;
    let mut items = [None; ITEMS];
    for _ in rt.forever() {
        let Ok((number, item)) = take_one(rt, pkg, &mut me) else {
            return (me, Left::Taken(Taken { count, items }));
        };
        count = count.saturating_add(1);
        if let Some(place) = items.get_mut(number as usize) {
            *place = Some(item);
        }
    }
    unreachable!()
}

/// Takes until the buffer is shut and empty, and keeps all items.
fn take_many<R: Wait>(
    rt: &R,
    alloc: Global,
    pkg: &Package<Numbers>,
    mut me: Thread<Numbers>,
) -> (Thread<Numbers>, Left)
    requires named { HasBuffer pkg.now.layout }
    requires free { IsFree pkg.now me.number me }
    ensures { IsDone pkg.now me.number result.0 }
{
    let mut items = Vec::new(alloc);
    let mut lost: u32 = 0;
    for _ in rt.forever() {
        let Ok((_, item)) = take_one(rt, pkg, &mut me) else {
            return (me, Left::TookMany(TookMany { items, lost }));
        };
        if items.push(item).is_err() {
            lost = lost.saturating_add(1);
        }
    }
    unreachable!()
}

/// Does the task.
pub fn work<R: Wait>(
    rt: &R,
    alloc: Global,
    pkg: &Package<Numbers>,
    me: Thread<Numbers>,
    what: Task,
    ended: &AtomicU64,
) -> (Thread<Numbers>, Left)
    requires named { HasBuffer pkg.now.layout }
    requires free { IsFree pkg.now me.number me }
    requires within { me.number < pkg.now.layout.threads }
    ensures { IsDone pkg.now me.number result.0 }
{
    let number = me.number();
    match what {
        Task::InTurn => in_turn(rt, pkg, me),
        Task::AlertedTake => alerted_take(rt, pkg, me),
        Task::Pass => match number {
            0 => put_many(rt, pkg, me, 0, ITEMS_OF_ONE, 1, ended),
            1 => put_many(rt, pkg, me, ITEMS_OF_ONE, ITEMS_OF_ONE, 1, ended),
            _ => take_all(rt, pkg, me),
        },
        Task::PassMany => {
            if number < 4 {
                put_many(rt, pkg, me, number * MANY_OF_ONE, MANY_OF_ONE, 3, ended)
            } else {
                take_many(rt, alloc, pkg, me)
            }
        }
        Task::Cancel => {
            if number < 4 {
                cancelled_take(rt, pkg, me)
            } else {
                alert_others(rt, pkg, me)
            }
        }
    }
}
