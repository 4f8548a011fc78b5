//! The work of each of the three threads.
ghost use Rattle.std.specs.Prelude.{◌≡◌, ◌<◌, ◌++◌, ◌∷◌, [], false};
ghost use Rattle.nub.specs.Ended.{IsFirst};
ghost use Rattle.bounded_buffer.specs.At.{IsNamed};
ghost use Rattle.bounded_buffer.specs.Plain.{IsPlain};
ghost use Rattle.example_pipeline.specs.Stages.{squared, HasBuffers, HasEnded, IsMade, IsStage, IsTaken, IsWorked};

use bounded_buffer::{BufferAt, PlainBuffers, plain_buffer, put_anyway, shut_plain, take_anyway};
use nub::{Package, Thread};
use std::alloc::Global;
use std::sync::Wait;

/// The use of the package: each mutex protects a buffer of numbers.
pub type Numbers = PlainBuffers<u64>;

/// The items that came out, and whether there was no memory for some of them.
#[derive(Drop)]
pub struct Came {
    pub items: Vec<u64>,
    pub lost: bool,
}

impl Came {
    /// Returns an empty list of items, none of them lost.
    fn none(alloc: Global) -> Came
        ensures { (result.items.items ≡ []) × (result.lost ≡ false) }
    {
        Came {
            items: Vec::new(alloc),
            lost: false,
        }
    }

    /// Adds the item, if there is memory for it.
    fn add(&mut self, item: u64)
        ensures { self.new.lost ≡ false → (self.old.lost ≡ false) × (self.new.items.items ≡ self.old.items.items ++ item ∷ []) }
    {
        if self.items.push(item).is_err() {
            self.lost = true;
        }
    }
}

/// Returns the square of one number, modulo 2^64.
fn square(number: u64) -> u64
    ensures { result ≡ squared number }
{
    number.wrapping_mul(number)
}

/// Returns the first buffer, of numbers, or the second, of squares.
fn buffer(p: &Package<Numbers>, number: u32) -> BufferAt
    requires few { number < 2 }
    requires two { HasBuffers p.now.layout }
    ensures named { IsNamed p.now.layout result × IsPlain result }
    ensures mutex { result.mutex.0 ≡ number }
{
    plain_buffer(number)
}

/// The maker: puts the numbers below `count` into the first buffer, and shuts it.
fn make<R: Wait>(
    rt: &R,
    p: &Package<Numbers>,
    mut me: Thread<Numbers>,
    count: u32,
) -> Thread<Numbers>
    requires named { HasBuffers p.now.layout }
    requires first { IsFirst p.now (λ w t. []) me.number me }
    ensures { HasEnded (IsMade count) p.now me.number result }
{
    let numbers = buffer(p, 0);
    for i in 0..count {
        let Ok(_) = put_anyway(rt, p, &mut me, &numbers, i as u64) else {
            return me;
        };
    }
    shut_plain(rt, p, &mut me, &numbers);
    me
}

/// The worker: takes each number from the first buffer, puts its square into the second, and shuts
/// that when no more come.
fn square_all<R: Wait>(rt: &R, p: &Package<Numbers>, mut me: Thread<Numbers>) -> Thread<Numbers>
    requires named { HasBuffers p.now.layout }
    requires first { IsFirst p.now (λ w t. []) me.number me }
    ensures { HasEnded IsWorked p.now me.number result }
{
    let numbers = buffer(p, 0);
    let squares = buffer(p, 1);
    for _ in rt.forever() {
        match take_anyway(rt, p, &mut me, &numbers) {
            Ok((_, number)) => {
                let Ok(_) = put_anyway(rt, p, &mut me, &squares, square(number)) else {
                    return me;
                };
            }
            Err(_) => {
                shut_plain(rt, p, &mut me, &squares);
                return me;
            }
        }
    }
    unreachable!()
}

/// The taker: takes everything from the second buffer.
fn take_all<R: Wait>(
    rt: &R,
    alloc: Global,
    p: &Package<Numbers>,
    mut me: Thread<Numbers>,
) -> (Thread<Numbers>, Came)
    requires named { HasBuffers p.now.layout }
    requires first { IsFirst p.now (λ w t. []) me.number me }
    ensures { HasEnded (IsTaken result.1) p.now me.number result.0 }
{
    let squares = buffer(p, 1);
    let mut came = Came::none(alloc);
    for _ in rt.forever() {
        match take_anyway(rt, p, &mut me, &squares) {
            Ok((_, item)) => came.add(item),
            Err(_) => return (me, came),
        }
    }
    unreachable!()
}

/// Runs the stage of the thread: thread 0 makes, thread 1 works, and thread 2 takes.
pub fn stage<R: Wait>(
    rt: &R,
    alloc: Global,
    p: &Package<Numbers>,
    me: Thread<Numbers>,
    count: u32,
) -> (Thread<Numbers>, Came)
    requires named { HasBuffers p.now.layout }
    requires first { IsFirst p.now (λ w t. []) me.number me }
    ensures { HasEnded (IsStage count result.1 me.number) p.now me.number result.0 }
{
    match me.number() {
        0 => (make(rt, p, me, count), Came::none(alloc)),
        1 => (square_all(rt, p, me), Came::none(alloc)),
        _ => take_all(rt, alloc, p, me),
    }
}
