//! Calls at plain buffers that no alert ends, by threads that keep count of what they have done.
ghost use Rattle.std.specs.Prelude.{◌≡◌, ℕ, List, IfErr, IfOk, OnErr};
ghost use Rattle.bounded_buffer.specs.declared.did.Did.TheVariants.{Put, SawEnd, SawShut, Shut, Took};
ghost use Rattle.bounded_buffer.specs.At.{IsNamed};
ghost use Rattle.bounded_buffer.specs.Parts.{Used};
ghost use Rattle.bounded_buffer.specs.Plain.{IsPlain};
ghost use Rattle.bounded_buffer.specs.Using.{HasUsed, did_at};

use crate::at::BufferAt;
use crate::ends::{PutEnd, TakeEnd};
use crate::plain::PlainBuffers;
use crate::puts::put;
use crate::shuts::shut;
use crate::takes::take;
use nub_rule::{Package, Thread};
use std::sync::Wait;
use thiserror::Error;

/// The ring was shut and is empty.
#[derive(Clone, Copy, Debug, PartialEq, Eq, Error)]
#[error("the buffer is shut and empty")]
pub struct Over;

/// Puts the item as `put` does, and again if an alert ended its wait. Returns the item's number, or
/// the item itself if the ring is shut.
///
/// Blocks as `put` does, but an alert doesn't end the call.
///
/// ```rust
/// let Ok(_) = put_anyway(rt, p, &mut me, &numbers, i as u64) else {
///     return me;
/// };
/// ```
pub fn put_anyway<T: Send + Drop, R: Wait>(
    rt: &R,
    p: &Package<PlainBuffers<T>>,
    me: &mut Thread<PlainBuffers<T>>,
    at: &BufferAt,
    item: T,
) -> Result<u64, T>
    requires named { IsNamed p.now.layout at.now × IsPlain at.now }
    requires used { (n : ℕ) × (us : List (Used T)) × HasUsed p.now n us me.old }
    ensures put { IfOk result (λ k. (n m : ℕ) (us : List (Used T)) → at.now.mutex.0 ≡ m → HasUsed p.now n us me.old
        → HasUsed p.now n (did_at m (Put k item) us) me.new) }
    ensures refused { IfErr result (λ back. (back ≡ item) × ((n m : ℕ) (us : List (Used T)) → at.now.mutex.0 ≡ m → HasUsed p.now n us me.old
        → HasUsed p.now n (did_at m SawShut us) me.new)) }
{
    let mut item = item;
    for _ in rt.forever() {
        match put(rt, p, me, at, item) {
            Ok(number) => return Ok(number),
            Err((PutEnd::Closed, back)) => return Err(back),
            Err((PutEnd::Alerted, back)) => item = back,
        }
    }
    unreachable!()
}

/// Takes the first item as `take` does, and again if an alert ended its wait. Returns the item's
/// number and the item; fails with `Over` if the ring is shut and empty.
///
/// Blocks as `take` does, but an alert doesn't end the call.
///
/// ```rust
/// match take_anyway(rt, p, &mut me, &numbers) {
///     Ok((_, number)) => {
///         let Ok(_) = put_anyway(rt, p, &mut me, &squares, square(number)) else {
///             return me;
///         };
///     }
///     Err(_) => {
///         shut_plain(rt, p, &mut me, &squares);
///         return me;
///     }
/// }
/// ```
pub fn take_anyway<T: Send + Drop, R: Wait>(
    rt: &R,
    p: &Package<PlainBuffers<T>>,
    me: &mut Thread<PlainBuffers<T>>,
    at: &BufferAt,
) -> Result<(u64, T), Over>
    requires named { IsNamed p.now.layout at.now × IsPlain at.now }
    requires used { (n : ℕ) × (us : List (Used T)) × HasUsed p.now n us me.old }
    ensures took { IfOk result (λ r. (n m : ℕ) (us : List (Used T)) → at.now.mutex.0 ≡ m → HasUsed p.now n us me.old
        → HasUsed p.now n (did_at m (Took r.0 r.1) us) me.new) }
    ensures over { OnErr result ((n m : ℕ) (us : List (Used T)) → at.now.mutex.0 ≡ m → HasUsed p.now n us me.old
        → HasUsed p.now n (did_at m SawEnd us) me.new) }
{
    for _ in rt.forever() {
        match take(rt, p, me, at) {
            Ok(taken) => return Ok(taken),
            Err(TakeEnd::ClosedEmpty) => return Err(Over),
            Err(TakeEnd::Alerted) => {}
        }
    }
    unreachable!()
}

/// Shuts the ring as `shut` does.
///
/// ```rust
/// shut_plain(rt, p, &mut me, &numbers);
/// ```
pub fn shut_plain<T: Send + Drop, R: Wait>(
    rt: &R,
    p: &Package<PlainBuffers<T>>,
    me: &mut Thread<PlainBuffers<T>>,
    at: &BufferAt,
)
    requires named { IsNamed p.now.layout at.now × IsPlain at.now }
    requires used { (n : ℕ) × (us : List (Used T)) × HasUsed p.now n us me.old }
    ensures { (n m : ℕ) (us : List (Used T)) → at.now.mutex.0 ≡ m → HasUsed p.now n us me.old
        → HasUsed p.now n (did_at m Shut us) me.new }
{
    shut(rt, p, me, at);
}
