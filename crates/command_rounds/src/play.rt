//! The part of one thread in the rounds.
ghost use Rattle.std.specs.Prelude.{◌≡◌, ◌+◌, ◌*◌, ◌<◌, ◌≤◌, ℕ, IfSome, List, [], length, vec_capacity, vec_len};
ghost use Rattle.barrier_once.specs.Rounds.{fresh_share, triangle};
ghost use Rattle.larch_actions.specs.declared.event.Event.{Event};
ghost use Rattle.nub.specs.Ended.{IsFirst};
ghost use Rattle.command_rounds.specs.Playing.{AreTotals, IsHalfway, IsNoted, IsPlaying, IsTable, round_at};
ghost use Rattle.command_rounds.specs.RoundEvents.{asked};

use barrier_once::{RoundAt, RoundUses, add_own, agree, arrive, total};
use larch_actions::{CondId, MutexId};
use nub_rule::{Package, Thread};
use std::alloc::Global;
use std::sync::Wait;

/// Returns where the cells are.
pub fn places() -> RoundAt
    ensures { result ≡ round_at }
{
    RoundAt {
        bar: MutexId(0),
        cond: CondId(0),
        sum: MutexId(1),
        once: MutexId(2),
    }
}

// Agrees on a value, for which it offers the thread's number and 1.
fn agree_once<R: Wait>(rt: &R, p: &Package<RoundUses>, me: &mut Thread<RoundUses>)
    requires table { IsTable p.now }
    requires few { me.old.number < p.now.world.parties }
    requires first { IsFirst p.now (λ w t. fresh_share) me.old.number me.old }
    ensures { IsPlaying p.now me.old.number 0 me.new }
{
    let at = places();
    let own = u64::from(me.number()) + 1;
    let _ = agree(rt, p, me, &at, || own);
}

// Adds to the sum, and arrives at the barrier.
fn play_half<R: Wait>(rt: &R, p: &Package<RoundUses>, me: &mut Thread<RoundUses>)
    requires table { IsTable p.now }
    requires playing { (n : ℕ) × IsPlaying p.now me.old.number n me.old × (n < 1000) }
    ensures { (n : ℕ) → IsPlaying p.now me.old.number n me.old → n < 1000 → IsHalfway p.now me.old.number n [] me.new }
{
    let at = places();
    add_own(rt, p, me, &at);
    let _ = arrive(rt, p, me, &at);
}

// Takes the total, if this is thread 0. Any other thread takes 0 for it.
fn ask<R: Wait>(rt: &R, p: &Package<RoundUses>, me: &mut Thread<RoundUses>) -> u64
    requires table { IsTable p.now }
    requires halfway { (n : ℕ) × IsHalfway p.now me.old.number n [] me.old }
    ensures { (n : ℕ) → IsHalfway p.now me.old.number n [] me.old → IsHalfway p.now me.old.number n (asked me.old.number) me.new
        × (me.old.number ≡ 0 → result ≡ (n + 1) * triangle p.now.world.parties) }
{
    if me.number() != 0 {
        return 0;
    }
    let at = places();
    total(rt, p, me, &at)
}

// Plays one round, and returns the total that thread 0 took in it.
fn play_round<R: Wait>(rt: &R, p: &Package<RoundUses>, me: &mut Thread<RoundUses>) -> u64
    requires table { IsTable p.now }
    requires playing { (n : ℕ) × IsPlaying p.now me.old.number n me.old × (n < 1000) }
    ensures { (n : ℕ) → IsPlaying p.now me.old.number n me.old → n < 1000 → IsPlaying p.now me.old.number (n + 1) me.new
        × (me.old.number ≡ 0 → result ≡ (n + 1) * triangle p.now.world.parties) }
{
    play_half(rt, p, me);
    let answer = ask(rt, p, me);
    let at = places();
    let _ = arrive(rt, p, me, &at);
    answer
}

// Allocates room for the totals, if this is thread 0 and there is memory.
fn room(alloc: Global, number: u32, rounds: u32) -> Option<Vec<u64>>
    ensures { IfSome result (λ v. (v.items ≡ []) × (rounds ≤ vec_capacity v)) }
{
    if number != 0 {
        return None;
    }
    match Vec::with_capacity(alloc, rounds as usize) {
        Ok(totals) => Some(totals),
        Err(_) => None,
    }
}

// Appends the total to those that are kept.
fn note(totals: &mut Option<Vec<u64>>, total: u64)
    requires { IfSome totals.old (λ v. vec_len v < vec_capacity v) }
    ensures { IsNoted total totals.old totals.new }
{
    if let Some(kept) = totals {
        kept.push_reserved(total);
    }
}

/// Plays `rounds` rounds. Returns the totals too, if this is thread 0 and there was memory for
/// them.
pub fn play<R: Wait>(
    rt: &R,
    alloc: Global,
    p: &Package<RoundUses>,
    mut me: Thread<RoundUses>,
    rounds: u32,
) -> (Thread<RoundUses>, Option<Vec<u64>>)
    requires table { IsTable p.now }
    requires few { me.number < p.now.world.parties }
    requires rounds { rounds ≤ 1000 }
    requires first { IsFirst p.now (λ w t. fresh_share) me.number me }
    ensures played { IsPlaying p.now me.number rounds result.0 }
    ensures totals { me.number ≡ 0 → IfSome result.1 (λ v. AreTotals p.now.world.parties rounds v.items) }
{
    let mut totals = room(alloc, me.number(), rounds);
    agree_once(rt, p, &mut me);
    for round in 0..rounds {
        let total = play_round(rt, p, &mut me);
        note(&mut totals, total);
    }
    (me, totals)
}
