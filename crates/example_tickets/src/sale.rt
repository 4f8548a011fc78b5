//! The sale.
ghost use Rattle.std.specs.Prelude.{◌≡◌, ◌+◌, ◌<◌, ◌≤◌, ◌^◌, ◌∷◌, [], length, sum, IfOk, true, false};
ghost use Rattle.firefly_threads.specs.Items.{Each};
ghost use Rattle.firefly_threads.specs.Idle.{IsIdle};
ghost use Rattle.example_tickets.specs.declared.uses.Sold.{Sold};
ghost use Rattle.example_tickets.specs.Sales.{HasSold, IsSaid, none_sold};

use crate::uses::{Sale, Tickets};
use firefly_threads::{Closed, Layout, MutexId, Package, Thread, Work, locked, run_package};
use std::alloc::{AllocError, Global};
use std::sync::Wait;
use std::thread::Threads;

/// Takes one ticket, if any is left, and returns whether one was.
fn take_one(left: &mut u32) -> bool
    ensures taken { result ≡ true → left.old ≡ left.new + 1 }
    ensures none { result ≡ false → (left.old ≡ 0) × (left.new ≡ 0) }
{
    let any = *left > 0;
    if any {
        *left -= 1;
    }
    any
}

/// Sells one ticket after the other, until none is left, and returns how many it sold.
fn sell<R: Wait>(rt: &R, p: &Package<Tickets>, me: &mut Thread<Tickets>) -> u32
    requires named { 0 < p.now.layout.mutexes }
    requires few { p.now.world < 2 ^ 32 }
    requires idle { IsIdle p.now me.old.number none_sold me.old }
    ensures { (s : Sold) × IsIdle p.now me.old.number s me.new × HasSold result s }
{
    let mut sold = 0u32;
    for _ in rt.forever() {
        let any = locked::<Tickets, Sale, bool, _, R>(rt, p, me, MutexId(0), |left| take_one(left));
        if !any {
            return sold;
        }
        sold += 1;
    }
    unreachable!()
}

/// The work of each thread: to sell.
struct Selling;

impl Work<Tickets> for Selling {
    type Left = u32;

    ghost asks = { λ job layout w. (0 < layout.mutexes) × (w < 2 ^ 32) };

    ghost did = { λ job w n es sold s. HasSold sold s };

    fn work<R: Wait>(
        &self,
        rt: &R,
        _alloc: Global,
        p: &Package<Tickets>,
        me: &mut Thread<Tickets>,
    ) -> u32 {
        sell(rt, p, me)
    }
}

/// Returns how many tickets they have sold together.
pub fn count(sold: &[u32]) -> u64
    requires { length sold.now ≤ 64 }
    ensures { result ≡ sum sold.now }
{
    let mut all = 0u64;
    for one in sold {
        all += u64::from(*one);
    }
    all
}

/// Sells the tickets by `threads` threads. Returns how many each says that it has sold, and the
/// closed package. Fails only if there is no memory.
pub fn sale<R: Threads + Wait + Sync>(
    rt: &R,
    alloc: Global,
    tickets: u32,
    threads: u32,
) -> Result<(Vec<u32>, Closed<Tickets>), AllocError>
    requires some { (1 ≤ threads) × (threads ≤ 64) }
    ensures count { IfOk result (λ r. length r.0.items ≡ threads) }
    ensures sum { IfOk result (λ r. sum r.0.items ≡ tickets) }
    ensures none_left { IfOk result (λ r. r.1.values ≡ 0 ∷ []) }
    ensures each { IfOk result (λ r. Each (IsSaid tickets r.0.items) r.1.threads) }
{
    let layout = Layout::of(threads, 1, 0, 0);
    let left = vec![in alloc; tickets]?;
    let (sold, closed) = run_package::<Tickets, Selling, R>(
        rt, alloc, layout, &tickets, left, false, &Selling,
    )?;
    Ok((sold, closed))
}
