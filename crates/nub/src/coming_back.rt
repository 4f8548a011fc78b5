//! Whether the threads of a package that begin and end in the history are all back.
ghost use Rattle.std.specs.Prelude.{◌≡◌, ◌≢◌, ◌+◌, ◌++◌, true, false};
ghost use Rattle.nub_rule.specs.Forks.{AreAll};
ghost use Rattle.nub.specs.Totals.{times};

use nub_rule::{Ended, Package, Unborn, Uses};

/// How many of those that have ended have this number.
fn times_ended<U: Uses>(ended: &Vec<Ended<U>>, number: u32) -> usize
    ensures { result ≡ times number ended.now.items }
{
    let mut count = 0usize;
    for i in 0..ended.len() {
        if ended[i].number() == number {
            count += 1;
        }
    }
    count
}

/// How many of those that were never begun have this number.
fn times_unborn<U: Uses>(unborn: &Vec<Unborn<U>>, number: u32) -> usize
    ensures { result ≡ times number unborn.now.items }
{
    let mut count = 0usize;
    for i in 0..unborn.len() {
        if unborn[i].number() == number {
            count += 1;
        }
    }
    count
}

/// Whether there is one in all.
fn is_one(over: usize, never: usize) -> bool
    ensures yes { result ≡ true → over + never ≡ 1 }
    ensures no { result ≡ false → over + never ≢ 1 }
{
    (over == 1 && never == 0) || (over == 0 && never == 1)
}

/// Whether all threads of a package of `open_forked` are here, each once: it has ended, or was never begun. Then `close_forked` may close
/// the package.
///
/// ```rust
/// if !are_all_back(&pkg, &ended, &unborn) {
///     drop(pkg);
///     return Err(Fail::from("a thread was lost"));
/// }
/// Ok(close_forked(pkg, ended, unborn)?)
/// ```
pub fn are_all_back<U: Uses>(p: &Package<U>, ended: &Vec<Ended<U>>, unborn: &Vec<Unborn<U>>) -> bool
    ensures yes { result ≡ true → AreAll p.now.layout.threads (ended.now.items ++ unborn.now.items) }
    ensures no { result ≡ false → ¬ AreAll p.now.layout.threads (ended.now.items ++ unborn.now.items) }
{
    for number in 0..p.layout().threads {
        if !is_one(times_ended(ended, number), times_unborn(unborn, number)) {
            return false;
        }
    }
    true
}
