//! The tree of threads: each forks one for half of its numbers, as long as these are many and a
//! thread is left.
ghost use Rattle.std.specs.Prelude.{◌≡◌, ◌≢◌, ◌<◌, ◌++◌, ◌∷◌, [], ℕ, sum, length, IfOk, MatchOption, Ok};
ghost use Rattle.std.specs.Thread.{IsSync};
ghost use Rattle.nub.specs.Idle.{IsIdle};
ghost use Rattle.example_sum.specs.Trees.{HasJoined, HasJoinedToo, HaveAdded, MayAdd};
ghost use Rattle.example_sum.specs.declared.tree.Crew.{Crew};

use crate::part::add;
use crate::uses::Numbers;
use nub::{Ended, Package, Thread, ThreadId, Unborn, end_thread, fork_thread, join_thread};
use std::alloc::AllocError;
use std::sync::Wait;
use std::thread::{Threads, join};

/// Threads that were forked and have ended, and the rights to fork those that weren't needed.
#[derive(Drop)]
pub struct Crew {
    pub ended: Vec<Ended<Numbers>>,
    pub unborn: Vec<Unborn<Numbers>>,
}

/// So few numbers are added by one thread alone.
const FEW: usize = 1000;

/// Takes the right to fork a thread for half of these numbers, and half of the other rights for
/// that thread. Returns `None` if the numbers are few, or if there is no right or no memory.
fn take_right(
    rights: &mut Vec<Unborn<Numbers>>,
    numbers: usize,
) -> Option<(Unborn<Numbers>, Vec<Unborn<Numbers>>)>
    ensures { MatchOption result (rights.new.items ≡ rights.old.items) (λ r. (1 < numbers)
        × (rights.old.items ≡ (rights.new.items ++ r.0 ∷ []) ++ r.1.items)) }
{
    if numbers <= FEW || rights.is_empty() {
        return None;
    }
    let kept = rights.len() - rights.len() / 2;
    let Ok(theirs) = rights.split_off(kept) else {
        return None;
    };
    let Some(child) = rights.pop() else {
        unreachable!()
    };
    Some((child, theirs))
}

/// Joins both crews, and the thread that brought the second.
fn both(
    mine: Result<Crew, AllocError>,
    over: Ended<Numbers>,
    theirs: Result<Crew, AllocError>,
) -> Result<Crew, AllocError>
    ensures { IfOk result (λ c. (a : Crew) × (b : Crew) × (mine ≡ Ok a) × (theirs ≡ Ok b)
        × (c.ended.items ≡ (a.ended.items ++ over ∷ []) ++ b.ended.items) × (c.unborn.items ≡ a.unborn.items ++ b.unborn.items)) }
{
    let Crew {
        mut ended,
        mut unborn,
    } = mine?;
    let mut theirs = theirs?;
    ended.push(over)?;
    ended.append(&mut theirs.ended)?;
    unborn.append(&mut theirs.unborn)?;
    Ok(Crew { ended, unborn })
}

/// Adds the numbers, by this thread and by those that it forks, for whose ends it waits. It answers the thread, and the others unless memory ran out:
/// these have ended all the same.
pub fn add_all<R: Threads + Wait + Sync>(
    rt: &R,
    p: &Package<Numbers>,
    mut me: Thread<Numbers>,
    numbers: &[u32],
    mut rights: Vec<Unborn<Numbers>>,
) -> (Thread<Numbers>, Result<Crew, AllocError>)
    requires { MayAdd p.now me numbers.now rights.items }
    ensures idle { (s : ℕ) × IsIdle p.now me.number s result.0 }
    ensures joined { HasJoined me result.0 }
    ensures added { IfOk result.1 (λ c. HaveAdded p.now (me ∷ rights.items) (sum numbers.now)
        (result.0 ∷ (c.ended.items ++ c.unborn.items))) }
{
    let Some((child, theirs)) = take_right(&mut rights, numbers.len()) else {
        add(rt, p, &mut me, numbers);
        let ended = Vec::new(*rights.allocator());
        return (
            me,
            Ok(Crew {
                ended,
                unborn: rights,
            }),
        );
    };
    let who = ThreadId(child.number());
    let Ok(child) = fork_thread(rt, p, &mut me, child) else {
        unreachable!()
    };
    let (front, back) = numbers.split_at(numbers.len() / 2);
    let ((me, mine), (over, theirs)) = join(
        rt,
        move || -> (Thread<Numbers>, Result<Crew, AllocError>)
            requires { IsSync R.row × MayAdd p.now me front.now rights.items × (who.0 < p.now.layout.threads) × (who.0 ≢ me.number) }
            ensures { ((s : ℕ) × IsIdle p.entry.now me.number s result.0)
                × IfOk result.1 (λ c. HaveAdded p.entry.now (me ∷ rights.items) (sum front.entry.now)
                (result.0 ∷ (c.ended.items ++ c.unborn.items))) × HasJoinedToo who.0 me result.0 }
        {
            let (mut me, mine) = add_all(rt, p, me, front, rights);
            join_thread(rt, p, &mut me, who);
            (me, mine)
        },
        move || -> (Ended<Numbers>, Result<Crew, AllocError>)
            requires { IsSync R.row × MayAdd p.now child back.now theirs.items }
            ensures { IfOk result.1 (λ c. HaveAdded p.entry.now (child ∷ theirs.items) (sum back.entry.now)
                (result.0 ∷ (c.ended.items ++ c.unborn.items))) }
        {
            let (me, theirs) = add_all(rt, p, child, back, theirs);
            (end_thread(rt, p, me), theirs)
        },
    );
    (me, both(mine, over, theirs))
}
