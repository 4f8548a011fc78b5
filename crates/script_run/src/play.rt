//! The part of one thread in the run of a script.
ghost use Rattle.std.specs.Prelude.{◌≡◌, ◌≢◌, ◌<◌, ◌∷◌, ◌++◌, [], List, length};
ghost use Rattle.larch_actions.specs.declared.event.Version.TheVariants.{One};
ghost use Rattle.larch_actions.specs.Layout.{IsLawful};
ghost use Rattle.larch_actions.specs.declared.event.ThreadId.{ThreadId};
ghost use Rattle.script_text.specs.declared.line.Line.{Line};
ghost use Rattle.script_text.specs.declared.line.Operation.TheVariants.{Fork};
ghost use Rattle.script_text.specs.Operations.{none_held, held_after, MayCome, MayFollow, none_forked, forked_after};
ghost use Rattle.script_text.specs.Text.{IsScript};
ghost use Rattle.script_run.specs.Playing.{IsPlaying, IsPlayed};
ghost use Rattle.nub.specs.Ended.{IsFirst};

use crate::waits::{alert_until, alert_wait_once, until, wait_once};
use alert_wait::alert_p;
use alerts::{alert, test_alert};
use bin_semaphore::{p, v};
use condition::{broadcast, signal};
use nub::join_thread;
use nub_rule::{Package, Thread};
use package_crew::BeforeStart;
use script_text::{Line, Operation};
use std::sync::Wait;
use sum_uses::{AddChange, SumUses};
use user_mutex::{acquire, release};

/// Makes the call of one line of the thread that forks no other.
pub fn play_line<R: Wait>(
    rt: &R,
    pkg: &Package<SumUses>,
    me: &mut Thread<SumUses>,
    numbers: &mut [u64],
    line: &Line,
)
    requires lawful { IsLawful pkg.now.layout }
    requires no_fork { (u : ThreadId) → line.now.operation ≢ Fork u }
    requires own { line.now.thread.0 ≡ me.old.number }
    requires playing { (xs : List Line) × IsPlaying pkg.now me.old.number xs numbers.old me.old
        × MayCome pkg.now.layout (held_after none_held xs) (forked_after none_forked xs) line.now
        × MayFollow pkg.now.layout none_held none_forked xs × (length xs < 99999) }
    ensures { (xs : List Line) → IsPlaying pkg.now me.old.number xs numbers.old me.old
        → MayCome pkg.now.layout (held_after none_held xs) (forked_after none_forked xs) line.now
        → MayFollow pkg.now.layout none_held none_forked xs → length xs < 99999
        → IsPlaying pkg.now me.old.number (xs ++ line.now ∷ []) numbers.new me.new }
{
    match &line.operation {
        Operation::Acquire { mutex } => {
            numbers[mutex.0 as usize] = acquire(rt, pkg, me, *mutex);
        }
        Operation::Release { mutex } => {
            let number = numbers[mutex.0 as usize];
            release::<SumUses, AddChange, R>(rt, pkg, me, *mutex, number);
        }
        Operation::Wait { mutex, cond } => wait_once(rt, pkg, me, numbers, *mutex, *cond),
        Operation::AlertWait { mutex, cond } => {
            let _ = alert_wait_once(rt, pkg, me, numbers, *mutex, *cond);
        }
        Operation::Signal { cond } => signal(rt, pkg, me, *cond),
        Operation::Broadcast { cond } => broadcast(rt, pkg, me, *cond),
        Operation::P { sem } => p(rt, pkg, me, *sem),
        Operation::V { sem } => v(rt, pkg, me, *sem),
        Operation::Alert { who } => alert(rt, pkg, me, *who),
        Operation::TestAlert => {
            let _ = test_alert(rt, pkg, me);
        }
        Operation::AlertP { sem } => {
            let _ = alert_p(rt, pkg, me, *sem);
        }
        Operation::Add { mutex, number } => {
            numbers[mutex.0 as usize] += *number;
        }
        Operation::Until {
            mutex,
            cond,
            number,
        } => until(rt, pkg, me, numbers, *mutex, *cond, *number),
        Operation::AlertUntil {
            mutex,
            cond,
            number,
        } => {
            let _ = alert_until(rt, pkg, me, numbers, *mutex, *cond, *number);
        }
        Operation::Fork { who: _ } => unreachable!(),
        Operation::Join { who } => join_thread(rt, pkg, me, *who),
    }
}

/// Plays all lines of the thread, which has called `before_start`, in order.
pub fn play<R: Wait, G: BeforeStart>(
    rt: &R,
    pkg: &Package<SumUses>,
    me: Thread<SumUses>,
    lines: &[Line],
    _before_start: &G,
) -> Thread<SumUses>
    requires begun { G.begun _before_start.now me.number }
    requires version { pkg.now.layout.version ≡ One }
    requires script { IsScript pkg.now.layout lines.now }
    requires few { length lines.now < 100000 }
    requires first { IsFirst pkg.now (λ w t. []) me.number me }
    ensures { IsPlayed pkg.now lines.now me.number result }
{
    let mut me = me;
    let number = me.number();
    let mut numbers = [0u64; 64];
    for line in lines {
        if line.thread.0 == number {
            play_line(rt, pkg, &mut me, &mut numbers, line);
        }
    }
    me
}
