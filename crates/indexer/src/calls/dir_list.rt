//! The calls at the list of directories.
ghost use Rattle.std.specs.Prelude.{◌≡◌, ◌≢◌, ℕ, [], List, Option, Some, IfSome, IsTrue, All, Contains, drop, length};
ghost use Rattle.std.specs.Option.{option_to_list};
ghost use Rattle.firefly_outside.specs.Trees.{Path, Contents};
ghost use Rattle.indexer.specs.Gets.{Counts, Gets, Makes, MayPutAll, OfShare, moved_more, nothing};
ghost use Rattle.indexer.specs.Turns.{HasCalled, HasList, HasLists, HasWoken, IsAs, IsBetween, Worker};
ghost use Rattle.nub.specs.Rest.{AtRest};
ghost use Rattle.index_rule.specs.Work.{MovesCounts, MovesDirs, moved_by, waiting_of};
ghost use Rattle.index_rule.specs.declared.value.IndexValue.{IndexValue};

use alert_wait::{Outcome, alert_wait};
use condition::broadcast;
use firefly_outside::Text;
use index_rule::{
    DidMove, DirsInWork, IndexUses, IndexValue, NextDir, PutDirs, dirs_in, put_found, take_dir,
};
use larch_actions::{CondId, MutexId};
use nub_rule::{NoChange, Package, Thread};
use std::sync::Wait;
use user_mutex::{acquire, release};

/// The mutex of the list of directories.
const DIRS: MutexId = MutexId(0);

/// The condition of the list: that there is something in it, or that all is over.
const MORE_DIRS: CondId = CondId(0);

// Acquires the list, with what was found so far.
fn take_list<R: Wait>(rt: &R, p: &Package<IndexUses>, me: &mut Thread<IndexUses>) -> DirsInWork
    requires layout { HasLists p.now.layout }
    requires between { IsBetween p.now me.old }
    ensures { HasList p.now me.old (IndexValue.Dirs result) me.new }
{
    dirs_in(acquire(rt, p, me, DIRS))
}

// Releases the list: directories left its end, or new ones came there and were counted.
fn give_list<R: Wait>(rt: &R, p: &Package<IndexUses>, me: &mut Thread<IndexUses>, dirs: DirsInWork)
    requires layout { HasLists p.now.layout }
    requires has { (a : Worker) × (x : IndexValue) × (h : HasList p.now a x me.old)
        × MovesDirs (waiting_of x) dirs.list.waiting.items h.own (moved_by x (IndexValue.Dirs dirs) h.own)
        × MovesCounts x (IndexValue.Dirs dirs) h.own (moved_by x (IndexValue.Dirs dirs) h.own) }
    ensures rest { AtRest p.now me.new }
    ensures called { (a : Worker) (x : IndexValue) → HasList p.now a x me.old → IsBetween p.now a → (o : Option Contents) (root : Path)
        → HasCalled o root [] p.now 0 1 a me.new × ((m : ℕ) → HasCalled o root [] p.now m 0 a me.new) }
    ensures gets { (a : Worker) (x : IndexValue) → HasList p.now a x me.old
        → Gets p.now (moved_more (drop (length dirs.list.waiting.items) (waiting_of x))
        (drop (length (waiting_of x)) dirs.list.waiting.items))
        a me.new }
    ensures share { (a : Worker) (x : IndexValue) → (h : HasList p.now a x me.old)
        → me.new.share ≡ Some (moved_by x (IndexValue.Dirs dirs) h.own) }
{
    release::<IndexUses, DidMove, R>(rt, p, me, DIRS, IndexValue::Dirs(dirs));
}

// Releases the list like this, and before that wakes all threads that wait for it, if `wake` is
// true.
fn give_and_wake<R: Wait>(
    rt: &R,
    p: &Package<IndexUses>,
    me: &mut Thread<IndexUses>,
    dirs: DirsInWork,
    wake: bool,
)
    requires layout { HasLists p.now.layout }
    requires has { (a : Worker) × (x : IndexValue) × (h : HasList p.now a x me.old)
        × MovesDirs (waiting_of x) dirs.list.waiting.items h.own (moved_by x (IndexValue.Dirs dirs) h.own)
        × MovesCounts x (IndexValue.Dirs dirs) h.own (moved_by x (IndexValue.Dirs dirs) h.own) }
    ensures makes { (a : Worker) (x : IndexValue) → HasList p.now a x me.old → IsBetween p.now a
        → Makes p.now (moved_more (drop (length dirs.list.waiting.items) (waiting_of x))
        (drop (length (waiting_of x)) dirs.list.waiting.items))
        a me.new }
    ensures share { (a : Worker) (x : IndexValue) → (h : HasList p.now a x me.old)
        → me.new.share ≡ Some (moved_by x (IndexValue.Dirs dirs) h.own) }
    ensures wakes { IsTrue wake → HasWoken me.new }
{
    give_list(rt, p, me, dirs);
    if wake {
        broadcast(rt, p, me, MORE_DIRS);
    }
}

// Waits until there may be something in the list. Returns whether an alert ended the wait.
fn wait_for_dirs<R: Wait>(
    rt: &R,
    p: &Package<IndexUses>,
    me: &mut Thread<IndexUses>,
    dirs: DirsInWork,
) -> (Outcome, DirsInWork)
    requires layout { HasLists p.now.layout }
    requires has { (a : Worker) × (x : IndexValue) × HasList p.now a x me.old × IsAs x dirs }
    ensures { (a : Worker) (x : IndexValue) → HasList p.now a x me.old → HasList p.now a (IndexValue.Dirs result.1) me.new }
{
    let (outcome, value) = alert_wait::<IndexUses, NoChange, R>(
        rt,
        p,
        me,
        DIRS,
        MORE_DIRS,
        IndexValue::Dirs(dirs),
    );
    (outcome, dirs_in(value))
}

/// Takes a directory that is to be listed. Returns `None` if nothing is left and no directory is
/// being listed, if the list is shut, or if the thread is alerted.
///
/// Blocks while another walker holds the list, and while the list is empty and a directory is being
/// listed.
pub fn next_dir<R: Wait>(rt: &R, p: &Package<IndexUses>, me: &mut Thread<IndexUses>) -> Option<Text>
    requires layout { HasLists p.now.layout }
    requires between { IsBetween p.now me.old }
    ensures called { (o : Option Contents) (root : Path) → HasCalled o root [] p.now 0 1 me.old me.new }
    ensures gets { Gets p.now (moved_more (option_to_list result) []) me.old me.new }
    ensures new { IfSome result (λ dir. OfShare me.old (λ s. ¬ Contains s.took dir)) }
{
    let mut dirs = take_list(rt, p, me);
    for _ in rt.forever() {
        match take_dir(&mut dirs.list) {
            NextDir::Now(dir) => {
                give_list(rt, p, me, dirs);
                return dir;
            }
            NextDir::Wait => {
                let (outcome, again) = wait_for_dirs(rt, p, me, dirs);
                if outcome == Outcome::Alerted {
                    give_list(rt, p, me, again);
                    return None;
                }
                dirs = again;
            }
        }
    }
    unreachable!()
}

/// Puts the directories found in one that was listed into the list, and counts them and the files
/// found there. If some were put and both limits are kept, wakes all threads that wait for the
/// list. If a limit is passed, or memory runs out, the caller is to end the work.
pub fn put_dirs<R: Wait>(
    rt: &R,
    p: &Package<IndexUses>,
    me: &mut Thread<IndexUses>,
    found: Vec<Text>,
    files: usize,
) -> PutDirs
    requires layout { HasLists p.now.layout }
    requires between { IsBetween p.now me.old }
    requires may { OfShare me.old (λ s. MayPutAll found.items s.put s) }
    ensures made { (put : List Path) × Makes p.now (moved_more [] put) me.old me.new × All (Contains found.items) put }
    ensures counted { result ≢ PutDirs.Memory → Counts files me.old me.new }
    ensures wakes { result ≡ PutDirs.Within → found.items ≢ [] → HasWoken me.new }
{
    let some = !found.is_empty();
    let mut dirs = take_list(rt, p, me);
    let end = put_found(&mut dirs, found, files);
    // There may be something to take. If the work is to end, all are woken when the list is shut.
    give_and_wake(rt, p, me, dirs, some & end.is_within());
    end
}

/// Ends the work on a directory, and wakes all threads that wait for the list.
pub fn finish_dir<R: Wait>(rt: &R, p: &Package<IndexUses>, me: &mut Thread<IndexUses>)
    requires layout { HasLists p.now.layout }
    requires between { IsBetween p.now me.old }
    ensures made { Makes p.now nothing me.old me.new }
    ensures wakes { HasWoken me.new }
{
    let mut dirs = take_list(rt, p, me);
    dirs.list.in_work = dirs.list.in_work.saturating_sub(1);
    // There may be nothing left to wait for.
    give_and_wake(rt, p, me, dirs, true);
}

/// Notes that a parser has ended. Returns whether it was the last.
pub fn end_parser<R: Wait>(rt: &R, p: &Package<IndexUses>, me: &mut Thread<IndexUses>) -> bool
    requires layout { HasLists p.now.layout }
    requires between { IsBetween p.now me.old }
    ensures { Makes p.now nothing me.old me.new }
{
    let mut dirs = take_list(rt, p, me);
    dirs.parsers = dirs.parsers.saturating_sub(1);
    let last = dirs.parsers == 0;
    give_list(rt, p, me, dirs);
    last
}

/// Shuts the list, so that no thread gets a directory from now on, and wakes all threads that wait
/// for it.
pub fn shut_dirs<R: Wait>(rt: &R, p: &Package<IndexUses>, me: &mut Thread<IndexUses>)
    requires layout { HasLists p.now.layout }
    requires between { IsBetween p.now me.old }
    ensures made { Makes p.now nothing me.old me.new }
    ensures wakes { HasWoken me.new }
{
    let mut dirs = take_list(rt, p, me);
    dirs.list.shut = true;
    give_and_wake(rt, p, me, dirs, true);
}
