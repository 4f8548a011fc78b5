//! The steps on the life words: the fork of a thread, a thread's own end, and the look at another
//! thread's life.
ghost use Rattle.std.specs.Prelude.{◌≡◌, ◌≢◌, ◌<◌, None};
ghost use Rattle.larch_actions.specs.declared.event.Life.TheVariants.{Ended};
ghost use Rattle.larch_actions.specs.declared.event.Version.TheVariants.{Two};
ghost use Rattle.nub_rule.specs.declared.view.Child.TheVariants.{No, May, Forked};
ghost use Rattle.nub_rule.specs.Known.{Makes, learnt};
ghost use Rattle.nub_rule.specs.Parts.{HasNothing, MayRecord, made};
ghost use Rattle.nub_rule.specs.Places.{most_threads};
ghost use Rattle.nub_rule.specs.Plays.{end_event, fork_event, join_event};

use crate::package::{Package, Thread};
use crate::places::life_word;
use crate::plays::{EndLife, ForkLife, ReadLife};
use crate::stepping::{load, store};
use crate::uses::Uses;
use larch_actions::ThreadId;

/// Forks the thread whose right was taken in. From then on it lives, with the history that ends
/// with this event.
pub fn fork_life<U: Uses>(p: &Package<U>, me: &mut Thread<U>, who: ThreadId)
    requires of { me.old.table_id ≡ p.now.table_id }
    requires child { me.old.child ≡ May who.0 }
    requires few { who.0 < most_threads }
    requires outside { me.old.wait ≡ None }
    requires pen { MayRecord p.now.traced me.old.life me.old.pen }
    ensures apart { who.0 ≢ me.old.number }
    ensures event { Makes (fork_event me.old.number who.0) me.old me.new }
    ensures forked { me.new ≡ record me.old {
      part = record (learnt me.old.part me.new.part)
          { pen = made me.old.pen };
      child = Forked who.0 me.new.seen;
    } }
{
    store::<ForkLife, U>(&p.table, &mut me.seat, life_word(who.0), 1);
}

/// Ends the thread, which holds no mutex, has no call open and is bound to nothing: nobody may count on a thread that has ended. One may wait
/// for this end, so all others are to be unparked after it.
pub fn end_life<U: Uses>(p: &Package<U>, me: &mut Thread<U>)
    requires of { me.old.table_id ≡ p.now.table_id }
    requires version { p.now.layout.version ≡ Two }
    requires nothing { HasNothing me.old.part }
    requires childless { me.old.child ≡ No }
    requires pen { MayRecord p.now.traced me.old.life me.old.pen }
    ensures event { Makes (end_event me.old.number) me.old me.new }
    ensures ended { me.new ≡ record me.old { part = record (learnt me.old.part me.new.part) { pen = made me.old.pen; life = Ended } } }
{
    store::<EndLife, U>(&p.table, &mut me.seat, life_word(me.number), 2);
}

/// Reads the life word of the thread `who`: 0 if it wasn't forked, 1 if it lives, 2 if it has
/// ended, and that is the event of a join.
pub fn read_life<U: Uses>(p: &Package<U>, me: &mut Thread<U>, who: ThreadId) -> u64
    requires of { me.old.table_id ≡ p.now.table_id }
    requires named { who.0 < p.now.layout.threads }
    requires outside { me.old.wait ≡ None }
    requires pen { MayRecord p.now.traced me.old.life me.old.pen }
    ensures event { result ≡ 2 → Makes (join_event me.old.number who.0) me.old me.new }
    ensures joined { result ≡ 2 → me.new ≡ record me.old { part = record (learnt me.old.part me.new.part) { pen = made me.old.pen } } }
    ensures waits { result ≢ 2 → me.new ≡ me.old }
{
    load::<ReadLife, U>(&p.table, &mut me.seat, life_word(who.0))
}
