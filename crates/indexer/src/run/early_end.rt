//! Ending a run before its time.
ghost use Rattle.indexer.specs.Gets.{Makes, nothing};
ghost use Rattle.indexer.specs.Turns.{HasLists, IsBetween};

use crate::calls::dir_list::shut_dirs;
use crate::calls::files::shut_files;
use crate::calls::pieces::shut_pieces;
use alerts::alert;
use index_rule::IndexUses;
use larch_actions::ThreadId;
use nub_rule::{Package, Thread};
use std::sync::Wait;

/// Shuts the list of directories and both buffers: threads that come later find nothing to do.
pub fn shut_all<R: Wait>(rt: &R, p: &Package<IndexUses>, me: &mut Thread<IndexUses>)
    requires layout { HasLists p.now.layout }
    requires between { IsBetween p.now me.old }
    ensures { Makes p.now nothing me.old me.new }
{
    shut_dirs(rt, p, me);
    shut_files(rt, p, me);
    shut_pieces(rt, p, me);
}

/// Lets all workers end soon: shuts the list of directories and both buffers, and alerts each
/// worker. An alerted worker finds all shut, so it waits for nothing more.
pub fn cancel<R: Wait>(rt: &R, p: &Package<IndexUses>, me: &mut Thread<IndexUses>)
    requires layout { HasLists p.now.layout }
    requires between { IsBetween p.now me.old }
    ensures { Makes p.now nothing me.old me.new }
{
    shut_all(rt, p, me);
    for t in 1..p.layout().threads {
        alert(rt, p, me, ThreadId(t));
    }
}
