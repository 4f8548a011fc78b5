//! The calls at the buffer of files.
ghost use Rattle.std.specs.Prelude.{◌≡◌, ◌↔◌, ◌⊎◌, ℕ, [], ◌∷◌, List, Option, IsTrue, IfSome, IfOk, All, Contains};
ghost use Rattle.firefly_outside.specs.Trees.{Path, Contents};
ghost use Rattle.index_rule.specs.Shares.{IsItemAt, MayPut, paths_put};
ghost use Rattle.indexer.specs.Gets.{Gets, IsNewFile, Makes, MayPutAll, OfShare, nothing};
ghost use Rattle.indexer.specs.Taken.{path_of};
ghost use Rattle.indexer.specs.Turns.{HasCalled, HasLists, IsBetween};

use alerts::test_alert;
use bounded_buffer::{BufferAt, PutEnd, TakeEnd, put, shut, take};
use firefly_outside::Text;
use index_rule::{IndexItem, IndexUses};
use larch_actions::{CondId, MutexId};
use nub_rule::{Package, Thread};
use std::sync::Wait;

/// Where the buffer of files is.
const FILES: BufferAt = BufferAt {
    mutex: MutexId(1),
    room: CondId(1),
    more: CondId(2),
};

// Puts a file's path into the buffer. Returns whether the thread may go on, which it may unless it
// was alerted. A buffer that is shut takes no path.
fn put_file<R: Wait>(rt: &R, p: &Package<IndexUses>, me: &mut Thread<IndexUses>, file: Text) -> bool
    requires layout { HasLists p.now.layout }
    requires between { IsBetween p.now me.old }
    requires may { OfShare me.old (MayPut p.now.world 1 (IndexItem.File file)) }
    ensures { (put : List Path) × Makes p.now (record nothing { files_put = put }) me.old me.new × ((put ≡ []) ⊎ (put ≡ file ∷ [])) }
{
    match put(rt, p, me, &FILES, IndexItem::File(file)) {
        Ok(_) => true,
        Err((end, file)) => {
            drop(file);
            is_closed(end)
        }
    }
}

// Whether a put failed because the buffer is shut.
fn is_closed(end: PutEnd) -> bool
    ensures { IsTrue result ↔ end ≡ PutEnd.Closed }
{
    match end {
        PutEnd::Closed => true,
        PutEnd::Alerted => false,
    }
}

/// Puts the paths of files into the buffer, one after the other. Returns whether the thread may go
/// on, which it may unless it was alerted. A buffer that is shut takes no path.
///
/// Blocks while another thread holds the buffer, and while the buffer is full and open.
pub fn put_files<R: Wait>(
    rt: &R,
    p: &Package<IndexUses>,
    me: &mut Thread<IndexUses>,
    files: Vec<Text>,
) -> bool
    requires layout { HasLists p.now.layout }
    requires between { IsBetween p.now me.old }
    requires may { OfShare me.old (λ s. MayPutAll files.items (paths_put p.now.world 1 s) s) }
    ensures { (put : List Path) × Makes p.now (record nothing { files_put = put }) me.old me.new × All (Contains files.items) put }
{
    for file in files {
        if !put_file(rt, p, me, file) {
            return false;
        }
    }
    true
}

// The path of the file that was taken, if one was.
fn path_in(taken: Result<(u64, IndexItem), TakeEnd>) -> Option<Text>
    requires { IfOk taken (λ t. IsItemAt 1 t.1) }
    ensures { path_of taken ≡ result }
{
    match taken {
        Ok((_, IndexItem::File(path))) => Some(path),
        Ok((_, IndexItem::Piece(_))) => unreachable!(),
        Err(_) => None,
    }
}

/// Takes the path of a file that is to be read. Returns `None` if the buffer is shut and empty, or
/// if the thread is alerted.
///
/// Blocks while another thread holds the buffer, and while the buffer is empty and open.
pub fn next_file<R: Wait>(
    rt: &R,
    p: &Package<IndexUses>,
    me: &mut Thread<IndexUses>,
) -> Option<Text>
    requires layout { HasLists p.now.layout }
    requires between { IsBetween p.now me.old }
    ensures called { (o : Option Contents) (root : Path) → HasCalled o root [] p.now 1 1 me.old me.new }
    ensures gets { (taken : List Path) × Gets p.now (record nothing { files_taken = taken }) me.old me.new
        × IfSome result (λ path. (taken ≡ path ∷ []) × OfShare me.old (IsNewFile p.now.world path)) }
{
    let taken = take(rt, p, me, &FILES);
    let path = path_in(taken);
    if test_alert(rt, p, me) {
        return None;
    }
    path
}

/// Shuts the buffer: no more can be put, and what it has can still be taken.
pub fn shut_files<R: Wait>(rt: &R, p: &Package<IndexUses>, me: &mut Thread<IndexUses>)
    requires layout { HasLists p.now.layout }
    requires between { IsBetween p.now me.old }
    ensures { Makes p.now nothing me.old me.new }
{
    shut(rt, p, me, &FILES);
}
