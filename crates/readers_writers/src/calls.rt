//! The calls of readers and writers.
ghost use Rattle.std.specs.Prelude.{◌≡◌, ℕ, List, [], ◌∷◌, slice_set, None, Some, true, false};
ghost use mathlib.Core.Option.{some};
ghost use lib.ListN.{get_elem?};
ghost use Rattle.nub_rule.specs.Known.{Holds};
ghost use Rattle.nub_rule.specs.Plays.{broadcast_action, event, release_event};
ghost use Rattle.nub.specs.Idle.{IsIdle};
ghost use Rattle.nub.specs.Rest.{Adds, AtRest, IsSame};
ghost use Rattle.readers_writers.specs.Calls.{Enters, KeepsReaderOut, KeepsWriterOut, LeavesAndWakes, LeavesReaders};
ghost use Rattle.readers_writers.specs.declared.role.Role.TheVariants.{Idle, Reading, Writing};
ghost use Rattle.readers_writers.specs.declared.role.RoleChange.{RoleChange};
ghost use Rattle.readers_writers.specs.declared.state.RwState.{RwState};
ghost use Rattle.readers_writers.specs.Roles.{Allowed, IsNamed, goes_to, role_of, turn, turn_from_reading};

use crate::rw_uses::{Idles, Reads, RwUses, Writes};
use crate::state::{RwAt, RwState};
use condition::broadcast;
use monitor::locked_when;
use nub_rule::{Package, Thread};
use std::sync::Wait;
use user_mutex::{acquire, release};

/// Begins to read: until this thread's `end_read`, no thread writes.
///
/// Blocks while another thread holds the mutex and while a thread writes, for ever if that thread
/// never ends.
///
/// ```rust
/// begin_read(rt, shared, me, &AT);
/// let torn = pair.differ();
/// end_read(rt, shared, me, &AT);
/// ```
pub fn begin_read<R: Wait>(rt: &R, p: &Package<RwUses>, me: &mut Thread<RwUses>, at: &RwAt)
    requires rest { AtRest p.now me.old }
    requires named { IsNamed p.now.layout at.now }
    requires lacks { get_elem? me.old.held at.now.mutex.0 ≡ some None }
    requires world { me.old.world ≡ Some p.now.world }
    requires role { (s : List RoleChange) × (me.old.share ≡ Some s) × (role_of s at.now.mutex.0 ≡ Idle) }
    ensures rest { AtRest p.now me.new }
    ensures same { IsSame me.old me.new }
    ensures ran { Enters KeepsReaderOut me.old.number at.now.mutex.0 at.now.changed.0 me.old me.new }
    ensures held { me.new.held ≡ me.old.held }
    ensures role { (s : List RoleChange) → me.old.share ≡ Some s → me.new.share ≡ Some (turn at.now.mutex.0 Reading ∷ s) }
    ensures idle { (n : ℕ) (s : List RoleChange) → IsIdle p.now n s me.old → IsIdle p.now n (turn at.now.mutex.0 Reading ∷ s) me.new }
{
    let may_read = |state: &RwState| state.writer.is_none();
    let read = |state: &mut RwState| state.readers += 1;
    locked_when::<RwUses, Reads, (), _, _, R>(rt, p, me, at.mutex, at.changed, &may_read, read);
}

/// Ends to read. The last reader wakes those who wait. The share notes how many readers are left, so that a clause can say who is the last.
///
/// ```rust
/// begin_read(rt, shared, me, &AT);
/// let torn = pair.differ();
/// end_read(rt, shared, me, &AT);
/// ```
pub fn end_read<R: Wait>(rt: &R, p: &Package<RwUses>, me: &mut Thread<RwUses>, at: &RwAt)
    requires rest { AtRest p.now me.old }
    requires named { IsNamed p.now.layout at.now }
    requires lacks { get_elem? me.old.held at.now.mutex.0 ≡ some None }
    requires world { me.old.world ≡ Some p.now.world }
    requires role { (s : List RoleChange) × (me.old.share ≡ Some s) × (role_of s at.now.mutex.0 ≡ Reading) }
    ensures rest { AtRest p.now me.new }
    ensures same { IsSame me.old me.new }
    ensures ran { (s : List RoleChange) → me.old.share ≡ Some s
        → LeavesReaders me.old.number at.now.mutex.0 at.now.changed.0 s me.old me.new }
    ensures held { me.new.held ≡ me.old.held }
    ensures role { (s : List RoleChange) → me.old.share ≡ Some s
        → (left : ℕ) × (me.new.share ≡ Some (turn_from_reading at.now.mutex.0 left ∷ s)) }
    ensures idle { (n : ℕ) (s : List RoleChange) → IsIdle p.now n s me.old
        → (left : ℕ) × IsIdle p.now n (turn_from_reading at.now.mutex.0 left ∷ s) me.new }
{
    let mut state = acquire(rt, p, me, at.mutex);
    state.readers -= 1;
    let last = state.readers == 0;
    leave(rt, p, me, at, state, last);
}

/// Begins to write: until this thread's `end_write`, no other thread reads or writes.
///
/// Blocks while another thread holds the mutex and while a thread reads or writes, for ever if one
/// never ends.
///
/// ```rust
/// begin_write(rt, shared, me, &AT);
/// pair.add_one();
/// end_write(rt, shared, me, &AT);
/// ```
pub fn begin_write<R: Wait>(rt: &R, p: &Package<RwUses>, me: &mut Thread<RwUses>, at: &RwAt)
    requires rest { AtRest p.now me.old }
    requires named { IsNamed p.now.layout at.now }
    requires lacks { get_elem? me.old.held at.now.mutex.0 ≡ some None }
    requires world { me.old.world ≡ Some p.now.world }
    requires role { (s : List RoleChange) × (me.old.share ≡ Some s) × (role_of s at.now.mutex.0 ≡ Idle) }
    ensures rest { AtRest p.now me.new }
    ensures same { IsSame me.old me.new }
    ensures ran { Enters KeepsWriterOut me.old.number at.now.mutex.0 at.now.changed.0 me.old me.new }
    ensures held { me.new.held ≡ me.old.held }
    ensures role { (s : List RoleChange) → me.old.share ≡ Some s → me.new.share ≡ Some (turn at.now.mutex.0 Writing ∷ s) }
    ensures idle { (n : ℕ) (s : List RoleChange) → IsIdle p.now n s me.old → IsIdle p.now n (turn at.now.mutex.0 Writing ∷ s) me.new }
{
    let writer = Some(me.number());
    let may_write = |state: &RwState| state.writer.is_none() && state.readers == 0;
    let write = |state: &mut RwState| state.writer = writer;
    locked_when::<RwUses, Writes, (), _, _, R>(rt, p, me, at.mutex, at.changed, &may_write, write);
}

/// Ends writing, and wakes all threads that wait.
///
/// Blocks while another thread holds the mutex.
///
/// ```rust
/// begin_write(rt, shared, me, &AT);
/// pair.add_one();
/// end_write(rt, shared, me, &AT);
/// ```
pub fn end_write<R: Wait>(rt: &R, p: &Package<RwUses>, me: &mut Thread<RwUses>, at: &RwAt)
    requires rest { AtRest p.now me.old }
    requires named { IsNamed p.now.layout at.now }
    requires lacks { get_elem? me.old.held at.now.mutex.0 ≡ some None }
    requires world { me.old.world ≡ Some p.now.world }
    requires role { (s : List RoleChange) × (me.old.share ≡ Some s) × (role_of s at.now.mutex.0 ≡ Writing) }
    ensures rest { AtRest p.now me.new }
    ensures same { IsSame me.old me.new }
    ensures ran { LeavesAndWakes me.old.number at.now.mutex.0 at.now.changed.0 me.old me.new }
    ensures held { me.new.held ≡ me.old.held }
    ensures role { (s : List RoleChange) → me.old.share ≡ Some s → me.new.share ≡ Some (turn at.now.mutex.0 Idle ∷ s) }
    ensures idle { (n : ℕ) (s : List RoleChange) → IsIdle p.now n s me.old → IsIdle p.now n (turn at.now.mutex.0 Idle ∷ s) me.new }
{
    let mut state = acquire(rt, p, me, at.mutex);
    state.writer = None;
    leave(rt, p, me, at, state, true);
}

/// Releases the mutex with this state. If `wake` is true, wakes all threads that wait before that.
fn leave<R: Wait>(
    rt: &R,
    p: &Package<RwUses>,
    me: &mut Thread<RwUses>,
    at: &RwAt,
    state: RwState,
    wake: bool,
)
    requires rest { AtRest p.now me.old }
    requires named { IsNamed p.now.layout at.now }
    requires world { me.old.world ≡ Some p.now.world }
    requires may { (x : RwState) × Holds me.old at.now.mutex.0 x × ((s : List RoleChange) → me.old.share ≡ Some s
        → Allowed at.now.mutex.0 me.old.number x state s (goes_to at.now.mutex.0 (role_of s at.now.mutex.0) Idle state ∷ s)) }
    ensures rest { AtRest p.now me.new }
    ensures same { IsSame me.old me.new }
    ensures woke { wake ≡ true → Adds (event me.old.number (broadcast_action at.now.changed.0 []) ∷ [])
        (release_event me.old.number at.now.mutex.0) me.old me.new }
    ensures quiet { wake ≡ false → Adds [] (release_event me.old.number at.now.mutex.0) me.old me.new }
    ensures held { me.new.held ≡ slice_set me.old.held at.now.mutex.0 None }
    ensures role { (s : List RoleChange) → me.old.share ≡ Some s
        → me.new.share ≡ Some (goes_to at.now.mutex.0 (role_of s at.now.mutex.0) Idle state ∷ s) }
{
    // Before the mutex is released: a woken thread is unparked once that has happened, and finds
    // the mutex free.
    if wake {
        broadcast(rt, p, me, at.changed);
        release::<RwUses, Idles, R>(rt, p, me, at.mutex, state);
    } else {
        release::<RwUses, Idles, R>(rt, p, me, at.mutex, state);
    }
}
