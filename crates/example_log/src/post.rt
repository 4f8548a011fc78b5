//! Sending and receiving a message.
ghost use Rattle.std.specs.Prelude.{◌≡◌, ◌≤◌, ℕ, Some};
ghost use Rattle.firefly_threads.specs.Idle.{IsIdle};
ghost use Rattle.example_log.specs.declared.mail.Deeds.{Deeds};
ghost use Rattle.example_log.specs.Mails.{left, received, sent};

use crate::mail::{Leaves, Mail, Post, Receives, Sends};
use firefly_threads::{CondId, MutexId, Package, Thread, broadcast, locked, locked_when, signal};
use std::sync::Wait;

/// The mutex of the mail.
const MAIL: MutexId = MutexId(0);

/// The condition of threads that wait for room for a message.
const ROOM: CondId = CondId(0);

/// The condition of threads that wait for a message, or until no thread may send any more.
const MORE: CondId = CondId(1);

/// Sends the message, as soon as there is room for it.
pub fn send<R: Wait>(rt: &R, p: &Package<Post>, me: &mut Thread<Post>, message: u64)
    requires named { (1 ≤ p.now.layout.mutexes) × (2 ≤ p.now.layout.conditions) }
    requires sends { (n : ℕ) × (s : Deeds) × IsIdle p.now n s me.old × (s.sends ≡ 1) }
    ensures { (n : ℕ) (s : Deeds) → IsIdle p.now n s me.old → IsIdle p.now n (sent (Some message) s) me.new }
{
    let has_room = |mail: &Mail| mail.slot.is_none();
    let put = |mail: &mut Mail| mail.slot = Some(message);
    locked_when::<Post, Sends, (), _, _, R>(rt, p, me, MAIL, ROOM, &has_room, put);
    signal(rt, p, me, MORE);
}

/// Receives a message, as soon as there is one. Returns `None` if there is none and no thread may
/// send any more.
pub fn receive<R: Wait>(rt: &R, p: &Package<Post>, me: &mut Thread<Post>) -> Option<u64>
    requires named { (1 ≤ p.now.layout.mutexes) × (2 ≤ p.now.layout.conditions) }
    requires idle { (n : ℕ) × (s : Deeds) × IsIdle p.now n s me.old }
    ensures { (n : ℕ) (s : Deeds) → IsIdle p.now n s me.old → IsIdle p.now n (received result s) me.new }
{
    let has_more = |mail: &Mail| mail.slot.is_some() || mail.senders == 0;
    let take = |mail: &mut Mail| mail.slot.take();
    let message = locked_when::<Post, Receives, Option<u64>, _, _, R>(
        rt, p, me, MAIL, MORE, &has_more, take,
    );
    signal(rt, p, me, ROOM);
    message
}

/// Declares that the thread sends no more.
pub fn leave<R: Wait>(rt: &R, p: &Package<Post>, me: &mut Thread<Post>)
    requires named { (1 ≤ p.now.layout.mutexes) × (2 ≤ p.now.layout.conditions) }
    requires sends { (n : ℕ) × (s : Deeds) × IsIdle p.now n s me.old × (s.sends ≡ 1) }
    ensures { (n : ℕ) (s : Deeds) → IsIdle p.now n s me.old → IsIdle p.now n (left s) me.new }
{
    locked::<Post, Leaves, (), _, R>(rt, p, me, MAIL, |mail| mail.senders -= 1);
    broadcast(rt, p, me, MORE);
}
