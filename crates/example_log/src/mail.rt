//! The value that the mutex protects, and what a thread does with it.
ghost use Rattle.firefly_threads.specs.Guarded.{OneValue};
ghost use Rattle.firefly_threads.specs.Laws.{one_fits, one_kept};
ghost use Rattle.example_log.specs.Mails.{IsKept, IsKnown, Moves, begins, left, received, sent};
ghost use Rattle.example_log.specs.MailLaws.{kept, known};

use firefly_threads::{Change, Uses};
use std::collections::LinkedList;

/// A message that waits to be received, and how many threads may still send.
#[derive(Clone, Copy, Drop)]
pub struct Mail {
    pub slot: Option<u64>,
    pub senders: u32,
}

/// What a thread sent and received, in order, whether it may still send, and whether it has seen
/// the end (1 for yes, 0 for no).
pub struct Deeds {
    pub sent: LinkedList<u64>,
    pub received: LinkedList<u64>,
    pub sends: u32,
    pub ended: u32,
}

/// The use of the package: mail, protected by one mutex.
pub struct Post;

impl Uses for Post {
    type Value = Mail;

    type World = ();

    type Share = Deeds;

    ghost begin = { λ w t. begins t };

    ghost holds = { λ w. OneValue IsKept };

    ghost fits = { λ w m x t s. IsKnown x s };

    ghost allows = { λ w m t x y s r. Moves x y s r };

    ghost holds_fits = { λ w. one_fits IsKept IsKnown known };

    ghost holds_after = { λ w. one_kept IsKept Moves kept };
}

/// The change by which the message now in the slot was sent.
pub struct Sends;

/// The change by which the message in the slot was received. If there was none, the thread has seen
/// the end.
pub struct Receives;

/// The change by which the thread sends no more.
pub struct Leaves;

impl Change<Post> for Sends {
    ghost after = { λ w m t x y s. sent y.slot s };
}

impl Change<Post> for Receives {
    ghost after = { λ w m t x y s. received x.slot s };
}

impl Change<Post> for Leaves {
    ghost after = { λ w m t x y s. left s };
}
