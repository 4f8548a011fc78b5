//! Three threads that send, and one that writes the log.
ghost use Rattle.std.specs.Prelude.{◌≡◌, ◌≤◌, ◌<◌, ◌+◌, ◌*◌, ◌^◌, ◌++◌, ◌∷◌, [], false, length, IfOk, None};
ghost use mathlib.Core.Option.{some};
ghost use lib.ListN.{get_elem?};
ghost use Rattle.std.specs.List.{range_with_len};
ghost use Rattle.firefly_threads.specs.Idle.{IsIdle};
ghost use Rattle.firefly_threads.specs.Times.{HasAll};
ghost use Rattle.example_log.specs.declared.mail.Deeds.{Deeds};
ghost use Rattle.example_log.specs.Mails.{IsPart, begins, has_sent, left, over};

use crate::mail::{Mail, Post};
use crate::post::{leave, receive, send};
use firefly_threads::{Closed, Layout, Package, Thread, Work, run_package};
use std::alloc::{AllocError, Global};
use std::sync::Wait;
use std::thread::Threads;

/// The messages that came, and whether there was no memory for some of them.
#[derive(Drop)]
pub struct Log {
    pub items: Vec<u64>,
    pub lost: bool,
}

impl Log {
    /// Adds the message, if there is memory for it.
    fn add(&mut self, message: u64)
        ensures { self.new.lost ≡ false → (self.old.lost ≡ false) × (self.new.items.items ≡ self.old.items.items ++ message ∷ []) }
    {
        if self.items.push(message).is_err() {
            self.lost = true;
        }
    }
}

/// Sends `count` messages, the numbers from `first` on.
fn send_all<R: Wait>(rt: &R, p: &Package<Post>, me: &mut Thread<Post>, first: u64, count: u32)
    requires named { (1 ≤ p.now.layout.mutexes) × (2 ≤ p.now.layout.conditions) }
    requires sends { IsIdle p.now me.old.number (has_sent first 0) me.old }
    requires few { first + count < 2 ^ 64 }
    ensures { IsIdle p.now me.old.number (left (has_sent first count)) me.new }
{
    for i in 0..count {
        send(rt, p, me, first + u64::from(i));
    }
    leave(rt, p, me);
}

/// Receives all messages, and writes them into the log.
fn receive_all<R: Wait>(rt: &R, p: &Package<Post>, me: &mut Thread<Post>, log: &mut Log)
    requires named { (1 ≤ p.now.layout.mutexes) × (2 ≤ p.now.layout.conditions) }
    requires idle { IsIdle p.now me.old.number (begins me.old.number) me.old }
    requires empty { log.old.items.items ≡ [] }
    ensures { (s : Deeds) × IsIdle p.now me.old.number s me.new × (s.sent ≡ []) × (s.ended ≡ 1)
        × (log.new.lost ≡ false → s.received ≡ log.new.items.items) }
{
    for _ in rt.forever() {
        match receive(rt, p, me) {
            Some(message) => log.add(message),
            None => return,
        }
    }
    unreachable!()
}

/// The work of all threads: threads 0, 1 and 2 send `count` messages each, and the last receives.
#[derive(Drop)]
struct Mailing {
    count: u32,
}

impl Work<Post> for Mailing {
    type Left = Log;

    ghost asks = { λ job layout w. (1 ≤ layout.mutexes) × (2 ≤ layout.conditions) };

    ghost did = { λ job w n es log s. IsPart job.count n log s };

    fn work<R: Wait>(
        &self,
        rt: &R,
        alloc: Global,
        p: &Package<Post>,
        me: &mut Thread<Post>,
    ) -> Log {
        let mut log = Log {
            items: Vec::new(alloc),
            lost: false,
        };
        let number = me.number();
        if number < 3 {
            let first = u64::from(number) * u64::from(self.count);
            send_all(rt, p, me, first, self.count);
            return log;
        }
        receive_all(rt, p, me, &mut log);
        log
    }
}

/// Returns what the last thread left.
fn last(mut logs: Vec<Log>) -> Log
    requires { length logs.items ≡ 4 }
    ensures { get_elem? logs.items 3 ≡ some result }
{
    let Some(last) = logs.pop() else {
        unreachable!()
    };
    last
}

/// Lets each of three threads send `count` messages, all different, and a fourth write down what it
/// receives, until no thread may send any more. Returns the log and the closed package. Fails only
/// if there is no memory.
pub fn run<R: Threads + Wait + Sync>(
    rt: &R,
    alloc: Global,
    count: u32,
) -> Result<(Vec<u64>, Closed<Post>), AllocError>
    ensures all { IfOk result (λ r. HasAll r.0.items (range_with_len 0 (3 * count))) }
    ensures shut { IfOk result (λ r. r.1.values ≡ record { slot = None; senders = 0 } ∷ []) }
{
    let mail = vec![in alloc;
        Mail {
            slot: None,
            senders: 3
        },
    ]?;
    let layout = Layout::of(4, 1, 2, 0);
    let job = Mailing { count };
    let (logs, closed) = run_package::<Post, Mailing, R>(
        rt,
        alloc,
        layout,
        &(),
        mail,
        false,
        &job,
    )?;
    let Log { items, lost } = last(logs);
    if lost {
        return Err(AllocError);
    }
    Ok((items, closed))
}
