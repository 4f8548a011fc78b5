//! What a thread knows: its part of the history, what it has and where it stands in a call. No
//! value of these types is ever made.
use larch_actions::{CondId, Event, Life, MutexId, Version};
use std::collections::LinkedList;

/// What became of the bit of a thread's mutex between the two events of a wait.
pub enum WaitBit {
    /// The thread still has the bit from before the wait.
    Closing,
    /// The bit was cleared.
    Open,
    /// The bit was taken again, and the wait isn't over.
    Quiet,
}

/// Where a thread stands between the two events of a wait.
pub struct Wait {
    pub mutex: MutexId,
    pub cond: CondId,
    pub alertable: bool,
    pub bit: WaitBit,
    /// The thread isn't in the queue, and is in the condition if and only if the count is this.
    pub member: Option<u64>,
}

/// What a thread has done since it put itself into a queue.
pub enum Stage {
    Pushed,
    /// It found the bit clear at the second test.
    Clear,
    /// It found the bit set at the second test.
    Tested,
    /// It found its ready word clear.
    Asleep,
    /// It found its alert word set.
    Alerted,
    /// It found its ready word set.
    Found,
}

/// A thread that put itself into a queue, and since then neither took itself out nor cleared its ready word.
pub struct Stand {
    pub at: u64,
    pub stage: Stage,
}

/// What a thread has done with the pen.
pub enum Pen {
    No,
    Taken,
    Read { number: u64 },
    /// It made the event of this number.
    Made { number: u64 },
    Written,
}

/// What a thread did with a mutex: the value that it got and the one that it left, and its share
/// before and after.
pub struct Stint<T, H> {
    pub thread: u64,
    pub mutex: u64,
    pub got: T,
    pub left: T,
    pub before: H,
    pub after: H,
}

/// What one thread has done and where it stands.
pub struct Part<T, H> {
    /// Which actions its package has.
    pub version: Version,
    /// The history as it was at the last event of the thread.
    pub seen: LinkedList<Event>,
    /// Its own events, and the place of each in the history.
    pub mine: LinkedList<Event>,
    pub places: LinkedList<u64>,
    /// For each mutex the value got, if the thread has the bit.
    pub held: LinkedList<Option<T>>,
    pub share: Option<H>,
    /// Its stints with mutexes that are over, in order.
    pub stints: LinkedList<Stint<T, H>>,
    /// The object whose spin word the thread has, and the queue there.
    pub spin: Option<u64>,
    pub queue: LinkedList<u64>,
    /// The threads that were taken out of that queue and aren't ready yet.
    pub owed: LinkedList<u64>,
    /// The threads of the queue that are still in the condition, and the count of the condition.
    pub left: LinkedList<u64>,
    pub count: u64,
    pub wait: Option<Wait>,
    pub stand: Option<Stand>,
    /// The gates at which a try failed, if the thread hasn't entered the Nub for that since.
    pub failed: LinkedList<u64>,
    /// The gates whose queue the thread has left, and that it hasn't tried since.
    pub turns: LinkedList<u64>,
    /// The gates that the thread has cleared, and whose queue it has yet to look at; and those of
    /// them whose queue it found not empty.
    pub cleared: LinkedList<u64>,
    pub looked: LinkedList<u64>,
    pub pen: Pen,
    /// Whether the thread found its alert word set.
    pub alerted: bool,
    /// The condition for which a Signal or Broadcast is under way.
    pub calling: Option<u64>,
    /// The condition whose waiters count the thread has raised.
    pub raised: Option<u64>,
    /// Whether the thread was forked, and whether it has ended.
    pub life: Life,
}

/// What a thread says of one that it forks.
pub enum Child {
    No,
    /// It took in the right to fork the thread.
    May { who: u64 },
    /// It made the fork, with which this history ends, and hasn't handed the thread out.
    Forked { who: u64, seen: LinkedList<Event> },
}

/// What a seat is for.
pub enum Kind {
    /// The first seat, which gives out the numbers from `next` on.
    Root,
    /// The seat of a thread.
    Member,
    /// The last seat, which takes the parts of the threads back.
    Collector,
    /// A seat whose view went to the collector.
    Spent,
}

pub struct View<T, H, W> {
    pub world: Option<W>,
    pub kind: Kind,
    pub number: u64,
    pub part: Part<T, H>,
    pub child: Child,
    pub next: u64,
    pub back: LinkedList<Part<T, H>>,
}
