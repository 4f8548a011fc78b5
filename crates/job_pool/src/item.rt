//! The items that go through the buffer.
use bounded_buffer::PlainBuffers;
use nub_rule::Thread;

/// A batch of work with its place.
#[derive(Drop)]
pub struct Item<T> {
    pub place: u64,
    pub batch: T,
}

/// The use of the package: one buffer of batches.
pub type Batches<T> = PlainBuffers<Item<T>>;

/// The thread of a worker, and what it has worked on.
pub type Worked<T> = (Thread<Batches<T>>, Vec<Item<T>>);
