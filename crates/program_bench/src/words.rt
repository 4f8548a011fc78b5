//! The words of the command line.
use bench_workloads::{Capacity, Count, Sides};

/// The workload to run, and how often.
#[derive(Drop)]
pub enum Workload {
    /// One thread acquires, adds 1 and releases.
    Uncontended {
        times: u32,
    },
    /// Threads, all at once, acquire, add 1 and release, each with `outside` turns on a number of
    /// its own after each release.
    Contended {
        threads: Count,
        times: u32,
        outside: u32,
    },
    /// One thread makes P, adds 1 and makes V.
    Semaphore {
        times: u32,
    },
    /// Two threads in turns: each makes P of its own semaphore, adds 1 and makes V of the other's.
    SemPingpong {
        times: u32,
    },
    /// One thread makes Signals, or Broadcasts, of a condition in which no thread waits.
    Wake {
        all: bool,
        times: u32,
    },
    /// Two threads in turns, by a mutex and two conditions; each signals before it releases the
    /// mutex, or after that.
    Pingpong {
        after: bool,
        times: u32,
    },
    /// Rounds: one thread opens each with a broadcast, all others count, and the last of them signals back.
    Broadcast {
        threads: Count,
        times: u32,
    },
    /// One thread begins waits that no thread signals, and another ends each by an alert.
    AlertWake {
        times: u32,
    },
    /// Makers pass numbers on to takers through a bounded buffer.
    ProducerConsumer {
        sides: Sides,
        times: u32,
        capacity: Capacity,
    },
    /// Readers compare two numbers, and writers add 1 to both.
    ReadersWriters {
        sides: Sides,
        times: u32,
    },
}

/// Returns the workload of this name that takes only a number of times.
fn plain(name: &str, times: u32) -> Option<Workload> {
    match name {
        "uncontended" => Some(Workload::Uncontended { times }),
        "semaphore" => Some(Workload::Semaphore { times }),
        "sem_pingpong" => Some(Workload::SemPingpong { times }),
        "uncontended_signal" => Some(Workload::Wake { all: false, times }),
        "uncontended_broadcast" => Some(Workload::Wake { all: true, times }),
        "pingpong" => Some(Workload::Pingpong {
            after: false,
            times,
        }),
        "pingpong_after" => Some(Workload::Pingpong { after: true, times }),
        "alert_wake" => Some(Workload::AlertWake { times }),
        _ => None,
    }
}

/// Returns the workload of this name that takes a number of threads and of times.
fn with_threads(name: &str, threads: &str, times: u32) -> Option<Workload> {
    match name {
        "contended" => Some(Workload::Contended {
            threads: Count::read(threads)?,
            times,
            outside: 0,
        }),
        "broadcast" => Some(Workload::Broadcast {
            threads: Count::read_and_one(threads)?,
            times,
        }),
        _ => None,
    }
}

/// Returns the workload of this name that takes two words and a last number.
fn with_two(name: &str, first: &str, second: &str, last: u32) -> Option<Workload> {
    match name {
        "contended" => Some(Workload::Contended {
            threads: Count::read(first)?,
            times: second.parse().ok()?,
            outside: last,
        }),
        "readers_writers" => Some(Workload::ReadersWriters {
            sides: Sides::read(first, second)?,
            times: last,
        }),
        _ => None,
    }
}

/// Returns the workload of this name that takes numbers of two kinds of threads, of times, and of
/// places.
fn with_places(
    name: &str,
    first: &str,
    second: &str,
    times: u32,
    places: &str,
) -> Option<Workload> {
    match name {
        "producer_consumer" => Some(Workload::ProducerConsumer {
            sides: Sides::read(first, second)?,
            times,
            capacity: Capacity::read(places)?,
        }),
        _ => None,
    }
}

/// Returns the workload that the words name.
pub fn read(words: &[&str]) -> Option<Workload> {
    match *words {
        [name, n] => plain(name, n.parse().ok()?),
        [name, t, n] => with_threads(name, t, n.parse().ok()?),
        [name, first, second, last] => with_two(name, first, second, last.parse().ok()?),
        [name, p, c, n, room] => with_places(name, p, c, n.parse().ok()?, room),
        _ => None,
    }
}
