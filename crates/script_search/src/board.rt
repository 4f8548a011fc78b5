//! A scene as plain lists.
pub(crate) mod first;
mod parts;
mod rows;

/// Where a thread stands. Mutexes and conditions by their numbers.
#[derive(Clone, Copy)]
pub enum Place {
    Unborn,
    /// It lives, and is in no wait.
    Running,
    /// In a wait, and inside the condition until a signal takes it out.
    Waiting { mutex: u32, cond: u32, inside: bool },
    /// The same, in a wait that may be alerted.
    AlertWaiting { mutex: u32, cond: u32, inside: bool },
    Ended,
}

/// A thread of a scene.
#[derive(Clone, Copy)]
pub struct Thread {
    /// How many of its lines are played.
    pub played: u32,
    pub place: Place,
    pub alerted: bool,
}

/// A scene: its threads, by which thread each mutex is held, and which semaphores are available.
#[derive(Drop)]
pub struct Board {
    pub second: bool,
    pub threads: Vec<Thread>,
    pub holders: Vec<Option<u32>>,
    pub available: Vec<bool>,
}
