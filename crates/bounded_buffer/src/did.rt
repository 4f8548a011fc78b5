//! The steps of threads at a buffer.

/// What a thread did at a buffer, at the end of a call or in a wait.
pub enum Did<T> {
    /// It put the item under this number.
    Put { number: u64, item: T },
    /// It took the item, which was put under this number.
    Took { number: u64, item: T },
    /// It shut the ring.
    Shut,
    /// It saw the ring shut, and put nothing.
    SawShut,
    /// It saw the ring shut and empty, and took nothing.
    SawEnd,
    /// It waited at a full open ring.
    WaitedFull,
    /// It waited at an empty open ring.
    WaitedEmpty,
}
