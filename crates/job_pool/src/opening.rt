//! Allocates all that a pool needs before anything runs.
ghost use Rattle.std.specs.Prelude.{◌≡◌, ◌≤◌, ◌+◌, [], None, length, IfOk, vec_capacity, false};
ghost use Rattle.std.proofs.Common.{replicate};
ghost use Rattle.larch_actions.specs.declared.event.Version.TheVariants.{One};
ghost use Rattle.job_pool.specs.Working.{AreFirst, HasBuffer};

use crate::item::Batches;
use bounded_buffer::Ring;
use nub::{Layout, open_package};
use nub_rule::{Package, Thread};
use std::alloc::{AllocError, Global};

/// Opens a package with one buffer for `many` batches, and with a thread for the caller and one for
/// each worker.
pub fn open<T: Send + Drop>(
    alloc: Global,
    workers: u32,
    many: usize,
) -> Result<(Package<Batches<T>>, Vec<Thread<Batches<T>>>), AllocError>
    requires workers { (1 ≤ workers) × (workers ≤ 8) }
    requires many { (1 ≤ many) × (many ≤ 4096) }
    ensures package { IfOk result (λ o. HasBuffer o.0.layout × (o.0.layout.threads ≡ workers + 1) × (o.0.layout.mutexes ≡ 1)
        × (o.0.traced ≡ false) × (o.0.layout.version ≡ One)) }
    ensures count { IfOk result (λ o. length o.1.items ≡ workers + 1) }
    ensures threads { IfOk result (λ o. AreFirst o.0 0 o.1.items) }
{
    let layout = Layout::of(workers + 1, 1, 2, 0);
    let mut rings = Vec::with_capacity(alloc, 1)?;
    rings.push_reserved(Ring::new(alloc, many as u32)?);
    open_package::<Batches<T>>(alloc, layout, &(), rings, false)
}

/// Lists that are filled later, each with room for all that it will have.
#[derive(Drop)]
pub struct Rooms<T: Send + Drop> {
    /// A place for each batch.
    pub places: Vec<Option<T>>,
    /// For all threads.
    pub threads: Vec<Thread<Batches<T>>>,
    /// For all batches.
    pub out: Vec<T>,
}

/// Returns the lists for `workers` workers and `many` batches. Fails only if there is no memory.
pub fn rooms_for<T: Send + Drop>(
    alloc: Global,
    workers: u32,
    many: usize,
) -> Result<Rooms<T>, AllocError>
    ensures places { IfOk result (λ r. r.places.items ≡ replicate many None) }
    ensures threads { IfOk result (λ r. (r.threads.items ≡ []) × (workers + 1 ≤ vec_capacity r.threads)) }
    ensures out { IfOk result (λ r. (r.out.items ≡ []) × (many ≤ vec_capacity r.out)) }
{
    let mut places = Vec::with_capacity(alloc, many)?;
    for made in 0..many {
        places.push_reserved(None);
    }
    let threads = Vec::with_capacity(alloc, workers as usize + 1)?;
    let out = Vec::with_capacity(alloc, many)?;
    Ok(Rooms {
        places,
        threads,
        out,
    })
}
