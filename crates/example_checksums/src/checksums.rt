//! The checksums of all blocks.
ghost use Rattle.std.specs.Prelude.{◌≡◌, ◌≤◌, length, map, IfOk};
ghost use Rattle.example_checksums.specs.Checksums.{checksum_of};

use crate::block::Block;
use job_pool::{PoolEnd, run_jobs};
use std::alloc::{AllocError, Global};
use std::sync::Wait;
use std::thread::Threads;

/// Returns the checksum of each block, in its place, computed by `workers` workers. Fails only if
/// there is no memory.
pub fn checksums<R: Threads + Wait + Sync>(
    rt: &R,
    alloc: Global,
    workers: u32,
    blocks: Vec<Block>,
) -> Result<Vec<u64>, AllocError>
    requires workers { (1 ≤ workers) × (workers ≤ 8) }
    requires few { length blocks.items ≤ 100000 }
    ensures { IfOk result (λ v. v.items ≡ map (λ b. checksum_of b.0.now) blocks.entry.items) }
{
    let (end, _blocks) = run_jobs(rt, alloc, workers, blocks);
    match end {
        PoolEnd::Done(sums) => Ok(sums),
        PoolEnd::Stopped(_) => unreachable!(),
        PoolEnd::Memory => Err(AllocError),
    }
}
