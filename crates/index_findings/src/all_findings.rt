//! What each worker came by, put together.
ghost use Rattle.std.specs.Prelude.{◌≡◌, IfOk};
ghost use Rattle.std.specs.List.{flat_map, list_any};
ghost use Rattle.index_findings.specs.Gathered.{first_fault};

use crate::findings::Findings;
use std::alloc::{AllocError, Global};

/// All listings and all pieces, one worker's after the other's, the first path that failed, and whether any worker lost something.
pub fn gather(alloc: Global, findings: Vec<Findings>) -> Result<Findings, AllocError>
    ensures visits { IfOk result (λ r. r.visits.items ≡ flat_map (λ f. f.visits.items) findings.items) }
    ensures pieces { IfOk result (λ r. r.pieces.items ≡ flat_map (λ f. f.pieces.items) findings.items) }
    ensures fault { IfOk result (λ r. r.fault ≡ first_fault findings.items) }
    ensures lost { IfOk result (λ r. r.lost ≡ list_any (λ f. f.lost) findings.items) }
{
    let mut visits = Vec::new(alloc);
    let mut pieces = Vec::new(alloc);
    let mut fault = None;
    let mut lost = false;
    for found in findings {
        let Findings {
            visits: mut more,
            pieces: mut made,
            fault: failed,
            lost: wanted,
        } = found;
        fault = fault.or(failed);
        lost = lost | wanted;
        visits.append(&mut more)?;
        pieces.append(&mut made)?;
    }
    Ok(Findings {
        visits,
        pieces,
        fault,
        lost,
    })
}
