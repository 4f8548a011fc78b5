//! What the walkers came by, put together.
ghost use Rattle.std.specs.Prelude.{◌≡◌, ◌↔◌, All, Contains, IfOk, OnOk};
ghost use Rattle.firefly_outside.specs.Trees.{Path, Contents};
ghost use Rattle.walker.specs.Listings.{IsListingOf, IsReportedBy, Notes};
ghost use Rattle.walker.specs.Walk.{IsListed, IsUnlisted, IsWalkOf, files_of, new_walk};
ghost use Rattle.index_findings.specs.Visits.{AreVisits, HasNoted, IsFoundFile, dirs_listed};

use crate::findings::Visit;
use std::alloc::{AllocError, Global};
use walker::Walked;

// Puts a listing into the walk.
fn note_visit(walked: &mut Walked, visit: Visit) -> Result<(), AllocError>
    requires unlisted { IsUnlisted walked.old visit.dir }
    requires lawful { IsListingOf visit.dir visit.listing }
    ensures noted { OnOk result (Notes walked.old walked.new visit.dir visit.listing) }
    ensures reported { OnOk result ((t : Contents) → IsWalkOf walked.old t → IsReportedBy t visit.dir visit.listing → IsWalkOf walked.new t) }
{
    let Visit { dir, listing } = visit;
    match walked.note(dir.as_str(), listing) {
        Ok(()) => Ok(()),
        Err(back) => {
            drop(back);
            Err(AllocError)
        }
    }
}

/// The walk of these listings: their directories are those that it shows as listed, and it has found their files.
pub fn collect(alloc: Global, root: &str, visits: Vec<Visit>) -> Result<Walked, AllocError>
    requires lawful { All (λ v. IsListingOf v.dir v.listing) visits.items }
    requires visits { AreVisits root.now visits.items }
    ensures root { IfOk result (λ w. w.root ≡ root.now) }
    ensures reported { IfOk result (λ w. (t : Contents) → All (λ v. IsReportedBy t v.dir v.listing) visits.items → IsWalkOf w t) }
    ensures listed { IfOk result (λ w. (p : Path) → IsListed w p ↔ Contains (dirs_listed visits.items) p) }
    ensures files { IfOk result (λ w. (p : Path) → IsFoundFile visits.items p → Contains (files_of w) p) }
{
    let mut walked = Walked::new(alloc, root)?;
    match note_visits(&mut walked, visits) {
        Ok(()) => Ok(walked),
        Err(error) => {
            drop(walked);
            Err(error)
        }
    }
}

// Puts these listings into a walk that has found the root alone, that of a directory after the one that names it.
fn note_visits(walked: &mut Walked, mut visits: Vec<Visit>) -> Result<(), AllocError>
    requires first { walked.old ≡ new_walk walked.old.root }
    requires lawful { All (λ v. IsListingOf v.dir v.listing) visits.items }
    requires visits { AreVisits walked.old.root visits.items }
    ensures noted { OnOk result (HasNoted walked.old.root visits.items walked.new) }
    ensures reported { OnOk result ((t : Contents) → IsWalkOf walked.old t → All (λ v. IsReportedBy t v.dir v.listing) visits.items
        → IsWalkOf walked.new t) }
{
    // A parent's path begins its child's, so it comes first in the order of bytes.
    visits.sort_by(|a, b| a.dir.cmp(&b.dir))?;
    for visit in visits {
        note_visit(walked, visit)?;
    }
    Ok(())
}
