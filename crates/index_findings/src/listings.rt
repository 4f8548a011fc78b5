//! Listings that are kept.
ghost use Rattle.std.specs.Prelude.{◌≡◌, [], ◌∷◌, ◌++◌, IfOk, OnOk, OnErr};

use crate::findings::Visit;
use firefly_outside::Text;
use std::alloc::AllocError;
use walker::Listing;

// The directories and files of a listing, anew.
fn found_in(listing: &Listing) -> Result<(Vec<Text>, Vec<Text>), AllocError>
    ensures { IfOk result (λ r. (r.0.items ≡ listing.now.dirs.items) × (r.1.items ≡ listing.now.files.items)) }
{
    let dirs = listing.dirs.clone()?;
    let files = listing.files.clone()?;
    Ok((dirs, files))
}

/// Keeps a listing, and gives the directories and files found there.
pub fn keep_listing(
    visits: &mut Vec<Visit>,
    dir: Text,
    listing: Listing,
) -> Result<(Vec<Text>, Vec<Text>), AllocError>
    ensures ok { OnOk result (visits.new.items ≡ visits.old.items ++ (record { dir = dir; listing = listing }) ∷ []) }
    ensures found { IfOk result (λ r. (r.0.items ≡ listing.dirs.items) × (r.1.items ≡ listing.files.items)) }
    ensures err { OnErr result (visits.new.items ≡ visits.old.items) }
{
    let found = found_in(&listing)?;
    visits.push(Visit { dir, listing })?;
    Ok(found)
}
