//! The listing of a directory is put into what a walk has found.
ghost use Rattle.std.specs.Prelude.{◌≡◌, ◌≤◌, ◌+◌, IfErr, OnOk, vec_len, vec_capacity};
ghost use Rattle.indexmap.specs.IndexMap.{spare as map_spare};
ghost use Rattle.firefly_outside.specs.Trees.{Contents};
ghost use Rattle.walker.specs.Walk.{IsSound, IsUnlisted, IsWalkOf, walk_at};
ghost use Rattle.walker.specs.Listings.{IsListingOf, IsReportedBy, Notes};
ghost use Rattle.walker.specs.Found.{AreBelow};

use crate::Listing;
use crate::found::{Dirs, Files, add_dirs, add_files, mark};
use std::alloc::AllocError;

/// Takes a listing of a directory. Where memory wants, the listing comes back and nothing changes.
pub fn note_in(
    root: &str,
    dirs: &mut Dirs,
    files: &mut Files,
    dir: &str,
    listing: Listing,
) -> Result<(), Listing>
    requires below { AreBelow root.now files.old.items }
    requires sound { IsSound (walk_at root.now dirs.old files.old.items) }
    requires unlisted { IsUnlisted (walk_at root.now dirs.old files.old.items) dir.now }
    requires lawful { IsListingOf dir.now listing }
    ensures ok { OnOk result (Notes (walk_at root.now dirs.old files.old.items) (walk_at root.now dirs.new files.new.items) dir.now
        listing) }
    ensures err { IfErr result (λ l. (l ≡ listing)
        × (walk_at root.now dirs.new files.new.items ≡ walk_at root.now dirs.old files.old.items)) }
    ensures below { AreBelow root.now files.new.items }
    ensures sound { IsSound (walk_at root.now dirs.new files.new.items) }
    ensures reported { OnOk result ((t : Contents) → IsWalkOf (walk_at root.now dirs.old files.old.items) t → IsReportedBy t dir.now listing
        → IsWalkOf (walk_at root.now dirs.new files.new.items) t) }
{
    let Ok(()) = room_for(dirs, files, &listing) else {
        return Err(listing);
    };
    mark(dirs, dir);
    add_dirs(dirs, listing.dirs);
    add_files(files, listing.files);
    Ok(())
}

// Room for all that the listing reports. What was found stays.
fn room_for(dirs: &mut Dirs, files: &mut Files, listing: &Listing) -> Result<(), AllocError>
    ensures dirs_stay { dirs.new.entries ≡ dirs.old.entries }
    ensures files_stay { files.new.items ≡ files.old.items }
    ensures dirs_room { OnOk result (vec_len listing.now.dirs ≤ map_spare dirs.new) }
    ensures files_room { OnOk result (vec_len files.new + vec_len listing.now.files ≤ vec_capacity files.new) }
{
    dirs.reserve(listing.dirs.len())?;
    files.reserve(listing.files.len())?;
    Ok(())
}
