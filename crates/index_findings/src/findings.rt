//! What a worker came by.
use firefly_outside::Text;
use walker::Listing;
use word_index::Piece;

/// A directory that was listed, and its listing.
#[derive(Drop)]
pub struct Visit {
    pub dir: Text,
    pub listing: Listing,
}

/// The whole path of a directory that wasn't listed, or of a file that wasn't read, though the tree was asked.
#[derive(Drop)]
pub enum Fault {
    Dir(Text),
    File(Text),
}

/// The directories that a worker listed, the indexes of files that it is left with, the path that failed, if one did, and whether something
/// that it had listed, read or taken was lost since memory wanted.
#[derive(Drop)]
pub struct Findings {
    pub visits: Vec<Visit>,
    pub pieces: Vec<Piece>,
    pub fault: Option<Fault>,
    pub lost: bool,
}
