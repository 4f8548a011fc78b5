//! The values of an index run's mutexes.
use bounded_buffer::Ring;
use firefly_outside::Text;
use word_index::Piece;

/// The directories that wait to be listed, how many are being listed now, and whether no more are to be.
#[derive(Drop)]
pub struct WaitingDirs {
    pub waiting: Vec<Text>,
    pub in_work: u32,
    pub shut: bool,
}

/// How many directories, with the root, and how many files were found, and how many of each there
/// may be.
#[derive(Drop)]
pub struct FoundCounts {
    pub dirs: u64,
    pub files: u64,
    pub most_dirs: u64,
    pub most_files: u64,
}

/// The value of the first mutex: the list of directories, what was found so far, and how many
/// parsers are at work.
#[derive(Drop)]
pub struct DirsInWork {
    pub list: WaitingDirs,
    pub found: FoundCounts,
    pub parsers: u32,
}

/// An item of a buffer: the path of a file that is to be read, or the index of some files.
#[derive(Drop)]
pub enum IndexItem {
    File(Text),
    Piece(Piece),
}

/// The directories in work, or a buffer.
#[derive(Drop)]
pub enum IndexValue {
    Dirs(DirsInWork),
    Ring(Ring<IndexItem>),
}
