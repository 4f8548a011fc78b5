//! The workers' calls at what they share: the list of directories, the files and the pieces.

pub mod dir_list;
pub mod files;
pub mod pieces;
