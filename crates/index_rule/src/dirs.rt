//! The list of directories: what walkers take from it, and what they put there.
ghost use Rattle.std.specs.Prelude.{◌≡◌, ◌++◌, ◌+◌, ◌<◌, ◌⊎◌, ◌↔◌, length, IsTrue};
ghost use Rattle.index_rule.specs.Lists.{got_in, IsPutSo, IsTakenSo};
ghost use Rattle.index_rule.specs.Work.{IsAfter};
ghost use Rattle.index_rule.specs.declared.value.IndexValue.TheVariants.{Dirs};

use crate::value::{DirsInWork, FoundCounts, IndexValue, WaitingDirs};
use firefly_outside::Text;

/// What the list has for a walker.
#[derive(Drop)]
pub enum NextDir {
    /// A directory to be listed, or `None` if there will be no more.
    Now(Option<Text>),
    /// Nothing now, but some directories are being listed.
    Wait,
}

/// How a put of found directories ended.
#[derive(Clone, Copy)]
pub enum PutDirs {
    /// They were put, and both limits are kept.
    Within,
    /// They were put, and more directories or files were found than there may be.
    Passed,
    /// There was no memory: none was put, and nothing was counted.
    Memory,
}

impl PutDirs {
    ghost use Rattle.std.specs.Prelude.{◌≡◌, ◌↔◌, IsTrue};

    /// Returns whether the work may go on.
    pub fn is_within(self) -> bool
        ensures { IsTrue result ↔ self ≡ PutDirs.Within }
    {
        match self {
            PutDirs::Within => true,
            PutDirs::Passed | PutDirs::Memory => false,
        }
    }
}

/// Returns the directories, which are the value of mutex 0.
pub fn dirs_in(value: IndexValue) -> DirsInWork
    requires { IsAfter 0 value }
    ensures { value ≡ Dirs result }
{
    match value {
        IndexValue::Dirs(dirs) => dirs,
        IndexValue::Ring(_) => unreachable!(),
    }
}

/// Takes the last directory, which is in work from now on; all others stay. None comes where the list is shut, or where nothing waits and
/// nothing is in work.
pub fn take_dir(list: &mut WaitingDirs) -> NextDir
    ensures waiting { list.old.waiting.items ≡ list.new.waiting.items ++ got_in result }
    ensures taken { IsTakenSo list.old list.new result }
{
    if list.shut {
        return NextDir::Now(None);
    }
    match list.waiting.pop() {
        Some(dir) => {
            // No more directories are being listed than there are walkers.
            list.in_work = list.in_work.saturating_add(1);
            NextDir::Now(Some(dir))
        }
        None => {
            if list.in_work == 0 {
                NextDir::Now(None)
            } else {
                NextDir::Wait
            }
        }
    }
}

// Whether more was found than there may be.
fn is_passed(found: &FoundCounts) -> bool
    ensures { IsTrue result ↔ (found.now.most_dirs < found.now.dirs) ⊎ (found.now.most_files < found.now.files) }
{
    found.dirs > found.most_dirs || found.files > found.most_files
}

/// Puts the directories found in one at the end of the others, and counts them and the files found
/// there.
pub fn put_found(state: &mut DirsInWork, mut found: Vec<Text>, files: usize) -> PutDirs
    ensures { IsPutSo found.items files state.old state.new result }
{
    let Some(dirs) = state.found.dirs.checked_add(found.len() as u64) else {
        return PutDirs::Memory;
    };
    let Some(files) = state.found.files.checked_add(files as u64) else {
        return PutDirs::Memory;
    };
    if state.list.waiting.append(&mut found).is_err() {
        return PutDirs::Memory;
    }
    state.found.dirs = dirs;
    state.found.files = files;
    if is_passed(&state.found) {
        PutDirs::Passed
    } else {
        PutDirs::Within
    }
}
