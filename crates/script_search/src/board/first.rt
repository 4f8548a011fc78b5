//! The first scene of a layout.
ghost use Rattle.std.specs.Prelude.{◌≡◌, IfOk};
ghost use Rattle.larch_actions.specs.Layout.{IsLawful};
ghost use Rattle.script_search.specs.Boards.{moment_of, is_second};
ghost use Rattle.script_search.specs.Firsts.{first_place, first_thread, AreFirst, IsFirst};

use super::{Board, Place, Thread};
use larch_actions::{Layout, Version};
use std::alloc::{AllocError, Global};

pub(crate) fn is_second(version: Version) -> bool
    ensures { result ≡ is_second version }
{
    match version {
        Version::One => false,
        Version::Two => true,
    }
}

fn first_place(version: Version, t: u32) -> Place
    ensures { result ≡ first_place version t }
{
    match version {
        Version::One => Place::Running,
        Version::Two => {
            if t == 0 {
                Place::Running
            } else {
                Place::Unborn
            }
        }
    }
}

fn first_threads(alloc: Global, version: Version, count: u32) -> Result<Vec<Thread>, AllocError>
    ensures { IfOk result (λ v. AreFirst version count v.items) }
{
    let mut threads = Vec::new(alloc);
    for t in 0..count {
        let thread = Thread {
            played: 0,
            place: first_place(version, t),
            alerted: false,
        };
        threads.push(thread)?;
    }
    Ok(threads)
}

impl Board {
    /// The board of the first scene.
    pub(crate) fn first(alloc: Global, layout: &Layout) -> Result<Board, AllocError>
        requires { IsLawful layout.now }
        ensures { IfOk result (λ b. IsFirst layout.now (moment_of b)) }
    {
        Ok(Board {
            second: is_second(layout.version),
            threads: first_threads(alloc, layout.version, layout.threads)?,
            holders: vec![in alloc; None; layout.mutexes as usize]?,
            available: vec![in alloc; true; layout.semaphores as usize]?,
        })
    }
}
