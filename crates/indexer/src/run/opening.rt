//! The package of an index run.
ghost use Rattle.std.specs.Prelude.{◌≡◌, ◌-◌, ◌^◌, IfOk, length};
ghost use Rattle.std.specs.Option.{unwrap_or};
ghost use Rattle.nub_rule.specs.Items.{Each};
ghost use Rattle.nub.specs.Ended.{IsFirst};
ghost use Rattle.index_rule.specs.Opening.{IsFirst as IsFirstDirs, IsOpening};
ghost use Rattle.index_rule.specs.Shares.{blank};
ghost use Rattle.indexer.specs.Plans.{IsPlan, layout_of};
ghost use Rattle.walker.specs.Closing.{most_dirs};

use crate::plan::{Plan, index_layout};
use bounded_buffer::Ring;
use firefly_outside::Text;
use index_rule::{DirsInWork, FoundCounts, IndexUses, IndexValue, WaitingDirs};
use nub::open_package;
use nub_rule::{Package, Thread};
use std::alloc::{AllocError, Global};
use walker::MOST_DIRS;

/// The greatest number of paths of files that wait to be read.
const MOST_FILES: u32 = 4096;

/// The greatest number of pieces that wait to be merged.
const MOST_PIECES: u32 = 8;

// The list with only the root.
fn first_dirs(alloc: Global, root: &str, plan: &Plan) -> Result<DirsInWork, AllocError>
    ensures first { IfOk result (IsFirstDirs root.now) }
    ensures most_dirs { IfOk result (λ d. d.found.most_dirs ≡ most_dirs) }
    ensures most_files { IfOk result (λ d. d.found.most_files ≡ unwrap_or plan.now.stop_after (2 ^ 64 - 1)) }
{
    let mut waiting = Vec::new(alloc);
    waiting.push(Text::of(alloc, root)?)?;
    Ok(DirsInWork {
        list: WaitingDirs {
            waiting,
            in_work: 0,
            shut: false,
        },
        found: FoundCounts {
            dirs: 1,
            files: 0,
            most_dirs: MOST_DIRS,
            most_files: plan.stop_after.unwrap_or(u64::MAX),
        },
        parsers: plan.parsers,
    })
}

// The list with only the root, and the two buffers.
fn first_values(alloc: Global, root: &str, plan: &Plan) -> Result<Vec<IndexValue>, AllocError>
    ensures { IfOk result (λ vs. IsOpening root.now vs.items) }
{
    let mut values = Vec::with_capacity(alloc, 3)?;
    let dirs = first_dirs(alloc, root, plan)?;
    values.push_reserved(IndexValue::Dirs(dirs));
    let files = Ring::new(alloc, MOST_FILES)?;
    values.push_reserved(IndexValue::Ring(files));
    let pieces = Ring::new(alloc, MOST_PIECES)?;
    values.push_reserved(IndexValue::Ring(pieces));
    Ok(values)
}

/// Opens the package of a run, with only the root in the list of directories. Fails only if there
/// is no memory.
pub fn open_run(
    alloc: Global,
    root: &str,
    plan: &Plan,
) -> Result<(Package<IndexUses>, Vec<Thread<IndexUses>>), AllocError>
    requires { IsPlan plan.now }
    ensures package { IfOk result (λ o. (o.0.layout ≡ layout_of plan.now) × (o.0.traced ≡ plan.now.traced) × (o.0.world ≡ root.now)) }
    ensures count { IfOk result (λ o. length o.1.items ≡ (layout_of plan.now).threads) }
    ensures threads { IfOk result (λ o. Each (IsFirst o.0 (λ w t. blank)) o.1.items) }
{
    let values = first_values(alloc, root, plan)?;
    let world = Text::of(alloc, root)?;
    open_package::<IndexUses>(alloc, index_layout(plan), &world, values, plan.traced)
}
