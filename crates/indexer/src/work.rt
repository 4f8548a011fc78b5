//! What one worker does.
ghost use Rattle.std.specs.Prelude.{◌≡◌, Some};
ghost use Rattle.index_rule.specs.Shares.{blank};
ghost use Rattle.indexer.specs.Jobs.{GivesRole};
ghost use Rattle.indexer.specs.Turns.{HasLists, IsBetween};

use crate::job::{Job, Role};
use crate::workers::lister::walk;
use crate::workers::mergers::merge_all;
use crate::workers::parser::parse;
use firefly_outside::Tree;
use index_findings::Findings;
use index_rule::IndexUses;
use nub_rule::Package;
use package_crew::BeforeStart;
use std::alloc::Global;
use std::sync::Wait;

/// Does the work of one worker. The parsers are numbered from 1; their threads follow those of the
/// walkers.
pub fn work<R: Wait, S: Tree, G: BeforeStart>(
    rt: &R,
    alloc: Global,
    p: &Package<IndexUses>,
    root: &str,
    before_start: &G,
    walkers: u32,
    job: Job<S>,
) -> (Job<S>, Findings)
    requires layout { HasLists p.now.layout }
    requires between { IsBetween p.now job.me }
    requires first { job.me.share ≡ Some blank }
    requires root { root.now ≡ p.now.world }
    ensures { GivesRole S.tree S.may_fail S.faults S.calls root.now p.now job.me result.0.me result.1 job.role result.0.role }
{
    let Job { mut me, role } = job;
    match role {
        Role::Walker(mut tree) => {
            let findings = walk(rt, alloc, p, &mut me, &mut tree);
            let role = Role::Walker(tree);
            (Job { me, role }, findings)
        }
        Role::Parser(mut tree) => {
            before_start.begins(me.number().saturating_sub(walkers));
            let findings = parse(rt, alloc, p, &mut me, root, &mut tree);
            let role = Role::Parser(tree);
            (Job { me, role }, findings)
        }
        Role::Merger => {
            let findings = merge_all(rt, alloc, p, &mut me);
            let role = Role::Merger;
            (Job { me, role }, findings)
        }
    }
}
