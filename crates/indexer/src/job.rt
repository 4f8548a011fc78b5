//! Workers before they begin.
ghost use Rattle.std.specs.Prelude.{◌≡◌, Option};
ghost use Rattle.indexer.specs.Roles.{role_of, tree_of};

use firefly_outside::Kind;
use index_rule::IndexUses;
use nub_rule::Thread;

/// The role of a worker, with its tree if it has one.
#[derive(Drop)]
pub enum Role<S: Drop> {
    /// Lists directories.
    Walker(S),
    /// Reads files, and makes pieces of them.
    Parser(S),
    /// Merges pieces.
    Merger,
}

/// A worker: its thread and its role.
#[derive(Drop)]
pub struct Job<S: Drop> {
    pub me: Thread<IndexUses>,
    pub role: Role<S>,
}

/// Returns the role of a worker that does this with the tree. Without a tree it is a merger.
pub fn role_with<S: Drop>(kind: Kind, tree: Option<S>) -> Role<S>
    ensures { result ≡ role_of kind tree }
{
    match tree {
        Some(tree) => match kind {
            Kind::Dir => Role::Walker(tree),
            Kind::File => Role::Parser(tree),
        },
        None => Role::Merger,
    }
}

/// Returns the tree of a worker, if it has one.
pub fn tree_in<S: Drop>(role: Role<S>) -> Option<S>
    ensures { result ≡ tree_of role }
{
    match role {
        Role::Walker(tree) => Some(tree),
        Role::Parser(tree) => Some(tree),
        Role::Merger => None,
    }
}
