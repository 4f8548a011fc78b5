//! Hands trees to the workers, and gets them back.
ghost use Rattle.std.specs.Prelude.{◌≡◌, ◌+◌, ◌≤◌, ◌<◌, ◌∷◌, [], ℕ, List, length, map, vec_len, vec_capacity, slice_index_or, IfOk, OnErr, Option, Some, None};
ghost use Rattle.indexer.specs.Jobs.{AreJobs, kind_at, tree_at};
ghost use Rattle.indexer.specs.Roles.{tree_of};
ghost use Rattle.indexer.specs.declared.job.Job.{Job};

use crate::job::{Job, role_with, tree_in};
use firefly_outside::Kind;
use index_rule::IndexUses;
use nub_rule::Thread;
use std::alloc::{AllocError, Global};
use std::mem;

/// Puts `tree` at the place k, and returns what was there.
pub fn put_at<S: Drop>(trees: &mut [Option<S>], k: usize, tree: Option<S>) -> Option<S>
    requires { k < length trees.old }
    ensures was { result ≡ slice_index_or trees.old k None }
    ensures tree { (d : Option S) → slice_index_or trees.new k d ≡ tree }
    ensures others { (i : ℕ) (d : Option S) → (i ≡ k → ⊥) → slice_index_or trees.new i d ≡ slice_index_or trees.old i d }
{
    mem::replace(&mut trees[k], tree)
}

// Takes the tree of the worker k, if it has one.
fn take_tree<S: Drop>(trees: &mut [Option<S>], with_tree: usize, k: usize) -> Option<S>
    requires { with_tree ≤ length trees.old }
    ensures tree { result ≡ tree_at with_tree trees.old k }
    ensures others { (i : ℕ) (d : Option S) → (i ≡ k → ⊥) → slice_index_or trees.new i d ≡ slice_index_or trees.old i d }
    ensures above { (i : ℕ) (d : Option S) → with_tree ≤ i → slice_index_or trees.new i d ≡ slice_index_or trees.old i d }
    ensures left { (i : ℕ) (r : S) → slice_index_or trees.new i None ≡ Some r → slice_index_or trees.old i None ≡ Some r }
{
    if k < with_tree {
        put_at(trees, k, None)
    } else {
        None
    }
}

// Puts the tree of the worker k back.
fn put_tree<S: Drop>(trees: &mut [Option<S>], with_tree: usize, k: usize, tree: Option<S>)
    requires { with_tree ≤ length trees.old }
    ensures tree { (d : Option S) → k < with_tree → slice_index_or trees.new k d ≡ tree }
    ensures others { (i : ℕ) (d : Option S) → (i ≡ k → ⊥) → slice_index_or trees.new i d ≡ slice_index_or trees.old i d }
    ensures above { (i : ℕ) (d : Option S) → with_tree ≤ i → slice_index_or trees.new i d ≡ slice_index_or trees.old i d }
{
    if k < with_tree {
        put_at(trees, k, tree);
    }
}

// What the worker k does with its tree: the walkers come first.
fn kind_of_place(walkers: usize, k: usize) -> Kind
    ensures { result ≡ kind_at walkers k }
{
    if k < walkers { Kind::Dir } else { Kind::File }
}

/// Makes a job for each thread; the first of them get the trees, and of these the first are
/// walkers. Fails only if there is no memory, and then each tree is in its place.
pub fn jobs_of<S: Drop>(
    alloc: Global,
    threads: Vec<Thread<IndexUses>>,
    trees: &mut [Option<S>],
    walkers: usize,
    with_tree: usize,
) -> Result<Vec<Job<S>>, AllocError>
    requires { with_tree ≤ length trees.old }
    ensures jobs { IfOk result (λ js. AreJobs walkers with_tree threads.items trees.old trees.new js.items) }
    ensures stay { OnErr result (trees.new ≡ trees.old) }
{
    let mut jobs = Vec::with_capacity(alloc, threads.len())?;
    for me in threads {
        let k = jobs.len();
        let tree = take_tree(trees, with_tree, k);
        let role = role_with(kind_of_place(walkers, k), tree);
        jobs.push_reserved(Job { me, role });
    }
    Ok(jobs)
}

/// Puts the trees back, and returns all threads, the caller's first, in the empty vector that is
/// passed.
pub fn put_back<S: Drop>(
    caller: Thread<IndexUses>,
    jobs: Vec<Job<S>>,
    trees: &mut [Option<S>],
    with_tree: usize,
    mut threads: Vec<Thread<IndexUses>>,
) -> Vec<Thread<IndexUses>>
    requires trees { with_tree ≤ length trees.old }
    requires empty { threads.items ≡ [] }
    requires room { vec_len threads + vec_len jobs < vec_capacity threads }
    ensures threads { result.items ≡ caller ∷ map (λ j. j.me) jobs.items }
    ensures trees { (k : ℕ) (d : Option S) (e : Job S) → k < with_tree → k < vec_len jobs
        → slice_index_or trees.new k d ≡ tree_of (slice_index_or jobs.items k e).role }
    ensures others { (i : ℕ) (d : Option S) → with_tree ≤ i → slice_index_or trees.new i d ≡ slice_index_or trees.old i d }
{
    threads.push_reserved(caller);
    let mut k = 0;
    for job in jobs {
        let Job { me, role } = job;
        put_tree(trees, with_tree, k, tree_in(role));
        k += 1;
        threads.push_reserved(me);
    }
    threads
}
