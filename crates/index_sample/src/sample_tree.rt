//! The sample tree as a tree.
ghost use Rattle.std.specs.Prelude.{◌≡◌, ◌≤◌};
ghost use Rattle.index_sample.specs.Lines.{all_lines};

use crate::entries::listed_at;
use crate::lines::{file_bytes, made_lines, shown_bytes};
use crate::paths::file_number;
use firefly_outside::{Entry, FileBytes, Text, Tree, TreeError};
use std::alloc::{AllocError, Global};

/// The sample tree of a seed and a number of files, with the calls made. Listings and files are
/// made when they are asked for.
#[derive(Drop)]
pub struct SampleTree {
    alloc: Global,
    lines: Vec<Text>,
    seed: u64,
    files: u32,
    listed: Vec<Text>,
    files_read: Vec<Text>,
    failed: Vec<Text>,
    faults: u64,
    ghost whole: { lines.items ≡ all_lines },
    ghost few: { files ≤ 20000 },
}

impl SampleTree {
    ghost use Rattle.std.specs.Prelude.{◌≡◌, ◌≤◌, IfOk};
    ghost use Rattle.firefly_outside.specs.Samples.{IsSampleTree};
    ghost use Rattle.firefly_outside.specs.Seen.{no_calls};
    ghost use Rattle.index_sample.specs.Shown.{tree_of, calls_of, faults_of};

    /// Returns the sample tree of at most 20,000 files, with no call made. Fails only if there is
    /// no memory.
    pub fn new(alloc: Global, seed: u64, files: u32) -> Result<SampleTree, AllocError>
        requires { files ≤ 20000 }
        ensures tree { IfOk result (λ s. IsSampleTree seed files (tree_of s)) }
        ensures calls { IfOk result (λ s. calls_of s ≡ no_calls) }
        ensures faults { IfOk result (λ s. faults_of s ≡ 0) }
    {
        Ok(SampleTree {
            alloc,
            lines: made_lines(alloc)?,
            seed,
            files,
            listed: Vec::new(alloc),
            files_read: Vec::new(alloc),
            failed: Vec::new(alloc),
            faults: 0,
        })
    }

    /// Returns a copy of the tree, with no call made. Fails only if there is no memory.
    pub fn fork(&self, alloc: Global) -> Result<SampleTree, AllocError>
        ensures tree { IfOk result (λ s. tree_of s ≡ tree_of self.now) }
        ensures calls { IfOk result (λ s. calls_of s ≡ no_calls) }
        ensures faults { IfOk result (λ s. faults_of s ≡ 0) }
    {
        Ok(SampleTree {
            alloc,
            lines: self.lines.clone()?,
            seed: self.seed,
            files: self.files,
            listed: Vec::new(alloc),
            files_read: Vec::new(alloc),
            failed: Vec::new(alloc),
            faults: 0,
        })
    }
}

impl SampleTree {
    ghost use Rattle.index_sample.specs.Shown.{Fails};

    // Notes a call that failed, for which memory may run out.
    fn fail(&mut self, path: Text) -> TreeError
        ensures { Fails self.old self.new path result }
    {
        if let Err(_) = self.failed.push(path) {
            return TreeError::Memory;
        }
        self.faults = self.faults.saturating_add(1);
        TreeError::Failed
    }
}

impl Tree for SampleTree {
    ghost use Rattle.std.specs.Prelude.{◌≡◌, [], Some, IfOk};
    ghost use Rattle.firefly_outside.specs.Trees.{Lists, Reads, AreEntries, IsWithin, Counts};
    ghost use Rattle.index_sample.specs.Shown.{tree_of, calls_of, faults_of};

    ghost tree = { λ s. Some (tree_of s) };

    ghost calls = { calls_of };

    ghost may_fail = { λ _. [] };

    ghost faults = { faults_of };

    fn list(&mut self, alloc: Global, dir: &str) -> Result<Vec<Entry>, TreeError>
        ensures tree_stays { Some (tree_of self.new) ≡ Some (tree_of self.old) }
        ensures count { Counts (faults_of self.old) (faults_of self.new) result }
        ensures lawful { IfOk result (λ v. AreEntries v.items) }
        ensures reported { Lists (λ v. v.items) [] dir.now (calls_of self.old) (calls_of self.new) result (tree_of self.old) }
    {
        let Ok(path) = Text::of(alloc, dir) else {
            return Err(TreeError::Memory);
        };
        let Ok(found) = listed_at(alloc, dir, self.files) else {
            return Err(TreeError::Memory);
        };
        let Some(entries) = found else {
            return Err(self.fail(path));
        };
        match self.listed.push(path) {
            Ok(()) => Ok(entries),
            Err(_) => Err(TreeError::Memory),
        }
    }

    fn read(&mut self, alloc: Global, path: &str) -> Result<FileBytes, TreeError>
        ensures tree_stays { Some (tree_of self.new) ≡ Some (tree_of self.old) }
        ensures count { Counts (faults_of self.old) (faults_of self.new) result }
        ensures lawful { IfOk result IsWithin }
        ensures reported { Reads [] path.now (calls_of self.old) (calls_of self.new) result (tree_of self.old) }
    {
        let Ok(text) = Text::of(alloc, path) else {
            return Err(TreeError::Memory);
        };
        let Some(file) = file_number(path, self.files) else {
            return Err(self.fail(text));
        };
        let Ok(bytes) = file_bytes(alloc, &self.lines, self.seed, file) else {
            return Err(TreeError::Memory);
        };
        match self.files_read.push(text) {
            Ok(()) => Ok(shown_bytes(alloc, bytes)),
            Err(_) => Err(TreeError::Memory),
        }
    }
}
