//! A tree in memory.
ghost use Rattle.firefly_outside.specs.MemTrees.{reported_by, IsWhole};

use crate::place::{Place, Places, add_place, copy_of, may_add};
use crate::tree::shown;
use crate::{Entry, FileBytes, Kind, Text, Tree, TreeError};
use std::alloc::{AllocError, Global};

/// Directories and files in memory, with the calls made and the paths that are to fail.
#[derive(Drop)]
pub struct MemTree {
    alloc: Global,
    places: Places,
    weak: Vec<Text>,
    listed: Vec<Text>,
    files_read: Vec<Text>,
    failed: Vec<Text>,
    faults: u64,
    ghost whole: { IsWhole (reported_by places) },
}

impl MemTree {
    ghost use Rattle.std.specs.Prelude.{◌≡◌, ◌⊎◌, ◌↔◌, ◌++◌, ◌∷◌, List, [], None, OnOk, OnErr, IfOk, IsTrue};
    ghost use Rattle.firefly_outside.specs.Trees.{HasParent, IsBare, Adds, Directory, Bytes};
    ghost use Rattle.firefly_outside.specs.Seen.{tree_of, weak_of, calls_of, faults_of, no_calls, IsEqualBut};

    /// An empty tree.
    pub fn new(alloc: Global) -> MemTree
        ensures bare { IsBare (tree_of result) }
        ensures calls { calls_of result ≡ no_calls }
        ensures weak { weak_of result ≡ [] }
        ensures faults { faults_of result ≡ 0 }
    {
        MemTree {
            alloc,
            places: Places::new(alloc),
            weak: Vec::new(alloc),
            listed: Vec::new(alloc),
            files_read: Vec::new(alloc),
            failed: Vec::new(alloc),
            faults: 0,
        }
    }

    /// Adds an empty directory. A refused call changes nothing.
    pub fn add_dir(&mut self, path: &str) -> Result<(), AllocError>
        requires absent { tree_of self.old path.now ≡ None }
        requires parent { IsBare (tree_of self.old) ⊎ HasParent (tree_of self.old) path.now }
        ensures ok { OnOk result (Adds (tree_of self.old) (tree_of self.new) path.now Kind.Dir (Directory [])) }
        ensures err { OnErr result (tree_of self.new ≡ tree_of self.old) }
        ensures others { IsEqualBut self.old self.new }
    {
        let place = Place::Dir(Vec::new(self.alloc));
        add_place(&mut self.places, self.alloc, path, Kind::Dir, place)
    }

    /// Adds a file of these bytes. A refused call changes nothing.
    pub fn add_file(&mut self, path: &str, bytes: Vec<u8>) -> Result<(), AllocError>
        requires absent { tree_of self.old path.now ≡ None }
        requires parent { HasParent (tree_of self.old) path.now }
        ensures ok { OnOk result (Adds (tree_of self.old) (tree_of self.new) path.now Kind.File (Bytes bytes.items)) }
        ensures err { OnErr result (tree_of self.new ≡ tree_of self.old) }
        ensures others { IsEqualBut self.old self.new }
    {
        add_place(
            &mut self.places,
            self.alloc,
            path,
            Kind::File,
            Place::File(bytes),
        )
    }

    /// Whether something may be added at this path: nothing is there, and its parent is a directory.
    pub fn may_add(&self, path: &str) -> Result<bool, AllocError>
        ensures { IfOk result (λ b. IsTrue b ↔ (tree_of self.now path.now ≡ None) × HasParent (tree_of self.now) path.now) }
    {
        may_add(&self.places, self.alloc, path)
    }

    /// A copy of the tree, with no call made and no path that is to fail.
    pub fn fork(&self, alloc: Global) -> Result<MemTree, AllocError>
        ensures tree { IfOk result (λ m. tree_of m ≡ tree_of self.now) }
        ensures calls { IfOk result (λ m. calls_of m ≡ no_calls) }
        ensures weak { IfOk result (λ m. weak_of m ≡ []) }
        ensures faults { IfOk result (λ m. faults_of m ≡ 0) }
    {
        Ok(MemTree {
            alloc,
            places: copy_of(&self.places)?,
            weak: Vec::new(alloc),
            listed: Vec::new(alloc),
            files_read: Vec::new(alloc),
            failed: Vec::new(alloc),
            faults: 0,
        })
    }

    /// From now on each list and each read of this path fails.
    pub fn fail_at(&mut self, path: &str) -> Result<(), AllocError>
        ensures ok { OnOk result (weak_of self.new ≡ weak_of self.old ++ path.now ∷ []) }
        ensures err { OnErr result (weak_of self.new ≡ weak_of self.old) }
        ensures tree { tree_of self.new ≡ tree_of self.old }
        ensures calls { calls_of self.new ≡ calls_of self.old }
        ensures faults { faults_of self.new ≡ faults_of self.old }
    {
        let path = Text::of(self.alloc, path)?;
        self.weak.push(path)?;
        Ok(())
    }

    /// Shows the paths listed, in order of the calls.
    pub fn listed(&self) -> &[Text]
        ensures { result.now ≡ (calls_of self.now).listed }
    {
        &self.listed
    }

    /// Shows the paths read, in order of the calls.
    pub fn files_read(&self) -> &[Text]
        ensures { result.now ≡ (calls_of self.now).files_read }
    {
        &self.files_read
    }

    /// Shows the paths that failed, in order of the calls.
    pub fn failed(&self) -> &[Text]
        ensures { result.now ≡ (calls_of self.now).failed }
    {
        &self.failed
    }
}

impl MemTree {
    ghost use Rattle.std.specs.Prelude.{◌≡◌, ◌++◌, ◌∷◌, List, [], Contains, OnErr, IsTrue, ◌↔◌, ◌+◌, ◌≤◌};
    ghost use Rattle.firefly_outside.specs.Trees.{Path, Counts};
    ghost use Rattle.firefly_outside.specs.Causes.{Rose};
    ghost use Rattle.firefly_outside.specs.Seen.{tree_of, weak_of, calls_of, faults_of, Fails};

    // Whether calls at this path are to fail.
    fn is_weak(&self, path: &Text) -> bool
        ensures { IsTrue result ↔ Contains (weak_of self.now) path.now }
    {
        self.weak.contains(path)
    }

    // Notes a call that failed, for which memory may want.
    fn fail(&mut self, path: Text) -> TreeError
        ensures { Fails self.old self.new path result }
    {
        if let Err(_) = self.failed.push(path) {
            return TreeError::Memory;
        }
        self.faults = self.faults.saturating_add(1);
        TreeError::Failed
    }
}

impl Tree for MemTree {
    ghost use Rattle.std.specs.Prelude.{◌≡◌, Some, IfOk, Contains};
    ghost use Rattle.firefly_outside.specs.Trees.{Lists, Reads, AreEntries, IsWithin, Counts};
    ghost use Rattle.firefly_outside.specs.Seen.{tree_of, weak_of, calls_of, faults_of};

    ghost tree = { λ m. Some (tree_of m) };

    ghost calls = { calls_of };

    ghost may_fail = { weak_of };

    ghost faults = { faults_of };

    fn list(&mut self, alloc: Global, dir: &str) -> Result<Vec<Entry>, TreeError>
        ensures tree_stays { tree_of self.new ≡ tree_of self.old }
        ensures weak_stays { weak_of self.new ≡ weak_of self.old }
        ensures count { Counts (faults_of self.old) (faults_of self.new) result }
        ensures lawful { IfOk result (λ v. AreEntries v.items) }
        ensures reported { Lists (λ v. v.items) (weak_of self.old) dir.now (calls_of self.old) (calls_of self.new) result (tree_of self.old) }
        ensures exact { IfOk result (λ _. ¬ Contains (weak_of self.old) dir.now) }
    {
        let Ok(path) = Text::of(alloc, dir) else {
            return Err(TreeError::Memory);
        };
        if self.is_weak(&path) {
            return Err(self.fail(path));
        }
        let Some(Place::Dir(entries)) = self.places.get(&path) else {
            return Err(self.fail(path));
        };
        let Ok(entries) = entries.clone() else {
            return Err(TreeError::Memory);
        };
        match self.listed.push(path) {
            Ok(()) => Ok(entries),
            Err(_) => Err(TreeError::Memory),
        }
    }

    fn read(&mut self, alloc: Global, path: &str) -> Result<FileBytes, TreeError>
        ensures tree_stays { tree_of self.new ≡ tree_of self.old }
        ensures weak_stays { weak_of self.new ≡ weak_of self.old }
        ensures count { Counts (faults_of self.old) (faults_of self.new) result }
        ensures lawful { IfOk result IsWithin }
        ensures reported { Reads (weak_of self.old) path.now (calls_of self.old) (calls_of self.new) result (tree_of self.old) }
        ensures exact { IfOk result (λ _. ¬ Contains (weak_of self.old) path.now) }
    {
        let Ok(path) = Text::of(alloc, path) else {
            return Err(TreeError::Memory);
        };
        if self.is_weak(&path) {
            return Err(self.fail(path));
        }
        let Some(Place::File(bytes)) = self.places.get(&path) else {
            return Err(self.fail(path));
        };
        let Ok(file) = shown(alloc, bytes) else {
            return Err(TreeError::Memory);
        };
        match self.files_read.push(path) {
            Ok(()) => Ok(file),
            Err(_) => Err(TreeError::Memory),
        }
    }
}
