//! Marks on the paths of an index, one for each.
ghost use Rattle.std.specs.Prelude.{◌≡◌, ℕ, ◌<◌, ◌≤◌, ◌&&◌, ◌||◌, not, true, false, length, replicate, slice_set, slice_index_or, IfOk};

use std::alloc::{AllocError, Global};
use std::marker::Model;

/// Whether each path is marked.
#[derive(Drop)]
pub struct Selected {
    marks: Vec<bool>,
}

impl Model for Selected {
    ghost use Rattle.std.specs.Prelude.{List, Bool};

    ghost Value = { List Bool };

    ghost view = { λ m. m.marks.items };
}

impl Selected {
    ghost use Rattle.index_find.specs.Marks.{at};

    /// So many places without a mark.
    pub fn none(alloc: Global, many: usize) -> Result<Selected, AllocError>
        ensures { IfOk result (λ m. m ≡ replicate many false) }
    {
        Ok(Selected {
            marks: vec![in alloc; false; many]?,
        })
    }

    /// How many places there are.
    pub fn len(&self) -> usize
        ensures { result ≡ length self.now }
    {
        self.marks.len()
    }

    /// Whether the place is marked.
    pub fn get(&self, place: usize) -> bool
        requires { place < length self.now }
        ensures { result ≡ at self.now place }
    {
        self.marks[place]
    }

    /// Marks the place.
    pub fn mark(&mut self, place: usize)
        requires { place < length self.old }
        ensures { self.new ≡ slice_set self.old place true }
    {
        self.marks[place] = true;
    }

    /// Marks exactly the places that weren't marked.
    pub fn turn(&mut self)
        ensures many { length self.new ≡ length self.old }
        ensures each { (k : ℕ) → k < length self.old → at self.new k ≡ not (at self.old k) }
    {
        for mark in self.marks.iter_mut() {
            *mark = !*mark;
        }
    }

    /// Keeps the marks at the places that the other marks too.
    pub fn keep(&mut self, other: &Selected)
        requires { length other.now ≡ length self.old }
        ensures many { length self.new ≡ length self.old }
        ensures each { (k : ℕ) → k < length self.old → at self.new k ≡ (at self.old k && at other.now k) }
    {
        for k in 0..self.marks.len() {
            self.marks[k] = self.marks[k] && other.marks[k];
        }
    }

    /// Marks the places too that the other marks.
    pub fn add(&mut self, other: &Selected)
        requires { length other.now ≡ length self.old }
        ensures many { length self.new ≡ length self.old }
        ensures each { (k : ℕ) → k < length self.old → at self.new k ≡ (at self.old k || at other.now k) }
    {
        for k in 0..self.marks.len() {
            self.marks[k] = self.marks[k] || other.marks[k];
        }
    }
}
