//! A script by its threads.
ghost use Rattle.std.specs.Prelude.{◌≡◌, ◌^◌, ◌<◌, ◌≤◌, IfOk, ℕ, length, take, filter, slice_get, OnSome, ◌==◌};
ghost use Rattle.larch_actions.specs.Layout.{IsLawful};
ghost use Rattle.script_text.specs.Text.{IsScript};
ghost use Rattle.script_text.specs.Operations.{is_born, none_forked, forked_after};
ghost use Rattle.script_text.specs.Runs.{lines_of, added_by, total};
ghost use Rattle.script_plays.specs.Choices.{is_silent};
ghost use Rattle.script_plays.specs.Scenes.{number_of, settled};
ghost use Rattle.script_search.specs.Boards.{moment_of, spec_of, played_of, IsBoard, SameSize};

use crate::board::Board;
use crate::born::is_born;
use larch_actions::Layout;
use script_text::{Line, Operation, Script};
use std::alloc::{AllocError, Global};
use std::marker::Model;

/// A script, with the lines of each thread.
#[derive(Drop)]
pub struct Plan<'a> {
    layout: Layout,
    all: &'a [Line],
    lines: Vec<Vec<Line>>,
}

impl<'a> Model for Plan<'a> {
    ghost use Rattle.script_text.specs.Seen.{Seen};

    ghost Value = { Seen };

    ghost use Rattle.script_search.specs.Planned.{IsPlan};

    ghost view = { λ p. record { layout = p.layout; lines = p.all.now } };

    ghost invariant = { λ p. IsPlan p.layout p.all.now p.lines.items };
}

// The lines of one thread.
fn own_lines(alloc: Global, all: &[Line], t: u32) -> Result<Vec<Line>, AllocError>
    ensures { IfOk result (λ v. v.items ≡ filter (λ x. x.thread.0 == t) all.now) }
{
    all.iter()
        .copied()
        .filter(|line| line.thread.0 == t)
        .collect(alloc)
}

// What the line adds to the number of the mutex.
fn amount_added(line: &Line, mutex: u32) -> u64
    ensures { result ≡ added_by line.now.operation mutex }
{
    match line.operation {
        Operation::Add { mutex: own, number } => { if own.0 == mutex { number } else { 0 } }
        _ => 0,
    }
}

// What these lines add to the number of the mutex.
fn sum(lines: &[Line], mutex: u32) -> u64
    requires { (n : ℕ) → total (take n lines.now) mutex < 2 ^ 64 }
    ensures { result ≡ total lines.now mutex }
{
    let mut sum = 0;
    for line in lines {
        sum += amount_added(line, mutex);
    }
    sum
}

impl<'a> Plan<'a> {
    /// The plan of a script.
    pub fn new(alloc: Global, script: &'a Script) -> Result<Plan<'a>, AllocError>
        ensures { IfOk result (λ p. p ≡ script.now) }
    {
        let layout = script.layout();
        let all = script.lines();
        let mut lines = Vec::new(alloc);
        for t in 0..layout.threads {
            lines.push(own_lines(alloc, all, t)?)?;
        }
        Ok(Plan { layout, all, lines })
    }

    /// The layout of the script.
    pub fn layout(&self) -> Layout
        ensures layout { result ≡ self.now.layout }
        ensures lawful { IsLawful result }
        ensures few { length self.now.lines < 100000 }
    {
        self.layout
    }

    fn line_at(&self, t: u32, before: u32) -> Option<Line>
        requires { t < self.now.layout.threads }
        ensures { result ≡ slice_get (lines_of t self.now.lines) before }
    {
        self.lines[t as usize].get(before as usize).copied()
    }

    /// The line of the thread after so many, if it has one.
    pub fn line(&self, t: u32, before: u32) -> Option<Line>
        requires { t < self.now.layout.threads }
        ensures value { result ≡ slice_get (lines_of t self.now.lines) before }
        ensures few { OnSome result (before < 100000) }
    {
        // This brings the invariant of the plan into the proof.
        let _ = &self.layout;
        self.line_at(t, before)
    }

    /// How many lines the thread has.
    pub fn count(&self, t: u32) -> u32
        requires { t < self.now.layout.threads }
        ensures { result ≡ length (lines_of t self.now.lines) }
    {
        self.lines[t as usize].len() as u32
    }

    // What the first lines of the thread add to the number of the mutex.
    fn part(&self, t: u32, before: u32, mutex: u32) -> u64
        requires { t < self.now.layout.threads }
        ensures sum { result ≡ total (take before (lines_of t self.now.lines)) mutex }
        ensures small { result ≤ 100000000000 }
    {
        let own = &self.lines[t as usize];
        let end = own.len().min(before as usize);
        sum(&own[..end], mutex)
    }

    /// The number of the mutex in the scene.
    pub fn number(&self, board: &Board, mutex: u32) -> u64
        requires { IsBoard self.now.layout (moment_of board.now) }
        ensures { result ≡ number_of self.now.layout.threads self.now.lines (played_of (moment_of board.now)) mutex }
    {
        let mut sum = 0;
        for t in 0..self.layout.threads {
            sum += self.part(t, board.played(t), mutex);
        }
        sum
    }

    // Whether the line of the scene is played with no event.
    fn is_silent(&self, board: &Board, line: &Line) -> bool
        requires { IsBoard self.now.layout (moment_of board.now) }
        ensures { result ≡ is_silent line.now.operation
            (number_of self.now.layout.threads self.now.lines (played_of (moment_of board.now))) }
    {
        match line.operation {
            Operation::Add { .. } => true,
            Operation::Until { mutex, number, .. } => number <= self.number(board, mutex.0),
            Operation::AlertUntil { mutex, number, .. } => number <= self.number(board, mutex.0),
            _ => false,
        }
    }

    /// Plays the silent lines that the thread has before it.
    pub fn settle(&self, board: &mut Board, t: u32)
        requires thread { t < self.now.layout.threads }
        requires board { IsBoard self.now.layout (moment_of board.old) }
        ensures sizes { SameSize (moment_of board.old) (moment_of board.new) }
        ensures spec { spec_of (moment_of board.new) ≡ spec_of (moment_of board.old) }
        ensures played { played_of (moment_of board.new)
            ≡ settled self.now.layout.threads self.now.lines t (played_of (moment_of board.old)) }
    {
        while let Some(line) = self.line(t, board.played(t)) {
            if !self.is_silent(board, &line) {
                return;
            }
            let played = board.played(t) + 1;
            board.set_played(t, played);
        }
    }

    /// Whether the thread is thread 0, or one that a line forks.
    pub fn is_born(&self, t: u32) -> bool
        ensures { result ≡ is_born (forked_after none_forked self.now.lines) t }
    {
        is_born(self.all, t)
    }
}
