//! The boards that a search has found, each as its bytes alone.
ghost use Rattle.std.specs.Prelude.{◌≡◌, ◌<◌, ◌↔◌, IsTrue, [], length, slice_get, Some, IfOk, IfErr, OnOk};
ghost use Rattle.script_search.specs.declared.found.Stop.TheVariants as Stop;
ghost use Rattle.script_search.specs.Boards.{moment_of, IsBoard};
ghost use Rattle.script_search.specs.Founds.{moments_of, keys_of, IsThere, IsKeyed, Pushes, Adds, IsFull, IsAlone};
ghost use Rattle.script_search.specs.Tries.{IsAt};
ghost use Rattle.script_search.specs.Keys.{key_of, moment_in};

use crate::board::Board;
use crate::pack::{Key, pack};
use crate::unpack::unpack;
use indexmap::IndexSet;
use larch_actions::Layout;
use std::alloc::{AllocError, Global};
use thiserror::Error;

/// Why a search has no answer.
#[derive(Clone, Copy, Debug, PartialEq, Eq, Error)]
pub enum Stop {
    #[error("out of memory")]
    Memory,
    #[error("too many scenes")]
    Limit,
}

impl From<AllocError> for Stop {
    ghost from_gives = { λ _ stop. stop ≡ Stop.Memory };

    fn from(_: AllocError) -> Stop {
        Stop::Memory
    }
}

/// The boards that a search has found, in order, and from which of them each was found.
#[derive(Drop)]
pub struct Found {
    layout: Layout,
    keys: IndexSet<Key>,
    parents: Vec<u32>,
    limit: u32,
}

impl Found {
    // Nothing is found yet.
    fn empty(alloc: Global, layout: &Layout, limit: u32) -> Found
        ensures keyed { IsKeyed result }
        ensures none { moments_of result ≡ [] }
        ensures parents { result.parents.items ≡ [] }
        ensures layout { result.layout ≡ layout.now }
        ensures limit { result.limit ≡ limit }
    {
        Found {
            layout: *layout,
            keys: IndexSet::new(alloc),
            parents: Vec::new(alloc),
            limit,
        }
    }

    /// The board alone, unless none is allowed.
    pub fn first(alloc: Global, layout: &Layout, board: &Board, limit: u32) -> Result<Found, Stop>
        requires { IsBoard layout.now (moment_of board.now) }
        ensures ok { IfOk result (λ f. IsAlone f layout.now (moment_of board.now) limit) }
        ensures full { IfErr result (λ e. e ≡ Stop.Limit → limit ≡ 0) }
    {
        let mut found = Found::empty(alloc, layout, limit);
        match found.add(alloc, board, 0) {
            Ok(()) => Ok(found),
            Err(stop) => Err(stop),
        }
    }

    fn len(&self) -> usize
        ensures { result ≡ length (moments_of self.now) }
    {
        self.keys.len()
    }

    /// Whether a board stands at the place.
    pub fn has(&self, place: u32) -> bool
        ensures { IsTrue result ↔ (place < length (moments_of self.now)) }
    {
        (place as usize) < self.len()
    }

    /// The board at the place.
    pub fn board(&self, alloc: Global, place: u32) -> Result<Board, AllocError>
        requires { place < length (moments_of self.now) }
        ensures { IfOk result (λ b. IsAt self.now place (moment_of b)) }
    {
        let key = &self.keys.as_slice()[place as usize];
        unpack(alloc, &self.layout, key.as_slice())
    }

    /// The place of the board from which the one at this place was found.
    pub fn parent(&self, place: u32) -> u32
        requires { place < length self.now.parents.items }
        ensures { slice_get self.now.parents.items place ≡ Some result }
    {
        self.parents[place as usize]
    }

    // Adds the bytes of a board that isn't there yet.
    fn push(&mut self, key: Key, parent: u32) -> Result<(), AllocError>
        requires keyed { IsKeyed self.old }
        requires key { key_of (moment_in self.old.layout key.items) ≡ key.items }
        requires absent { IsThere (keys_of self.old) key.items → ⊥ }
        requires room { length (moments_of self.old) < self.old.limit }
        ensures keyed { IsKeyed self.new }
        ensures ok { OnOk result (Pushes self.old self.new (moment_in self.old.layout key.items) parent) }
    {
        self.parents.reserve(1)?;
        if let Err(_) = self.keys.insert(key) {
            return Err(AllocError);
        }
        self.parents.push_reserved(parent);
        Ok(())
    }

    /// Adds the board, which was found from the one at that place, where it isn't there yet.
    pub fn add(&mut self, alloc: Global, board: &Board, parent: u32) -> Result<(), Stop>
        requires keyed { IsKeyed self.old }
        requires board { IsBoard self.old.layout (moment_of board.now) }
        ensures keyed { IsKeyed self.new }
        ensures ok { OnOk result (Adds self.old self.new (moment_of board.now) parent) }
        ensures full { IfErr result (λ e. e ≡ Stop.Limit → IsFull self.old (moment_of board.now)) }
    {
        let mut key = pack(alloc, board)?;
        if self.keys.contains(&key) {
            return Ok(());
        }
        if self.len() == self.limit as usize {
            return Err(Stop::Limit);
        }
        key.shrink_to_fit();
        self.push(key, parent)?;
        Ok(())
    }
}
