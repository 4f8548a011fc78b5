//! The use of the package by an index run.
ghost use Rattle.bounded_buffer.specs.declared.did.Did.TheVariants.{Shut};
ghost use Rattle.bounded_buffer.specs.Plain.{put_did, take_did};
ghost use Rattle.index_rule.specs.Shares.{Share, blank, noted};
ghost use Rattle.index_rule.specs.Work.{KeepsWork, FitsWork, MayChange, moved_by, ring_of};
ghost use Rattle.index_rule.specs.WorkLaws.{fits_work, keeps_work};

use crate::value::IndexValue;
use firefly_outside::Text;
use nub_rule::{Change, Uses};
use std::marker::Model;

/// The directories that a thread took from the list and put there, how many files it counted, and
/// all that it did at the buffers. Only contracts see it, so no value of this type is made, and it
/// has no field.
pub struct IndexShare;

impl Model for IndexShare {
    ghost Value = { Share };

    ghost view = { λ s. blank };
}

/// The use in which mutex 0 protects the list of directories, and each other mutex a buffer. The
/// world is the path of the root.
pub struct IndexUses;

impl Uses for IndexUses {
    type Value = IndexValue;

    type World = Text;

    type Share = IndexShare;

    ghost begin = { λ w t. blank };

    ghost holds = { λ w values shares. KeepsWork w values shares };

    ghost fits = { λ w m x t s. FitsWork w m x s };

    ghost allows = { λ w m t x y s r. MayChange w m x y s r };

    ghost holds_fits = { fits_work };

    ghost holds_after = { keeps_work };
}

/// The change by which the share gets the directories that left the list and those that were put
/// there, and the files that were counted.
pub struct DidMove;

/// The change by which the share gets a note of what a put did.
pub struct DidPut;

/// The change by which the share gets a note of what a take did.
pub struct DidTake;

/// The change by which the share gets a note that its thread shut the buffer.
pub struct DidShut;

impl Change<IndexUses> for DidMove {
    ghost after = { λ w m t x y s. moved_by x y s };
}

impl Change<IndexUses> for DidPut {
    ghost after = { λ w m t x y s. noted m (put_did (ring_of x) (ring_of y)) s };
}

impl Change<IndexUses> for DidTake {
    ghost after = { λ w m t x y s. noted m (take_did (ring_of x)) s };
}

impl Change<IndexUses> for DidShut {
    ghost after = { λ w m t x y s. noted m Shut s };
}
