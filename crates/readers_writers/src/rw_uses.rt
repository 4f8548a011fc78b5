//! The use of the package by readers and writers.
ghost use Rattle.std.specs.Prelude.{[], ◌∷◌};
ghost use Rattle.readers_writers.specs.declared.role.Role.TheVariants.{Idle, Reading, Writing};
ghost use Rattle.readers_writers.specs.Roles.{AreRoles, Allowed, IsKnown, goes_to, role_of};
ghost use Rattle.readers_writers.specs.RoleLaws.{fits_known, roles_after};

use crate::role::RoleChange;
use crate::state::RwState;
use nub_rule::{Change, Uses};
use std::collections::LinkedList;

/// The use in which each mutex protects the state of its readers and writer. A share says for each
/// mutex whether its thread is idle, reads or writes.
pub struct RwUses;

impl Uses for RwUses {
    type Value = RwState;

    type World = ();

    type Share = LinkedList<RoleChange>;

    ghost begin = { λ w t. [] };

    ghost holds = { λ w values shares. AreRoles values shares };

    ghost fits = { λ w m x t s. IsKnown m x t s };

    ghost allows = { λ w m t x y s r. Allowed m t x y s r };

    ghost holds_fits = { fits_known };

    ghost holds_after = { roles_after };
}

/// The change by which the thread becomes a reader.
pub struct Reads;

/// The change by which the thread becomes the writer.
pub struct Writes;

/// The change by which the thread becomes idle again.
pub struct Idles;

impl Change<RwUses> for Reads {
    ghost after = { λ w m t x y s. goes_to m (role_of s m) Reading y ∷ s };
}

impl Change<RwUses> for Writes {
    ghost after = { λ w m t x y s. goes_to m (role_of s m) Writing y ∷ s };
}

impl Change<RwUses> for Idles {
    ghost after = { λ w m t x y s. goes_to m (role_of s m) Idle y ∷ s };
}
