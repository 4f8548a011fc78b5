//! The value that the mutex protects: how many tickets are left.
ghost use Rattle.std.specs.Prelude.{◌+◌, ◌-◌, eqb};
ghost use Rattle.example_tickets.specs.SaleLaws.{fits_part, after_sale};
ghost use Rattle.example_tickets.specs.Sales.{AreSold, IsPart, IsSale, none_sold};

use firefly_threads::{Change, Uses};

/// How many tickets a thread has sold, and whether it has seen that none is left.
pub struct Sold {
    pub count: u64,
    pub none_left: bool,
}

/// The use of the package: tickets, of which the world says how many there are at first.
pub struct Tickets;

impl Uses for Tickets {
    type Value = u32;

    type World = u32;

    type Share = Sold;

    ghost begin = { λ w t. none_sold };

    ghost holds = { λ w values shares. AreSold w values shares };

    ghost fits = { λ w m x t s. IsPart w x s };

    ghost allows = { λ w m t x y s r. IsSale x y s r };

    ghost holds_fits = { fits_part };

    ghost holds_after = { after_sale };
}

/// The change by which the thread sold what was taken, and saw that none is left if there was
/// nothing to take.
pub struct Sale;

impl Change<Tickets> for Sale {
    ghost after = { λ w m t x y s. record { count = s.count + (x - y); none_left = eqb x 0 } };
}
