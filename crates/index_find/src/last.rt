//! The last text of some.
ghost use Rattle.std.specs.Prelude.{◌≡◌, OnOk, Some, None};
ghost use Rattle.std.specs.Option.{option_copied};

use std::alloc::{AllocError, Global};
use std::marker::Model;

/// The last text, if there is one.
#[derive(Drop)]
pub struct Last {
    some: bool,
    text: Vec<u8>,
}

impl Model for Last {
    ghost use Rattle.std.specs.Prelude.{ℕ, List, Some, None, if◌then◌else◌};
    ghost use Rattle.std.specs.declared.option.Option.{Option};

    ghost Value = { Option (List ℕ) };

    ghost view = { λ l. if l.some then Some l.text.items else None };
}

impl Last {
    /// None yet.
    pub fn none(alloc: Global) -> Last
        ensures { result ≡ None }
    {
        Last {
            some: false,
            text: Vec::new(alloc),
        }
    }

    /// There is none any more.
    pub fn clear(&mut self)
        ensures { self.new ≡ None }
    {
        self.some = false;
    }

    /// It is this one.
    pub fn set(&mut self, text: &[u8]) -> Result<(), AllocError>
        ensures { OnOk result (self.new ≡ Some text.now) }
    {
        self.some = true;
        self.text.clear();
        self.text.extend_from_slice(text)
    }

    /// Shows it.
    pub fn get(&self) -> Option<&[u8]>
        ensures { option_copied result ≡ self.now }
    {
        if self.some {
            Some(self.text.as_slice())
        } else {
            None
        }
    }
}
