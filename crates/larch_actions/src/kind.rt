//! The kinds of things that have names.
ghost use Rattle.std.specs.Prelude.{◌≡◌};

/// What a name is the name of.
#[derive(Clone, Copy)]
pub enum Kind {
    Mutex,
    Condition,
    Semaphore,
    Thread,
}

impl Kind {
    ghost use Rattle.larch_actions.specs.Layout.{letter};

    /// The letter that the names of the kind begin with.
    #[inline(always)]
    pub fn letter(self) -> u8
        ensures { result ≡ letter self }
    {
        match self {
            Kind::Mutex => b'm',
            Kind::Condition => b'c',
            Kind::Semaphore => b's',
            Kind::Thread => b't',
        }
    }
}
