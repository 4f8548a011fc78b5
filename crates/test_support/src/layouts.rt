//! The layouts of tests.
ghost use Rattle.std.specs.Prelude.{◌≡◌, ◌≤◌};
ghost use Rattle.larch_actions.specs.Layout.{IsLawful};
ghost use Rattle.larch_actions.specs.declared.event.Version.TheVariants.{One};
ghost use Rattle.test_support.specs.Layouts.{HasFew};

use nub::Layout;

/// Returns a layout of `threads` threads, with two mutexes, two conditions and five semaphores.
pub fn few_of_each(threads: u32) -> Layout
    requires { (1 ≤ threads) × (threads ≤ 64) }
    ensures lawful { IsLawful result }
    ensures version { result.version ≡ One }
    ensures few { HasFew result }
{
    Layout::of(threads, 2, 2, 5)
}

/// Returns the largest layout of version one.
pub fn largest() -> Layout
    ensures lawful { IsLawful result }
    ensures version { result.version ≡ One }
    ensures few { HasFew result }
{
    Layout::of(64, 64, 64, 64)
}
