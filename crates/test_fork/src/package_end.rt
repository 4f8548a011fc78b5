//! Closing a package whose threads have come back.
ghost use Rattle.std.specs.Prelude.{◌≡◌};
ghost use Rattle.larch_actions.specs.declared.event.Version.TheVariants.{Two};
ghost use Rattle.nub.specs.Forks.{IsLeft};
ghost use Rattle.test_fork.specs.Families.{AllAre};

use nub::{Closed, Ended, Package, Unborn, are_all_back, close_forked};
use std::test::Fail;
use sum_uses::SumUses;

/// Closes the package, where its threads have all come back.
pub fn close(
    pkg: Package<SumUses>,
    ended: Vec<Ended<SumUses>>,
    unborn: Vec<Unborn<SumUses>>,
) -> Result<Closed<SumUses>, Fail>
    requires version { pkg.layout.version ≡ Two }
    requires ended { AllAre (λ k. IsLeft pkg k) ended.items }
    requires unborn { AllAre (λ k. IsLeft pkg k) unborn.items }
{
    if !are_all_back(&pkg, &ended, &unborn) {
        drop(pkg);
        return Err(Fail::from("a thread was lost"));
    }
    Ok(close_forked(pkg, ended, unborn)?)
}
