//! Moving a value into its slot and out of it.
ghost use Rattle.std.specs.Prelude.{◌≡◌, Some, None};
ghost use Rattle.nub_rule.specs.declared.rule.Slot.TheVariants.{Value};

use crate::rule::Slot;

/// Moves the value out of the slot.
#[inline]
pub fn take_from<T: Drop>(slot: &mut Slot<T>) -> T
    requires { (x : T) × (slot.old ≡ Value (Some x)) }
    ensures value { slot.old ≡ Value (Some result) }
    ensures out { slot.new ≡ Value None }
{
    let Slot::Value(value) = slot else {
        unreachable!()
    };
    let Some(x) = value.take() else {
        unreachable!()
    };
    x
}

/// Moves a value into the slot, which has none.
#[inline]
pub fn put_into<T: Drop>(slot: &mut Slot<T>, x: T)
    requires { slot.old ≡ Value None }
    ensures { slot.new ≡ Value (Some x) }
{
    let Slot::Value(value) = slot else {
        unreachable!()
    };
    *value = Some(x);
}
