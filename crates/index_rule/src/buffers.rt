//! The buffers of files and of pieces.
ghost use Rattle.std.specs.Prelude.{◌≡◌, Some};
ghost use Rattle.bounded_buffer.specs.Plain.{part_of};
ghost use Rattle.bounded_buffer.specs.Rings.{Held};
ghost use Rattle.index_rule.specs.Shares.{AreAlike, MayPut};
ghost use Rattle.index_rule.specs.Work.{IsBuffer, ItemFits, ring_in};
ghost use Rattle.index_rule.specs.declared.value.IndexItem.{IndexItem};
ghost use Rattle.index_rule.specs.BufferLaws.{work_ring, work_first, work_put, work_take, work_shut, work_stay, work_waits, alike_self, alike_on, alike_may, alike_fits};

use crate::uses::{DidPut, DidShut, DidTake, IndexUses};
use crate::value::{IndexItem, IndexValue};
use bounded_buffer::{BufferUse, Ring};

impl BufferUse for IndexUses {
    type Item = IndexItem;

    type Put = DidPut;

    type Take = DidTake;

    type Shut = DidShut;

    ghost is_buffer = { λ w at. IsBuffer at };

    ghost ring_in = { ring_in };

    ghost part = { λ s m. part_of s.notes m };

    ghost alike = { λ s r. AreAlike s r };

    ghost may_put = { λ w m t i s. MayPut w m i s };

    ghost item_fits = { λ w m t i s. ItemFits w m i s };

    fn into_ring(value: IndexValue) -> Ring<IndexItem>
        requires { (q : Held IndexItem) × (ring_in value ≡ Some q) }
        ensures { ring_in value ≡ Some result }
    {
        match value {
            IndexValue::Ring(ring) => ring,
            IndexValue::Dirs(_) => unreachable!(),
        }
    }

    fn from_ring(ring: Ring<IndexItem>) -> IndexValue
        ensures { ring_in result ≡ Some ring }
    {
        IndexValue::Ring(ring)
    }

    ghost fits_ring = { work_ring };

    ghost fits_first = { work_first };

    ghost alike_self = { alike_self };

    ghost alike_on = { alike_on };

    ghost alike_may_put = { alike_may };

    ghost alike_item_fits = { alike_fits };

    ghost put_allowed = { work_put };

    ghost take_allowed = { work_take };

    ghost shut_allowed = { work_shut };

    ghost stay_allowed = { work_stay };

    ghost waits_counted = { work_waits };
}
