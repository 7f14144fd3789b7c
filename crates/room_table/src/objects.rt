// A walk along the objects of a room.
ghost use Rattle.std.specs.Prelude.{◌≡◌, length, ⊤};
ghost use Rattle.std.specs.Iterator.{at_most};
ghost use Rattle.std.specs.Map.Iter.{TakesFirst, deref};
ghost use Rattle.room_table.specs.inner.Placed.{standing, AreKnown};

use crate::object::Object;
use std::alloc::AllocError;
use std::iter::FusedIterator;
use std::marker::Model;

/// The objects of a room that are still to come, in rising id.
#[derive(Drop)]
pub struct Objects<'a> {
    slots: &'a [Object],
    order: &'a [u32],
}

impl<'a> Model for Objects<'a> {
    ghost use Rattle.std.specs.Prelude.{List};
    ghost use Rattle.room_table.specs.declared.object.Object.{Object};
    ghost use Rattle.room_table.specs.inner.Placed.{standing, AreKnown};

    ghost Value = { List Object };

    ghost view = { λ o. standing o.slots.now o.order.now };

    ghost invariant = { λ o. AreKnown o.slots.now o.order.now };
}

impl<'a> Objects<'a> {
    pub(crate) fn of(slots: &'a [Object], order: &'a [u32]) -> Objects<'a>
        requires { AreKnown slots.now order.now }
        ensures { result ≡ standing slots.now order.now }
    {
        Objects { slots, order }
    }
}

impl<'a> Iterator for Objects<'a> {
    type Item = &'a Object;

    ghost next_gives = { TakesFirst deref };

    ghost remaining = { λ s. at_most (length s) };

    fn next(&mut self) -> Option<&'a Object> {
        let slots = self.slots;
        let order = self.order;
        if order.is_empty() {
            return None;
        }
        self.order = &order[1..];
        Some(&slots[order[0] as usize])
    }
}

impl<'a> FusedIterator for Objects<'a> {}

impl<'a> Clone for Objects<'a> {
    ghost is_clone = { λ s r. r ≡ s };

    ghost is_infallible = { λ _. ⊤ };

    fn clone(&self) -> Result<Objects<'a>, AllocError> {
        Ok(Objects {
            slots: self.slots,
            order: self.order,
        })
    }
}
