// Rules of ids.
ghost use Rattle.std.specs.Prelude.{◌≡◌, ◌≤◌, ◌<◌, ◌==◌, ◌++◌, ℕ, MatchBool, slice_get, count_by, map, Some};
ghost use Rattle.std.specs.Prelude.{IfOk, OnOk};
ghost use Rattle.std.specs.List.{flat_map};
ghost use Rattle.std.specs.List.Sorted.{IsNonDecreasing};
ghost use Rattle.rule_check.specs.inner.Checks.{IsLeast, IsUnborn, ids_in};
ghost use Rattle.rule_check.specs.declared.view.RoomView.{RoomView};

use crate::objects::ObjectRule;
use crate::view::RoomView;
use object_store::Object;
use std::alloc::{AllocError, Global};

// An id is its birth room's index times this, plus a serial.
const SERIALS: u64 = 0x1_0000_0000;

/// An object's id is a serial that its birth room has given.
#[derive(Clone, Copy)]
pub struct GivenIds<'a> {
    pub rooms: &'a [RoomView<'a>],
}

impl ObjectRule for GivenIds<'_> {
    ghost broken = { λ rule room object. IsUnborn rule.rooms.now object.id };

    fn is_broken(&self, _room: &RoomView, object: &Object) -> bool {
        let serial = object.id % SERIALS;
        if serial == 0 {
            return true;
        }
        match self.rooms.get((object.id / SERIALS) as usize) {
            Some(birth) => birth.next as u64 <= serial,
            None => true,
        }
    }
}

/// The ids of all objects, room by room.
pub fn ids_of(alloc: Global, rooms: &[RoomView]) -> Result<Vec<u64>, AllocError>
    ensures { IfOk result (λ ids. ids.items ≡ ids_in rooms.now) }
{
    let mut ids = Vec::new(alloc);
    for room in rooms {
        list_ids(room.objects, &mut ids)?;
    }
    Ok(ids)
}

// Adds the ids of a room's objects.
fn list_ids(objects: &[Object], ids: &mut Vec<u64>) -> Result<(), AllocError>
    ensures { OnOk result (ids.new.items ≡ ids.old.items ++ map (λ object. object.id) objects.now) }
{
    for object in objects {
        ids.push(object.id)?;
    }
    Ok(())
}

/// The least number that is there more than once.
pub fn least_repeated(mut numbers: Vec<u64>) -> Option<u64>
    ensures { IsLeast (λ n. 2 ≤ count_by (λ m. m == n) numbers.items) result }
{
    numbers.sort_unstable();
    first_pair(&numbers)
}

// The first number that the next one equals.
fn first_pair(numbers: &[u64]) -> Option<u64>
    requires { IsNonDecreasing numbers.now }
    ensures { IsLeast (λ n. 2 ≤ count_by (λ m. m == n) numbers.now) result }
{
    for next in 1..numbers.len() {
        let number = numbers[next];
        if numbers[next - 1] == number {
            return Some(number);
        }
    }
    None
}
