// The controller of a room.
ghost use Rattle.std.specs.Prelude.{◌≡◌, ◌↔◌, IsTrue, option_map};
ghost use Rattle.room_table.specs.Controllers.{is_another, is_anothers, is_owned_room, is_taken, level_of};
ghost use Rattle.room_table.specs.inner.Kept.{IsController, Stays};
ghost use Rattle.room_table.specs.inner.Placed.{AreKnown};

use crate::object::Object;
use game_tables::{Kind, is_controller};

/// The slot of the controller among the objects, that of the least id if there were more.
pub(crate) fn controller_slot(slots: &[Object], order: &[u32]) -> Option<u32>
    requires { AreKnown slots.now order.now }
    ensures { IsController slots.now order.now result }
{
    for slot in order {
        if is_controller(slots[*slot as usize].kind) {
            return Some(*slot);
        }
    }
    None
}

/// Whether the kept slot stays that of the controller where an object of a kind is put into a slot, in
/// the place of one of another kind.
pub(crate) fn stays(kept: Option<u32>, slot: u32, was: Kind, kind: Kind) -> bool
    ensures { IsTrue result ↔ Stays kept slot was kind }
{
    if is_controller(kind) {
        kept == Some(slot)
    } else {
        !is_controller(was)
    }
}

/// The slot of the controller: the kept one where that stays, and else the one that a search finds.
pub(crate) fn kept_or_sought(
    kept: Option<u32>,
    stays: bool,
    slots: &[Object],
    order: &[u32],
) -> Option<u32>
    requires known { AreKnown slots.now order.now }
    requires kept { IsTrue stays → IsController slots.now order.now kept }
    ensures { IsController slots.now order.now result }
{
    if stays {
        kept
    } else {
        controller_slot(slots, order)
    }
}

/// Whether somebody owns or reserves a room's controller.
pub fn is_taken(controller: Option<&Object>) -> bool
    ensures { result ≡ is_taken (option_map (λ object. object.now) controller.entry) }
{
    controller.is_some_and(|object| object.owner != 0 || object.other != 0)
}

/// The level of a room: that of its controller, 0 to 8 between ticks, and 0 without one.
pub fn level_of(controller: Option<&Object>) -> u32
    ensures { result ≡ level_of (option_map (λ object. object.now) controller.entry) }
{
    controller.map_or(0, |object| object.extra)
}

/// Whether somebody owns a room's controller.
pub fn is_owned_room(controller: Option<&Object>) -> bool
    ensures { result ≡ is_owned_room (option_map (λ object. object.now) controller.entry) }
{
    controller.is_some_and(|object| object.owner != 0)
}

/// Whether another player than this one owns or reserves a room's controller.
pub fn is_anothers(controller: Option<&Object>, player: u32) -> bool
    ensures { result ≡ is_anothers player (option_map (λ object. object.now) controller.entry) }
{
    controller.is_some_and(|object| {
        is_another(object.owner, player) || is_another(object.other, player)
    })
}

// Whether the number is that of a player, and of another than this one.
fn is_another(other: u32, player: u32) -> bool
    ensures { result ≡ is_another player other }
{
    other != 0 && other != player
}
