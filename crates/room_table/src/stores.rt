// How much energy an object holds, and which building a site is of.
ghost use Rattle.std.specs.Prelude.{◌≡◌, option_map};
ghost use Rattle.game_tables.specs.Kinds.{store_capacity as stored_at};
ghost use Rattle.room_table.specs.Controllers.{level_of as level};
ghost use Rattle.room_table.specs.Stores.{building_of, capacity, free_room};

use crate::controller::{is_taken, level_of};
use crate::object::Object;
use game_tables::{Kind, source_capacity, store_capacity};

/// The energy that an object holds, in the room of this controller: a source 3,000 or 1,500, a creep 50
/// for each live CARRY part, and a building by its kind and the room's level. Other kinds hold none.
pub fn capacity(object: &Object, controller: Option<&Object>) -> u64
    ensures { result ≡ capacity (option_map (λ object. object.now) controller.entry) object.now }
{
    match object.kind {
        Kind::Source => source_capacity(is_taken(controller)),
        Kind::Creep => u64::from(object.body.capacity(object.hits)),
        kind => building_capacity(kind, controller),
    }
}

// The energy that a building holds in the room of a controller.
#[tactic(auto, using(crate::proofs::Capped::capped_level))]
fn building_capacity(kind: Kind, controller: Option<&Object>) -> u64
    ensures { result ≡ stored_at kind (level (option_map (λ object. object.now) controller.entry)) }
{
    store_capacity(kind, level_of(controller).min(255) as u8)
}

/// How much more energy an object takes in the room of this controller: 0 where it holds more than its
/// capacity.
pub fn free_room(object: &Object, controller: Option<&Object>) -> u64
    ensures { result ≡ free_room (option_map (λ object. object.now) controller.entry) object.now }
{
    capacity(object, controller).saturating_sub(object.energy)
}

/// The kind of the building that a site is of, and none where the object keeps no number of such a kind.
pub fn site_building(site: &Object) -> Option<Kind>
    ensures { result ≡ building_of site.now }
{
    match site.extra {
        4 => Some(Kind::Spawn),
        5 => Some(Kind::Extension),
        6 => Some(Kind::Storage),
        7 => Some(Kind::Container),
        8 => Some(Kind::Road),
        _ => None,
    }
}
