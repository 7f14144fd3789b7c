// Crossings over the whole world.
ghost use Rattle.std.specs.Prelude.{◌≡◌, ◌<◌, ◌≤◌, ℕ, map, length, slice_get, Some, IfSome, IfNone, IsTrue};
ghost use Rattle.std.specs.Prelude.{◌↔◌};
ghost use Rattle.room_terrain.specs.declared.terrain.Ground.TheVariants.{Wall};
ghost use Rattle.object_store.specs.declared.world.Room.{Room};
ghost use Rattle.room_table.specs.Tables.{IsOnTile, HasNoId, find_object};
ghost use Rattle.world_rules.specs.World.{world_of};
ghost use Rattle.world_rules.specs.Crossings.{crossed_over};
ghost use Rattle.world_rules.specs.Sound.{IsSound};
ghost use Rattle.exit_crossing.specs.Crossing.{AreCrossers, AreForgotten, IsReadyToCross, KeepsFrames};
ghost use Rattle.exit_crossing.specs.declared.crossing.Landing.{Landing};
ghost use Rattle.exit_crossing.specs.inner.Landings.{Lands, CanCross, GoesOrStays, rooms_left, rooms_entered};

use crate::leaving::Crosser;
use game_tables::Kind;
use object_store::{Object, World};
use room_terrain::{Ground, mirror};

/// Lets these creeps go, one after the other, each to the mirrored tile of the next room, where there is one,
/// the tile is no wall and no creep stands on it; else it stays. It takes time by the crossers, and no memory
/// but the spare of the rooms.
pub fn cross(world: &mut World, list: &[Crosser])
    requires crossers { AreCrossers world.old.rooms list.now }
    requires ready { IsReadyToCross world.old.rooms }
    ensures crossed { world_of world.new
        ≡ crossed_over (map (λ crosser. crosser.id) list.now) (world_of world.old) }
    ensures frames { KeepsFrames world.old world.new }
    ensures sound { IsSound world.old → IsSound world.new }
    ensures forgotten { AreForgotten world.old.rooms → AreForgotten world.new.rooms }
{
    world.stands_in_order();
    for crosser in list {
        cross_over(world, *crosser);
    }
}

// A tile of a room, where a creep comes to.
#[derive(Clone, Copy)]
struct Landing {
    room: u32,
    x: u8,
    y: u8,
}

// Lets one creep go, where it may.
fn cross_over(world: &mut World, crosser: Crosser)
    requires { CanCross world.old.rooms crosser }
    ensures { GoesOrStays world.old crosser world.new }
{
    let Some(at) = landing_of(world, crosser) else {
        return;
    };
    let Some(creep) = take_out(world, crosser.room, crosser.id) else {
        unreachable!()
    };
    put_in(
        world,
        at.room,
        Object {
            x: at.x,
            y: at.y,
            ..creep
        },
    );
}

// The tile that a creep comes to, where it may go.
fn landing_of(world: &World, crosser: Crosser) -> Option<Landing>
    requires { crosser.room < length world.now.rooms }
    ensures some { IfSome result (λ at. Lands world.now.rooms crosser at) }
    ensures none { IfNone result ((at : Landing) → Lands world.now.rooms crosser at → ⊥) }
{
    let creep = world.room(crosser.room).get(crosser.id)?;
    let Some((name, x, y)) = mirror(world.name(crosser.room), creep.x, creep.y) else {
        return None;
    };
    let room = world.find_room(name)?;
    if is_wall(world.terrain(room).at(x, y)) || world.room(room).at(x, y, Kind::Creep).is_some() {
        return None;
    }
    Some(Landing { room, x, y })
}

fn is_wall(surface: Ground) -> bool
    ensures { IsTrue result ↔ (surface ≡ Wall) }
{
    match surface {
        Ground::Wall => true,
        Ground::Plain | Ground::Swamp => false,
    }
}

// Takes an object out of a room.
fn take_out(world: &mut World, room: u32, id: u64) -> Option<Object>
    requires { room < length world.old.rooms }
    ensures taken { (was : Room) → slice_get world.old.rooms room ≡ Some was
        → result ≡ find_object id was.table.objects }
    ensures left { (was : Room) → slice_get world.old.rooms room ≡ Some was
        → world.new ≡ record world.old { rooms = rooms_left world.old.rooms room id was } }
{
    world.room_mut(room).remove(id)
}

// Puts an object into a room.
fn put_in(world: &mut World, room: u32, object: Object)
    requires room { room < length world.old.rooms }
    requires tile { IsOnTile object }
    requires absent { (other : Room) → slice_get world.old.rooms room ≡ Some other
        → HasNoId object.id other.table.objects }
    requires spare { (other : Room) → slice_get world.old.rooms room ≡ Some other → 1 ≤ other.table.spare }
    ensures { (other : Room) → slice_get world.old.rooms room ≡ Some other
        → world.new ≡ record world.old { rooms = rooms_entered world.old.rooms room object other } }
{
    world.room_mut(room).insert(object);
}
