// Rooms that have used up their serials.
ghost use Rattle.std.specs.Prelude.{IfSome, IfNone};
ghost use Rattle.world_rules.specs.Sound.{HaveSerials};
ghost use Rattle.world_replay.specs.Serials.{HasRunOut};

use object_store::World;

// The most that a room's next serial may be before a tick: 2^20 are left below 2^32.
const MOST_SERIALS: u32 = 0xFFF0_0000;

/// The index of the first room that has used up its serials.
pub fn exhausted_room(world: &World) -> Option<u32>
    ensures some { IfSome result (HasRunOut world.now) }
    ensures none { IfNone result (HaveSerials world.now.rooms) }
{
    for (index, room) in world.room_list().iter().enumerate() {
        if room.table.next() > MOST_SERIALS {
            return Some(index as u32);
        }
    }
    None
}
