// Laws of the tick of a room.
ghost use Rattle.std.specs.Prelude.{◌≡◌, ◌⊎◌, ℕ, Bool, List, Some, slice_get};
ghost use Rattle.std.specs.List.{AllByRecursion};
ghost use Rattle.intent_book.specs.declared.intent.Intent.{Intent};
ghost use Rattle.object_store.specs.declared.world.Room.{Room};
ghost use Rattle.object_store.specs.Stored.{Stored};
ghost use Rattle.world_rules.specs.World.{world_of};
ghost use Rattle.world_rules.specs.Intents.{those_in};
ghost use Rattle.world_rules.specs.RoomParts.{RoomPart, part_at};
ghost use Rattle.world_rules.specs.RoomTick.{room_tick};
ghost use Rattle.world_rules.specs.Sound.{IsSound};
ghost use Rattle.world_rules.specs.Tick.{book, points_of, total_for};
ghost use Rattle.room_commutes.specs.Schedules.{alone_course};
ghost use Rattle.room_rules.specs.Followed.{part_stored};
ghost use Rattle.room_rules.specs.RoomRules.{KeepsRoomRules};
ghost use Rattle.room_rules.specs.Within.{within};

/// Says that all points that a tick gives in a room go to one player, since a room has one controller at
/// most, and only its owner upgrades it. It does nothing when it runs.
pub fn one_player_gains()
    ensures { (players : ℕ → Bool) (part : RoomPart) (list : List Intent)
        → KeepsRoomRules players within part
        → (player : ℕ) × AllByRecursion (λ gain. (gain.1 ≡ 0) ⊎ (gain.0 ≡ player))
        (room_tick book list part).points }
{}

/// Says that the tick of a room by itself, by its entries of a list, is what happens in the world that has
/// the room alone, under its own index, with the entries whose actor is in it; and so is what its players
/// gain. It does nothing when it runs.
pub fn a_step_is_the_room_alone()
    ensures part { (stored : Stored) (list : List Intent) (index : ℕ) (room : Room) → IsSound stored
        → slice_get stored.rooms index ≡ Some room
        → part_at (alone_course book (world_of stored) list index).world index
        ≡ Some (room_tick book (those_in (world_of stored) index list) (part_stored room)).part }
    ensures points { (stored : Stored) (list : List Intent) (index : ℕ) (room : Room) (player : ℕ)
        → IsSound stored → slice_get stored.rooms index ≡ Some room
        → points_of player (alone_course book (world_of stored) list index).gains
        ≡ total_for (room_tick book (those_in (world_of stored) index list) (part_stored room)).points
        player }
{}
