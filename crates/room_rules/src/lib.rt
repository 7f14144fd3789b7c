// The rules of a world that speak of one room alone, and that a tick keeps them: each rule of the game
// keeps those of its room, and a world whose rooms keep theirs is sound.
#![tactic(auto)]

ghost use Rattle.std.specs.Prelude.{◌≡◌, ◌++◌, ℕ, List, Some, slice_get};
ghost use Rattle.intent_book.specs.declared.intent.Intent.{Intent};
ghost use Rattle.object_store.specs.declared.world.Room.{Room};
ghost use Rattle.object_store.specs.Stored.{Stored};
ghost use Rattle.world_rules.specs.World.{world_of};
ghost use Rattle.world_rules.specs.RuleBook.{Sums};
ghost use Rattle.world_rules.specs.Steps.{each};
ghost use Rattle.world_rules.specs.Crossings.{still};
ghost use Rattle.world_rules.specs.RoomTick.{room_after_steps};
ghost use Rattle.world_rules.specs.Tick.{book};
ghost use Rattle.world_rules.specs.Upkeep.{first_steps, last_steps, middle_steps};
ghost use Rattle.world_rules.specs.Sound.{IsSound};
ghost use Rattle.room_rules.specs.Calls.{AreActorsOnce};
ghost use Rattle.room_rules.specs.Within.{between, moved, summed, within};
ghost use Rattle.room_rules.specs.RoomRules.{KeepsBy, KeepsRoomRules, Leads, is_player};
ghost use Rattle.room_rules.specs.Followed.{part_stored, FollowRooms, KeepsPlayers};
ghost use Rattle.room_rules.specs.Crossed.{HasCrossed};

/// Says through which stages of a tick the rules in force lead a room that keeps its rules: between ticks it
/// also keeps the wider ones within a tick, which entries and movement keep; the steps of upkeep up to the
/// gain of spawns lead to those at which controllers still keep what was put into them, and the later steps
/// to those before crossings; and once no creep has moved the room is between ticks again. It does nothing
/// when it runs.
pub fn rules_keep_rooms()
    ensures begins { Leads between within (λ part. part) }
    ensures entries { (entry : Intent) → KeepsBy entry (λ part. (book.effect entry part).part) }
    ensures movement { (list : List Intent) → AreActorsOnce list → Leads within within (book.moved list) }
    ensures first { (sums : Sums) → Leads within summed (room_after_steps sums first_steps) }
    ensures later { (sums : Sums) → Leads summed moved (room_after_steps sums (middle_steps ++ last_steps)) }
    ensures rest { Leads moved between (each (λ object. Some (still object))) }
{}

/// Says that a sound world is one whose rooms keep their rules, as far as a tick changes it: each room of
/// a sound world does, and a world whose rooms follow those of a sound one and keep their rules is
/// sound, where its players are the same; and so is one after a creep went to another room. It does nothing
/// when it runs.
pub fn sound_rooms()
    ensures rooms { (stored : Stored) (index : ℕ) (room : Room) → IsSound stored
        → slice_get stored.rooms index ≡ Some room
        → KeepsRoomRules (is_player (world_of stored)) between (part_stored room) }
    ensures worlds { (stored : Stored) (after : Stored) → IsSound stored
        → FollowRooms (is_player (world_of stored)) between stored after → KeepsPlayers stored after
        → IsSound after }
    ensures crossings { (stored : Stored) (after : Stored) → IsSound stored → HasCrossed stored after
        → IsSound after }
{}
