// Energy is accounted for: what the rules of actions leave in a room, what they put into it, and what they
// take out of it.
#![tactic(auto)]

ghost use Rattle.std.specs.Prelude.{◌≡◌, ℕ, ◌+◌, ◌^◌, ◌<◌, Bool};
ghost use Rattle.intent_book.specs.declared.intent.Intent.{Intent};
ghost use Rattle.world_rules.specs.RoomParts.{RoomPart};
ghost use Rattle.world_rules.specs.Tick.{book};
ghost use Rattle.room_rules.specs.Within.{Stage};
ghost use Rattle.room_rules.specs.RoomRules.{KeepsRoomRules};
ghost use Rattle.room_energy.specs.Energy.{energy_in, given_by, taken_by};

/// Says what each entry does to the energy of its room, where the room keeps its rules and has a serial left:
/// what its action takes out is gone, what it puts in is there, and all else is there still. It does nothing
/// when it runs.
pub fn energy_is_accounted_for()
    ensures { (players : ℕ → Bool) (stage : Stage) (part : RoomPart) (entry : Intent)
        → KeepsRoomRules players stage part → part.next < 2 ^ 32
        → energy_in (book.effect entry part).part + taken_by entry.action entry part
        ≡ energy_in part + given_by entry.action entry part }
{}
