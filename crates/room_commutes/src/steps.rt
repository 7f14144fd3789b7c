// Steps in which each object changes by itself.
ghost use Rattle.std.specs.Prelude.{◌≡◌, ℕ, Option};
ghost use Rattle.std.specs.Option.{option_and_then};
ghost use Rattle.std.specs.FinMap.{get};
ghost use Rattle.room_table.specs.declared.object.Object.{Object};
ghost use Rattle.world_rules.specs.RoomParts.{RoomPart};
ghost use Rattle.world_rules.specs.Steps.{each};
ghost use Rattle.room_commutes.specs.Standing.{AreKeyed, KeepsIds};

/// Says that a step in which each object changes by itself, one after the other, leaves of each what
/// its change leaves of it, as if all changed at once. It does nothing when it runs.
pub fn each_by_itself()
    ensures objects { (change : Object → Option Object) (part : RoomPart) (id : ℕ) → KeepsIds change
        → AreKeyed part → get (each change part).objects id ≡ option_and_then change (get part.objects id) }
    ensures rest { (change : Object → Option Object) (part : RoomPart) → KeepsIds change → AreKeyed part
        → record (each change part) { objects = part.objects } ≡ part }
{}
