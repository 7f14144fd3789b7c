// Which creeps move.
ghost use Rattle.std.specs.Prelude.{◌≡◌, ◌↔◌, ℕ, false, List, Option};
ghost use Rattle.std.specs.List.{AllPairs, Contains, filter_map};
ghost use Rattle.game_tables.specs.declared.action.Action.TheVariants.{Move};
ghost use Rattle.room_table.specs.declared.object.Object.{Object};
ghost use Rattle.intent_book.specs.declared.intent.Intent.{Intent};
ghost use Rattle.world_rules.specs.World.{World};
ghost use Rattle.world_rules.specs.Intents.{kept, entries_of, those_in};
ghost use Rattle.world_rules.specs.RoomParts.{RoomPart};
ghost use Rattle.world_rules.specs.Moves.{mover_of};
ghost use Rattle.world_rules.specs.Movement.{Mover, meet, winners, movers, moved_by};
ghost use Rattle.room_commutes.specs.Allowed.{AreCreepsOnce, StepsActor, IsLeast, IsAllowed};
ghost use Rattle.room_commutes.specs.Standing.{AreKeyed, AreCreepsApart};

/// Says that the movers are the greatest allowed set, where no creep would step twice. It does nothing
/// when it runs.
pub fn movers_are_greatest()
    // Of the moves of a room that count no two step one creep, whatever tile each move names.
    ensures once { (step : Intent → Option Mover) (world : World) (list : List Intent) (room : ℕ)
        → StepsActor step
        → AreCreepsOnce (filter_map step (those_in world room (entries_of Move (kept world list)))) }

    // The rule in force has such movers.
    ensures in_force { (part : RoomPart) → AreKeyed part → StepsActor (mover_of part) }

    // The winners are those of least id for their tiles.
    ensures least { (list : List Mover) (one : Mover) → Contains (winners list) one ↔ IsLeast list one }

    // The movers are an allowed set, which has all that any allowed set has.
    ensures allowed { (objects : List Object) (list : List Mover) → AreCreepsOnce list
        → IsAllowed objects list (movers objects list) }
    ensures greatest { (objects : List Object) (list : List Mover) (set : List Mover) (one : Mover)
        → AreCreepsOnce list → IsAllowed objects list set → Contains set one
        → Contains (movers objects list) one }

    // No two of them step to one tile.
    ensures apart { (objects : List Object) (list : List Mover) → AreCreepsOnce list
        → AllPairs (λ one later. meet one later ≡ false) (movers objects list) }
{}

/// Says that movement puts no creep onto the tile of another. It does nothing when it runs.
pub fn creeps_stay_apart()
    ensures { (fatigue : Object → Mover → ℕ) (list : List Mover) (part : RoomPart) → AreCreepsOnce list
        → AreKeyed part → AreCreepsApart part → AreCreepsApart (moved_by fatigue list part) }
{}
