// Which creeps cross, and what crossings keep.
ghost use Rattle.std.specs.Prelude.{◌≡◌, ◌⊎◌, ℕ, false, List, Some, None};
ghost use Rattle.std.specs.FinMap.{get};
ghost use Rattle.world_rules.specs.World.{Placed, World};
ghost use Rattle.world_rules.specs.Crossings.{Place, with_place, crossed_over, is_crosser, rested};
ghost use Rattle.world_rules.specs.Crossings.{all_rested, crossed};
ghost use Rattle.room_commutes.specs.Standing.{AreAllApart};

/// Says what crossings keep. It does nothing when it runs.
pub fn crossings_keep()
    // No creep comes onto the tile of another.
    ensures apart { (world : World) → AreAllApart world → AreAllApart (crossed world) }

    // What is no creep that moved onto a border tile stays as it is, but that no creep has moved any more.
    ensures stay { (world : World) (id : ℕ) (placed : Placed) → get world.objects id ≡ Some placed
        → is_crosser placed.object ≡ false → get (crossed world).objects id ≡ Some (rested placed) }

    // Such a creep stays too, or it comes to another place and is else as it was.
    ensures go { (world : World) (id : ℕ) (placed : Placed) → get world.objects id ≡ Some placed
        → (get (crossed world).objects id ≡ Some (rested placed))
        ⊎ ((place : Place)
        × (get (crossed world).objects id ≡ Some (rested (with_place placed.object place)))) }

    // Nothing comes that was not there.
    ensures none { (world : World) (id : ℕ) → get world.objects id ≡ None
        → get (crossed world).objects id ≡ None }

    // Rooms, accounts, rules and tick stay.
    ensures rest { (world : World) → record (crossed world) { objects = world.objects } ≡ world }

    // Where creeps go is the same if all of them come to rest first.
    ensures listed { (world : World) (ids : List ℕ)
        → all_rested (crossed_over ids world) ≡ crossed_over ids (all_rested world) }
{}
