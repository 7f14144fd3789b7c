// A law of the sound worlds.
ghost use Rattle.std.specs.Prelude.{◌≡◌};
ghost use Rattle.object_store.specs.Stored.{Stored};
ghost use Rattle.world_rules.specs.World.{world_of};
ghost use Rattle.world_rules.specs.Sound.{IsSound, bare};

/// Says that a world is stored in one way: two sound stored worlds that store the same world are
/// equal, but for the room that their tables keep for new objects, and so are the texts and frames
/// that are made of them. It does nothing when it runs.
pub fn stored_in_one_way()
    ensures { (one other : Stored) → IsSound one → IsSound other → world_of one ≡ world_of other
        → bare one ≡ bare other }
{}
