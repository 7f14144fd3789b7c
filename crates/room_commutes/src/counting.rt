// Which entries count.
ghost use Rattle.std.specs.Prelude.{◌↔◌, List};
ghost use Rattle.std.specs.List.{Contains};
ghost use Rattle.intent_book.specs.declared.intent.Intent.{Intent};
ghost use Rattle.world_rules.specs.World.{World};
ghost use Rattle.world_rules.specs.Intents.{kept};
ghost use Rattle.room_commutes.specs.Counting.{Counts};

/// Says which entries are kept: those that fit, of which no later one is of the same player, action
/// and actor, and that none of these drops. It does nothing when it runs.
pub fn entries_that_count()
    ensures { (world : World) (list : List Intent) (entry : Intent)
        → Contains (kept world list) entry ↔ Counts world list entry }
{}
