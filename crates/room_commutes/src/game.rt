// The rooms of the game commute.
ghost use Rattle.std.specs.Prelude.{◌≡◌, ℕ, List, length};
ghost use Rattle.object_store.specs.Stored.{Stored};
ghost use Rattle.intent_book.specs.declared.intent.Intent.{Intent};
ghost use Rattle.world_rules.specs.World.{World, world_of};
ghost use Rattle.world_rules.specs.Sound.{IsSound};
ghost use Rattle.world_rules.specs.Crossings.{crossed};
ghost use Rattle.world_rules.specs.Intents.{all_actions, kept};
ghost use Rattle.world_rules.specs.Tick.{acted, begun, book, ruled, gained};
ghost use Rattle.room_commutes.specs.Running.{running_actions};
ghost use Rattle.room_commutes.specs.Schedules.{Event, IsFull, after, summed};

/// Says that the rooms of a sound stored world commute by the rules in force. It does nothing when it
/// runs.
pub fn game_commutes()
    ensures schedules { (stored : Stored) (list : List Intent) (events : List Event) → IsSound stored
        → IsFull events (length stored.rooms)
        → after book crossed (world_of stored) list events ≡ ruled book crossed (world_of stored) list }
    ensures points { (stored : Stored) (list : List Intent) (player : ℕ) → IsSound stored
        → summed book (world_of stored) list player ≡ gained book (world_of stored) list player }
{}

/// Says that by the rules in force what an entry does to objects may be read just before its own rule:
/// within an action that harms no rule changes what its entries do. It does nothing when it runs.
pub fn game_harms_as_it_runs()
    ensures { (stored : Stored) (list : List Intent) → IsSound stored
        → running_actions book (world_of stored) all_actions (kept (world_of stored) list)
        (begun (world_of stored))
        ≡ acted book (world_of stored) list }
{}
