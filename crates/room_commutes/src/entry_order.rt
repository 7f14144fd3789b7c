// The order of the entries of an action.
ghost use Rattle.std.specs.Prelude.{◌≡◌, ◌≢◌, false, List};
ghost use Rattle.std.specs.List.{AllPairs};
ghost use Rattle.std.specs.List.Sorted.{IsPermutation, IsSortedBy};
ghost use Rattle.game_tables.specs.declared.action.Action.{Action};
ghost use Rattle.intent_book.specs.declared.intent.Intent.{Intent};
ghost use Rattle.world_rules.specs.World.{World};
ghost use Rattle.world_rules.specs.Intents.{names_tile, comes_before, in_order, kept, entries_of};
ghost use Rattle.room_commutes.specs.Orders.{of_action, Rises};

/// Says in which order the entries of an action come: by player, then by actor. It does nothing when
/// it runs.
pub fn entries_in_order()
    // In order a list has the same entries, and none comes before the one ahead of it.
    ensures same { (list : List Intent) → IsPermutation list (in_order list) }
    ensures sorted { (list : List Intent) → IsSortedBy comes_before (in_order list) }

    // So has what is taken of a list for an action.
    ensures same_of_action { (action : Action) (list : List Intent)
        → IsPermutation (of_action action list) (entries_of action list) }
    ensures sorted_of_action { (action : Action) (list : List Intent)
        → IsSortedBy comes_before (entries_of action list) }

    // Of the entries of an action that count no two are of one player and actor: each comes before all
    // later ones.
    ensures rises { (world : World) (list : List Intent) (action : Action)
        → Rises (entries_of action (kept world list)) }

    // No two have one actor, but where actors are tiles.
    ensures once { (world : World) (list : List Intent) (action : Action) → names_tile action ≡ false
        → AllPairs (λ one later. one.actor ≢ later.actor) (entries_of action (kept world list)) }

    // There is one such order, however the entries came.
    ensures one_order { (one : List Intent) (other : List Intent) → IsPermutation one other → Rises one
        → Rises other → one ≡ other }
{}
