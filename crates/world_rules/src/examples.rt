// Worked examples of the definitions.
ghost use Rattle.std.specs.Prelude.{◌≡◌, [], ◌∷◌, map};
ghost use Rattle.game_tables.specs.Actions.{action_number};
ghost use Rattle.game_tables.specs.declared.action.Action.TheVariants.{DropLoad, Harvest, CreateSite};
ghost use Rattle.game_tables.specs.declared.action.Action.TheVariants.{RemoveSite, SpawnCreep};
ghost use Rattle.world_rules.specs.Intents.{all_actions, last_of_each, in_order};
ghost use Rattle.world_rules.specs.Examples.{Renews, Decays, Vanishes, Drops, Grows, DropsNothing, CountOf};
ghost use Rattle.world_rules.specs.Examples.{Saves, entry_of};

/// Says what the definitions of upkeep give in worked examples. It does nothing when it runs: its
/// contract is what the check has computed.
pub fn upkeep_examples()
    // A source is renewed as its timer comes to 0, up to its capacity and never down to it.
    ensures timer_falls { Renews 1500 0 300 0 299 }
    ensures renewed { Renews 1500 0 1 1500 0 }
    ensures never_cut { Renews 1500 3000 1 3000 0 }
    ensures timer_starts { Renews 1500 1499 0 1499 300 }
    ensures full_rests { Renews 1500 1500 0 1500 0 }
    ensures taken_room_holds_more { Renews 3000 0 1 3000 0 }
    ensures not_full_there { Renews 3000 2999 0 2999 300 }

    // A pile loses a thousandth, rounded up.
    ensures loses_two { Decays 1001 999 }
    ensures loses_one { Decays 1000 999 }
    ensures vanishes { Vanishes 1 }
{}

/// Says what the definitions of what a creep drops give in worked examples. It does nothing when it
/// runs.
pub fn drop_examples()
    // An amount of 0 wants all, one above the load what there is.
    ensures some { Drops 20 5 15 5 }
    ensures all { Drops 20 0 0 20 }
    ensures too_much { Drops 20 21 0 20 }

    // A pile that lies there grows, up to its most.
    ensures grows { Grows 1 5 6 }
    ensures most { Grows 999999998 5 1000000000 }

    // Nothing drops where the creep is another player's, carries nothing or has no hits left.
    ensures another { DropsNothing 2 200 20 }
    ensures empty { DropsNothing 1 200 0 }
    ensures killed { DropsNothing 1 0 20 }
{}

/// Says what the definitions of which entries count, and in which order, give in worked examples. It
/// does nothing when it runs.
pub fn entry_examples()
    // Actions go by their numbers.
    ensures actions { map action_number all_actions ≡ 1 ∷ 2 ∷ 3 ∷ 4 ∷ 5 ∷ 6 ∷ 7 ∷ 8 ∷ 9 ∷ 10 ∷ 11 ∷ 12 ∷ 13
        ∷ 14 ∷ 15 ∷ 16 ∷ 17 ∷ 18 ∷ 19 ∷ 20 ∷ 21 ∷ 22 ∷ [] }

    // A player's own creep may act. Another player's creep, an object that is no creep and one that is
    // not there may not, and no entry counts without a player.
    ensures actors { CountOf (entry_of 1 DropLoad 3 1 ∷ entry_of 1 DropLoad 5 2 ∷ entry_of 1 DropLoad 8 3
        ∷ entry_of 1 DropLoad 9 4 ∷ entry_of 0 DropLoad 8 5 ∷ entry_of 2 DropLoad 5 6 ∷ [])
        (entry_of 1 DropLoad 3 1 ∷ entry_of 2 DropLoad 5 6 ∷ []) }

    // A site is removed by itself, a creep is made by a spawn, and a new site is named by a tile.
    ensures removals { CountOf (entry_of 1 RemoveSite 3 0 ∷ entry_of 1 RemoveSite 6 0 ∷ [])
        (entry_of 1 RemoveSite 6 0 ∷ []) }
    ensures spawns { CountOf (entry_of 1 SpawnCreep 7 0 ∷ entry_of 1 SpawnCreep 3 0 ∷ [])
        (entry_of 1 SpawnCreep 7 0 ∷ []) }
    ensures sites { CountOf (entry_of 1 CreateSite 2499 0 ∷ entry_of 1 CreateSite 2500 0 ∷ [])
        (entry_of 1 CreateSite 2499 0 ∷ []) }

    // Of two entries of one player, action and actor the last counts.
    ensures repeated { CountOf (entry_of 1 DropLoad 3 1 ∷ entry_of 1 DropLoad 3 2 ∷ [])
        (entry_of 1 DropLoad 3 2 ∷ []) }
    ensures last { last_of_each (entry_of 1 DropLoad 3 5 ∷ entry_of 1 DropLoad 4 6 ∷ entry_of 1 DropLoad 3 7
        ∷ []) ≡ entry_of 1 DropLoad 4 6 ∷ entry_of 1 DropLoad 3 7 ∷ [] }
    ensures each { last_of_each (entry_of 1 DropLoad 3 5 ∷ entry_of 2 DropLoad 3 6 ∷ entry_of 1 Harvest 3 7
        ∷ []) ≡ entry_of 1 DropLoad 3 5 ∷ entry_of 2 DropLoad 3 6 ∷ entry_of 1 Harvest 3 7 ∷ [] }

    // Within an action they go by player, and those of a player by actor.
    ensures order { in_order (entry_of 2 DropLoad 3 1 ∷ entry_of 1 DropLoad 9 2 ∷ entry_of 2 DropLoad 2 3
        ∷ entry_of 1 DropLoad 4 4 ∷ []) ≡ entry_of 1 DropLoad 4 4 ∷ entry_of 1 DropLoad 9 2
        ∷ entry_of 2 DropLoad 2 3 ∷ entry_of 2 DropLoad 3 1 ∷ [] }
{}

/// Says what the definition of the bucket after a tick gives in worked examples. It does nothing when
/// it runs.
pub fn bucket_examples()
    // The limit is saved, up to the most.
    ensures saved { Saves 20 30 0 50 }
    ensures most { Saves 20 9990 0 10000 }

    // A unit that was begun counts whole.
    ensures begun { Saves 20 0 9 19 }
    ensures whole { Saves 20 30 10000 49 }
    ensures begun_again { Saves 20 30 10001 48 }

    // All that was there may be used up, and the most is taken after it.
    ensures spent { Saves 1 0 10000 0 }
    ensures full { Saves 500 10000 5000000 10000 }
{}
