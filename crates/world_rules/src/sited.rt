// Worked examples of sites, and of creeps that spawns make.
ghost use Rattle.std.specs.Prelude.{◌≡◌, [], ◌∷◌, replicate, true, false, Some, None};
ghost use Rattle.game_tables.specs.declared.code.Code.TheVariants.{Busy, Done, Full, InvalidArgs};
ghost use Rattle.game_tables.specs.declared.code.Code.TheVariants.{InvalidTarget, NotEnoughResources};
ghost use Rattle.game_tables.specs.declared.code.Code.TheVariants.{NotFound, NotOwner, RoomLevelNotEnough};
ghost use Rattle.game_tables.specs.declared.kind.Kind.TheVariants.{Container, Controller, Creep, Extension};
ghost use Rattle.game_tables.specs.declared.kind.Kind.TheVariants.{Pile, Road, Site, Source, Spawn, Storage};
ghost use Rattle.game_tables.specs.declared.kind.Part.TheVariants.{Carry, Claim, Move, Tough, Work};
ghost use Rattle.world_rules.specs.Sights.{gives_sight};
ghost use Rattle.world_rules.specs.Spawns.{newborn, payers, share};
ghost use Rattle.world_rules.specs.ClaimExamples.{controller, free, owned, reserved_for};
ghost use Rattle.world_rules.specs.SiteExamples.{holder, making, many_of, planned, site_for, spawn};
ghost use Rattle.world_rules.specs.SiteExamples.{there};
ghost use Rattle.world_rules.specs.WorkExamples.{carrier};
ghost use Rattle.world_rules.specs.SiteExamples.{Answers, Begins, Removes};

/// Says by which objects a player sees their room in worked examples. It does nothing when it runs.
pub fn sight_examples()
    ensures creep { gives_sight 1 (there Creep 1 20) ≡ true }
    ensures building { gives_sight 1 (there Extension 1 20) ≡ true }
    ensures controller { gives_sight 1 (owned 1 0 9 0) ≡ true }

    // A site makes no room visible, nor does a reservation or what is another's or nobody's.
    ensures site { gives_sight 1 (there Site 1 20) ≡ false }
    ensures reserved { gives_sight 1 (reserved_for 5) ≡ false }
    ensures anothers { gives_sight 1 (there Creep 2 20) ≡ false }
    ensures nobodys { gives_sight 1 (there Road 0 20) ≡ false }
{}

/// Says what the checks of new and removed sites answer in worked examples. It does nothing when it runs.
pub fn site_examples()
    // A tile at no border, and a kind from 4 to 8.
    ensures least { Answers (planned 1 1 7 []) Done }
    ensures most { Answers (planned 48 48 8 []) Done }
    ensures left { Answers (planned 0 1 7 []) InvalidArgs }
    ensures bottom { Answers (planned 1 49 7 []) InvalidArgs }
    ensures creep { Answers (planned 1 1 3 []) InvalidArgs }
    ensures pile { Answers (planned 1 1 9 []) InvalidArgs }

    // Nobody else owns or reserves the controller, and spawns, extensions and storages want one of their own.
    ensures owned_by_another { Answers (planned 1 1 8 (controller 2 1 0 9 0 0 ∷ [])) NotOwner }
    ensures reserved_by_another { Answers (planned 1 1 8 (controller 0 0 0 0 2 9 ∷ [])) NotOwner }
    ensures free { Answers (planned 1 1 8 (free ∷ [])) Done }
    ensures none_for_a_spawn { Answers (planned 1 1 4 []) RoomLevelNotEnough }
    ensures free_for_a_spawn { Answers (planned 1 1 4 (free ∷ [])) RoomLevelNotEnough }
    ensures reserved_for_a_spawn { Answers (planned 1 1 4 (reserved_for 9 ∷ [])) RoomLevelNotEnough }
    ensures own_for_a_spawn { Answers (planned 1 1 4 (owned 1 0 9 0 ∷ [])) Done }

    // Buildings and sites of the kind, of all owners, and recorded entries are fewer than the level allows.
    ensures one_spawn_more { Answers (planned 1 1 4 (owned 6 0 9 0 ∷ there Spawn 1 5 ∷ []))
        RoomLevelNotEnough }
    ensures second_spawn { Answers (planned 1 1 4 (owned 7 0 9 0 ∷ there Spawn 1 5 ∷ [])) Done }
    ensures extension { Answers (planned 1 1 5 (owned 1 0 9 0 ∷ [])) RoomLevelNotEnough }
    ensures site_of_the_kind { Answers (planned 1 1 4 (owned 1 0 9 0 ∷ site_for 4 1 5 ∷ []))
        RoomLevelNotEnough }
    ensures site_of_another_kind { Answers (planned 1 1 4 (owned 1 0 9 0 ∷ site_for 5 1 5 ∷ [])) Done }
    ensures storage { Answers (planned 1 1 6 (owned 3 0 9 0 ∷ [])) RoomLevelNotEnough }
    ensures containers { Answers (planned 1 1 7 (many_of 5 (site_for 7 2 5))) RoomLevelNotEnough }
    ensures fifth_container { Answers (planned 1 1 7 (many_of 4 (there Container 0 5))) Done }
    ensures recorded { Answers (record (planned 1 1 7 (many_of 3 (there Container 0 5))) { recorded = 2 })
        RoomLevelNotEnough }

    // The tile is no wall, and without a source, controller, building or site; where the building obstructs,
    // without a creep too.
    ensures wall { Answers (planned 2 1 8 []) InvalidTarget }
    ensures source { Answers (planned 10 20 8 (there Source 0 20 ∷ [])) InvalidTarget }
    ensures road { Answers (planned 10 20 7 (there Road 0 20 ∷ [])) InvalidTarget }
    ensures site { Answers (planned 10 20 7 (site_for 8 2 20 ∷ [])) InvalidTarget }
    ensures pile_there { Answers (planned 10 20 8 (there Pile 0 20 ∷ [])) Done }
    ensures creep_on_road { Answers (planned 10 20 8 (there Creep 2 20 ∷ [])) Done }
    ensures creep_on_spawn { Answers (planned 10 20 4 (owned 1 0 9 0 ∷ there Creep 1 20 ∷ [])) InvalidTarget }

    // 100 sites of a player.
    ensures hundredth { Answers (record (planned 1 1 8 []) { sites = 99 }) Done }
    ensures too_many { Answers (record (planned 1 1 8 []) { sites = 100 }) Full }

    // A site that is removed is the player's.
    ensures removed { Removes (Some (site_for 4 1 5)) Done }
    ensures anothers { Removes (Some (site_for 4 2 5)) NotOwner }
    ensures building { Removes (Some (there Road 1 5)) NotFound }
    ensures nothing { Removes None NotFound }
{}

/// Says what the checks of creeps that spawns make answer, who pays, and what comes, in worked examples. It
/// does nothing when it runs.
pub fn spawn_examples()
    ensures begins { Begins (spawn 1 0) (holder 2 Spawn 1 50 ∷ []) (Some (Move ∷ [])) Done }
    ensures no_spawn { Begins (holder 2 Extension 1 50) (holder 2 Spawn 1 50 ∷ []) (Some (Move ∷ []))
        NotFound }
    ensures anothers { Begins (spawn 2 0) (holder 2 Spawn 1 50 ∷ []) (Some (Move ∷ [])) NotOwner }

    // A spawn makes one creep at a time, of 1 to 50 parts.
    ensures busy { Begins (spawn 1 1) (holder 2 Spawn 1 50 ∷ []) (Some (Move ∷ [])) Busy }
    ensures no_bytes { Begins (spawn 1 0) (holder 2 Spawn 1 50 ∷ []) None InvalidArgs }
    ensures no_parts { Begins (spawn 1 0) (holder 2 Spawn 1 50 ∷ []) (Some []) InvalidArgs }
    ensures most_parts { Begins (spawn 1 0) (holder 2 Spawn 1 300 ∷ holder 3 Extension 1 200 ∷ [])
        (Some (replicate 50 Tough)) Done }
    ensures too_many_parts { Begins (spawn 1 0) (holder 2 Spawn 1 300 ∷ holder 3 Extension 1 250 ∷ [])
        (Some (replicate 51 Tough)) InvalidArgs }

    // The player's spawns and extensions in the room hold the cost together.
    ensures just { Begins (spawn 1 0) (holder 2 Spawn 1 100 ∷ holder 3 Extension 1 50 ∷ [])
        (Some (Work ∷ Move ∷ [])) Done }
    ensures one_less { Begins (spawn 1 0) (holder 2 Spawn 1 99 ∷ holder 3 Extension 1 50 ∷ [])
        (Some (Work ∷ Move ∷ [])) NotEnoughResources }
    ensures others_hold { Begins (spawn 1 0) (holder 2 Spawn 1 100 ∷ holder 3 Extension 2 50
        ∷ holder 4 Container 1 2000 ∷ holder 5 Storage 1 2000 ∷ []) (Some (Work ∷ Move ∷ []))
        NotEnoughResources }

    // Spawns pay first, then extensions, each in rising id, as far as they hold what is left to pay.
    ensures order { payers 1 (holder 2 Extension 1 50 ∷ holder 3 Spawn 1 9 ∷ holder 4 Spawn 2 9
        ∷ holder 5 Extension 1 50 ∷ holder 6 Spawn 1 9 ∷ []) ≡ 3 ∷ 6 ∷ 2 ∷ 5 ∷ [] }
    ensures pays { share 150 (Some (holder 2 Spawn 1 200)) ≡ 150 }
    ensures pays_all { share 150 (Some (holder 2 Spawn 1 100)) ≡ 100 }

    // A creep comes with all its hits, without load or fatigue, for 1,500 ticks, or 600 with a CLAIM part.
    ensures comes { newborn (making (Work ∷ Carry ∷ Move ∷ [])) (10, 20) 7 ≡ record (carrier
        (Work ∷ Carry ∷ Move ∷ []) 300 0) { id = 7 } }
    ensures comes_to_claim { newborn (making (Claim ∷ Move ∷ [])) (10, 20) 7 ≡ record (carrier
        (Claim ∷ Move ∷ []) 200 0) { id = 7; timer = 600 } }
{}
