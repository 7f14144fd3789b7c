// Worked examples of fights.
ghost use Rattle.std.specs.Prelude.{◌≡◌, [], ◌∷◌};
ghost use Rattle.game_tables.specs.Bodies.{part_hits};
ghost use Rattle.game_tables.specs.declared.kind.Kind.TheVariants as kinds;
ghost use Rattle.game_tables.specs.declared.kind.Part.TheVariants.{Attack, Carry, Heal, Move, RangedAttack};
ghost use Rattle.game_tables.specs.declared.kind.Part.TheVariants.{Tough, Work};
ghost use Rattle.world_rules.specs.Fights.{attacked_by, cure, healed_by, shot_by, torn_by, blow};
ghost use Rattle.world_rules.specs.FightExamples.{fighter, one_of, other_of, CreepLeft, BuildingLeft};
ghost use Rattle.world_rules.specs.FightExamples.{Salvages, Strikes};

/// Says what creeps do to each other and to buildings in worked examples. It does nothing when it runs.
pub fn fight_examples()
    // Who attacks a creep is struck back by what that has of ATTACK parts; a building doesn't strike.
    ensures strikes_back { attacked_by
        (one_of 200 (Attack ∷ Move ∷ [])) (other_of 300 (Tough ∷ Attack ∷ Move ∷ []))
        ≡ record { damage = (2, 30) ∷ (1, 30) ∷ []; healing = [] } }
    ensures building { attacked_by (one_of 200 (Attack ∷ Attack ∷ [])) (fighter 2 kinds.Road 0 21 5000 [])
        ≡ record { damage = (2, 60) ∷ []; healing = [] } }

    // Parts that are gone don't count: the first of a body go first.
    ensures hurt { attacked_by (one_of 100 (Attack ∷ Attack ∷ [])) (other_of 100 (Attack ∷ Move ∷ []))
        ≡ record { damage = (2, 30) ∷ (1, 0) ∷ []; healing = [] } }
    ensures tough { part_hits 270 2 ≡ 70 }

    // 12 for each HEAL part beside, 4 from afar, 10 for each RANGED_ATTACK part, 50 for each WORK part.
    ensures heals { healed_by 12 (one_of 200 (Heal ∷ Heal ∷ [])) (other_of 1 (Move ∷ [])) ≡ cure 2 24 }
    ensures heals_afar { healed_by 4 (one_of 200 (Heal ∷ Heal ∷ [])) (other_of 1 (Move ∷ [])) ≡ cure 2 8 }
    ensures shoots { shot_by (one_of 200 (RangedAttack ∷ Move ∷ [])) (other_of 1 (Move ∷ [])) ≡ blow 2 10 }
    ensures tears { torn_by (one_of 200 (Work ∷ Work ∷ [])) (fighter 2 kinds.Road 0 21 100 []) ≡ blow 2 100 }

    // 1 energy for each 200 hits that are torn down and are there.
    ensures salvaged { Salvages (Work ∷ Work ∷ Work ∷ Work ∷ []) 5000 1 }
    ensures too_few { Salvages (Work ∷ Work ∷ Work ∷ []) 5000 0 }
    ensures not_there { Salvages (Work ∷ Work ∷ Work ∷ Work ∷ []) 199 0 }

    // A mass attack does 10, 4 and 1 at range 0 and 1, 2, 3, to creeps and buildings of other players alone.
    ensures by_range { Strikes 200 (RangedAttack ∷ RangedAttack ∷ [])
        (other_of 100 [] ∷ fighter 3 kinds.Spawn 3 22 1 [] ∷ fighter 4 kinds.Creep 2 17 1 []
        ∷ fighter 5 kinds.Creep 2 24 1 [] ∷ fighter 6 kinds.Extension 2 20 1 [] ∷ [])
        ((2, 20) ∷ (3, 8) ∷ (4, 2) ∷ (6, 20) ∷ []) }
    ensures spares { Strikes 200 (RangedAttack ∷ Move ∷ [])
        (one_of 200 (RangedAttack ∷ Move ∷ []) ∷ fighter 3 kinds.Creep 1 21 1 []
        ∷ fighter 4 kinds.Road 0 20 1 [] ∷ fighter 5 kinds.Site 2 20 0 []
        ∷ fighter 6 kinds.Controller 2 21 0 [] ∷ []) [] }
{}

/// Says which hits a tick leaves in worked examples. It does nothing when it runs.
pub fn hits_examples()
    // Damage as large as the hits kills, one less doesn't.
    ensures less { CreepLeft (Attack ∷ Move ∷ []) 200 199 0 1 }
    ensures equal { CreepLeft (Attack ∷ Move ∷ []) 200 200 0 0 }
    ensures more { CreepLeft (Attack ∷ Move ∷ []) 200 201 0 0 }

    // Damage and healing are taken at once, and then the most: a healer saves who would be dead.
    ensures saved { CreepLeft (Attack ∷ Move ∷ []) 200 300 101 1 }
    ensures balanced { CreepLeft (Attack ∷ Move ∷ []) 150 500 500 150 }
    ensures most { CreepLeft (Attack ∷ Move ∷ []) 150 20 100 200 }
    ensures at_once { CreepLeft (Attack ∷ Move ∷ []) 200 50 60 200 }

    // One that had none is dead, whatever heals it.
    ensures dead { CreepLeft (Attack ∷ Move ∷ []) 0 0 1000 0 }

    // Of a building damage alone is taken.
    ensures building_less { BuildingLeft 100 99 1 }
    ensures building_equal { BuildingLeft 100 100 0 }
{}
