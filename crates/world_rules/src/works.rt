// Worked examples of loads, work, fatigue and decay.
ghost use Rattle.std.specs.Prelude.{◌≡◌, [], ◌∷◌, true, false, Some};
ghost use Rattle.game_tables.specs.declared.kind.Kind.TheVariants.{Container, Creep, Extension, Pile, Road};
ghost use Rattle.game_tables.specs.declared.kind.Kind.TheVariants.{Spawn, Storage};
ghost use Rattle.game_tables.specs.declared.kind.Part.TheVariants.{Attack, Carry, Move, Tough, Work};
ghost use Rattle.room_terrain.specs.declared.terrain.Ground.TheVariants.{Plain, Swamp};
ghost use Rattle.world_rules.specs.Moves.{pace};
ghost use Rattle.world_rules.specs.Work.{repair_cost};
ghost use Rattle.world_rules.specs.WorkExamples.{carrier, made_of, store, Hands, HandsThere, Digs, Gains};
ghost use Rattle.world_rules.specs.WorkExamples.{Puts, BecomesOf, Weighs, Recovers, Weathers};

/// Says how much energy goes from one object to another in worked examples. It does nothing when it runs.
pub fn load_examples()
    // An amount of 0 wants all, one above what there is wants that.
    ensures some { Hands 1 30 (made_of Carry 1 50) (store Spawn 0) 30 }
    ensures all { Hands 1 0 (made_of Carry 1 50) (store Spawn 0) 50 }
    ensures too_much { Hands 1 70 (made_of Carry 1 50) (store Spawn 0) 50 }

    // No more than there is room for.
    ensures spawn { Hands 1 0 (made_of Carry 1 50) (store Spawn 260) 40 }
    ensures extension { Hands 6 0 (made_of Carry 5 250) (store Extension 0) 50 }
    ensures extension_of_seven { Hands 7 0 (made_of Carry 5 250) (store Extension 0) 100 }
    ensures extension_of_eight { Hands 8 0 (made_of Carry 5 250) (store Extension 0) 200 }
    ensures container { HandsThere 0 (made_of Carry 5 250) (store Container 1900) 100 }
    ensures storage { Hands 4 0 (made_of Carry 5 250) (store Storage 999999) 1 }

    // A creep carries 50 for each live CARRY part. What holds more than that takes nothing.
    ensures to_creep { HandsThere 0 (store Container 2000) (made_of Carry 3 20) 130 }
    ensures hurt { HandsThere 0 (store Container 2000) (carrier (Carry ∷ Move ∷ Carry ∷ []) 200 0) 50 }
    ensures over { HandsThere 0 (store Container 2000) (carrier (Carry ∷ Carry ∷ []) 100 80) 0 }
    ensures pile { HandsThere 0 (store Pile 7) (made_of Carry 1 0) 7 }
{}

/// Says what creeps harvest, repair and build in worked examples. It does nothing when it runs.
pub fn work_examples()
    // 2 for each live WORK part leave a source. Parts at the front go first.
    ensures digs { Digs (made_of Work 3 0) 1500 6 }
    ensures digs_rest { Digs (made_of Work 3 0) 5 5 }
    ensures digs_hurt { Digs (carrier (Work ∷ Work ∷ Carry ∷ []) 200 0) 1500 2 }
    ensures digs_with_one_hit { Digs (carrier (Work ∷ Work ∷ Carry ∷ []) 101 0) 1500 2 }
    ensures digs_no_more { Digs (carrier (Work ∷ Work ∷ Carry ∷ []) 100 0) 1500 0 }

    // A repair gives 100 hits for each live WORK part, as far as they are missing and paid, and costs 1 for
    // each 100 of them that were begun.
    ensures repairs { Gains (made_of Work 2 50) Road 1000 200 }
    ensures repairs_what_is_missing { Gains (made_of Work 2 50) Road 4850 150 }
    ensures repairs_what_is_paid { Gains (made_of Work 5 1) Container 1000 100 }
    ensures whole { Gains (made_of Work 2 50) Spawn 5000 0 }
    ensures costs_nothing { repair_cost 0 ≡ 0 }
    ensures costs_one { repair_cost 1 ≡ 1 }
    ensures costs_one_still { repair_cost 100 ≡ 1 }
    ensures costs_two { repair_cost 101 ≡ 2 }

    // 5 for each live WORK part go into a site, as far as they are carried and missing.
    ensures puts { Puts (made_of Work 2 50) Road 0 10 }
    ensures puts_load { Puts (made_of Work 2 7) Road 0 7 }
    ensures puts_rest { Puts (made_of Work 2 50) Road 297 3 }
    ensures puts_into_spawn { Puts (made_of Work 1 50) Spawn 14999 1 }
    ensures puts_into_extension { Puts (made_of Work 1 50) Extension 2996 4 }
    ensures puts_into_storage { Puts (made_of Work 1 50) Storage 29995 5 }
    ensures puts_into_container { Puts (made_of Work 1 50) Container 4998 2 }

    // A building is whole and empty, and has the owner of its site, where its kind has one.
    ensures spawn { BecomesOf Spawn 1 5000 }
    ensures extension { BecomesOf Extension 1 1000 }
    ensures storage { BecomesOf Storage 1 10000 }
    ensures container { BecomesOf Container 0 250000 }
    ensures road { BecomesOf Road 0 5000 }
{}

/// Says how tired steps make creeps in worked examples. It does nothing when it runs.
pub fn fatigue_examples()
    // MOVE and CARRY parts weigh nothing, all others 1, live or not, and the load 1 for each 50 begun.
    ensures bare { Weighs (Move ∷ Carry ∷ []) 0 0 }
    ensures parts { Weighs (Tough ∷ Work ∷ Attack ∷ Move ∷ []) 0 3 }
    ensures load { Weighs (Carry ∷ Carry ∷ []) 1 1 }
    ensures loads { Weighs (Carry ∷ Carry ∷ []) 50 1 }
    ensures more { Weighs (Work ∷ Carry ∷ Carry ∷ []) 51 3 }

    // A step costs 1 for each weight onto a road, 10 onto swamp without one, else 2.
    ensures road { pace true (Some Swamp) ≡ 1 }
    ensures swamp { pace false (Some Swamp) ≡ 10 }
    ensures plain { pace false (Some Plain) ≡ 2 }

    // It falls by 2 for each live MOVE part, down to 0.
    ensures falls { Recovers (Move ∷ Move ∷ []) 200 9 5 }
    ensures falls_hurt { Recovers (Move ∷ Move ∷ []) 100 9 7 }
    ensures falls_to_nothing { Recovers (Move ∷ Move ∷ []) 200 3 0 }
{}

/// Says how buildings decay in worked examples. It does nothing when it runs.
pub fn decay_examples()
    ensures runs { Weathers true Container 250000 2 250000 1 }

    // At 0 a container loses 5,000 hits and a road 100, and the timer is full again.
    ensures container_of_somebody { Weathers true Container 250000 1 245000 500 }
    ensures container_of_nobody { Weathers false Container 250000 1 245000 100 }
    ensures road_of_somebody { Weathers true Road 5000 1 4900 1000 }
    ensures road_of_nobody { Weathers false Road 5000 1 4900 1000 }
    ensures last { Weathers false Container 4999 1 0 100 }
{}
