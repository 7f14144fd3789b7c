// Worked examples of the frame of a tick: of movers, of entries that drop others, of what entries do
// to objects, of steps and of crossings.
ghost use Rattle.std.specs.Prelude.{◌≡◌, [], ◌∷◌};
ghost use Rattle.room_terrain.specs.declared.terrain.Ground.TheVariants.{Plain, Swamp, Wall};
ghost use Rattle.game_tables.specs.declared.action.Action.TheVariants.{DropLoad, Transfer, Withdraw, Pickup};
ghost use Rattle.game_tables.specs.declared.action.Action.TheVariants.{Heal, RangedHeal, Dismantle, Attack};
ghost use Rattle.game_tables.specs.declared.action.Action.TheVariants.{Harvest, Repair, Build};
ghost use Rattle.game_tables.specs.declared.action.Action.TheVariants.{RangedMassAttack, RangedAttack};
ghost use Rattle.game_tables.specs.declared.action.Action.TheVariants.{Suicide, ClaimController, Upgrade};
ghost use Rattle.game_tables.specs.declared.action.Action.TheVariants.{Reserve, AttackController, CreateSite};
ghost use Rattle.game_tables.specs.declared.action.Action.TheVariants.{RemoveSite, SpawnCreep, Move};
ghost use Rattle.world_rules.specs.World.{Frame};
ghost use Rattle.world_rules.specs.RuleBook.{no_harm};
ghost use Rattle.world_rules.specs.Changes.{with_object, with_new, next_id};
ghost use Rattle.world_rules.specs.Steps.{over_objects};
ghost use Rattle.world_rules.specs.Movement.{moved_by};
ghost use Rattle.world_rules.specs.FrameExamples.{creep_on, entry_of, mover, moving, walker, tired, tired_by};
ghost use Rattle.world_rules.specs.FrameExamples.{road_on};
ghost use Rattle.world_rules.specs.FrameExamples.{left_of, droppers, damage_to, healing_of};
ghost use Rattle.world_rules.specs.Fights.{blow, cure};
ghost use Rattle.world_rules.specs.FrameExamples.{creep_with, room_of_objects, takes_next, gives_next};
ghost use Rattle.world_rules.specs.FrameExamples.{makes_another};
ghost use Rattle.world_rules.specs.FrameExamples.{StepLeaves, strike, back, struck, at_first, first_left};
ghost use Rattle.world_rules.specs.FrameExamples.{moved_to, resting_at, container_at, Cross, CrossAlone};

/// Says which creeps move in worked examples. It does nothing when it runs.
pub fn mover_examples()
    // Of two movers to one tile the least id wins, whichever is listed first.
    ensures least { moving (creep_on 1 5 5 ∷ creep_on 2 7 5 ∷ []) (mover 1 6 5 ∷ mover 2 6 5 ∷ []) ≡ 1 ∷ [] }
    ensures listed { moving (creep_on 1 5 5 ∷ creep_on 2 7 5 ∷ []) (mover 2 6 5 ∷ mover 1 6 5 ∷ []) ≡ 1 ∷ [] }

    // Two creeps change places, three go round in a ring, and a chain follows its first.
    ensures swap { moving (creep_on 1 5 5 ∷ creep_on 2 6 5 ∷ [])
        (mover 1 6 5 ∷ mover 2 5 5 ∷ []) ≡ 1 ∷ 2 ∷ [] }
    ensures ring { moving (creep_on 1 5 5 ∷ creep_on 2 6 5 ∷ creep_on 3 6 6 ∷ [])
        (mover 1 6 5 ∷ mover 2 6 6 ∷ mover 3 5 5 ∷ []) ≡ 1 ∷ 2 ∷ 3 ∷ [] }
    ensures chain { moving (creep_on 1 5 5 ∷ creep_on 2 6 5 ∷ creep_on 3 7 5 ∷ [])
        (mover 1 6 5 ∷ mover 2 7 5 ∷ mover 3 8 5 ∷ []) ≡ 1 ∷ 2 ∷ 3 ∷ [] }

    // Behind a creep that stays all stay, and others go.
    ensures blocked { moving (creep_on 1 5 5 ∷ creep_on 2 6 5 ∷ creep_on 3 7 5 ∷ [])
        (mover 1 6 5 ∷ mover 2 7 5 ∷ []) ≡ [] }
    ensures others { moving (creep_on 1 5 5 ∷ creep_on 2 6 5 ∷ creep_on 3 20 20 ∷ [])
        (mover 1 6 5 ∷ mover 3 21 20 ∷ []) ≡ 3 ∷ [] }

    // A creep that loses its tile blocks the one behind it.
    ensures behind { moving (creep_on 1 5 5 ∷ creep_on 2 7 5 ∷ creep_on 3 8 5 ∷ [])
        (mover 1 6 5 ∷ mover 2 6 5 ∷ mover 3 7 5 ∷ []) ≡ 1 ∷ [] }
{}

/// Says what movement makes of a room in a worked example. It does nothing when it runs.
pub fn movement_examples()
    // Creeps change places and are tired; one that stays is not. The road that a creep comes onto wears by
    // its parts, down to 1; a road under one that stays, and one with none on it, do not wear.
    ensures { moved_by tired_by (mover 1 6 5 ∷ mover 2 5 5 ∷ [])
        (room_of_objects 9 (walker 1 3 5 5 ∷ walker 2 2 6 5 ∷ walker 3 4 8 8
        ∷ road_on 4 100 6 5 ∷ road_on 5 2 5 5 ∷ road_on 6 100 8 8 ∷ road_on 7 100 9 9 ∷ []))
        ≡ room_of_objects 9 (tired (walker 1 3 6 5) ∷ tired (walker 2 2 5 5) ∷ walker 3 4 8 8
        ∷ road_on 4 97 6 5 ∷ road_on 5 1 5 5 ∷ road_on 6 100 8 8 ∷ road_on 7 100 9 9 ∷ []) }
{}

/// Says which entries others of the same creep drop. It does nothing when it runs.
pub fn dropping_examples()
    // Each action with all that drop it.
    ensures ranged_heal { droppers RangedHeal ≡ Heal ∷ [] }
    ensures attack_controller { droppers AttackController ≡ Heal ∷ RangedHeal ∷ [] }
    ensures dismantle { droppers Dismantle ≡ Heal ∷ RangedHeal ∷ AttackController ∷ [] }
    ensures repair { droppers Repair ≡ Heal ∷ RangedHeal ∷ Dismantle ∷ AttackController ∷ [] }
    ensures build { droppers Build ≡ Heal ∷ RangedHeal ∷ Dismantle ∷ Repair ∷ AttackController ∷ [] }
    ensures attack { droppers Attack
        ≡ Heal ∷ RangedHeal ∷ Dismantle ∷ Repair ∷ Build ∷ AttackController ∷ [] }
    ensures harvest { droppers Harvest
        ≡ Heal ∷ RangedHeal ∷ Dismantle ∷ Attack ∷ Repair ∷ Build ∷ AttackController ∷ [] }
    ensures ranged_mass_attack { droppers RangedMassAttack ≡ RangedHeal ∷ Repair ∷ Build ∷ [] }
    ensures ranged_attack { droppers RangedAttack ≡ RangedHeal ∷ Repair ∷ Build ∷ RangedMassAttack ∷ [] }

    // Nothing drops any other.
    ensures drop_load { droppers DropLoad ≡ [] }
    ensures transfer { droppers Transfer ≡ [] }
    ensures withdraw { droppers Withdraw ≡ [] }
    ensures pickup { droppers Pickup ≡ [] }
    ensures heal { droppers Heal ≡ [] }
    ensures suicide { droppers Suicide ≡ [] }
    ensures claim_controller { droppers ClaimController ≡ [] }
    ensures upgrade { droppers Upgrade ≡ [] }
    ensures reserve { droppers Reserve ≡ [] }
    ensures create_site { droppers CreateSite ≡ [] }
    ensures remove_site { droppers RemoveSite ≡ [] }
    ensures spawn_creep { droppers SpawnCreep ≡ [] }
    ensures moves { droppers Move ≡ [] }

    // It does so whichever comes first, and only of the same creep.
    ensures first { left_of (entry_of Heal 3 ∷ entry_of RangedHeal 3 ∷ []) ≡ entry_of Heal 3 ∷ [] }
    ensures second { left_of (entry_of RangedHeal 3 ∷ entry_of Heal 3 ∷ []) ≡ entry_of Heal 3 ∷ [] }
    ensures others { left_of (entry_of Heal 3 ∷ entry_of RangedHeal 4 ∷ [])
        ≡ entry_of Heal 3 ∷ entry_of RangedHeal 4 ∷ [] }
    ensures another_player { left_of (record (entry_of Heal 3) { player = 2 } ∷ entry_of RangedHeal 3 ∷ [])
        ≡ record (entry_of Heal 3) { player = 2 } ∷ entry_of RangedHeal 3 ∷ [] }

    // An entry that is dropped drops others all the same.
    ensures all_the_same { left_of (entry_of Heal 3 ∷ entry_of RangedHeal 3 ∷ entry_of RangedAttack 3 ∷ [])
        ≡ entry_of Heal 3 ∷ [] }
{}

/// Says what entries do to objects in worked examples. It does nothing when it runs.
pub fn harm_examples()
    // Damage and healing sum up, each to its most.
    ensures sum { damage_to 3 (blow 3 30 ∷ blow 4 10 ∷ cure 3 5 ∷ blow 3 12 ∷ []) ≡ 42 }
    ensures most { damage_to 3 (blow 3 4294967290 ∷ blow 3 10 ∷ []) ≡ 4294967295 }
    ensures just { damage_to 3 (blow 3 4294967290 ∷ blow 3 5 ∷ []) ≡ 4294967295 }
    ensures healed { healing_of 3 (cure 3 30 ∷ blow 3 10 ∷ cure 4 5 ∷ cure 3 12 ∷ []) ≡ 42 }
    ensures most_healed { healing_of 3 (cure 3 4294967295 ∷ cure 3 1 ∷ []) ≡ 4294967295 }

    // Of entries of one kind it is read before their rules: creep 2 strikes back, though it goes before its
    // turn, and then does nothing more.
    ensures before { (frame : Frame) → struck frame (strike Attack ∷ back Attack ∷ []) (at_first frame)
        ≡ first_left frame (blow 2 10 ∷ blow 1 10 ∷ []) }

    // Of entries of a later kind it is read after the rules of the earlier one.
    ensures later { (frame : Frame)
        → struck frame (back RangedAttack ∷ []) (struck frame (strike Attack ∷ []) (at_first frame))
        ≡ first_left frame (blow 2 10 ∷ no_harm ∷ []) }
{}

/// Says what steps over objects make of a room in worked examples. It does nothing when it runs.
pub fn step_examples()
    // An object that goes before its turn does nothing.
    ensures gone { StepLeaves takes_next (creep_with 1 0 ∷ creep_with 2 0 ∷ creep_with 3 0 ∷ [])
        (creep_with 1 0 ∷ creep_with 3 0 ∷ []) }

    // Each acts as those before it left it, in rising id.
    ensures as_left { StepLeaves gives_next (creep_with 1 1 ∷ creep_with 2 2 ∷ creep_with 3 4 ∷ [])
        (creep_with 1 1 ∷ creep_with 2 3 ∷ creep_with 3 7 ∷ []) }
    ensures rising { StepLeaves gives_next (creep_with 3 4 ∷ creep_with 1 1 ∷ creep_with 2 2 ∷ [])
        (creep_with 1 1 ∷ creep_with 2 3 ∷ creep_with 3 7 ∷ []) }

    // What is made in the step has no turn.
    ensures made { over_objects makes_another (room_of_objects 3 (creep_with 1 0 ∷ creep_with 2 0 ∷ []))
        ≡ room_of_objects 5 (creep_with 1 0 ∷ creep_with 2 0 ∷ creep_with 3 0 ∷ creep_with 4 0 ∷ []) }
{}

/// Says what the changes that rules are made of do in worked examples. It does nothing when it runs.
pub fn change_examples()
    // An object comes in the place of the one of its id, and nowhere where there is none.
    ensures placed { with_object (creep_with 1 5) (room_of_objects 4 (creep_with 1 0 ∷ creep_with 2 0 ∷ []))
        ≡ room_of_objects 4 (creep_with 1 5 ∷ creep_with 2 0 ∷ []) }
    ensures absent { with_object (creep_with 3 5) (room_of_objects 4 (creep_with 1 0 ∷ creep_with 2 0 ∷ []))
        ≡ room_of_objects 4 (creep_with 1 0 ∷ creep_with 2 0 ∷ []) }

    // A new id is of its room and has the next serial; the last serial is given, and then none.
    ensures new_id { next_id (record (room_of_objects 7 []) { index = 3 }) ≡ 12884901895 }
    ensures last { (with_new (λ id. creep_with id 0) (room_of_objects 4294967295 [])).next ≡ 4294967296 }
    ensures none { with_new (λ id. creep_with id 0) (room_of_objects 4294967296 [])
        ≡ room_of_objects 4294967296 [] }
{}

/// Says where creeps go that moved onto border tiles in worked examples. It does nothing when it runs.
pub fn crossing_examples()
    // A creep that moved onto a border tile goes to the mirrored tile, and has then moved no more.
    ensures goes { Cross Plain (moved_to 1 0 49 10 ∷ []) (resting_at 1 1 0 10 ∷ []) }

    // One that did not move stays, and so does one that moved onto another tile.
    ensures rests { Cross Plain (resting_at 1 0 49 10 ∷ []) (resting_at 1 0 49 10 ∷ []) }
    ensures inside { Cross Plain (moved_to 1 0 48 10 ∷ []) (resting_at 1 0 48 10 ∷ []) }

    // One stays where a creep stands beyond, though that one would cross too: they take turns in rising id.
    ensures faced { Cross Plain (moved_to 1 0 49 10 ∷ resting_at 2 1 0 10 ∷ [])
        (resting_at 1 0 49 10 ∷ resting_at 2 1 0 10 ∷ []) }
    ensures both { Cross Plain (moved_to 1 0 49 10 ∷ moved_to 2 1 0 10 ∷ [])
        (resting_at 1 0 49 10 ∷ resting_at 2 1 0 10 ∷ []) }

    // West too, and from a corner nowhere.
    ensures west { Cross Plain (moved_to 1 1 0 10 ∷ []) (resting_at 1 0 49 10 ∷ []) }
    ensures corner { Cross Plain (moved_to 1 0 49 49 ∷ []) (resting_at 1 0 49 49 ∷ []) }

    // So does one beyond whose border lies a wall or no room; a swamp and what is no creep stop none.
    ensures walled { Cross Wall (moved_to 1 0 49 10 ∷ []) (resting_at 1 0 49 10 ∷ []) }
    ensures outside { CrossAlone (moved_to 1 0 49 10 ∷ []) (resting_at 1 0 49 10 ∷ []) }
    ensures swamp { Cross Swamp (moved_to 1 0 49 10 ∷ []) (resting_at 1 1 0 10 ∷ []) }
    ensures container { Cross Plain (moved_to 1 0 49 10 ∷ container_at 2 1 0 10 ∷ [])
        (resting_at 1 1 0 10 ∷ container_at 2 1 0 10 ∷ []) }
{}
