// Worked examples of controllers.
ghost use Rattle.std.specs.Prelude.{◌≡◌};
ghost use Rattle.world_rules.specs.ClaimExamples.{controller, free, owned, reserved_for, Ages, Becomes};
ghost use Rattle.world_rules.specs.ClaimExamples.{Claims, Gives, Hurts, Reserves};

/// Says what creeps do to controllers in worked examples. It does nothing when it runs.
pub fn claim_examples()
    // A claimed controller is of the first level, and no longer reserved.
    ensures claimed { Claims free (owned 1 0 20000 0) }
    ensures reserved_before { Claims (reserved_for 77) (owned 1 0 20000 0) }

    // A new reservation begins with 1, and none has more than 5,000 ticks.
    ensures reserves { Reserves 2 free 3 }
    ensures reserves_more { Reserves 2 (reserved_for 10) 12 }
    ensures reserves_most { Reserves 2 (reserved_for 4999) 5000 }

    // An attack takes 300 ticks a part of an owner's time, and 1 a part of a reservation, down to 1.
    ensures hurts { Hurts 2 (owned 3 7 700 0) (owned 3 7 100 0) }
    ensures hurts_all { Hurts 1 (owned 3 7 300 0) (owned 3 7 1 0) }
    ensures hurts_none { Hurts 1 (owned 3 7 1 0) (owned 3 7 1 0) }
    ensures hurts_reserved { Hurts 2 (reserved_for 5) (reserved_for 3) }
    ensures hurts_last { Hurts 2 (reserved_for 1) (reserved_for 1) }
{}

/// Says what upgrades make of controllers in worked examples. It does nothing when it runs.
pub fn upgrade_examples()
    // A creep gives as much as its WORK parts or its load.
    ensures parts { Gives 15 50 (owned 1 0 9 0) 15 }
    ensures load { Gives 15 4 (owned 1 0 9 0) 4 }

    // One of the last level takes 15 in a tick, from whomever, also what it got at the level before.
    ensures last { Gives 50 50 (owned 8 0 9 0) 15 }
    ensures rest { Gives 50 50 (owned 8 0 9 11) 4 }
    ensures none { Gives 50 50 (owned 8 0 9 15) 0 }
    ensures over { Gives 50 50 (owned 8 0 9 16) 0 }

    // Below the total the timer rises by 100, up to what the level has.
    ensures below { Becomes 9 (owned 1 190 300 1) (owned 1 199 400 10) }
    ensures full { Becomes 1 (owned 2 0 9950 0) (owned 2 1 10000 1) }

    // At the total the level rises, and what is above stays. The time is half of the new level's.
    ensures reached { Becomes 10 (owned 1 190 300 0) (owned 2 0 5000 10) }
    ensures passed { Becomes 15 (owned 1 190 300 0) (owned 2 5 5000 15) }
    ensures to_last { Becomes 30 (owned 7 10934999 300 0) (owned 8 0 100000 30) }

    // The last level has no progress, and only what is put into it adds to its time.
    ensures at_last { Becomes 15 (owned 8 0 300 0) (owned 8 0 400 15) }
    ensures nothing { Becomes 0 (owned 8 0 300 15) (owned 8 0 300 15) }
{}

/// Says what a tick takes of controllers in worked examples. It does nothing when it runs.
pub fn aging_examples()
    ensures runs { Ages (owned 3 7 2 15) (owned 3 7 1 0) }

    // Where the time is over a level is lost, and at level 0 the owner.
    ensures from_last { Ages (owned 8 0 1 0) (owned 7 0 75000 0) }
    ensures from_second { Ages (owned 2 77 1 4) (owned 1 0 10000 0) }
    ensures from_first { Ages (owned 1 77 1 4) free }

    // A reservation ends after its last tick.
    ensures reserved { Ages (reserved_for 2) (reserved_for 1) }
    ensures ended { Ages (reserved_for 1) free }
    ensures unreserved { Ages free free }
    ensures anothers { Ages (controller 0 0 0 0 2 5000) (controller 0 0 0 0 2 4999) }
{}
