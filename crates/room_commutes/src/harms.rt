// When what entries do to objects is read.
ghost use Rattle.std.specs.Prelude.{◌≡◌, List};
ghost use Rattle.std.specs.List.Sorted.{IsPermutation};
ghost use Rattle.game_tables.specs.declared.action.Action.{Action};
ghost use Rattle.intent_book.specs.declared.intent.Intent.{Intent};
ghost use Rattle.world_rules.specs.World.{World};
ghost use Rattle.world_rules.specs.RuleBook.{Harm, RuleBook, IsOrderly};
ghost use Rattle.world_rules.specs.Intents.{all_actions, kept, entries_of};
ghost use Rattle.world_rules.specs.Tick.{Course, begun, after_kind, acted, sums_of};
ghost use Rattle.room_commutes.specs.Serials.{AreSerialsUsed};
ghost use Rattle.room_commutes.specs.Running.{running_kind, running_actions, KeepsKeys, LeaveHarms};
ghost use Rattle.room_commutes.specs.Standing.{AreAllKeyed};

/// Says that what an entry does to objects may be read just before its own rule, in place of before
/// all rules of its kind, where no rule of the kind changes what a later entry does to them, and
/// objects stand under their ids: worlds, harms and gains are the same. It does nothing when it runs.
pub fn harms_as_they_run()
    // So it is for one kind, from any course of a tick on.
    ensures kind { (book : RuleBook) (before : World) (list : List Intent) (course : Course)
        → IsOrderly book → KeepsKeys book → AreSerialsUsed course.world → AreAllKeyed course.world
        → LeaveHarms book list
        → running_kind book before list course ≡ after_kind book before list course }

    // So it is for all entries of a tick, where it is for each action.
    ensures all { (book : RuleBook) (world : World) (list : List Intent) → IsOrderly book → KeepsKeys book
        → AreSerialsUsed world → AreAllKeyed world
        → ((action : Action) → LeaveHarms book (entries_of action (kept world list)))
        → running_actions book world all_actions (kept world list) (begun world) ≡ acted book world list }
{}

/// Says that what upkeep is told of harms does not depend on their order. It does nothing when it
/// runs.
pub fn sums_in_any_order()
    ensures { (one : List Harm) (other : List Harm) → IsPermutation one other → sums_of one ≡ sums_of other }
{}
