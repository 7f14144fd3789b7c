// What the rule of the board says of any two seats.
ghost use Rattle.claim_board.specs.Rule.{ListsAreApart};

/// Says that at each moment no number stands twice in the lists of a board's seats, and none that was not
/// given out. It does nothing when it runs.
pub fn numbers_are_apart()
    ensures { ListsAreApart }
{}
