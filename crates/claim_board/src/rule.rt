// The rule of the board, and its three kinds of step: a draw, a cut of a seat in two, and a join of two
// seats. A look changes nothing.
ghost use Rattle.claim_board.specs.Rule.{both_views, first_view, left_view, new_view, spent_view, Drew};
ghost use Rattle.claim_board.specs.Rule.{Given, Looked};

use crate::view::{Bounds, View};
use atomic_table::{Join, Play, Split, TableRule};

/// What holds of a board and its seats at each moment, and what a draw tells.
pub struct Draws;

impl TableRule<(), View, Bounds> for Draws {
    ghost holds = { Given };

    ghost first = { first_view };
}

impl Play<(), View> for Draws {
    ghost then = { λ step me found after. Drew me found after };
}

/// What a look at the board tells.
pub struct Looks;

impl Play<(), View> for Looks {
    ghost then = { λ step me found after. Looked me after };
}

/// A seat that is cut in two, and two that are joined.
pub struct Cut;

impl Split<View> for Cut {
    ghost left = { left_view };

    ghost right = { new_view };
}

impl Join<View> for Cut {
    ghost both = { both_views };

    ghost spent = { spent_view };
}
