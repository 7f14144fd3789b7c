// Why a world file is refused.
ghost use Rattle.std.specs.Prelude.{◌≡◌};
ghost use Rattle.world_form.specs.declared.fault.WorldFault.TheVariants.{Memory};

use crate::field::Field;
use game_tables::Kind;
use std::alloc::{AllocError, AllocFailed};
use world_rules::Rule;

/// What is wrong with a world file: the first fault from its top down, and then the rules.
#[derive(Clone, Copy, Debug, PartialEq, Eq)]
pub enum WorldFault {
    /// It is longer than 64 MiB.
    TooLong,
    /// It is no JSON text.
    NotJson,
    /// A required key is absent.
    Missing(Field),
    /// A key has a value of a wrong form or out of its range. The number is the place, from 0 on in
    /// its own list, of the room or object that has the key, and 0 for a key of the top.
    BadValue(Field, u64),
    /// A kind that this server does not know yet.
    NotBuilt(Kind),
    /// A rule is broken at this room, id or player.
    Rule(Rule, u64),
    /// There is not enough memory.
    Memory,
}

impl From<AllocError> for WorldFault {
    ghost from_gives = { λ _ e. e ≡ Memory };

    fn from(_: AllocError) -> Self {
        WorldFault::Memory
    }
}

impl<T: Drop> From<AllocFailed<T>> for WorldFault {
    ghost from_gives = { λ _ e. e ≡ Memory };

    fn from(_: AllocFailed<T>) -> Self {
        WorldFault::Memory
    }
}
