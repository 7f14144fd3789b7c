// Which owners the objects of a room may have.
ghost use Rattle.std.specs.Prelude.{ℕ, [], IsTrue};
ghost use Rattle.room_table.specs.inner.Owners.{Covers, MayOwn};

use crate::object::Object;

// How many remainders of owners are told apart: as many as there may be players.
const REMAINDERS: u32 = 64;

/// The remainders by 64 of all owners that objects of a room had, so that a room is mostly known
/// without a look at its objects as one in which somebody owns nothing.
#[derive(Clone, Copy)]
pub(crate) struct Owners {
    remainders: [bool; 64],
}

impl Owners {
    /// Those of no objects.
    pub(crate) fn none() -> Owners
        ensures { Covers result.remainders [] }
    {
        Owners {
            remainders: [false; 64],
        }
    }

    /// Those of these objects.
    pub(crate) fn of(objects: &[Object]) -> Owners
        ensures { Covers result.remainders objects.now }
    {
        let mut owners = Owners::none();
        for object in objects {
            owners.add(object.owner);
        }
        owners
    }

    /// Adds an owner.
    pub(crate) fn add(&mut self, owner: u32)
        ensures added { MayOwn self.new.remainders owner }
        ensures kept { (other : ℕ) → MayOwn self.old.remainders other → MayOwn self.new.remainders other }
    {
        self.remainders[(owner % REMAINDERS) as usize] = true;
    }

    /// Whether this owner may be one of them: another of the same remainder is taken for him.
    pub(crate) fn may_have(&self, owner: u32) -> bool
        ensures { MayOwn self.now.remainders owner → IsTrue result }
    {
        self.remainders[(owner % REMAINDERS) as usize]
    }
}
