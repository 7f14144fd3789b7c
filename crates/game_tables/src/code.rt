// The return codes of host calls.
ghost use Rattle.std.specs.Prelude.{◌≡◌};
ghost use Rattle.game_tables.specs.Codes.{code_number};

/// What a host call answers a module.
#[derive(Clone, Copy, Debug, PartialEq, Eq)]
pub enum Code {
    Done,
    NotOwner,
    Busy,
    NotFound,
    NotEnoughResources,
    InvalidTarget,
    Full,
    NotInRange,
    InvalidArgs,
    Tired,
    NoBodypart,
    /// The room's controller has too low a level.
    RoomLevelNotEnough,
    /// The player has too low a global level.
    GlobalLevelNotEnough,
}

impl Code {
    /// The number that a module gets, 0 or negative.
    pub fn number(self) -> i32
        ensures { result ≡ code_number self }
    {
        match self {
            Code::Done => 0,
            Code::NotOwner => -1,
            Code::Busy => -4,
            Code::NotFound => -5,
            Code::NotEnoughResources => -6,
            Code::InvalidTarget => -7,
            Code::Full => -8,
            Code::NotInRange => -9,
            Code::InvalidArgs => -10,
            Code::Tired => -11,
            Code::NoBodypart => -12,
            Code::RoomLevelNotEnough => -14,
            Code::GlobalLevelNotEnough => -15,
        }
    }
}
