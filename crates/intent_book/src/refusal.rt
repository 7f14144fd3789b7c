// Why an upload is refused.

/// Why a module that a player uploads does not become his.
#[derive(Clone, Copy, Debug, PartialEq, Eq)]
pub enum Refusal {
    /// No account of the world is the player's.
    UnknownPlayer,
    /// The token is not the player's.
    WrongToken,
    /// It is longer than 1 MiB, or passes another limit of modules.
    TooLarge,
    /// The bytes spell no module.
    Malformed,
    /// It has a float type or a float instruction.
    FloatRefused,
    /// It is not valid: WebAssembly Core 1.0, chapter 3.
    Invalid,
    /// It imports what is no host call.
    UnknownImport,
    /// It imports a host call as something else than a function of its type.
    ImportKind,
    /// No function without parameters and result is exported as `loop`.
    NoLoop,
    /// A segment passes the end of the table or the memory.
    Segment,
    /// There is not enough memory to tell.
    Memory,
}

impl Refusal {
    ghost use Rattle.std.specs.Prelude.{◌≡◌, Some, None};
    ghost use Rattle.intent_book.specs.Refusals.{refusal_name, refusal_number, refusal_of};

    /// The number of an upload's result, from 1 on: 0 is that of one that is accepted.
    pub fn number(self) -> u8
        ensures { result ≡ refusal_number self }
    {
        match self {
            Refusal::UnknownPlayer => 1,
            Refusal::WrongToken => 2,
            Refusal::TooLarge => 3,
            Refusal::Malformed => 4,
            Refusal::FloatRefused => 5,
            Refusal::Invalid => 6,
            Refusal::UnknownImport => 7,
            Refusal::ImportKind => 8,
            Refusal::NoLoop => 9,
            Refusal::Segment => 10,
            Refusal::Memory => 11,
        }
    }
    /// The refusal of a number, where one has it.
    #[tactic(auto, unfolding(crate::specs::Refusals::refusal_of))]
    pub fn of_number(number: u8) -> Option<Refusal>
        ensures { result ≡ refusal_of number }
    {
        match number {
            1 => Some(Refusal::UnknownPlayer),
            2 => Some(Refusal::WrongToken),
            3 => Some(Refusal::TooLarge),
            4 => Some(Refusal::Malformed),
            5 => Some(Refusal::FloatRefused),
            6 => Some(Refusal::Invalid),
            7 => Some(Refusal::UnknownImport),
            8 => Some(Refusal::ImportKind),
            9 => Some(Refusal::NoLoop),
            10 => Some(Refusal::Segment),
            11 => Some(Refusal::Memory),
            _ => None,
        }
    }

    /// Its name, as it is printed.
    pub fn name(self) -> &'static str
        ensures { result.now ≡ refusal_name self }
    {
        match self {
            Refusal::UnknownPlayer => "UnknownPlayer",
            Refusal::WrongToken => "WrongToken",
            Refusal::TooLarge => "TooLarge",
            Refusal::Malformed => "Malformed",
            Refusal::FloatRefused => "FloatRefused",
            Refusal::Invalid => "Invalid",
            Refusal::UnknownImport => "UnknownImport",
            Refusal::ImportKind => "ImportKind",
            Refusal::NoLoop => "NoLoop",
            Refusal::Segment => "Segment",
            Refusal::Memory => "Memory",
        }
    }
}
