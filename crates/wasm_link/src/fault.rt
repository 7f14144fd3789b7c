// Why modules are not linked.
use std::alloc::{AllocError, AllocFailed};

/// Why a module is not linked.
#[derive(Clone, Copy, Debug, PartialEq, Eq)]
pub enum LinkFault {
    /// The import of this place is none of the host's calls.
    UnknownImport(u32),
    /// The import of this place is no function, or one of another type.
    ImportKind(u32),
    /// No function of no parameters and no result is exported as `loop`.
    NoLoop,
    /// The segment of this place passes the end of the table or the memory; those of the table come first.
    Segment(u32),
    Memory,
}

impl From<AllocError> for LinkFault {
    ghost use Rattle.std.specs.Prelude.{◌≡◌};
    ghost use Rattle.wasm_link.specs.declared.fault.LinkFault.TheVariants.{Memory};

    ghost from_gives = { λ _ e. e ≡ Memory };

    fn from(_: AllocError) -> Self {
        LinkFault::Memory
    }
}

impl<T: Drop> From<AllocFailed<T>> for LinkFault {
    ghost use Rattle.std.specs.Prelude.{◌≡◌};
    ghost use Rattle.wasm_link.specs.declared.fault.LinkFault.TheVariants.{Memory};

    ghost from_gives = { λ _ e. e ≡ Memory };

    fn from(_: AllocFailed<T>) -> Self {
        LinkFault::Memory
    }
}
