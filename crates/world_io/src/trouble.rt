// What the system said when a file or a stream failed.
ghost use Rattle.std.specs.Prelude.{◌≡◌, IsSome};

use std::io::Error;

/// What a file or a stream was to do when it failed.
#[derive(Clone, Copy, Debug, PartialEq, Eq)]
pub enum Deed {
    /// To be opened, or made.
    Open,
    /// To be nobody else's.
    Lock,
    Read,
    /// To be written, cut or synced.
    Write,
}

/// The first failure of a file or a stream.
#[derive(Clone, Copy)]
pub struct Trouble {
    pub deed: Deed,
    /// What the system said.
    pub reason: Error,
}

// Keeps a trouble where it is the first.
pub(crate) fn note(first: &mut Option<Trouble>, deed: Deed, reason: Error)
    ensures told { IsSome first.new }
    ensures kept { IsSome first.old → first.new ≡ first.old }
{
    if first.is_none() {
        *first = Some(Trouble { deed, reason });
    }
}
