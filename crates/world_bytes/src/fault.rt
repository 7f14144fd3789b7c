// Why bytes are refused.
ghost use Rattle.std.specs.Prelude.{◌≡◌};
ghost use Rattle.world_bytes.specs.declared.fault.BytesFault.TheVariants.{Malformed, Memory};

use byte_fields::Short;
use std::alloc::{AllocError, AllocFailed};

/// Why bytes are no form.
#[derive(Clone, Copy, Debug, PartialEq, Eq)]
pub enum BytesFault {
    /// No form begins the bytes.
    Malformed,
    /// There is not enough memory.
    Memory,
}

/// No value of the form that is read begins the bytes: no object, body, action or intent.
#[derive(Clone, Copy)]
pub(crate) struct NoForm;

impl From<Short> for NoForm {
    ghost from_gives = { λ _ _. Unit {0} };

    fn from(_: Short) -> Self {
        NoForm
    }
}

impl From<NoForm> for BytesFault {
    ghost from_gives = { λ _ e. e ≡ Malformed };

    fn from(_: NoForm) -> Self {
        BytesFault::Malformed
    }
}

impl From<Short> for BytesFault {
    ghost from_gives = { λ _ e. e ≡ Malformed };

    fn from(_: Short) -> Self {
        BytesFault::Malformed
    }
}

impl From<AllocError> for BytesFault {
    ghost from_gives = { λ _ e. e ≡ Memory };

    fn from(_: AllocError) -> Self {
        BytesFault::Memory
    }
}

impl<T: Drop> From<AllocFailed<T>> for BytesFault {
    ghost from_gives = { λ _ e. e ≡ Memory };

    fn from(_: AllocFailed<T>) -> Self {
        BytesFault::Memory
    }
}
