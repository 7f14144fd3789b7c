// Sources of bytes, and the call that reads one to its end.
ghost use Rattle.std.specs.Prelude.{◌≡◌, ◌≢◌, ℕ, ◌+◌, ◌<◌, ◌≤◌, List, Option, length, IfOk, OnOk, IfErr};
ghost use Rattle.std.specs.Io.{ReadsAtMost};
ghost use Rattle.std.specs.Io.KnownBytes.{ReadConsumes};
ghost use Rattle.world_io.specs.Causes.{HasCause, Rose};
ghost use Rattle.world_io.specs.Told.{GaveAll, Gave, GaveAtMost};
ghost use Rattle.world_io.specs.declared.source.ReadStop.TheVariants.{Memory};

use std::alloc::{AllocError, AllocFailed, Global};

/// The answer of a device's call that failed.
#[derive(Clone, Copy, Debug, PartialEq, Eq)]
pub struct Failed;

/// Why a source was not read whole.
#[derive(Clone, Copy, Debug, PartialEq, Eq)]
pub enum ReadStop {
    /// The source failed.
    Fault,
    /// It has more bytes than the limit.
    TooLong,
    /// There is no memory for its bytes.
    Memory,
}

impl From<AllocError> for ReadStop {
    ghost from_gives = { λ _ e. e ≡ Memory };

    fn from(_: AllocError) -> Self {
        ReadStop::Memory
    }
}

/// What bytes are read from, in their order.
pub trait Source {
    /// The bytes that are left, where the source tells.
    ghost left: { Self → Option (List ℕ) };

    /// How often it failed.
    ghost faults: { Self → ℕ };

    /// Reads the next bytes into the front of the buffer. `Ok(0)` is the end of the input. A call that fails
    /// reads nothing.
    fn read(&mut self, buf: &mut [u8]) -> Result<usize, Failed>
        requires { 0 < length buf.old }
        ensures bound { ReadsAtMost result buf.new }
        ensures bytes { ReadConsumes (left self.old) (left self.new) result buf.new }
        ensures cause { HasCause (faults self.old) (faults self.new) result };
}

// How many bytes are asked for at once.
const PIECE: usize = 65536;

/// Reads to the end of the source, or to one byte past the limit, which is in bytes.
pub fn read_all<S: Source>(alloc: Global, source: &mut S, limit: u64) -> Result<Vec<u8>, ReadStop>
    ensures whole { IfOk result (λ v. GaveAll (S.left source.old) (S.left source.new) v.items) }
    ensures within { IfOk result (λ v. length v.items ≤ limit) }
    ensures too_long { IfErr result (λ e. e ≡ ReadStop.TooLong
        → Gave (S.left source.old) (S.left source.new) (limit + 1)) }
    ensures fault { IfErr result (λ e. e ≡ ReadStop.Fault
        → Rose (S.faults source.old) (S.faults source.new)) }

    // What was read is lost, and was within the limit.
    ensures fault_taken { IfErr result (λ e. e ≡ ReadStop.Fault
        → GaveAtMost (S.left source.old) (S.left source.new) limit) }
    ensures memory_taken { IfErr result (λ e. e ≡ ReadStop.Memory
        → GaveAtMost (S.left source.old) (S.left source.new) limit) }
    ensures later { S.faults source.old ≤ S.faults source.new }

    // No failure is passed over: the count stays but where a fault is answered.
    ensures kept { OnOk result (S.faults source.new ≡ S.faults source.old) }
    ensures kept_else { IfErr result (λ e. e ≢ ReadStop.Fault → S.faults source.new ≡ S.faults source.old) }
{
    let mut out = Vec::new(alloc);
    let mut piece = [0u8; PIECE];
    loop {
        let room = limit - out.len() as u64;
        let want = if room < PIECE as u64 {
            room as usize + 1
        } else {
            PIECE
        };
        let Ok(count) = source.read(&mut piece[..want]) else {
            return Err(ReadStop::Fault);
        };
        if count == 0 {
            return Ok(out);
        }
        if count as u64 > room {
            return Err(ReadStop::TooLong);
        }
        out.extend_from_slice(&piece[..count])?;
    }
}
