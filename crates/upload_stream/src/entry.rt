// One entry of a stream.
ghost use Rattle.std.specs.Prelude.{◌≡◌, ◌+◌, ◌<◌, ◌^◌, length, IfOk, OnOk, OnErr};
ghost use Rattle.std.specs.List.{AllByRecursion};
ghost use Rattle.upload_stream.specs.Entries.{BeginsNone, BeginsWith, upload_of};
ghost use Rattle.upload_stream.specs.Streams.{module_bytes_bound};

use byte_fields::{Cursor, Short};

/// An upload of a stream.
#[derive(Clone, Copy)]
pub struct Upload<'a> {
    /// The tick at whose start it is judged.
    pub tick: u64,
    /// Who is said to have sent it.
    pub player: u32,
    /// The bytes of the module.
    pub bytes: &'a [u8],
}

/// The most bytes of a module, 1 MiB. A stream may carry longer uploads, which are refused.
pub fn most_module_bytes() -> u32
    ensures { result ≡ module_bytes_bound }
{
    1_048_576
}

// The upload of these fields.
fn upload_from<'a>(tick: u64, player: u32, bytes: &'a [u8]) -> Upload<'a>
    ensures fields { result ≡ record { tick = tick; player = player; bytes = bytes.entry } }
    ensures bytes { AllByRecursion (λ byte. byte < 2 ^ 8) bytes.entry.now }
{
    Upload {
        tick,
        player,
        bytes,
    }
}

/// Reads the entry at the front, whatever its tick. Where there is none, the cursor may stand anywhere.
pub(crate) fn entry_ahead<'a>(from: &mut Cursor<'a>) -> Result<Upload<'a>, Short>
    ensures found { IfOk result (λ upload. BeginsWith 0 from.old.0 (upload_of upload) from.new.0) }
    ensures place { OnOk result (from.new.1 + length from.new.0 ≡ from.old.1 + length from.old.0) }
    ensures none { OnErr result (BeginsNone 0 from.old.0) }
{
    let tick = from.u64()?;
    let player = from.u32()?;
    let count = from.u32()?;
    let bytes = from.take(count as usize)?;
    Ok(upload_from(tick, player, bytes))
}
