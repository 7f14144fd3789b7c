// Sinks of bytes, and the call that writes a whole text.
ghost use Rattle.std.specs.Prelude.{◌≡◌, ℕ, ◌<◌, List, [], Option, length, IfOk, IsOk, OnOk, OnErr};
ghost use Rattle.std.specs.Io.{WritesAtMost};
ghost use Rattle.std.specs.Io.KnownBytes.{WriteAppends, Appends};
ghost use Rattle.world_io.specs.Causes.{HasCause};
ghost use Rattle.world_io.specs.Told.{AppendsPrefix};

use crate::source::Failed;

/// What bytes are written to, one piece after another.
pub trait Sink {
    /// The bytes that were written, where the sink tells.
    ghost written: { Self → Option (List ℕ) };

    /// How often it failed.
    ghost faults: { Self → ℕ };

    /// Writes the front of the piece, at least a byte of it, and says how much. A call that fails writes
    /// nothing.
    fn write(&mut self, piece: &[u8]) -> Result<usize, Failed>
        requires { 0 < length piece.now }
        ensures bound { WritesAtMost result piece.now }
        ensures some { IfOk result (λ n. 0 < n) }
        ensures bytes { WriteAppends (written self.old) (written self.new) result piece.now }
        ensures cause { HasCause (faults self.old) (faults self.new) result };
}

/// Writes the whole text. Where that fails, a part of it was written.
pub fn write_all<O: Sink>(sink: &mut O, text: &[u8]) -> Result<(), Failed>
    ensures whole { OnOk result (Appends (O.written sink.old) (O.written sink.new) text.now) }
    ensures prefix { OnErr result (AppendsPrefix (O.written sink.old) (O.written sink.new) text.now) }
    ensures empty { text.now ≡ [] → IsOk result }
    ensures cause { HasCause (O.faults sink.old) (O.faults sink.new) result }
{
    let mut at = 0usize;
    while at < text.len() {
        let count = sink.write(&text[at..])?;
        at += count;
    }
    Ok(())
}
