// What a session reads and writes.
ghost use Rattle.std.specs.Prelude.{◌≡◌, ◌<◌, length, IfOk, OnOk, OnErr};
ghost use Rattle.std.specs.Io.{ReadsAtMost, WritesAtMost};
ghost use Rattle.std.specs.Io.KnownBytes.{ReadConsumes, WriteAppends, Appends};
ghost use Rattle.world_io.specs.Causes.{HasCause};
ghost use Rattle.world_io.specs.Told.{AppendsPrefix};

use world_io::{Failed, Sink, Source};

/// A source and a sink in one, of which each call keeps the other side: a read what was written, a write what
/// is left to read, and either the other count of faults.
pub trait Link: Source + Sink {
    /// Reads as `Source::read` does, and keeps what was written.
    fn hear(&mut self, buf: &mut [u8]) -> Result<usize, Failed>
        requires { 0 < length buf.old }
        ensures bound { ReadsAtMost result buf.new }
        ensures bytes { ReadConsumes (Self.left self.old) (Self.left self.new) result buf.new }
        ensures cause { HasCause (Self.Source.faults self.old) (Self.Source.faults self.new) result }
        ensures written { Self.written self.new ≡ Self.written self.old }
        ensures count { Self.Sink.faults self.new ≡ Self.Sink.faults self.old };

    /// Writes as `Sink::write` does, and keeps what is left to read.
    fn tell(&mut self, piece: &[u8]) -> Result<usize, Failed>
        requires { 0 < length piece.now }
        ensures bound { WritesAtMost result piece.now }
        ensures some { IfOk result (λ n. 0 < n) }
        ensures bytes { WriteAppends (Self.written self.old) (Self.written self.new) result piece.now }
        ensures cause { HasCause (Self.Sink.faults self.old) (Self.Sink.faults self.new) result }
        ensures left { Self.left self.new ≡ Self.left self.old }
        ensures count { Self.Source.faults self.new ≡ Self.Source.faults self.old };
}

/// Writes the whole text, in one call where the link takes it so. Where that fails, a part of it was written.
pub fn write_link<L: Link>(link: &mut L, text: &[u8]) -> Result<(), Failed>
    ensures whole { OnOk result (Appends (L.written link.old) (L.written link.new) text.now) }
    ensures prefix { OnErr result (AppendsPrefix (L.written link.old) (L.written link.new) text.now) }
    ensures cause { HasCause (L.Sink.faults link.old) (L.Sink.faults link.new) result }
    ensures left { L.left link.new ≡ L.left link.old }
    ensures count { L.Source.faults link.new ≡ L.Source.faults link.old }
{
    let mut at = 0usize;
    while at < text.len() {
        let count = link.tell(&text[at..])?;
        at += count;
    }
    Ok(())
}
