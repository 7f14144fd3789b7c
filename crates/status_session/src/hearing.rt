// How the bytes of requests are read. No byte is read that belongs to no request of the session.
ghost use Rattle.std.specs.Prelude.{◌≡◌, ◌<◌, length, IfOk, IfErr, OnOk, OnErr};
ghost use Rattle.world_io.specs.Causes.{HasCause, Rose};
ghost use Rattle.status_session.specs.inner.Hearing.{HeardLine, HeardBytes, HeardPart, HeardFewer};

use std::alloc::Global;
use world_io::Failed;
use world_link::Link;

/// The most bytes of a line, with its line feed.
pub const LINE_BYTES: usize = 200;

/// What was heard of a line: its length without the line feed, or that it is too long, or that the input
/// ended in it or before it.
#[derive(Clone, Copy)]
pub enum Heard {
    Line(usize),
    Long,
    Cut(usize),
    End,
}

/// Hears a line, byte by byte, into the front of the buffer.
pub fn hear_line<L: Link>(link: &mut L, line: &mut [u8]) -> Result<Heard, Failed>
    requires { length line.old ≡ 200 }
    ensures heard { IfOk result (HeardLine (L.left link.old) (L.left link.new) line.new) }
    ensures part { OnErr result (HeardPart (L.left link.old) (L.left link.new)) }
    ensures same { length line.new ≡ 200 }
    ensures cause { HasCause (L.Source.faults link.old) (L.Source.faults link.new) result }
    ensures written { L.written link.new ≡ L.written link.old }
    ensures count { L.Sink.faults link.new ≡ L.Sink.faults link.old }
{
    let mut byte = [0u8; 1];
    for at in 0..LINE_BYTES {
        let count = link.hear(&mut byte)?;
        if count == 0 {
            if at == 0 {
                return Ok(Heard::End);
            }
            return Ok(Heard::Cut(at));
        }
        if byte[0] == b'\n' {
            return Ok(Heard::Line(at));
        }
        line[at] = byte[0];
    }
    Ok(Heard::Long)
}

/// Why the bytes of an upload were not heard.
#[derive(Clone, Copy, Debug, PartialEq, Eq)]
pub enum HearStop {
    Fault,
    Memory,
}

// How many bytes are asked for at once.
const PIECE: usize = 4096;

/// Hears so many bytes, or fewer where the input ends. Want of memory comes before the first of them is read.
pub fn hear_bytes<L: Link>(alloc: Global, link: &mut L, size: u32) -> Result<Vec<u8>, HearStop>
    ensures heard { IfOk result (λ v. HeardBytes (L.left link.old) (L.left link.new) size v.items) }
    ensures part { OnErr result (HeardFewer (L.left link.old) (L.left link.new) size) }
    ensures fault { IfErr result (λ e. e ≡ HearStop.Fault
        → Rose (L.Source.faults link.old) (L.Source.faults link.new)) }
    ensures kept { OnOk result (L.Source.faults link.new ≡ L.Source.faults link.old) }
    ensures written { L.written link.new ≡ L.written link.old }
    ensures count { L.Sink.faults link.new ≡ L.Sink.faults link.old }
{
    let Ok(mut bytes) = Vec::with_capacity(alloc, size as usize) else {
        return Err(HearStop::Memory);
    };
    let mut piece = [0u8; PIECE];
    while bytes.len() < size as usize {
        let want = (size as usize - bytes.len()).min(PIECE);
        let Ok(count) = link.hear(&mut piece[..want]) else {
            return Err(HearStop::Fault);
        };
        if count == 0 {
            return Ok(bytes);
        }
        let Ok(()) = bytes.extend_from_slice(&piece[..count]) else {
            unreachable!()
        };
    }
    Ok(bytes)
}
