// Texts that are given to a sink in pieces.
ghost use Rattle.std.specs.Prelude.{◌≡◌, ◌++◌, if◌then◌else◌, OnOk, OnErr};
ghost use Rattle.std.specs.List.{flat_map};
ghost use Rattle.world_io.specs.Causes.{HasCause};
ghost use Rattle.world_io.specs.Told.{AppendsPrefix};
ghost use Rattle.run_lines.specs.inner.Pieces.{Gives};

use world_io::{Failed, Sink, write_all};

// Adds a text to a piece that has room for it, and says whether it has.
fn add(piece: &mut Vec<u8>, text: &[u8]) -> bool
    ensures { piece.new.items ≡ (if result then piece.old.items ++ text.now else piece.old.items) }
{
    let whole = piece.len().saturating_add(text.len());
    whole <= piece.capacity() && piece.extend_from_slice(text).is_ok()
}

// Gives a text to a sink behind a piece that is still to be written: it is added to the piece, or where that
// has no room, both are written. It takes no memory.
fn print<O: Sink>(out: &mut O, piece: &mut Vec<u8>, text: &[u8]) -> Result<(), Failed>
    ensures given { OnOk result (Gives (O.written out.old) (O.written out.new)
        piece.old.items piece.new.items text.now) }
    ensures cut { OnErr result (AppendsPrefix (O.written out.old) (O.written out.new)
        (piece.old.items ++ text.now)) }
    ensures cause { HasCause (O.faults out.old) (O.faults out.new) result }
{
    if add(piece, text) {
        return Ok(());
    }
    write_all(out, piece)?;
    piece.clear();
    write_all(out, text)
}

/// Gives texts to a sink, one behind the other, behind a piece that is still to be written. It takes no
/// memory.
pub(crate) fn print_all<O: Sink>(
    out: &mut O,
    piece: &mut Vec<u8>,
    texts: &[&[u8]],
) -> Result<(), Failed>
    ensures given { OnOk result (Gives (O.written out.old) (O.written out.new)
        piece.old.items piece.new.items (flat_map (λ text. text.now) texts.now)) }
    ensures cut { OnErr result (AppendsPrefix (O.written out.old) (O.written out.new)
        (piece.old.items ++ flat_map (λ text. text.now) texts.now)) }
    ensures cause { HasCause (O.faults out.old) (O.faults out.new) result }
{
    for text in texts {
        print(out, piece, text)?;
    }
    Ok(())
}
