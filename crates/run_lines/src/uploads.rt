// The lines of a tick's uploads.
ghost use Rattle.std.specs.Prelude.{◌≡◌, ◌++◌, [], OnOk, OnErr};
ghost use Rattle.std.specs.List.{flat_map};
ghost use Rattle.std.specs.Io.KnownBytes.{Appends};
ghost use Rattle.world_io.specs.Causes.{HasCause};
ghost use Rattle.world_io.specs.Told.{AppendsPrefix};
ghost use Rattle.judged_uploads.specs.Entries.{entry_of};
ghost use Rattle.run_lines.specs.Lines.{result_text as result_text_of, upload_line as upload_line_of};
ghost use Rattle.run_lines.specs.inner.Pieces.{Gives};

use crate::pieces::print_all;
use intent_book::Refusal;
use itoa::Buffer;
use judged_uploads::{JudgedEntry, JudgedUploads};
use world_io::{Failed, Sink, write_all};

// The result of an upload, by its number: the verdict, and the name of a refusal.
#[tactic(auto, unfolding(crate::specs::Lines::result_text))]
fn result_words(number: u8) -> (&'static str, &'static str)
    ensures { result.0.now ++ result.1.now ≡ result_text_of number }
{
    if number == 0 {
        return ("accepted", "");
    }
    match Refusal::of_number(number) {
        Some(refusal) => ("refused ", refusal.name()),
        None => ("", ""),
    }
}

// Prints the line of an upload behind a piece that is still to be written.
fn print_upload<O: Sink>(
    out: &mut O,
    piece: &mut Vec<u8>,
    entry: &JudgedEntry<'_>,
) -> Result<(), Failed>
    ensures given { OnOk result (Gives (O.written out.old) (O.written out.new)
        piece.old.items piece.new.items (upload_line_of (entry_of entry.now))) }
    ensures cut { OnErr result (AppendsPrefix (O.written out.old) (O.written out.new)
        (piece.old.items ++ upload_line_of (entry_of entry.now))) }
    ensures cause { HasCause (O.faults out.old) (O.faults out.new) result }
{
    let mut digits = Buffer::new();
    let player = digits.format(entry.player);
    let (verdict, name) = result_words(entry.result_number);
    print_all(
        out,
        piece,
        &[
            b"upload player ",
            player.as_bytes(),
            b" ",
            verdict.as_bytes(),
            name.as_bytes(),
            b"\n",
        ],
    )
}

/// Prints a line for each upload of a tick, in their order, each with its line feed. They go out in pieces as
/// long as the vector, which holds nothing yet, has room for; it takes no memory.
pub fn print_uploads<O: Sink>(
    out: &mut O,
    uploads: &JudgedUploads<'_>,
    room: Vec<u8>,
) -> Result<(), Failed>
    requires { room.items ≡ [] }
    ensures whole { OnOk result (Appends (O.written out.old) (O.written out.new)
        (flat_map upload_line_of uploads.now)) }
    ensures cut { OnErr result (AppendsPrefix (O.written out.old) (O.written out.new)
        (flat_map upload_line_of uploads.now)) }
    ensures cause { HasCause (O.faults out.old) (O.faults out.new) result }
{
    let mut piece = room;
    let mut left = uploads.entries();
    'each: while let Some(entry) = left.next() {
        print_upload(out, &mut piece, &entry)?;
    }
    write_all(out, &piece)
}
