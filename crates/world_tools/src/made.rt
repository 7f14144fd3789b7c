// The parts of a generated world.
ghost use Rattle.std.specs.Prelude.{◌≡◌, ◌≢◌, ◌⊎◌, ◌≤◌, IfOk};
ghost use Rattle.world_io.specs.Causes.{Rose};
ghost use Rattle.command_words.specs.Words.{AreRooms};
ghost use Rattle.world_form.specs.Written.{written};
ghost use Rattle.world_gen.specs.Generator.{generated};
ghost use Rattle.world_tools.specs.Made.{AreUploads, EndsWriting, IsMade};

use command_words::GenPart;
use run_status::Status;
use std::alloc::{AllocError, Global};
use world_gen::{generate, generate_uploads};
use world_io::{Sink, write_all};
use world_text::write_world;

/// Makes a part of the world of a seed and so many rooms, and writes it.
pub(crate) fn make_part<O: Sink>(
    alloc: Global,
    seed: u64,
    rooms: u32,
    part: GenPart,
    out: &mut O,
) -> Status
    requires { AreRooms rooms }
    ensures ends { EndsWriting (IsMade seed rooms part) (O.written out.old) (O.written out.new) result }
    ensures fault { result ≡ Status.WriteFault → Rose (O.faults out.old) (O.faults out.new) }
    ensures complete { (Rose (O.faults out.old) (O.faults out.new) → ⊥)
        → (result ≡ Status.Memory) ⊎ (result ≡ Status.Done) }
    ensures steady { result ≢ Status.WriteFault → O.faults out.new ≡ O.faults out.old }
    ensures later { O.faults out.old ≤ O.faults out.new }
{
    let bytes = match bytes_of(alloc, seed, rooms, part) {
        Ok(bytes) => bytes,
        Err(_) => return Status::Memory,
    };
    match write_all(out, &bytes) {
        Ok(()) => Status::Done,
        Err(_) => Status::WriteFault,
    }
}

// The bytes of a part.
fn bytes_of(alloc: Global, seed: u64, rooms: u32, part: GenPart) -> Result<Vec<u8>, AllocError>
    requires { AreRooms rooms }
    ensures { IfOk result (λ bytes. IsMade seed rooms part bytes.items) }
{
    match part {
        GenPart::World => world_bytes(alloc, seed, rooms),
        GenPart::Uploads => upload_bytes(alloc, seed, rooms),
    }
}

// The world file.
fn world_bytes(alloc: Global, seed: u64, rooms: u32) -> Result<Vec<u8>, AllocError>
    requires { AreRooms rooms }
    ensures { IfOk result (λ bytes. bytes.items ≡ written (generated seed rooms)) }
{
    let world = generate(alloc, seed, rooms)?;
    write_world(alloc, &world)
}

// The upload stream.
fn upload_bytes(alloc: Global, seed: u64, rooms: u32) -> Result<Vec<u8>, AllocError>
    requires { AreRooms rooms }
    ensures { IfOk result (λ bytes. AreUploads rooms bytes.items) }
{
    generate_uploads(alloc, seed, rooms)
}
