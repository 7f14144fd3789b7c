// A run in memory on a world that is made of a number.
ghost use Rattle.std.specs.Prelude.{◌≡◌, ◌≢◌, ◌⊎◌, ◌≤◌, ◌<◌, ℕ, List, ◌++◌, codes, decimal, length};
ghost use Rattle.std.specs.Prelude.{IfOk, IfErr};
ghost use Rattle.command_words.specs.Words.{AreRooms};
ghost use Rattle.upload_stream.specs.Streams.{Upload, UploadList};
ghost use Rattle.world_io.specs.Causes.{Rose};
ghost use Rattle.world_rules.specs.World.{world_of};
ghost use Rattle.world_run.specs.Demo.{EndsDemonstrating, IsDemonstrated, IsLastLine, IsNotDemonstrated};
ghost use Rattle.world_run.specs.Demo.{made_world};
ghost use Rattle.world_run.specs.inner.Held.{MayStart};

use crate::inputs::load_world;
use crate::ticks::keep_journal;
use made_worlds::generated_worlds_are_writable;
use object_store::World;
use run_status::Status;
use std::alloc::{AllocError as NoMemory, Global};
use upload_stream::{Uploads, stream_is_judged_once};
use world_gen::{generate, generate_uploads};
use world_io::{MemoryDisk, MemorySink, Sink, SteadySource, write_all};
use world_text::write_world;

/// Runs so many ticks in memory on the world of a seed and so many rooms, whose players upload the players'
/// module for the first, and writes the last line of the run and the length of its journal.
pub fn run_in_memory<O: Sink>(
    alloc: Global,
    seed: u64,
    rooms: u32,
    ticks: u64,
    out: &mut O,
) -> Status
    requires rooms { AreRooms rooms }
    requires ticks { ticks ≤ 1000000 }
    ensures ends { EndsDemonstrating seed rooms ticks (O.written out.old) (O.written out.new) result }
    ensures fault { result ≡ Status.WriteFault → Rose (O.faults out.old) (O.faults out.new) }
    ensures complete { (Rose (O.faults out.old) (O.faults out.new) → ⊥)
        → (result ≡ Status.Memory) ⊎ (result ≡ Status.Done)
        ⊎ ((index : ℕ) × (result ≡ Status.IdsExhausted index)) }
    ensures steady { result ≢ Status.WriteFault → O.faults out.new ≡ O.faults out.old }
    ensures later { O.faults out.old ≤ O.faults out.new }
{
    let text = match demonstrate(alloc, seed, rooms, ticks) {
        Ok(text) => text,
        Err(status) => return status,
    };
    match write_all(out, &text) {
        Ok(()) => Status::Done,
        Err(_) => Status::WriteFault,
    }
}

// What is written. The disk and the sink of the run grow in memory, so that where one of them fails memory is
// wanted.
fn demonstrate(alloc: Global, seed: u64, rooms: u32, ticks: u64) -> Result<Vec<u8>, Status>
    requires rooms { AreRooms rooms }
    requires ticks { ticks ≤ 1000000 }
    ensures text { IfOk result (λ text. IsDemonstrated seed rooms ticks text.items) }
    ensures none { IfErr result (IsNotDemonstrated seed rooms ticks) }
{
    let Ok(world) = made_again(alloc, seed, rooms) else {
        return Err(Status::Memory);
    };
    let Ok(stream) = generate_uploads(alloc, seed, rooms) else {
        return Err(Status::Memory);
    };
    let uploads = uploads_of(&stream);
    let mut lines = MemorySink::new(alloc, Vec::new(alloc));
    let mut disk = MemoryDisk::new(Vec::new(alloc), Vec::new(alloc), None);
    match keep_journal(
        alloc,
        &player_runs::InTurn,
        &room_step::InTurn,
        world,
        uploads,
        ticks,
        &mut lines,
        &mut disk,
    ) {
        Status::Done => match text_of(alloc, lines.written(), disk.bytes().len()) {
            Ok(text) => Ok(text),
            Err(_) => Err(Status::Memory),
        },
        Status::IdsExhausted(index) => Err(Status::IdsExhausted(index)),
        _ => Err(Status::Memory),
    }
}

// The uploads of a stream that has a list of them.
fn uploads_of<'a>(stream: &'a [u8]) -> Uploads<'a>
    requires { (uploads : List Upload) × UploadList stream.now uploads }
    ensures { UploadList stream.entry.now result }
{
    stream_is_judged_once();
    match Uploads::read(stream) {
        Ok(uploads) => uploads,
        Err(_) => unreachable!(),
    }
}

// The world of a seed and so many rooms, as a run reads it from the file that is written of it. The file is
// accepted, so that memory is wanted where it can't be read.
fn made_again(alloc: Global, seed: u64, rooms: u32) -> Result<World, NoMemory>
    requires { AreRooms rooms }
    ensures same { IfOk result (λ world. world_of world ≡ made_world seed rooms) }
    ensures starts { IfOk result MayStart }
{
    generated_worlds_are_writable();
    let world = generate(alloc, seed, rooms)?;
    let text = write_world(alloc, &world)?;
    match load_world(alloc, &mut SteadySource::new(text)) {
        Ok(file) => Ok(file.world),
        Err(_) => Err(NoMemory),
    }
}

// The last of some lines, and the length of a journal.
fn text_of(alloc: Global, lines: &[u8], length: usize) -> Result<Vec<u8>, NoMemory>
    ensures { IfOk result (λ text. (line : List ℕ) × IsLastLine line lines.now
        × (text.items ≡ line ++ codes "journal " ++ decimal length ++ codes "\n")) }
{
    let end = format!(in alloc; "journal {length}\n")?;
    let mut text = Vec::new(alloc);
    text.extend_from_slice(last_line(lines))?;
    text.extend_from_slice(end.as_bytes())?;
    Ok(text)
}

// The last line of a text, with its line feed where it has one.
fn last_line(text: &[u8]) -> &[u8]
    ensures { IsLastLine result.now text.now }
{
    let mut start = text.len().saturating_sub(1);
    while start > 0 && text[start - 1] != b'\n' {
        start -= 1;
    }
    &text[start..]
}
