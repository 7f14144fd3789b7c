// The reading of a run's inputs, in their order: the words, the world file, the upload stream.
ghost use Rattle.std.specs.Prelude.{◌≡◌, ◌≢◌, ◌⊎◌, ℕ, ◌+◌, ◌^◌, ◌≤◌, List, length, map, string_bytes, Some};
ghost use Rattle.std.specs.Prelude.{IfOk, IfErr, OnOk};
ghost use Rattle.world_io.specs.Causes.{Rose};
ghost use Rattle.world_io.specs.Told.{GaveAll, Gave};
ghost use Rattle.world_rules.specs.World.{World as GameWorld, world_of};
ghost use Rattle.world_form.specs.Files.{WorldForm};
ghost use Rattle.world_form.specs.declared.fault.WorldFault.{WorldFault};
ghost use Rattle.world_run.specs.inner.Held.{HaveTiles, MayStart};
ghost use Rattle.world_run.specs.inner.Stages.{status_of_fault, IsOfWords, IsOfWorld, IsOfUploads};
ghost use Rattle.world_run.specs.inner.Stages.{IsOfInputs, IsPastWorld};
ghost use Rattle.command_words.specs.Words.{AreRunBy, Asks};
ghost use Rattle.world_run.specs.Runs.{ReadsWorld, ReadsFault, IsPastWords};

use command_words::{Command, WordsFault, read_words};
use object_store::World;
use run_status::Status;
use std::alloc::Global;
use world_io::{ReadStop, Source, read_all};
use world_text::{WorldFault, WorldFile, read_world};

/// The most bytes of a world file, 64 MiB.
const MOST_WORLD_BYTES: u64 = 0x400_0000;

/// The most bytes of an upload stream, 256 MiB.
const MOST_UPLOAD_BYTES: u64 = 0x1000_0000;

/// What a run starts from.
#[derive(Drop)]
pub(crate) struct Inputs {
    pub ticks: u64,
    pub world: World,
    /// The bytes of the upload stream.
    pub stream: Vec<u8>,
}

/// Reads all inputs, in their order. The words may ask for so many workers at most.
pub(crate) fn read_inputs<W: Source, U: Source>(
    alloc: Global,
    most: u32,
    words: &[String],
    world: &mut W,
    uploads: &mut U,
) -> Result<Inputs, Status>
    ensures run { IfOk result (λ inputs. Asks most (map string_bytes words.now) inputs.ticks) }
    ensures found { IfOk result
        (λ inputs. ReadsWorld (W.left world.old) (W.left world.new) (world_of inputs.world)) }
    ensures starts { IfOk result (λ inputs. MayStart inputs.world) }
    ensures ticks { IfOk result (λ inputs. inputs.ticks ≤ 1000000) }
    ensures stream { IfOk result
        (λ inputs. GaveAll (U.left uploads.old) (U.left uploads.new) inputs.stream.items) }
    ensures within { IfOk result (λ inputs. length inputs.stream.items ≤ 2 ^ 28) }
    ensures only { IfErr result IsOfInputs }
    ensures usage { IfErr result (λ status. status ≡ Status.Usage
        → AreRunBy most (map string_bytes words.now) → ⊥) }
    ensures words { IfErr result (λ status. IsPastWords status → AreRunBy most (map string_bytes words.now)) }
    ensures world_refused { IfErr result (λ status. (fault : WorldFault) → status ≡ Status.World fault
        → ReadsFault (W.left world.old) (W.left world.new) fault) }
    ensures world_accepted { IfErr result (λ status. IsPastWorld status
        → (found : GameWorld) × ReadsWorld (W.left world.old) (W.left world.new) found) }
    ensures uploads_refused { IfErr result (λ status. (at : ℕ) → status ≡ Status.Uploads at
        → (at ≡ 2 ^ 28) × Gave (U.left uploads.old) (U.left uploads.new) (2 ^ 28 + 1)) }
    ensures read_fault { IfErr result (λ status. status ≡ Status.ReadFault
        → (Rose (W.faults world.old) (W.faults world.new) × (U.left uploads.new ≡ U.left uploads.old))
        ⊎ (Rose (U.faults uploads.old)
        (U.faults uploads.new)
        × ((found : GameWorld) × ReadsWorld (W.left world.old) (W.left world.new) found))) }
    ensures unread { IfErr result (λ status. status ≡ Status.Usage → (W.left world.new ≡ W.left world.old)
        × (U.left uploads.new ≡ U.left uploads.old)) }
    ensures uploads_unread { IfErr result (λ status. (fault : WorldFault) → status ≡ Status.World fault
        → U.left uploads.new ≡ U.left uploads.old) }
    ensures steady { OnOk result ((W.faults world.new ≡ W.faults world.old)
        × (U.faults uploads.new ≡ U.faults uploads.old)) }
    ensures steady_else { IfErr result (λ status. status ≢ Status.ReadFault
        → (W.faults world.new ≡ W.faults world.old) × (U.faults uploads.new ≡ U.faults uploads.old)) }
    ensures complete { IfErr result (λ status. (bytes stream : List ℕ) → (found : GameWorld)
        → AreRunBy most (map string_bytes words.now)
        → W.left world.old ≡ Some bytes → WorldForm bytes found → U.left uploads.old ≡ Some stream
        → length stream ≤ 2 ^ 28
        → (Rose (W.faults world.old) (W.faults world.new) → ⊥)
        → (Rose (U.faults uploads.old) (U.faults uploads.new) → ⊥)
        → status ≡ Status.Memory) }
    ensures world_later { W.faults world.old ≤ W.faults world.new }
    ensures uploads_later { U.faults uploads.old ≤ U.faults uploads.new }
{
    let ticks = asked_ticks(alloc, most, words)?;
    let file = load_world(alloc, world)?;
    let stream = load_uploads(alloc, uploads)?;
    Ok(Inputs {
        ticks,
        world: file.world,
        stream,
    })
}

// The number of ticks that the words ask for, by so many workers at most.
fn asked_ticks(alloc: Global, most: u32, words: &[String]) -> Result<u64, Status>
    ensures run { IfOk result (Asks most (map string_bytes words.now)) }
    ensures few { IfOk result (λ ticks. ticks ≤ 1000000) }
    ensures usage { IfErr result (λ status. status ≡ Status.Usage
        → AreRunBy most (map string_bytes words.now) → ⊥) }
    ensures only { IfErr result IsOfWords }
{
    match read_words(alloc, words) {
        Ok(Command::Run { ticks, workers, .. }) if workers <= most => Ok(ticks),
        Ok(_) => Err(Status::Usage),
        Err(WordsFault::Usage) => Err(Status::Usage),
        Err(WordsFault::Memory) => Err(Status::Memory),
    }
}

/// Reads a world file, of at most 64 MiB: its world, and the tokens of its players.
#[tactic(auto, using(crate::proofs::WorldFaults::of_faults))]
pub fn load_world<W: Source>(alloc: Global, source: &mut W) -> Result<WorldFile, Status>
    ensures found { IfOk result
        (λ file. ReadsWorld (W.left source.old) (W.left source.new) (world_of file.world)) }
    ensures starts { IfOk result (λ file. MayStart file.world) }
    ensures only { IfErr result IsOfWorld }
    ensures refused { IfErr result (λ status. (fault : WorldFault) → status ≡ Status.World fault
        → ReadsFault (W.left source.old) (W.left source.new) fault) }
    ensures fault { IfErr result (λ status. status ≡ Status.ReadFault
        → Rose (W.faults source.old) (W.faults source.new)) }
    ensures complete { IfErr result (λ status. (bytes : List ℕ) → (found : GameWorld)
        → W.left source.old ≡ Some bytes → WorldForm bytes found
        → (Rose (W.faults source.old) (W.faults source.new) → ⊥) → status ≡ Status.Memory) }
    ensures steady { OnOk result (W.faults source.new ≡ W.faults source.old) }
    ensures steady_else { IfErr result (λ status. status ≢ Status.ReadFault
        → W.faults source.new ≡ W.faults source.old) }
    ensures later { W.faults source.old ≤ W.faults source.new }
{
    let bytes = match read_all(alloc, source, MOST_WORLD_BYTES) {
        Ok(bytes) => bytes,
        Err(ReadStop::Fault) => return Err(Status::ReadFault),
        Err(ReadStop::TooLong) => return Err(Status::World(WorldFault::TooLong)),
        Err(ReadStop::Memory) => return Err(Status::Memory),
    };
    match read_world(alloc, &bytes) {
        Ok(file) => {
            have_tiles(&file.world);
            Ok(file)
        }
        Err(fault) => Err(refused_world(fault)),
    }
}

// What the terrain of each room keeps: that it has 2,500 tiles.
fn have_tiles(world: &World)
    ensures { HaveTiles world.now.rooms }
{
    for room in world.room_list() {
        let _tiles = room.terrain.grounds();
    }
}

// The status of a world file with a fault.
fn refused_world(fault: WorldFault) -> Status
    ensures { result ≡ status_of_fault fault }
{
    match fault {
        WorldFault::Memory => Status::Memory,
        _ => Status::World(fault),
    }
}

// Reads the upload stream.
fn load_uploads<U: Source>(alloc: Global, source: &mut U) -> Result<Vec<u8>, Status>
    ensures stream { IfOk result (λ stream. GaveAll (U.left source.old) (U.left source.new) stream.items) }
    ensures within { IfOk result (λ stream. length stream.items ≤ 2 ^ 28) }
    ensures only { IfErr result IsOfUploads }
    ensures refused { IfErr result (λ status. (at : ℕ) → status ≡ Status.Uploads at
        → (at ≡ 2 ^ 28) × Gave (U.left source.old) (U.left source.new) (2 ^ 28 + 1)) }
    ensures fault { IfErr result (λ status. status ≡ Status.ReadFault
        → Rose (U.faults source.old) (U.faults source.new)) }
    ensures complete { IfErr result (λ status. (stream : List ℕ) → U.left source.old ≡ Some stream
        → length stream ≤ 2 ^ 28
        → (Rose (U.faults source.old) (U.faults source.new) → ⊥) → status ≡ Status.Memory) }
    ensures steady { OnOk result (U.faults source.new ≡ U.faults source.old) }
    ensures steady_else { IfErr result (λ status. status ≢ Status.ReadFault
        → U.faults source.new ≡ U.faults source.old) }
    ensures later { U.faults source.old ≤ U.faults source.new }
{
    match read_all(alloc, source, MOST_UPLOAD_BYTES) {
        Ok(stream) => Ok(stream),
        Err(ReadStop::Fault) => Err(Status::ReadFault),
        Err(ReadStop::TooLong) => Err(Status::Uploads(MOST_UPLOAD_BYTES)),
        Err(ReadStop::Memory) => Err(Status::Memory),
    }
}
