// Reads a world file, or its JSON alone, and says how that ended, or copies the tables of its rooms: for the
// benchmarks of world files and of ticks.
#![tactic(auto)]

use object_store::RoomTable;
use serde_json::Value;
use std::alloc::{AllocError, Global};
use std::env;
use std::process::ExitCode;
use world_io::{FileSource, StreamSink, read_all, write_all};
use world_text::{WorldFault, WorldFile, read_world};

/// The most bytes that are read, one more than a world file has.
const MOST_BYTES: u64 = 0x400_0001;

/// How often the tables are copied.
const COPIES: u32 = 100;

fn main(rt: HostRuntime) -> ExitCode {
    if let Some(line) = answer(&rt)
        && write_all(&mut StreamSink::over(rt.stdout()), line.as_bytes()).is_ok()
    {
        return ExitCode::SUCCESS;
    }
    ExitCode::from(1)
}

// What the words `world FILE`, `json FILE`, `bytes FILE` or `copies FILE` ask for.
fn answer(rt: &HostRuntime) -> Option<&'static str> {
    let Ok(words) = env::args(rt) else {
        return None;
    };
    let Ok(words) = words.skip(1).collect::<Vec<String>>(rt.alloc()) else {
        return None;
    };
    let [what, path] = words.as_slice() else {
        return None;
    };
    let Ok(bytes) = read_all(
        rt.alloc(),
        &mut FileSource::open(rt, path.as_str()),
        MOST_BYTES,
    ) else {
        return None;
    };
    match what.as_str() {
        "world" => match read_world(rt.alloc(), &bytes) {
            Ok(_) => Some("accepted\n"),
            Err(WorldFault::Memory) => None,
            Err(_) => Some("refused\n"),
        },
        "copies" => {
            let file = read_world(rt.alloc(), &bytes).ok()?;
            copy_often(rt.alloc(), &file).ok()?;
            Some("copied\n")
        }
        "json" => match Value::from_slice(rt.alloc(), &bytes) {
            Ok(_) => Some("read\n"),
            Err(_) => Some("refused\n"),
        },
        "bytes" => Some("read\n"),
        _ => None,
    }
}

// Copies the tables of all rooms, a number of times.
fn copy_often(alloc: Global, file: &WorldFile) -> Result<(), AllocError> {
    for _ in 0..COPIES {
        let _copies = copied_tables(alloc, file)?;
    }
    Ok(())
}

// A copy of the table of each room: all are held at once, as those of a world are.
fn copied_tables(alloc: Global, file: &WorldFile) -> Result<Vec<RoomTable>, AllocError> {
    let mut copies = Vec::new(alloc);
    for room in file.world.room_list() {
        // A table has fewer than 2^32 objects.
        let _objects = room.table.objects();
        copies.push(room.table.copy(alloc, 0)?)?;
    }
    Ok(copies)
}
