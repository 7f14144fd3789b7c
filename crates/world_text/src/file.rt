// The whole of a world file.
ghost use Rattle.std.specs.Prelude.{◌≡◌, ◌≢◌, ◌≤◌, ◌<◌, ◌^◌, length, IfOk, IfErr};
ghost use Rattle.serde_json.specs.View.{view};
ghost use Rattle.serde_json.specs.Data.{Data};
ghost use Rattle.world_form.specs.Facts.{Filed, SaysWorld};
ghost use Rattle.world_form.specs.FirstFaults.{IsFirst, world_checks};
ghost use Rattle.world_form.specs.Files.{HasValue, HasFault, IsShort, IsJson};
ghost use Rattle.world_text.specs.inner.Drafts.{IsDraft};

use crate::draft::Draft;
use crate::keys::required_number;
use crate::players::read_players;
use crate::rooms::read_rooms;
use serde_json::Value;
use std::alloc::Global;
use world_form::{Field, WorldFault};

const MOST_BYTES: usize = 0x400_0000;

const MOST_TICK: u64 = 0x20_0000_0000_0000;

/// What the keys of a JSON value say, or the first fault from the top down.
pub fn read_file(alloc: Global, part: &Value) -> Result<Draft, WorldFault>
    ensures ok { IfOk result (λ draft. (filed : Filed) × SaysWorld (view part.now) filed
        × IsDraft filed draft) }
    ensures tick { IfOk result (λ draft. draft.tick ≤ 2 ^ 53) }
    ensures err { IfErr result (λ e. e ≢ WorldFault.Memory → IsFirst (world_checks (view part.now)) e) }
{
    let _version = required_number(part, Field::Version, 0, 1, 1)?;
    let tick = required_number(part, Field::Tick, 0, 0, MOST_TICK)?;
    let rooms = read_rooms(alloc, part)?;
    let players = read_players(alloc, part)?;
    Ok(Draft {
        tick,
        rooms,
        players,
    })
}

/// The JSON value of a text of at most 64 MiB.
pub fn read_json(alloc: Global, bytes: &[u8]) -> Result<Value, WorldFault>
    ensures ok { IfOk result (λ value. HasValue bytes.now (view value)) }
    ensures err { IfErr result (HasFault bytes.now) }
{
    if bytes.len() > MOST_BYTES {
        return Err(WorldFault::TooLong);
    }
    match Value::from_slice(alloc, bytes) {
        Ok(value) => Ok(value),
        Err(error) => Err(if error.is_memory() {
            WorldFault::Memory
        } else {
            WorldFault::NotJson
        }),
    }
}
