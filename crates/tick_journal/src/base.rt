// The rooms of the world that a journal begins with, written to the end of bytes.
ghost use Rattle.std.specs.Prelude.{◌≡◌, ◌++◌, map, OnOk};
ghost use Rattle.room_terrain.specs.Tiles.{ground_number};
ghost use Rattle.tick_journal.specs.Contents.{base_room, signed_bytes};
ghost use Rattle.tick_journal.specs.inner.Lists.{listed, ListFits};
ghost use Rattle.world_bytes.specs.Numbers.{TableFits};

use crate::NoMemory;
use byte_fields::put_u32;
use object_store::Room;
use room_terrain::Ground;
use world_bytes::{put_length, write_room};

/// What a base content begins with.
pub(crate) const MARK: [u8; 4] = *b"SWSJ";

/// The version of a base content: the number of the rules in force.
pub(crate) const VERSION: u32 = 1;

// Writes a column or a row.
fn put_signed(number: i32, out: &mut Vec<u8>) -> Result<(), NoMemory>
    ensures { OnOk result (out.new.items ≡ out.old.items ++ signed_bytes number) }
{
    put_u32(out, number.cast_unsigned())
}

// Writes a byte for each tile.
fn put_grounds(grounds: &[Ground], out: &mut Vec<u8>) -> Result<(), NoMemory>
    ensures { OnOk result (out.new.items ≡ out.old.items ++ map ground_number grounds.now) }
{
    'each: for ground in grounds {
        out.push(ground.number())?;
    }
    Ok(())
}

// Writes a room with its name and its terrain.
fn put_base_room(room: &Room, out: &mut Vec<u8>) -> Result<(), NoMemory>
    ensures written { OnOk result (out.new.items ≡ out.old.items ++ base_room room.now) }
    ensures fits { OnOk result (TableFits room.now.table) }
{
    put_signed(room.name.column, out)?;
    put_signed(room.name.row, out)?;
    put_grounds(room.terrain.grounds(), out)?;
    write_room(room.table.index(), &room.table, out)
}

/// Writes rooms with their names and terrains, behind their number.
pub(crate) fn put_base_rooms(rooms: &[Room], out: &mut Vec<u8>) -> Result<(), NoMemory>
    ensures written { OnOk result (out.new.items ≡ out.old.items ++ listed base_room rooms.now) }
    ensures fits { OnOk result (ListFits (λ room. TableFits room.table) rooms.now) }
{
    put_length(rooms.len() as u64, out)?;
    'each: for room in rooms {
        put_base_room(room, out)?;
    }
    Ok(())
}
