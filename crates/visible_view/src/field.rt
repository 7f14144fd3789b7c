// What is told of one object or one tile.
ghost use Rattle.std.specs.Prelude.{◌≡◌, ◌&&◌, ◌-◌, ◌<◌, nat_lt, length, if◌then◌else◌, slice_get, None};
ghost use Rattle.room_terrain.specs.Tiles.{tile};
ghost use Rattle.visible_view.specs.Fields.{hits_as, part_field as told_part};

use object_store::{Ground, Kind, Object, Terrain};

/// The number of a part times 1,000 and its hits, by its place in the body.
pub fn part_field(object: &Object, i: u32) -> Option<u64>
    ensures { result ≡ told_part object.now i }
{
    let place = u64::from(i);
    let part = object.body.nth(place)?;
    let hits = part_hits(object, place);
    Some(u64::from(part.number()) * 1_000 + u64::from(hits))
}

// The hits of a part. Those of a body that is being made are whole.
fn part_hits(object: &Object, i: u64) -> u32
    requires { i < length object.now.body }
    ensures { result ≡ hits_as object.now.kind object.now (length object.now.body - 1 - i) }
{
    match object.kind {
        Kind::Creep => object.body.part_hits(i, object.hits),
        _ => 100,
    }
}

/// The ground of a tile, or nothing past the room.
pub fn ground_of(terrain: &Terrain, x: u32, y: u32) -> Option<Ground>
    ensures { result ≡ (if nat_lt x 50 && nat_lt y 50 then slice_get terrain.now (tile x y) else None) }
{
    if x < 50 && y < 50 {
        Some(terrain.at(x as u8, y as u8))
    } else {
        None
    }
}
