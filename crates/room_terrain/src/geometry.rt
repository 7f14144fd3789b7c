// Distances, steps and crossings.
ghost use Rattle.std.specs.Prelude.{◌≡◌, ℕ, ◌<◌, ◌+ℤ◌, ◌↔◌, ℤ, pos, negsuc, ◌≤ℤ◌, SomeIff, IfSome, IfNone};
ghost use Rattle.std.specs.Prelude.{IsTrue};
ghost use Rattle.room_terrain.specs.Geometry.{Crosses, IsInner, Mirrors, Steps, dx, dy, range_of};
ghost use Rattle.room_terrain.specs.Names.{IsInRange, IsSideInRange};
ghost use Rattle.room_terrain.specs.declared.name.RoomName.{RoomName};
ghost use Rattle.room_terrain.specs.declared.terrain.Place.{Place};

use crate::direction::Direction;
use crate::name::RoomName;
use crate::terrain::Place;

/// The range of two tiles of one room.
pub fn range(a: Place, b: Place) -> Option<u8>
    ensures { SomeIff result (a.room ≡ b.room) (range_of a b) }
{
    if a.room != b.room {
        return None;
    }
    Some(a.x.abs_diff(b.x).max(a.y.abs_diff(b.y)))
}

/// The tile next to one, where it is in the room.
pub fn step(at: Place, to: Direction) -> Option<Place>
    ensures some { IfSome result (Steps at to) }
    ensures none { IfNone result ((next : Place) → Steps at to next → ⊥) }
{
    let (x, y) = offsets(to);
    match (shift(at.x, x), shift(at.y, y)) {
        (Some(x), Some(y)) => Some(Place {
            room: at.room,
            x,
            y,
        }),
        _ => None,
    }
}

// What a step adds to x and to y.
fn offsets(to: Direction) -> (i16, i16)
    ensures x { result.0 ≡ dx to }
    ensures y { result.1 ≡ dy to }
{
    match to {
        Direction::Top => (0, -1),
        Direction::TopRight => (1, -1),
        Direction::Right => (1, 0),
        Direction::BottomRight => (1, 1),
        Direction::Bottom => (0, 1),
        Direction::BottomLeft => (-1, 1),
        Direction::Left => (-1, 0),
        Direction::TopLeft => (-1, -1),
    }
}

// A coordinate moved by an offset, where it stays in the room.
fn shift(z: u8, by: i16) -> Option<u8>
    requires low { negsuc 0 ≤ℤ by }
    requires high { by ≤ℤ pos 1 }
    ensures some { IfSome result (λ moved. (moved < 50) × (pos moved ≡ pos z +ℤ by)) }
    ensures none { IfNone result ((moved : ℕ) → moved < 50 → pos moved ≡ pos z +ℤ by → ⊥) }
{
    let moved = z as i16 + by;
    if moved < 0 || moved > 49 {
        return None;
    }
    Some(moved as u8)
}

/// The tile across the border, where there is one: the neighbouring room, and its tile.
pub fn mirror(name: RoomName, x: u8, y: u8) -> Option<(RoomName, u8, u8)>
    ensures some { IfSome result (λ found. Mirrors name x y found.0 found.1 found.2) }
    ensures back { IsInRange name → IfSome result (λ found. Mirrors found.0 found.1 found.2 name x y) }
    ensures none { IfNone result ((other : RoomName) → (x' y' : ℕ) → Mirrors name x y other x' y' → ⊥) }
{
    let RoomName { column, row } = name;
    if is_inner(y) && is_side_in_range(row) {
        match cross(column, x) {
            Some((column, x)) => Some((RoomName { column, row }, x, y)),
            None => None,
        }
    } else if is_inner(x) && is_side_in_range(column) {
        match cross(row, y) {
            Some((row, y)) => Some((RoomName { column, row }, x, y)),
            None => None,
        }
    } else {
        None
    }
}

// The column or row across an edge, where it is one of the world's, and the coordinate there.
fn cross(side: i32, z: u8) -> Option<(i32, u8)>
    ensures some { IfSome result (λ found. Crosses side z found.0 found.1 × IsSideInRange found.0) }
    ensures none { IfNone result ((side' : ℤ) → (z' : ℕ) → Crosses side z side' z' → IsSideInRange side'
        → ⊥) }
{
    match z {
        0 if -127 <= side && side <= 128 => Some((side - 1, 49)),
        49 if -129 <= side && side <= 126 => Some((side + 1, 0)),
        _ => None,
    }
}

fn is_inner(z: u8) -> bool
    ensures { IsTrue result ↔ IsInner z }
{
    0 < z && z < 49
}

fn is_side_in_range(side: i32) -> bool
    ensures { IsTrue result ↔ IsSideInRange side }
{
    -128 <= side && side <= 127
}
