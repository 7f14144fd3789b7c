// The ground of a room.
ghost use Rattle.std.specs.Prelude.{◌≡◌, ◌<◌, length, slice_get, Some, IfSome, IfNone, IfOk};
ghost use Rattle.room_terrain.specs.Tiles.{ground_number, tile};
ghost use Rattle.room_terrain.specs.declared.terrain.Ground.{Ground};

use std::alloc::{AllocError, Global};
use std::marker::Model;

/// A tile of a room of the world. `x` and `y` are 0 to 49, from the top left.
#[derive(Clone, Copy, Debug, PartialEq, Eq)]
pub struct Place {
    pub room: u32,
    pub x: u8,
    pub y: u8,
}

/// The ground of a tile, numbered from 0 on.
#[derive(Clone, Copy, Debug, PartialEq, Eq)]
pub enum Ground {
    Plain = 0,
    Wall = 1,
    Swamp = 2,
}

impl Ground {
    /// Its number, 0 to 2.
    pub fn number(self) -> u8
        ensures { result ≡ ground_number self }
    {
        self as u8
    }

    /// The ground of a number.
    pub fn of_number(number: u8) -> Option<Ground>
        ensures some { IfSome result (λ found. number ≡ ground_number found) }
        ensures none { IfNone result ((other : Ground) → number ≡ ground_number other → ⊥) }
    {
        match number {
            0 => Some(Ground::Plain),
            1 => Some(Ground::Wall),
            2 => Some(Ground::Swamp),
            _ => None,
        }
    }
}

/// The grounds of a room's 2,500 tiles, row by row from the top.
#[derive(Drop)]
pub struct Terrain {
    grounds: Vec<Ground>,
}

impl Model for Terrain {
    ghost use Rattle.std.specs.Prelude.{◌≡◌, List, length};
    ghost use Rattle.room_terrain.specs.declared.terrain.Ground.{Ground};

    ghost Value = { List Ground };

    ghost view = { λ t. t.grounds.items };

    ghost invariant = { λ t. length t.grounds.items ≡ 2500 };
}

impl Terrain {
    /// The terrain of these grounds.
    pub fn of(alloc: Global, grounds: &[Ground]) -> Result<Terrain, AllocError>
        requires { length grounds.now ≡ 2500 }
        ensures { IfOk result (λ t. t ≡ grounds.now) }
    {
        Ok(Terrain {
            grounds: grounds.to_vec(alloc)?,
        })
    }

    /// The same terrain anew.
    pub fn copy(&self, alloc: Global) -> Result<Terrain, AllocError>
        ensures { IfOk result (λ t. t ≡ self.now) }
    {
        Ok(Terrain {
            grounds: self.grounds.to_vec(alloc)?,
        })
    }

    /// The ground of a tile.
    pub fn at(&self, x: u8, y: u8) -> Ground
        requires inside_x { x < 50 }
        requires inside_y { y < 50 }
        ensures { slice_get self.now (tile x y) ≡ Some result }
    {
        self.grounds[y as usize * 50 + x as usize]
    }

    /// All grounds, row by row.
    pub fn grounds(&self) -> &[Ground]
        ensures same { result.now ≡ self.now }
        ensures all { length result.now ≡ 2500 }
    {
        &self.grounds
    }
}
