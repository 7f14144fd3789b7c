// Objects that share a tile.
ghost use Rattle.std.specs.Prelude.{◌≡◌, ◌<◌, ℕ, length, slice_index_or, IfOk, EachIndex};
ghost use Rattle.std.specs.List.{AllByRecursion};
ghost use Rattle.room_terrain.specs.Tiles.{tile};
ghost use Rattle.rule_check.specs.inner.Checks.{IsLeast, AnyOf};
ghost use Rattle.rule_check.specs.Kept.{IsBlocked};
ghost use Rattle.rule_check.specs.inner.Taken.{nothing, taken_with, clash_with};
ghost use Rattle.rule_check.specs.Views.{IsOrdered};
ghost use Rattle.rule_check.specs.declared.shared.Taken.{Taken};

use crate::least::lesser;
use crate::view::RoomView;
use game_tables::{obstructs, stands_fixed};
use object_store::{Kind, Object};
use std::alloc::{AllocError, Global};

/// The least id of an object that shares a tile with one of a lesser id, where their kinds may not
/// be together. Ids differ.
pub fn least_blocked(alloc: Global, rooms: &[RoomView]) -> Result<Option<u64>, AllocError>
    requires { AllByRecursion IsOrdered rooms.now }
    ensures { IfOk result (λ found. IsLeast (AnyOf (λ room. IsBlocked room.objects.now) rooms.now) found) }
{
    let mut tiles = vec![in alloc; NOTHING; 2500]?;
    let mut least = None;
    for room in rooms {
        least = lesser(least, first_blocked(&mut tiles, room));
    }
    Ok(least)
}

/// The id of the first object of the room that shares a tile with an earlier one, where their kinds
/// may not be together.
pub fn blocked_in(alloc: Global, room: &RoomView) -> Result<Option<u64>, AllocError>
    requires { IsOrdered room.now }
    ensures { IfOk result (λ found. IsLeast (IsBlocked room.now.objects.now) found) }
{
    let mut tiles = vec![in alloc; NOTHING; 2500]?;
    Ok(first_blocked(&mut tiles, room))
}

// The id of the first object of the room that shares a tile with an earlier one, where their kinds
// may not be together. The tiles are written over.
fn first_blocked(tiles: &mut [Taken], room: &RoomView) -> Option<u64>
    requires tiles { length tiles.old ≡ 2500 }
    requires ordered { IsOrdered room.now }
    ensures { IsLeast (IsBlocked room.now.objects.now) result }
{
    clear(tiles);
    for object in room.objects {
        let tile = tile_of(object);
        let here = tiles[tile];
        if here.has_clash(object.kind) {
            return Some(object.id);
        }
        tiles[tile] = here.with(object.kind);
    }
    None
}

fn clear(tiles: &mut [Taken])
    ensures { EachIndex tiles.new (λ k. (d : Taken) → slice_index_or tiles.new k d ≡ nothing) }
{
    for tile in tiles.iter_mut() {
        *tile = NOTHING;
    }
}

// The place of the object's tile, row by row.
fn tile_of(object: &Object) -> usize
    ensures { result ≡ tile object.now.x object.now.y }
{
    50 * object.y as usize + object.x as usize
}

// What stands on a tile.
#[derive(Clone, Copy)]
struct Taken {
    creep: bool,
    pile: bool,
    fixed: bool,
    obstructing: bool,
}

const NOTHING: Taken = Taken {
    creep: false,
    pile: false,
    fixed: false,
    obstructing: false,
};

impl Taken {
    // Whether an object of the kind may not stand there too.
    fn has_clash(self, kind: Kind) -> bool
        ensures { result ≡ clash_with self kind }
    {
        match kind {
            Kind::Creep => self.creep || self.obstructing,
            Kind::Pile => self.pile,
            Kind::Source | Kind::Controller | Kind::Spawn | Kind::Extension | Kind::Storage => {
                self.fixed || self.creep
            }
            Kind::Container | Kind::Road | Kind::Site => self.fixed,
            Kind::Tower | Kind::Rampart | Kind::Wall | Kind::Tombstone => false,
        }
    }

    // The same with an object of the kind.
    fn with(self, kind: Kind) -> Taken
        ensures { result ≡ taken_with self kind }
    {
        Taken {
            creep: self.creep || kind == Kind::Creep,
            pile: self.pile || kind == Kind::Pile,
            fixed: self.fixed || stands_fixed(kind),
            obstructing: self.obstructing || obstructs(kind),
        }
    }
}
