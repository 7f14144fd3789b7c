// The tables by tile that the creeps which stay are found with.
ghost use Rattle.std.specs.Prelude.{◌≡◌, ◌≢◌, ℕ, ◌<◌, ◌↔◌, ◌⊎◌, length, slice_index};
ghost use Rattle.std.specs.List.{AllByRecursion};
ghost use Rattle.room_table.specs.Tables.{IsOnTile};
ghost use Rattle.creep_move.specs.inner.Walk.{IsStoodOn, IsHeld, IsFree, IsLeft, Stuck, IsClosed};

use crate::candidate::tile_number;
use game_tables::is_creep;
use object_store::Objects;

/// Marks the tiles on which a creep stands.
pub fn mark_standing(objects: Objects<'_>, held: &mut [bool])
    requires tiles { AllByRecursion IsOnTile objects }
    requires held { length held.old ≡ 2500 }
    requires none { (t : ℕ) → IsFree held.old t }
    ensures { (t : ℕ) → IsHeld held.new t ↔ IsStoodOn objects.entry t }
{
    for object in objects {
        if is_creep(object.kind) {
            held[tile_number(object.x, object.y) as usize] = true;
        }
    }
}

/// Lets each creep go that wins a tile.
pub fn release(comes: &[u16], held: &mut [bool])
    ensures kept { (t : ℕ) → IsHeld held.new t → IsHeld held.old t }
    ensures left { (t : ℕ) → IsHeld held.old t → (IsFree held.new t ↔ IsLeft comes.now t) }
{
    for from in comes {
        let tile = *from as usize;
        if tile < held.len() {
            held[tile] = false;
        }
    }
}

// Holds back the creep that would go to the tile, the one that would go to that creep's tile, and so on.
fn hold_behind(comes: &[u16], held: &mut [bool], tile: usize)
    requires same { length comes.now ≡ length held.old }
    requires within { tile < length held.old }
    requires held { IsHeld held.old tile }
    ensures kept { (t : ℕ) → IsHeld held.old t → IsHeld held.new t }
    ensures stuck { (t : ℕ) → IsHeld held.new t → Stuck comes.now held.old t }
    ensures closed { (t : ℕ) → IsHeld held.new t
        → IsClosed comes.now held.new t ⊎ IsHeld held.old t × (t ≢ tile) }
{
    let mut from = comes[tile] as usize;
    while from < held.len() {
        if held[from] {
            return;
        }
        held[from] = true;
        from = comes[from] as usize;
    }
}

/// Holds back each creep that would go to a tile that stays occupied.
pub fn hold(comes: &[u16], held: &mut [bool])
    requires same { length comes.now ≡ length held.old }
    ensures { (t : ℕ) → IsHeld held.new t ↔ Stuck comes.now held.old t }
{
    for tile in 0..comes.len() {
        if held[tile] {
            hold_behind(comes, held, tile);
        }
    }
}
