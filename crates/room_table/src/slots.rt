// The slots of a room's objects, and their order by rising id.
ghost use Rattle.std.specs.Prelude.{◌≡◌, ◌==◌, ◌&&◌, ◌<◌, ◌≤◌, ◌+◌, ◌^◌, ◌⊎◌, ℕ, EachIndex, length, map};
ghost use Rattle.std.specs.Prelude.{nat_le, option_map, replicate, slice_index_or, vec_capacity, Some};
ghost use Rattle.std.specs.Prelude.{IfSome, IfNone, IfOk};
ghost use Rattle.std.specs.List.{AllByRecursion, HoldsAt, list_any, range_with_len};
ghost use Rattle.std.specs.List.Sorted.{IsPartitionPoint};
ghost use Rattle.game_tables.specs.Numbers.{kind_number};
ghost use Rattle.room_table.specs.Tables.{IsRising, HasId, HasNoId, first_on, first_on_from};
ghost use Rattle.room_table.specs.Tables.{is_on as is_tile};
ghost use Rattle.room_table.specs.Tallies.{no_tally};
ghost use Rattle.room_table.specs.declared.tally.Tally.{Tally as TallyOf};
ghost use Rattle.room_table.specs.inner.Chains.{Chained};
ghost use Rattle.room_table.specs.inner.Tallied.{tallies_in};
ghost use Rattle.room_table.specs.inner.Placed.{standing, tile_number, tile_of_object, AreKnown, AtMost};
ghost use Rattle.room_table.specs.inner.Placed.{IsLeastFrom, IsNextOfTile, StandsIn};

use crate::object::Object;
use crate::tally::Tally;
use crate::tile_index::{TILES, TileIndex};
use game_tables::Kind;
use std::alloc::{AllocError, Global};

/// The number of a tile, or 2500 outside of the room.
pub(crate) fn tile_of(x: u8, y: u8) -> u16
    ensures { result ≡ tile_number x y }
{
    if x <= 49 && y <= 49 {
        50 * u16::from(y) + u16::from(x)
    } else {
        TILES
    }
}

/// The place of an id among the objects, or where it would be.
pub(crate) fn place(slots: &[Object], order: &[u32], id: u64) -> usize
    requires known { AreKnown slots.now order.now }
    requires rising { IsRising (standing slots.now order.now) }
    ensures within { result ≤ length (standing slots.now order.now) }
    ensures between { IsPartitionPoint (λ o. o.id < id) (λ o. id ≤ o.id)
        (standing slots.now order.now) result }
{
    let mut low = 0;
    let mut high = order.len();
    while low < high {
        let middle = low + (high - low) / 2;
        if slots[order[middle] as usize].id < id {
            low = middle + 1;
        } else {
            high = middle;
        }
    }
    low
}

/// The place of the object of an id.
pub(crate) fn position(slots: &[Object], order: &[u32], id: u64) -> Option<usize>
    requires known { AreKnown slots.now order.now }
    requires rising { IsRising (standing slots.now order.now) }
    ensures found { IfSome result
        (λ i. (i < length order.now) × HoldsAt (λ o. o.id ≡ id) (standing slots.now order.now) i) }
    ensures absent { IfNone result (HasNoId id (standing slots.now order.now)) }
{
    let place = place(slots, order, id);
    if place < order.len() && slots[order[place] as usize].id == id {
        Some(place)
    } else {
        None
    }
}

/// The slot of the object of an id that is there.
pub(crate) fn slot_of(slots: &[Object], order: &[u32], id: u64) -> u32
    requires known { AreKnown slots.now order.now }
    requires rising { IsRising (standing slots.now order.now) }
    requires there { HasId id (standing slots.now order.now) }
    ensures known { result < length slots.now }
    ensures stands { StandsIn id slots.now order.now result }
{
    let place = place(slots, order, id);
    order[place]
}

/// The least id of a kind on a tile, by a walk along the chain of the tile.
pub(crate) fn least_on(tiles: &TileIndex, slots: &[Object], tile: u16, kind: Kind) -> Option<u64>
    requires tile { tile < 2500 }
    requires tiled { length tiles.now.tiles ≡ length slots.now }
    ensures { IsLeastFrom 0 tile kind slots.now tiles.now.tiles result }
{
    let mut found = None;
    let mut number = tiles.newest(tile);
    while number > 0 {
        let slot = number - 1;
        let object = &slots[slot as usize];
        if object.kind.number() == kind.number() {
            found = Some(lesser(found, object.id));
        }
        number = tiles.older(slot);
    }
    found
}

/// The object of the least id on a tile that is at least this one, by a walk along the chain of the tile.
pub(crate) fn next_of_tile<'a>(
    tiles: &TileIndex,
    slots: &'a [Object],
    tile: u16,
    id: u64,
) -> Option<&'a Object>
    requires tile { tile < 2500 }
    requires tiled { length tiles.now.tiles ≡ length slots.now }
    ensures { IsNextOfTile 0 id tile slots.now tiles.now.tiles (option_map (λ o. o.now) result) }
{
    let mut found: Option<&Object> = None;
    let mut older = tiles.newest(tile);
    while older > 0 {
        let slot = older - 1;
        let object = &slots[slot as usize];
        if object.id >= id {
            found = Some(lesser_object(found, object));
        }
        older = tiles.older(slot);
    }
    found
}

// The one of the lesser id of two objects, or the second where there is no first.
fn lesser_object<'a>(found: Option<&'a Object>, object: &'a Object) -> &'a Object
    ensures one { (result.now ≡ object.now) ⊎ (option_map (λ o. o.now) found.entry ≡ Some result.now) }
    ensures least { result.now.id ≤ object.now.id }
    ensures most { (n : ℕ) → AtMost (option_map (λ o. o.now.id) found.entry) n → result.now.id ≤ n }
{
    match found {
        Some(found) if found.id < object.id => found,
        _ => object,
    }
}

// The lesser of two ids, or the second where there is no first.
fn lesser(found: Option<u64>, id: u64) -> u64
    ensures one { (result ≡ id) ⊎ (found ≡ Some result) }
    ensures least { result ≤ id }
    ensures most { (n : ℕ) → AtMost found n → result ≤ n }
{
    match found {
        Some(found) if found < id => found,
        _ => id,
    }
}

/// The least id of a kind on a tile, by a search from the front.
pub(crate) fn search(slots: &[Object], order: &[u32], x: u8, y: u8, kind: Kind) -> Option<u64>
    requires { AreKnown slots.now order.now }
    ensures { result ≡ option_map (λ o. o.id) (first_on x y kind (standing slots.now order.now)) }
{
    for slot in order {
        let object = &slots[*slot as usize];
        if is_on(object, x, y, kind) {
            return Some(object.id);
        }
    }
    None
}

/// The object of the least id on a tile that is at least this one, by a search from the front.
pub(crate) fn search_next<'a>(
    slots: &'a [Object],
    order: &[u32],
    x: u8,
    y: u8,
    id: u64,
) -> Option<&'a Object>
    requires { AreKnown slots.now order.now }
    ensures { option_map (λ o. o.now) result ≡ first_on_from x y id (standing slots.now order.now) }
{
    for slot in order {
        let object = &slots[*slot as usize];
        if is_next_on(object, x, y, id) {
            return Some(object);
        }
    }
    None
}

fn is_next_on(object: &Object, x: u8, y: u8, id: u64) -> bool
    ensures { result ≡ (is_tile x y object.now && nat_le id object.now.id) }
{
    object.x == x && object.y == y && object.id >= id
}

fn is_on(object: &Object, x: u8, y: u8, kind: Kind) -> bool
    ensures { result
        ≡ ((object.now.x == x) && (object.now.y == y) && (kind_number object.now.kind == kind_number kind)) }
{
    object.x == x && object.y == y && object.kind.number() == kind.number()
}

/// Whether a player owns an object.
pub(crate) fn has_owned(slots: &[Object], order: &[u32], player: u32) -> bool
    requires { AreKnown slots.now order.now }
    ensures { result ≡ list_any (λ o. o.owner == player) (standing slots.now order.now) }
{
    for slot in order {
        if slots[*slot as usize].owner == player {
            return true;
        }
    }
    false
}

/// The objects once more, without the empty slots, and with room for some more.
pub(crate) fn copied(
    alloc: Global,
    slots: &[Object],
    order: &[u32],
    spare: usize,
) -> Result<Vec<Object>, AllocError>
    requires known { AreKnown slots.now order.now }
    requires within { length order.now + spare < 2 ^ 32 }
    ensures objects { IfOk result (λ copy. copy.items ≡ standing slots.now order.now) }
    ensures room { IfOk result (λ copy. length order.now + spare ≤ vec_capacity copy) }
{
    let mut copy = Vec::with_capacity(alloc, order.len() + spare)?;
    for slot in order {
        copy.push(slots[*slot as usize])?;
    }
    Ok(copy)
}

/// What was done to the objects, in the same way.
pub(crate) fn copied_tallies(
    alloc: Global,
    tallies: &[Tally],
    order: &[u32],
    spare: usize,
) -> Result<Vec<Tally>, AllocError>
    requires known { AllByRecursion (λ slot. slot < length tallies.now) order.now }
    requires within { length order.now + spare < 2 ^ 32 }
    ensures tallies { IfOk result (λ copy. copy.items ≡ tallies_in tallies.now order.now) }
    ensures room { IfOk result (λ copy. length order.now + spare ≤ vec_capacity copy) }
{
    let mut copy = Vec::with_capacity(alloc, order.len() + spare)?;
    for slot in order {
        copy.push(tallies[*slot as usize])?;
    }
    Ok(copy)
}

/// Tallies of objects to which nothing was done.
pub(crate) fn untallied(alloc: Global, count: usize) -> Result<Vec<Tally>, AllocError>
    ensures tallies { IfOk result (λ tallies. tallies.items ≡ replicate count no_tally) }
    ensures room { IfOk result (λ tallies. count ≤ vec_capacity tallies) }
{
    let mut tallies = Vec::with_capacity(alloc, count)?;
    for _i in 0..count {
        tallies.push(Tally::NONE)?;
    }
    Ok(tallies)
}

/// Forgets what was done.
pub(crate) fn clear(tallies: &mut [Tally])
    ensures clear { EachIndex tallies.new (λ k. (d : TallyOf) → slice_index_or tallies.new k d ≡ no_tally) }
    ensures long { length tallies.new ≡ length tallies.old }
{
    for tally in tallies.iter_mut() {
        *tally = Tally::NONE;
    }
}

/// The first numbers, with room for some.
pub(crate) fn numbers(alloc: Global, count: usize, room: usize) -> Result<Vec<u32>, AllocError>
    requires { count < 2 ^ 32 }
    ensures numbers { IfOk result (λ order. order.items ≡ range_with_len 0 count) }
    ensures room { IfOk result (λ order. room ≤ vec_capacity order) }
{
    let mut order = Vec::with_capacity(alloc, room)?;
    for slot in 0..count {
        order.push(slot as u32)?;
    }
    Ok(order)
}

/// Which of these slots stand on which tile, with room for some.
pub(crate) fn tiles_of(
    alloc: Global,
    slots: &[Object],
    room: usize,
) -> Result<TileIndex, AllocError>
    requires count { length slots.now < 2 ^ 32 }
    requires room { length slots.now ≤ room }
    ensures tiles { IfOk result (λ tiles. tiles.tiles ≡ map tile_of_object slots.now) }
    ensures room { IfOk result (λ tiles. room ≤ tiles.room) }
    ensures heads { IfOk result (λ tiles. tiles.heads ≡ 2500) }
{
    let mut tiles = TileIndex::with_room(alloc, room)?;
    for object in slots {
        tiles.add(tile_of(object.x, object.y));
    }
    Ok(tiles)
}
