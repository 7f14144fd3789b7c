// Which slots of a room's table stand on which tile.
ghost use Rattle.std.specs.Prelude.{◌≡◌, ◌==◌, ◌<◌, ◌≤◌, ◌+◌, ◌^◌, [], ◌∷◌, ◌++◌, length, slice_index};
ghost use Rattle.std.specs.Prelude.{slice_set, if◌then◌else◌, IfOk, OnOk};
ghost use Rattle.room_table.specs.inner.Chains.{Chained, IsNewest, IsNextNewer, tile_at};

use std::alloc::{AllocError, Global};
use std::marker::Model;

/// The number of a room's tiles, under which a slot stands that is on none.
pub(crate) const TILES: u16 = 2500;

/// The tiles of the slots of a room, and for each tile the chain of its slots.
///
/// A head and a link is the number of a slot, from 1 on, or 0 for none. Each slot is linked to the
/// next older one on its tile, and the head of a tile is the newest, so each chain ends.
#[derive(Drop)]
pub(crate) struct TileIndex {
    heads: Vec<u32>,
    links: Vec<u32>,
    tiles: Vec<u16>,
}

impl Model for TileIndex {
    ghost use Rattle.std.specs.Prelude.{length, min, vec_capacity};
    ghost use Rattle.room_table.specs.inner.Chains.{Chained, IsChained};

    ghost Value = { Chained };

    ghost view = { λ t. record {
      tiles = t.tiles.items;
      heads = length t.heads.items;
      room = min (vec_capacity t.tiles) (vec_capacity t.links);
    } };

    ghost invariant = { λ t. IsChained t.heads.items t.links.items t.tiles.items };
}

impl TileIndex {
    /// That of no slots. It takes no memory, and none of it has room for a slot.
    pub(crate) fn new(alloc: Global) -> TileIndex
        ensures { result.tiles ≡ [] }
    {
        TileIndex {
            heads: Vec::new(alloc),
            links: Vec::new(alloc),
            tiles: Vec::new(alloc),
        }
    }

    /// That of no slots, with memory for some.
    pub(crate) fn with_room(alloc: Global, room: usize) -> Result<TileIndex, AllocError>
        ensures { IfOk result (λ index. index ≡ record { tiles = []; heads = 2500; room = room }) }
    {
        let mut heads = Vec::new(alloc);
        heads.resize(TILES as usize, 0)?;
        Ok(TileIndex {
            heads,
            links: Vec::with_capacity(alloc, room)?,
            tiles: Vec::with_capacity(alloc, room)?,
        })
    }

    /// Takes memory for `n` more slots, where it doesn't have as much.
    pub(crate) fn reserve(&mut self, n: usize) -> Result<(), AllocError>
        ensures tiles { self.new.tiles ≡ self.old.tiles }
        ensures heads { self.old.heads ≡ 2500 → self.new.heads ≡ 2500 }
        ensures room { self.old.room ≤ self.new.room }
        ensures has_heads { OnOk result (self.new.heads ≡ 2500) }
        ensures has_room { OnOk result (length self.new.tiles + n ≤ self.new.room) }
    {
        if self.heads.is_empty() {
            self.heads.resize(TILES as usize, 0)?;
        }
        self.links.reserve(n)?;
        self.tiles.reserve(n)
    }

    /// The number of the newest slot on a tile, from 1 on, or 0.
    pub(crate) fn newest(&self, tile: u16) -> u32
        requires { tile < 2500 }
        ensures { IsNewest tile self.now.tiles (length self.now.tiles) result }
    {
        self.heads.get(tile as usize).copied().unwrap_or(0)
    }

    /// The number of the next older slot on the tile of a slot, from 1 on, or 0.
    pub(crate) fn older(&self, slot: u32) -> u32
        requires { slot < length self.now.tiles }
        ensures { tile_at self.now.tiles slot < 2500
            → IsNewest (tile_at self.now.tiles slot) self.now.tiles slot result }
    {
        self.links[slot as usize]
    }

    /// Adds a slot. It takes no memory.
    pub(crate) fn add(&mut self, tile: u16)
        requires heads { self.old.heads ≡ 2500 }
        requires room { length self.old.tiles < self.old.room }
        requires count { length self.old.tiles + 1 < 2 ^ 32 }
        ensures tiles { self.new.tiles ≡ self.old.tiles ++ tile ∷ [] }
        ensures heads { self.new.heads ≡ 2500 }
        ensures room { self.old.room ≤ self.new.room }
    {
        let older = put_head(&mut self.heads, tile, self.tiles.len() as u32 + 1);
        self.links.push(older).unwrap();
        self.tiles.push(tile).unwrap();
    }

    /// Takes a slot off its tile.
    pub(crate) fn take(&mut self, slot: u32)
        requires { slot < length self.old.tiles }
        ensures { self.new ≡ record self.old { tiles = slice_set self.old.tiles slot 2500 } }
    {
        if self.tiles[slot as usize] < TILES {
            self.unlink(slot);
        } else {
            self.tiles[slot as usize] = TILES;
        }
    }

    /// Puts a slot on a tile, and takes it off that on which it stood.
    pub(crate) fn shift(&mut self, slot: u32, tile: u16)
        requires slot { slot < length self.old.tiles }
        requires tile { tile < 2500 }
        ensures { self.new ≡ record self.old { tiles = slice_set self.old.tiles slot tile } }
    {
        if self.tiles[slot as usize] != tile {
            self.take(slot);
            self.link(slot, tile);
        }
    }

    // Takes a slot out of the chain of the tile on which it stands.
    fn unlink(&mut self, slot: u32)
        requires slot { slot < length self.old.tiles }
        requires on { tile_at self.old.tiles slot < 2500 }
        ensures { self.new ≡ record self.old { tiles = slice_set self.old.tiles slot 2500 } }
    {
        let tile = self.tiles[slot as usize];
        let place = self.next_newer(tile, slot);
        let older = self.links[slot as usize];
        point(&mut self.heads, &mut self.links, tile, place, older);
        self.tiles[slot as usize] = TILES;
    }

    // Puts a slot that stands on no tile into the chain of a tile.
    fn link(&mut self, slot: u32, tile: u16)
        requires slot { slot < length self.old.tiles }
        requires tile { tile < 2500 }
        requires off { tile_at self.old.tiles slot ≡ 2500 }
        ensures { self.new ≡ record self.old { tiles = slice_set self.old.tiles slot tile } }
    {
        let place = self.next_newer(tile, slot);
        let older = pointed(&self.heads, &self.links, tile, place);
        point(&mut self.heads, &mut self.links, tile, place, slot + 1);
        self.links[slot as usize] = older;
        self.tiles[slot as usize] = tile;
    }

    // The place of the next newer slot on a tile.
    fn next_newer(&self, tile: u16, slot: u32) -> usize
        requires tile { tile < 2500 }
        requires slot { slot < length self.now.tiles }
        ensures { IsNextNewer tile self.now.tiles slot result }
    {
        let mut place = self.tiles.len();
        let mut number = self.newest(tile);
        while number > slot + 1 {
            place = number as usize - 1;
            number = self.links[place];
        }
        place
    }
}

// Makes a slot the head of its tile, if it is on one, and answers the head that was there, or 0.
fn put_head(heads: &mut [u32], tile: u16, number: u32) -> u32
    ensures was { result ≡ slice_index heads.old tile }
    ensures heads { heads.new ≡ slice_set heads.old tile number }
{
    let tile = tile as usize;
    if tile >= heads.len() {
        return 0;
    }
    let was = heads[tile];
    heads[tile] = number;
    was
}

// The number that the slot at a place is linked to, or at the end the head of a tile.
fn pointed(heads: &[u32], links: &[u32], tile: u16, place: usize) -> u32
    requires tile { tile < length heads.now }
    requires place { place ≤ length links.now }
    ensures { result ≡ (if place == length links.now then slice_index heads.now tile
        else slice_index links.now place) }
{
    if place == links.len() {
        heads[tile as usize]
    } else {
        links[place]
    }
}

// Links the slot at a place to another, or at the end makes it the head of a tile.
fn point(heads: &mut [u32], links: &mut [u32], tile: u16, place: usize, number: u32)
    requires tile { tile < length heads.old }
    requires place { place ≤ length links.old }
    ensures heads { heads.new ≡ (if place == length links.old then slice_set heads.old tile number
        else heads.old) }
    ensures links { links.new ≡ slice_set links.old place number }
{
    if place == links.len() {
        heads[tile as usize] = number;
    } else {
        links[place] = number;
    }
}
