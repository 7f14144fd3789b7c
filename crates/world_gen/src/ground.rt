// The ground of a room.
ghost use Rattle.std.specs.Prelude.{◌≡◌, ◌++◌, IfOk, OnOk};
ghost use Rattle.world_gen.specs.Generator.{border, border_tiles, grounds, inner, inner_row, inner_rows};
ghost use Rattle.world_gen.specs.Generator.{state_after};

use crate::NoMemory;
use crate::draws::draw;
use room_terrain::{Ground, Terrain};
use std::alloc::Global;

const TILES: usize = 2_500;

/// Draws the ground of a room.
#[tactic(auto, using(crate::proofs::Rows::ground_whole, crate::proofs::Rows::ground_long))]
pub(crate) fn drawn_terrain(alloc: Global, state: &mut u64) -> Result<Terrain, NoMemory>
    ensures made { IfOk result (λ terrain. terrain ≡ grounds state.old) }
    ensures state { OnOk result (state.new ≡ state_after state.old 2304) }
{
    let mut tiles = Vec::with_capacity(alloc, TILES)?;
    put_border_row(&mut tiles)?;
    put_inner_rows(state, &mut tiles)?;
    put_border_row(&mut tiles)?;
    Terrain::of(alloc, &tiles)
}

// Adds the first row or the last.
#[tactic(auto, using(crate::proofs::Rows::border_none, crate::proofs::Rows::border_next))]
fn put_border_row(tiles: &mut Vec<Ground>) -> Result<(), NoMemory>
    ensures { OnOk result (tiles.new.items ≡ tiles.old.items ++ border_tiles 50) }
{
    for x in 0..50u8 {
        tiles.push(border(x))?;
    }
    Ok(())
}

// Draws the rows between them.
#[tactic(auto, using(crate::proofs::Rows::rows_none, crate::proofs::Rows::rows_next, crate::proofs::Drawn::state_none, crate::proofs::Drawn::state_next_by))]
fn put_inner_rows(state: &mut u64, tiles: &mut Vec<Ground>) -> Result<(), NoMemory>
    ensures added { OnOk result (tiles.new.items ≡ tiles.old.items ++ inner_rows state.old 48) }
    ensures state { OnOk result (state.new ≡ state_after state.old 2304) }
{
    for n in 0..48u8 {
        put_inner_row(state, n + 1, tiles)?;
    }
    Ok(())
}

// Draws a row between them.
#[tactic(auto, using(crate::proofs::Rows::inner_none, crate::proofs::Rows::inner_next, crate::proofs::Rows::row_whole, crate::proofs::Drawn::state_none, crate::proofs::Drawn::state_next))]
fn put_inner_row(state: &mut u64, y: u8, tiles: &mut Vec<Ground>) -> Result<(), NoMemory>
    ensures added { OnOk result (tiles.new.items ≡ tiles.old.items ++ inner_row state.old y) }
    ensures state { OnOk result (state.new ≡ state_after state.old 48) }
{
    tiles.push(border(y))?;
    for _n in 0..48u8 {
        tiles.push(inner(draw(state)))?;
    }
    tiles.push(border(y))?;
    Ok(())
}

// A border tile, by its coordinate along the border.
fn border(along: u8) -> Ground
    ensures { result ≡ border along }
{
    if 20 <= along && along <= 29 {
        Ground::Plain
    } else {
        Ground::Wall
    }
}

// An inner tile, by the number that is drawn for it.
fn inner(drawn: u32) -> Ground
    ensures { result ≡ inner drawn }
{
    if drawn % 8 == 0 {
        Ground::Swamp
    } else {
        Ground::Plain
    }
}
