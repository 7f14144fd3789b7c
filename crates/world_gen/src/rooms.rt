// The rooms, with what stands in them.
ghost use Rattle.std.specs.Prelude.{◌≡◌, ◌<◌, pos, ◌/◌, ◌%◌, ◌∷◌, [], IfOk, OnOk};
ghost use Rattle.game_tables.specs.declared.kind.Part.TheVariants as part;
ghost use Rattle.world_gen.specs.Generator.{creep, draw, free_controller, made_table, owned_controller};
ghost use Rattle.world_gen.specs.Generator.{source, spawn, state_after, thing};

use crate::NoMemory;
use crate::draws::draw;
use object_store::{Body, Kind, Object, Part, RoomName, RoomTable};
use std::alloc::Global;

// How many ids belong to a room.
const SERIALS: u64 = 1 << 32;

const COLUMNS: u32 = 20;

/// The name of the room of an index.
pub(crate) fn name_of(index: u32) -> RoomName
    requires { index < 400 }
    ensures { result ≡ record { column = pos (index % 20); row = pos (index / 20) } }
{
    RoomName {
        column: (index % COLUMNS) as i32,
        row: (index / COLUMNS) as i32,
    }
}

/// Draws the place of a room's source, and sets up what stands in the room.
#[tactic(auto, using(crate::proofs::Drawn::two_draws))]
pub(crate) fn drawn_table(
    alloc: Global,
    state: &mut u64,
    room: u32,
    players: u32,
) -> Result<RoomTable, NoMemory>
    requires { room < 400 }
    ensures made { IfOk result (λ table. table
        ≡ made_table players room (draw state.old 0) (draw state.old 1)) }
    ensures state { OnOk result (state.new ≡ state_after state.old 2) }
{
    let u = draw(state);
    let v = draw(state);
    table(alloc, room, players, u, v)
}

// The table of a room's objects, with these draws for its source.
#[tactic(auto, unfolding(crate::specs::Generator::made_table))]
fn table(alloc: Global, room: u32, players: u32, u: u32, v: u32) -> Result<RoomTable, NoMemory>
    requires { room < 400 }
    ensures { IfOk result (λ table. table ≡ made_table players room u v) }
{
    let source = source(room, u, v);
    let objects = if room < players {
        let player = room + 1;
        let controller = owned_controller(room, player);
        Vec::from_array(
            alloc,
            [controller, source, spawn(room, player), creep(room, player)],
        )?
    } else {
        Vec::from_array(alloc, [free_controller(room), source])?
    };
    RoomTable::of(alloc, room, 5, objects)
}

// An object of a room under a serial, of which all but its place is 0.
fn thing(room: u32, serial: u32, kind: Kind, x: u8, y: u8) -> Object
    ensures { result ≡ thing room serial kind x y }
{
    Object {
        id: u64::from(room) * SERIALS + u64::from(serial),
        kind,
        x,
        y,
        owner: 0,
        hits: 0,
        energy: 0,
        timer: 0,
        extra: 0,
        progress: 0,
        other: 0,
        other_ticks: 0,
        body: Body::new(),
    }
}

fn free_controller(room: u32) -> Object
    ensures { result ≡ free_controller room }
{
    thing(room, 1, Kind::Controller, 10, 10)
}

fn owned_controller(room: u32, player: u32) -> Object
    ensures { result ≡ owned_controller room player }
{
    Object {
        owner: player,
        timer: 20_000,
        extra: 1,
        ..free_controller(room)
    }
}

fn source(room: u32, u: u32, v: u32) -> Object
    ensures { result ≡ source room u v }
{
    let x = 15 + (u % 20) as u8;
    let y = 15 + (v % 10) as u8;
    Object {
        energy: 1_500,
        ..thing(room, 2, Kind::Source, x, y)
    }
}

fn spawn(room: u32, player: u32) -> Object
    ensures { result ≡ spawn room player }
{
    Object {
        owner: player,
        hits: 5_000,
        energy: 300,
        ..thing(room, 3, Kind::Spawn, 25, 30)
    }
}

fn creep(room: u32, player: u32) -> Object
    ensures { result ≡ creep room player }
{
    Object {
        owner: player,
        hits: 400,
        timer: 1_500,
        body: body(),
        ..thing(room, 4, Kind::Creep, 25, 28)
    }
}

fn body() -> Body
    ensures { result ≡ part.Work ∷ part.Carry ∷ part.Move ∷ part.Move ∷ [] }
{
    let mut body = Body::new();
    body.push(Part::Work);
    body.push(Part::Carry);
    body.push(Part::Move);
    body.push(Part::Move);
    body
}
