// Energy that falls on a tile.
ghost use Rattle.std.specs.Prelude.{◌≡◌, ◌≤◌, ◌+◌, min, List};
ghost use Rattle.std.specs.List.{find};
ghost use Rattle.room_terrain.specs.declared.terrain.Ground.{Ground};
ghost use Rattle.room_table.specs.Tables.{IsRising};
ghost use Rattle.world_rules.specs.RoomParts.{table_part};
ghost use Rattle.world_rules.specs.Drops.{fallen, is_pile_on, pile_bound, pile_of};
ghost use Rattle.room_rules.specs.Calls.{IsReady, Keeps, KeepsTallies};

use game_tables::{Body, Kind, most_energy};
use object_store::{Object, RoomTable};

/// Lets an amount of energy fall on a tile of a room: the pile that lies there grows, up to the
/// most of a pile, and the rest is lost. Where no pile is there, one is made under the room's next
/// serial. An amount of 0 does nothing.
pub fn fall(room: &mut RoomTable, x: u8, y: u8, amount: u64)
    requires column { x ≤ 49 }
    requires row { y ≤ 49 }
    requires ready { IsReady room.old }
    ensures rule { (grounds : List Ground)
        → table_part grounds room.new ≡ fallen x y amount (table_part grounds room.old) }
    ensures tallies { KeepsTallies room.old room.new }
    ensures keeps { Keeps room.old room.new }
{
    if amount == 0 {
        return;
    }
    match pile_on(room, x, y) {
        Some(pile) => room.set(Object {
            energy: heaped(pile.energy, amount),
            ..pile
        }),
        None => {
            room.insert_new(pile(x, y, heaped(0, amount)));
        }
    }
}

// The pile of a tile.
fn pile_on(room: &RoomTable, x: u8, y: u8) -> Option<Object>
    ensures found { result ≡ find (is_pile_on x y) room.now.objects }
    ensures rising { IsRising room.now.objects }
{
    // The objects rise by id, so that no other has the id of the pile.
    room.stands_in_order();
    let id = room.at(x, y, Kind::Pile)?;
    room.get(id).copied()
}

// A pile on a tile, before it has an id.
fn pile(x: u8, y: u8, energy: u64) -> Object
    ensures { result ≡ pile_of 0 x y energy }
{
    Object {
        id: 0,
        kind: Kind::Pile,
        x,
        y,
        owner: 0,
        hits: 0,
        energy,
        timer: 0,
        extra: 0,
        progress: 0,
        other: 0,
        other_ticks: 0,
        body: Body::new(),
    }
}

// The energy of a pile of this energy on which an amount fell.
fn heaped(energy: u64, amount: u64) -> u64
    ensures { result ≡ min pile_bound (energy + amount) }
{
    energy
        .saturating_add(amount)
        .min(most_energy(Kind::Pile, 0, &Body::new()))
}
