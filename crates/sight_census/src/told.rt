// What is counted of one room.
ghost use Rattle.std.specs.Prelude.{◌≡◌, ◌+◌, ◌-◌, ◌≤◌, ◌<◌, ◌^◌, [], ◌∷◌, length, min};
ghost use Rattle.world_rules.specs.Spawns.{held_by};
ghost use Rattle.sight_census.specs.Censuses.{built, told_of};
ghost use Rattle.sight_census.specs.inner.Counting.{none, one_more, total, AreCounted};

use action_checks::counted_number;
use game_tables::Kind;
use object_store::{Object, Objects, RoomTable};

/// What is counted of a room for a player: what his spawns and extensions hold there together, or 2^32 - 1
/// where that is less, and how many buildings and sites there are of each kind that is built from sites.
#[derive(Clone, Copy)]
pub struct Told {
    pub held: u32,
    pub spawns: u32,
    pub extensions: u32,
    pub storages: u32,
    pub containers: u32,
    pub roads: u32,
}

impl Told {
    /// What is counted of a room. It looks at each of its objects once.
    pub fn of(room: &RoomTable, player: u32) -> Told
        ensures { result ≡ told_of player room.now.objects }
    {
        count(room.objects(), player)
    }

    /// How many buildings and sites there are of the kind of a number, and 0 of one that is not built from
    /// sites.
    pub fn built(&self, number: u64) -> u32
        ensures { result ≡ built self.now number }
    {
        match number {
            4 => self.spawns,
            5 => self.extensions,
            6 => self.storages,
            7 => self.containers,
            8 => self.roads,
            _ => 0,
        }
    }
}

// What the player's spawns and extensions hold, and how many buildings and sites there are of each kind.
fn count(objects: Objects<'_>, player: u32) -> Told
    requires { length objects < 2 ^ 32 }
    ensures { AreCounted player objects.entry result }
{
    let mut told = none();
    for object in objects {
        told = Told {
            held: held_with(told.held, object, player),
            ..one_more(told, counted_number(object))
        };
    }
    told
}

// What is held with one more object, or 2^32 - 1 where that is less.
fn held_with(held: u32, object: &Object, player: u32) -> u32
    ensures { result ≡ min (2 ^ 32 - 1) (held + held_by player (object.now ∷ [])) }
{
    match object.kind {
        Kind::Spawn | Kind::Extension if object.owner == player => {
            object
                .energy
                .saturating_add(u64::from(held))
                .min(u64::from(u32::MAX)) as u32
        }
        _ => held,
    }
}

// Nothing is counted yet.
fn none() -> Told
    ensures { result ≡ none }
{
    Told {
        held: 0,
        spawns: 0,
        extensions: 0,
        storages: 0,
        containers: 0,
        roads: 0,
    }
}

// With one more building or site of the kind of a number.
fn one_more(told: Told, number: u64) -> Told
    requires { total told < 2 ^ 32 - 1 }
    ensures counted { result ≡ one_more number told }
    ensures few { total result ≤ total told + 1 }
{
    match number {
        4 => Told {
            spawns: told.spawns + 1,
            ..told
        },
        5 => Told {
            extensions: told.extensions + 1,
            ..told
        },
        6 => Told {
            storages: told.storages + 1,
            ..told
        },
        7 => Told {
            containers: told.containers + 1,
            ..told
        },
        8 => Told {
            roads: told.roads + 1,
            ..told
        },
        _ => told,
    }
}
