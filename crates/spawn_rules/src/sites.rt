// Sites that players make and remove.
ghost use Rattle.std.specs.Prelude.{◌≡◌, ◌+◌, ◌/◌, ◌%◌, ◌^◌, ◌<◌, List, length};
ghost use Rattle.std.specs.List.{list_any};
ghost use Rattle.room_terrain.specs.declared.terrain.Ground.{Ground};
ghost use Rattle.world_rules.specs.RoomParts.{table_part, RoomPart};
ghost use Rattle.world_rules.specs.Checks.{all_hold};
ghost use Rattle.world_rules.specs.Sights.{gives_sight};
ghost use Rattle.world_rules.specs.Sites.{count_of, making_checks, plan_of, removing_checks, site_made};
ghost use Rattle.world_rules.specs.Sites.{site_of, site_removed};
ghost use Rattle.action_checks.specs.Plans.{plan_view};
ghost use Rattle.room_rules.specs.Calls.{IsReady, Keeps, KeepsTallies};

use action_checks::{Plan, counted_number, may_be_removed, site_may_be_made, standing};
use game_tables::{Body, Kind};
use intent_book::Intent;
use object_store::{Object, Objects, RoomTable, Terrain};
use world_rules::gives_sight;

/// Rules an entry for a new site: where its player sees the room and its checks hold there, a site of the
/// player with no work in it stands on the tile, under the room's next serial. Else nothing is done. The tile
/// is the actor, as rooms and tiles are numbered, and the amount the number of the kind.
pub fn create_site(ground: &Terrain, room: &mut RoomTable, intent: &Intent)
    requires ready { IsReady room.old }
    ensures rule { table_part ground.now room.new
        ≡ site_made intent.now (table_part ground.now room.old) }
    ensures tallies { KeepsTallies room.old room.new }
    ensures keeps { Keeps room.old room.new }
{
    if !may_be_made(ground, room, intent) {
        return;
    }
    room.insert_new(site_of(intent));
}

/// Rules an entry to remove a site: where it is one of the player's, and he sees the room, it is gone. Else
/// nothing is done.
pub fn remove_site(room: &mut RoomTable, intent: &Intent)
    requires ready { IsReady room.old }
    ensures rule { (grounds : List Ground)
        → table_part grounds room.new ≡ site_removed intent.now (table_part grounds room.old) }
    ensures tallies { KeepsTallies room.old room.new }
    ensures keeps { Keeps room.old room.new }
{
    if may_go(room, intent) {
        room.remove(intent.actor);
    }
}

// Whether the checks of a new site hold in the room. One pass over its objects tells what they read of them.
fn may_be_made(ground: &Terrain, room: &RoomTable, intent: &Intent) -> bool
    ensures { result ≡ all_hold (making_checks intent.now (table_part ground.now room.now)) }
{
    let around = look_around(room.objects(), intent.player, intent.amount);
    around.is_seen && site_may_be_made(&plan(ground, room, intent, around.standing))
}

// Whether the checks of a site's removal hold in the room. Only where the actor is a site of the player's it
// looks for an object by which he sees the room.
fn may_go(room: &RoomTable, intent: &Intent) -> bool
    ensures { (grounds : List Ground)
        → result ≡ all_hold (removing_checks intent.now (table_part grounds room.now)) }
{
    may_be_removed(intent.player, standing(room, intent.actor))
        && look_around(room.objects(), intent.player, 0).is_seen
}

// What the checks of a new site read in a rule, where so many buildings and sites of its kind stand.
fn plan<'a>(ground: &'a Terrain, room: &'a RoomTable, intent: &Intent, standing: u32) -> Plan<'a>
    requires { standing ≡ count_of intent.now.amount room.now.objects }
    ensures view { plan_view result ≡ plan_of intent.now (table_part ground.now room.now) }
    ensures counted { result.standing ≡ count_of result.number result.around.now.objects }
{
    room.stands_in_order();
    Plan {
        player: intent.player,
        x: (intent.actor % 50) as u8,
        y: (intent.actor % 2500 / 50) as u8,
        number: intent.amount,
        ground,
        around: room,
        standing,
        recorded: 0,
        sites: 0,
    }
}

// What one pass over a room's objects tells an entry for a site.
#[derive(Clone, Copy)]
struct Around {
    is_seen: bool,
    standing: u32,
}

// Whether the player sees the room of these objects, and how many of them are buildings of the kind of this
// number, or sites of one.
fn look_around(objects: Objects<'_>, player: u32, number: u64) -> Around
    requires { length objects < 2 ^ 32 }
    ensures seen { result.is_seen ≡ list_any (gives_sight player) objects.entry }
    ensures standing { result.standing ≡ count_of number objects.entry }
{
    let mut found = Around {
        is_seen: false,
        standing: 0,
    };
    for object in objects {
        found.is_seen |= gives_sight(object, player);
        found.standing += u32::from(counted_number(object) == number);
    }
    found
}

// The site of an entry, before it has an id.
fn site_of(intent: &Intent) -> Object
    requires { intent.now.amount < 2 ^ 32 }
    ensures { (grounds : List Ground) (part : RoomPart) → result ≡ site_of (plan_of intent.now part) 0 }
{
    Object {
        id: 0,
        kind: Kind::Site,
        x: (intent.actor % 50) as u8,
        y: (intent.actor % 2500 / 50) as u8,
        owner: intent.player,
        hits: 0,
        energy: 0,
        timer: 0,
        extra: intent.amount as u32,
        progress: 0,
        other: 0,
        other_ticks: 0,
        body: Body::new(),
    }
}
