// What creeps build.
ghost use Rattle.std.specs.Prelude.{◌≡◌, ◌+◌, ◌^◌, ◌<◌, ◌≤◌, List};
ghost use Rattle.room_terrain.specs.declared.terrain.Ground.{Ground};
ghost use Rattle.room_table.specs.Tables.{HasId, IsOnTile};
ghost use Rattle.world_rules.specs.RoomParts.{table_part};
ghost use Rattle.world_rules.specs.Work.{advanced, building_on, built, total_of, work_put};
ghost use Rattle.room_rules.specs.Calls.{IsReady, Keeps, KeepsTallies};

use action_checks::parties;
use game_tables::{Action, Body, Kind, Part, build_total, built_hits, full_timer, is_owned};
use intent_book::Intent;
use object_store::{Object, RoomTable, is_owned_room, site_building};

/// Rules an entry to build: where it takes effect, 5 for each live WORK part go from the creep's load into
/// the site, as far as it carries them and they are missing. Once nothing is missing the site is gone, and
/// its building stands in its place under the room's next serial. Else nothing is done.
pub fn build(room: &mut RoomTable, intent: &Intent)
    requires ready { IsReady room.old }
    ensures rule { (grounds : List Ground)
        → table_part grounds room.new ≡ built intent.now (table_part grounds room.old) }
    ensures tallies { KeepsTallies room.old room.new }
    ensures keeps { Keeps room.old room.new }
{
    let Some((creep, site)) = parties(Action::Build, room, intent) else {
        return;
    };
    let Some(kind) = site_building(&site) else {
        return;
    };
    let work = work_put(kind, &creep, &site);
    room.set(Object {
        energy: creep.energy - work,
        ..creep
    });
    advance(
        room,
        kind,
        Object {
            progress: site.progress + work,
            ..site
        },
    );
}

// The work that a creep puts into a site.
fn work_put(kind: Kind, creep: &Object, site: &Object) -> u64
    ensures put { result ≡ work_put kind creep.now site.now }
    ensures fits { site.now.progress + result < 2 ^ 64 }
    ensures carried { result ≤ creep.now.energy }
{
    let worked = 5 * u64::from(creep.body.live(Part::Work, creep.hits));
    let missing = total_of(kind).saturating_sub(site.progress);
    worked.min(creep.energy.min(missing))
}

// The progress at which a building is finished.
fn total_of(kind: Kind) -> u64
    ensures { result ≡ total_of kind }
{
    u64::from(build_total(kind).unwrap_or(0))
}

// Puts a site in its place that has come so far, or its building once nothing is missing.
fn advance(room: &mut RoomTable, kind: Kind, site: Object)
    requires ready { IsReady room.old }
    requires tile { IsOnTile site }
    requires there { HasId site.id room.old.objects }
    ensures rule { (grounds : List Ground)
        → table_part grounds room.new ≡ advanced kind site (table_part grounds room.old) }
    ensures tallies { KeepsTallies room.old room.new }
    ensures keeps { Keeps room.old room.new }
{
    if site.progress < total_of(kind) {
        room.set(site);
        return;
    }
    let building = building_on(kind, room, &site);
    room.remove(site.id);
    room.insert_new(building);
}

// The building of a site, before it has an id.
fn building_on(kind: Kind, room: &RoomTable, site: &Object) -> Object
    ensures { (grounds : List Ground)
        → result ≡ building_on kind (table_part grounds room.now) site.now 0 }
{
    // The objects rise by their ids, so that the controller is that of the room's part.
    room.stands_in_order();
    Object {
        id: 0,
        kind,
        x: site.x,
        y: site.y,
        owner: if is_owned(kind) { site.owner } else { 0 },
        hits: built_hits(kind),
        energy: 0,
        timer: full_timer(kind, is_owned_room(room.controller())),
        extra: 0,
        progress: 0,
        other: 0,
        other_ticks: 0,
        body: Body::new(),
    }
}
