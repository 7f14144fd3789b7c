// What the calls for sites and for creeps want, and what their checks read.
ghost use Rattle.std.specs.Prelude.{◌≡◌, ◌≤◌, option_map, option_and_then, length};
ghost use Rattle.sight_census.specs.Censuses.{census_of};
ghost use Rattle.action_checks.specs.Plans.{held_for};
ghost use Rattle.visible_view.specs.Fields.{room_at};
ghost use Rattle.world_rules.specs.World.{shown};
ghost use Rattle.host_calls.specs.Desks.{Desk, as_index, signed_32};
ghost use Rattle.host_calls.specs.Replies.{body_in, coordinate_of as coordinate, number_of as number};
ghost use Rattle.host_calls.specs.Replies.{objects_around, parts_of, removal_wish, site_wish, spawn_wish};
ghost use Rattle.host_calls.specs.inner.Wishes.{IsPlanIn};

use crate::number::{id_of, index_32};
use action_checks::Plan;
use counted_record::CountedRecord;
use game_tables::{Action, Body, Part, most_parts};
use intent_book::Intent;
use object_store::Standing;
use sight_census::Census;
use visible_view::View;
use wasm_store::Pages;

/// A site on a tile of a room that is to be made.
pub fn site_wish(player: u32, room: i64, x: i64, y: i64, kind: i64) -> Intent
    ensures { result ≡ site_wish player room x y kind }
{
    let tile = u64::from(coordinate_of(y)) * 50 + u64::from(coordinate_of(x));
    Intent {
        player,
        action: Action::CreateSite,
        actor: number_of(room) * 2_500 + tile,
        target: 0,
        amount: number_of(kind),
        body: Body::new(),
    }
}

/// What the checks of a site read, where its room is seen.
pub fn plan_seen<'v>(
    view: &'v View,
    census: &mut Census,
    book: &CountedRecord,
    wish: &Intent,
    room: i64,
    x: i64,
    y: i64,
) -> Option<Plan<'v>>
    requires census { census.old ≡ census_of view.now }
    ensures plan { (desk : Desk) → desk.sight ≡ view.now → desk.book ≡ book.now
        → IsPlanIn desk wish.now x y (option_and_then (room_at view.now) (as_index (signed_32 room))) result }
    ensures census { census.new ≡ census.old }
{
    let place = view.place(index_32(room)?)?;
    let told = census.room(place)?;
    let elsewhere = book.sites_elsewhere(wish.actor, wish.amount);
    Some(Plan {
        player: view.account().player,
        x: coordinate_of(x),
        y: coordinate_of(y),
        number: wish.amount,
        ground: view.terrain_at(place)?,
        around: view.table_at(place)?,
        standing: told.built(wish.amount),
        recorded: elsewhere.in_room,
        sites: u64::from(view.sites()) + u64::from(elsewhere.in_all),
    })
}

/// What the player's spawns and extensions hold in the room of an object that is seen.
pub fn held_around(view: &View, census: &mut Census, placed: Option<Standing>) -> u32
    requires census { census.old ≡ census_of view.now }
    ensures held { result ≡ held_for view.now.account.player
        (objects_around view.now (option_map shown placed.entry)) }
    ensures census { census.new ≡ census.old }
{
    let Some(standing) = placed else {
        return 0;
    };
    let Some(place) = view.place(standing.room) else {
        // Nothing stands in a room that is not seen.
        let _table = view.table(standing.room);
        return 0;
    };
    match census.room(place) {
        Some(told) => told.held,
        None => 0,
    }
}

/// A site that is to be removed.
pub fn removal_wish(player: u32, id: i64) -> Intent
    ensures { result ≡ removal_wish player id }
{
    Intent {
        player,
        action: Action::RemoveSite,
        actor: id_of(id).unwrap_or(0),
        target: 0,
        amount: 0,
        body: Body::new(),
    }
}

/// A creep that a spawn is to make.
pub fn spawn_wish(player: u32, id: i64, body: Option<Body>) -> Intent
    ensures { result ≡ spawn_wish player id (option_map (λ parts. parts) body) }
{
    Intent {
        player,
        action: Action::SpawnCreep,
        actor: id_of(id).unwrap_or(0),
        target: 0,
        amount: 0,
        body: body.unwrap_or(Body::new()),
    }
}

/// The body in a span of the module's memory, one byte a part.
pub fn body_in(pages: &Pages, at: u64, len: u64) -> Option<Body>
    ensures { result ≡ body_in pages.now at len }
{
    if len > u64::from(most_parts()) {
        return None;
    }
    body_of(pages.read_span(at, len)?)
}

// The parts of these numbers.
fn body_of(bytes: &[u8]) -> Option<Body>
    requires { length bytes.now ≤ 50 }
    ensures { result ≡ parts_of bytes.now }
{
    let mut body = Body::new();
    for byte in bytes {
        body.push(Part::of_number(*byte)?);
    }
    Some(body)
}

// A number of an argument, and 0 where it is negative.
fn number_of(value: i64) -> u64
    ensures { result ≡ number value }
{
    index_32(value).map_or(0, u64::from)
}

// A coordinate of a tile of a room, and else 0.
fn coordinate_of(value: i64) -> u8
    ensures { result ≡ coordinate value }
{
    let number = number_of(value);
    if number < 50 { number as u8 } else { 0 }
}
