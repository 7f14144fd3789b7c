// The text of a world.
ghost use Rattle.std.specs.Prelude.{◌≡◌, ◌<◌, ◌^◌, ◌∷◌, [], length, map, string_bytes, IfOk, OnOk, IsUtf8};
ghost use Rattle.std.specs.List.{AllByRecursion};
ghost use Rattle.serde_json.specs.Data.{object as with_members, string};
ghost use Rattle.serde_json.specs.View.{view, members_view};
ghost use Rattle.game_tables.specs.Texts.{part_text};
ghost use Rattle.world_form.specs.Digits.{ground_digit, hex, hex_digit};
ghost use Rattle.world_form.specs.Files.{Lists};
ghost use Rattle.world_form.specs.Written.{list_data, object_data, room_data, account_data, world_data};
ghost use Rattle.world_form.specs.Written.{written, filed_of, IsWritable, IsOfTypes};

use game_tables::Body;
use object_store::{Account, Ground, Object, Objects, Room, Terrain, World};
use serde_json::{Map, Value, put};
use std::alloc::{AllocError, Global};

/// The text of a world: compact JSON, in version 1.
pub fn write_world(alloc: Global, world: &World) -> Result<Vec<u8>, AllocError>
    ensures text { IfOk result (λ text. text.items ≡ written world.now) }
    ensures utf8 { IfOk result (λ text. IsUtf8 text.items) }
    ensures reads_back { IfOk result (λ text. IsWritable world.now → Lists text.items (filed_of world.now)) }
{
    world_value(alloc, world)?.to_vec(alloc)
}

fn world_value(alloc: Global, world: &World) -> Result<Value, AllocError>
    ensures value { IfOk result (λ value. view value ≡ world_data world.now) }
    ensures types { OnOk result (IsOfTypes world.now) }
{
    let mut members = Map::new(alloc);
    put_world(alloc, &mut members, world)?;
    Ok(Value::Object(members))
}

// Puts a world's members in an empty object.
#[tactic(auto, unfolding(world_form::specs::Written::world_data))]
fn put_world(
    alloc: Global,
    members: &mut Map<String, Value>,
    world: &World,
) -> Result<(), AllocError>
    requires { members.old.entries ≡ [] }
    ensures members { OnOk result (with_members (members_view members.new.entries) ≡ world_data world.now) }
    ensures types { OnOk result (IsOfTypes world.now) }
{
    let players = account_values(alloc, world.account_list())?;
    put(members, alloc, "players", players)?;
    let rooms = room_values(alloc, world.room_list())?;
    put(members, alloc, "rooms", rooms)?;
    put(members, alloc, "tick", Value::from(world.tick()))?;
    put(members, alloc, "version", Value::from(1_u8))?;
    Ok(())
}

fn room_values(alloc: Global, rooms: &[Room]) -> Result<Value, AllocError>
    ensures value { IfOk result (λ value. view value ≡ list_data room_data rooms.now) }
    ensures all { OnOk result (AllByRecursion (λ room. length room.terrain ≡ 2500) rooms.now) }
{
    let mut values = Vec::new(alloc);
    for room in rooms {
        values.push(room_value(alloc, room)?)?;
    }
    Ok(Value::Array(values))
}

fn room_value(alloc: Global, room: &Room) -> Result<Value, AllocError>
    ensures value { IfOk result (λ value. view value ≡ room_data room.now) }
    ensures all { OnOk result (length room.now.terrain ≡ 2500) }
{
    let mut members = Map::new(alloc);
    put_room(alloc, &mut members, room)?;
    Ok(Value::Object(members))
}

// Puts a room's members in an empty object.
#[tactic(auto, unfolding(world_form::specs::Written::room_data))]
fn put_room(alloc: Global, members: &mut Map<String, Value>, room: &Room) -> Result<(), AllocError>
    requires { members.old.entries ≡ [] }
    ensures members { OnOk result (with_members (members_view members.new.entries) ≡ room_data room.now) }
    ensures all { OnOk result (length room.now.terrain ≡ 2500) }
{
    let name = format!(in alloc; "{}", room.name)?;
    put(members, alloc, "name", Value::String(name))?;
    put(members, alloc, "next", Value::from(room.table.next()))?;
    let objects = object_values(alloc, room.table.objects())?;
    put(members, alloc, "objects", objects)?;
    let terrain = terrain_text(alloc, &room.terrain)?;
    put(members, alloc, "terrain", Value::String(terrain))?;
    Ok(())
}

// The digits of a room's grounds.
fn terrain_text(alloc: Global, terrain: &Terrain) -> Result<String, AllocError>
    ensures digits { IfOk result (λ text. string_bytes text ≡ map ground_digit terrain.now) }
    ensures all { length terrain.now ≡ 2500 }
{
    let mut text = String::new(alloc);
    for ground in terrain.grounds() {
        text.push_str(ground_text(*ground))?;
    }
    Ok(text)
}

fn ground_text(ground: Ground) -> &'static str
    ensures { result.now ≡ ground_digit ground ∷ [] }
{
    match ground {
        Ground::Plain => "0",
        Ground::Wall => "1",
        Ground::Swamp => "2",
    }
}

fn object_values(alloc: Global, objects: Objects<'_>) -> Result<Value, AllocError>
    ensures { IfOk result (λ value. view value ≡ list_data object_data objects.entry) }
{
    let mut values = Vec::new(alloc);
    for object in objects {
        values.push(object_value(alloc, object)?)?;
    }
    Ok(Value::Array(values))
}

fn object_value(alloc: Global, object: &Object) -> Result<Value, AllocError>
    ensures { IfOk result (λ value. view value ≡ object_data object.now) }
{
    let mut members = Map::new(alloc);
    put_object(alloc, &mut members, object)?;
    Ok(Value::Object(members))
}

// Puts an object's members in an empty object.
fn put_object(
    alloc: Global,
    members: &mut Map<String, Value>,
    object: &Object,
) -> Result<(), AllocError>
    requires { members.old.entries ≡ [] }
    ensures { OnOk result (with_members (members_view members.new.entries) ≡ object_data object.now) }
{
    let body = body_value(alloc, &object.body)?;
    put(members, alloc, "body", body)?;
    put(members, alloc, "energy", Value::from(object.energy))?;
    put(members, alloc, "extra", Value::from(object.extra))?;
    put(members, alloc, "hits", Value::from(object.hits))?;
    put(members, alloc, "id", Value::from(object.id))?;
    let kind = Value::try_from_str(alloc, object.kind.text())?;
    put(members, alloc, "kind", kind)?;
    put(members, alloc, "other", Value::from(object.other))?;
    put(
        members,
        alloc,
        "other_ticks",
        Value::from(object.other_ticks),
    )?;
    put(members, alloc, "owner", Value::from(object.owner))?;
    put(members, alloc, "progress", Value::from(object.progress))?;
    put(members, alloc, "timer", Value::from(object.timer))?;
    put(members, alloc, "x", Value::from(object.x))?;
    put(members, alloc, "y", Value::from(object.y))?;
    Ok(())
}

fn body_value(alloc: Global, body: &Body) -> Result<Value, AllocError>
    ensures { IfOk result (λ value. view value ≡ list_data (λ part. string (part_text part)) body.now) }
{
    let mut values = Vec::new(alloc);
    for part in body.parts() {
        values.push(Value::try_from_str(alloc, part.text())?)?;
    }
    Ok(Value::Array(values))
}

fn account_values(alloc: Global, accounts: &[Account]) -> Result<Value, AllocError>
    ensures value { IfOk result (λ value. view value ≡ list_data account_data accounts.now) }
    ensures bytes { OnOk result
        (AllByRecursion (λ account. AllByRecursion (λ byte. byte < 2 ^ 8) account.memory) accounts.now) }
{
    let mut values = Vec::new(alloc);
    for account in accounts {
        values.push(account_value(alloc, account)?)?;
    }
    Ok(Value::Array(values))
}

fn account_value(alloc: Global, account: &Account) -> Result<Value, AllocError>
    ensures value { IfOk result (λ value. view value ≡ account_data account.now) }
    ensures bytes { OnOk result (AllByRecursion (λ byte. byte < 2 ^ 8) account.now.memory) }
{
    let mut members = Map::new(alloc);
    put_account(alloc, &mut members, account)?;
    Ok(Value::Object(members))
}

// Puts an account's members in an empty object.
#[tactic(auto, unfolding(world_form::specs::Written::account_data))]
fn put_account(
    alloc: Global,
    members: &mut Map<String, Value>,
    account: &Account,
) -> Result<(), AllocError>
    requires { members.old.entries ≡ [] }
    ensures members { OnOk result
        (with_members (members_view members.new.entries) ≡ account_data account.now) }
    ensures bytes { OnOk result (AllByRecursion (λ byte. byte < 2 ^ 8) account.now.memory) }
{
    put(members, alloc, "bucket", Value::from(account.bucket))?;
    put(members, alloc, "limit", Value::from(account.limit))?;
    let memory = hex_text(alloc, account.memory.as_slice())?;
    put(members, alloc, "memory", Value::String(memory))?;
    put(members, alloc, "player", Value::from(account.player))?;
    put(members, alloc, "points", Value::from(account.points))?;
    Ok(())
}

// Bytes in lower case hexadecimal.
fn hex_text(alloc: Global, bytes: &[u8]) -> Result<String, AllocError>
    ensures digits { IfOk result (λ text. string_bytes text ≡ hex bytes.now) }
    ensures bytes { OnOk result (AllByRecursion (λ byte. byte < 2 ^ 8) bytes.now) }
{
    let mut text = String::new(alloc);
    for byte in bytes {
        text.push(digit_of(*byte / 16))?;
        text.push(digit_of(*byte % 16))?;
    }
    Ok(text)
}

fn digit_of(number: u8) -> char
    requires { number < 16 }
    ensures { result ≡ hex_digit number }
{
    if number < 10 {
        (b'0' + number) as char
    } else {
        (b'a' + (number - 10)) as char
    }
}
