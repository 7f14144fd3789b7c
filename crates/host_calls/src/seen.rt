// What a module is told of what its player sees, by the arguments of a call.
ghost use Rattle.std.specs.Prelude.{◌≡◌, option_and_then, option_map, slice_get};
ghost use Rattle.room_terrain.specs.Tiles.{ground_number};
ghost use Rattle.world_rules.specs.World.{shown};
ghost use Rattle.visible_view.specs.Fields.{field_at, ground_at, place_of, room_at};
ghost use Rattle.host_calls.specs.Desks.{allowance as units, as_index, signed_32};
ghost use Rattle.host_calls.specs.Replies.{seen};

use crate::number::{id_of, index_32};
use game_tables::most_limit;
use object_store::{Account, RoomName, Standing};
use visible_view::View;

/// The CPU units that a player may use in a tick: what he gets and what he saved, at most 500.
pub fn allowance(account: &Account) -> u64
    ensures { result ≡ units account.now }
{
    let all = u64::from(account.limit) + u64::from(account.bucket);
    all.min(u64::from(most_limit()))
}

/// The index of the room at a place.
pub fn room_index(view: &View, place: i64) -> Option<u64>
    ensures { result
        ≡ option_map (λ room. room.index)
        (option_and_then (slice_get view.now.rooms) (as_index (signed_32 place))) }
{
    let index = view.room(index_32(place)?)?;
    Some(u64::from(index))
}

/// The name of a room.
pub fn room_name(view: &View, room: i64) -> Option<RoomName>
    ensures { result
        ≡ option_map (λ room. room.name) (option_and_then (room_at view.now) (as_index (signed_32 room))) }
{
    view.name(index_32(room)?)
}

/// The number of the ground of a room's tile.
pub fn ground(view: &View, room: i64, x: i64, y: i64) -> Option<u64>
    ensures { result
        ≡ option_and_then
        (λ index. option_and_then
        (λ column. option_and_then (λ row. option_map ground_number (ground_at view.now index column row))
        (as_index (signed_32 y))) (as_index (signed_32 x))) (as_index (signed_32 room)) }
{
    let ground = view.ground(index_32(room)?, index_32(x)?, index_32(y)?)?;
    Some(u64::from(ground.number()))
}

/// The place of an object's id among what is seen.
pub fn place(view: &View, id: i64) -> Option<u64>
    ensures { result ≡ option_and_then (λ n. place_of n view.now.objects) (as_index id) }
{
    let place = view.find(id_of(id)?)?;
    Some(u64::from(place))
}

/// A field of the object at a place.
pub fn field(view: &View, index: i64, field: i64) -> Option<u64>
    ensures { result
        ≡ option_and_then (λ i. option_and_then (field_at view.now i) (as_index (signed_32 field)))
        (as_index (signed_32 index)) }
{
    view.field(index_32(index)?, index_32(field)?)
}

/// The object of an id, with its room.
pub fn standing<'v>(view: &'v View, id: i64) -> Option<Standing<'v>>
    ensures { option_map shown result ≡ seen view.now id }
{
    view.standing(view.find(id_of(id)?)?)
}
