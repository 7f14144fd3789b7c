// What players see of a world that was read from a file.
ghost use Rattle.std.specs.Prelude.{IfOk};
ghost use Rattle.world_rules.specs.Sound.{IsSound};

use crate::worlds::{room, world_in};
use object_store::{Ground, RoomName, World};
use std::alloc::{AllocError, Global};
use std::test::Fail;
use visible_view::View;

// Three rooms: player 1 has a controller in the first, and in the second a creep that was born in the first;
// in the
// third he has a site and a reservation, and player 2 a creep.
fn three_rooms(alloc: Global) -> Result<String, AllocError> {
    let first = room(
        alloc,
        "E0S0",
        5,
        "{\"id\":2,\"kind\":\"source\",\"x\":10,\"y\":10,\"energy\":7},{\"id\":1,\"kind\":\"controller\",\"x\":5,\"y\":5,\"owner\":1,\"extra\":1,\"timer\":5},{\"id\":4,\"kind\":\"site\",\"x\":9,\"y\":9,\"owner\":1,\"extra\":8}",
    )?;
    let second = room(
        alloc,
        "W0S0",
        9,
        "{\"id\":4294967297,\"kind\":\"pile\",\"x\":7,\"y\":7,\"energy\":5},{\"id\":3,\"kind\":\"creep\",\"x\":6,\"y\":8,\"owner\":1,\"body\":[\"move\",\"carry\"],\"hits\":150,\"energy\":40,\"timer\":9}",
    )?;
    let third = room(
        alloc,
        "E2S0",
        9,
        "{\"id\":8589934593,\"kind\":\"site\",\"x\":3,\"y\":3,\"owner\":1,\"extra\":7},{\"id\":8589934594,\"kind\":\"controller\",\"x\":5,\"y\":5,\"other\":1,\"other_ticks\":5},{\"id\":8589934595,\"kind\":\"creep\",\"x\":6,\"y\":6,\"owner\":2,\"body\":[\"move\"],\"timer\":9}",
    )?;
    let players = "{\"player\":1,\"limit\":20,\"bucket\":30},{\"player\":2,\"limit\":0}";
    format!(in alloc;
        "{{\"version\":1,\"tick\":6,\"rooms\":[{first},{second},{third}],\"players\":[{players}]}}"
    )
}

// The world of those rooms.
fn three_room_world(alloc: Global) -> Result<World, Fail>
    ensures { IfOk result (λ world. IsSound world) }
{
    world_in(alloc, three_rooms(alloc)?.as_str())
}

// What player 1 sees of the world.
fn seen(alloc: Global, world: &World) -> Result<View<'_>, Fail>
    requires { IsSound world.now }
{
    if world.rooms() > 400 || world.account(1).is_none() {
        return Err("not the world of the file".into());
    }
    Ok(View::of(alloc, world, 1)?)
}

#[test]
fn players_see_their_rooms(rt: HostRuntime) -> Result<(), Fail> {
    let world = three_room_world(rt.alloc())?;
    let one = seen(rt.alloc(), &world)?;
    assert!(rt; (one.tick(), one.account().bucket, one.sites()) == (6, 30, 2));
    assert!(rt;
        (one.room_count(), one.room(0), one.room(1), one.room(2)) == (2, Some(0), Some(1), None)
    );
    assert!(rt; (one.name(1), one.name(2)) == (Some(RoomName { column: -1, row: 0 }), None));
    assert!(rt;
        (one.ground(1, 49, 0), one.ground(1, 1, 0)) == (Some(Ground::Wall), Some(Ground::Plain))
    );
    assert!(rt; (one.ground(2, 1, 1), one.ground(1, 50, 0)) == (None, None));
    Ok(())
}

// (ids rise over both rooms: the creep of the second stands between objects of the first)
#[test]
fn objects_stand_in_rising_id(rt: HostRuntime) -> Result<(), Fail> {
    let world = three_room_world(rt.alloc())?;
    let one = seen(rt.alloc(), &world)?;
    assert!(rt; one.count() == 5);
    for (place, id, room) in [
        (0, 1, 0),
        (1, 2, 0),
        (2, 3, 1),
        (3, 4, 0),
        (4, 4_294_967_297, 1),
    ] {
        assert!(rt;
            (one.find(id), one.field(place, 0), one.field(place, 2))
                == (Some(place), Some(id), Some(room))
        );
    }
    assert!(rt; (one.find(8_589_934_595), one.field(5, 0), one.field(0, 16)) == (None, None, None));
    Ok(())
}

#[test]
fn fields_are_told(rt: HostRuntime) -> Result<(), Fail> {
    let world = three_room_world(rt.alloc())?;
    let one = seen(rt.alloc(), &world)?;
    assert!(rt; one.object(2).map_or(0, |creep| creep.energy) == 40);
    for (field, told) in [
        (1, 3),
        (3, 6),
        (4, 8),
        (5, 1),
        (6, 150),
        (7, 200),
        (8, 40),
        (9, 50),
        (10, 9),
        (15, 2),
        (100, 1_050),
        (101, 3_100),
    ] {
        assert!(rt; one.field(2, field) == Some(told), "field {field}");
    }
    assert!(rt;
        (one.field(2, 102), one.field(1, 9), one.field(0, 11)) == (None, Some(3_000), Some(1))
    );
    Ok(())
}
