// Tiles, the ways between them, and the names of rooms.
use room_terrain::{Direction, Ground, NotAName, Place, RoomName, Terrain, mirror, range, step};
use std::alloc::{AllocError, Global};
use std::test::Fail;

fn place(x: u8, y: u8) -> Place {
    Place { room: 7, x, y }
}

#[test]
fn range_is_the_greater_distance(rt: HostRuntime) {
    assert!(rt; range(place(3, 4), place(3, 4)) == Some(0));
    assert!(rt; range(place(3, 4), place(5, 5)) == Some(2));
    assert!(rt; range(place(5, 5), place(4, 9)) == Some(4));
    assert!(rt; range(place(0, 49), place(49, 0)) == Some(49));
    let elsewhere = Place {
        room: 8,
        x: 3,
        y: 4,
    };
    assert!(rt; range(place(3, 4), elsewhere) == None);
}

#[test]
fn steps_go_clockwise_from_the_top(rt: HostRuntime) {
    let steps = [
        (1, 10, 9),
        (2, 11, 9),
        (3, 11, 10),
        (4, 11, 11),
        (5, 10, 11),
        (6, 9, 11),
        (7, 9, 10),
        (8, 9, 9),
    ];
    for (number, x, y) in steps {
        let next = Direction::of_number(number).and_then(|to| step(place(10, 10), to));
        assert!(rt; next == Some(place(x, y)));
    }
    assert!(rt; step(place(49, 20), Direction::Right) == None);
    assert!(rt; step(place(20, 0), Direction::TopLeft) == None);
    assert!(rt; step(place(0, 49), Direction::TopRight) == Some(place(1, 48)));
}

#[test]
fn borders_lie_across(rt: HostRuntime) {
    let name = |column, row| RoomName { column, row };
    assert!(rt; mirror(name(0, 0), 0, 20) == Some((name(-1, 0), 49, 20)));
    assert!(rt; mirror(name(0, 0), 49, 1) == Some((name(1, 0), 0, 1)));
    assert!(rt; mirror(name(0, 0), 20, 0) == Some((name(0, -1), 20, 49)));
    assert!(rt; mirror(name(0, 0), 48, 49) == Some((name(0, 1), 48, 0)));
    assert!(rt; mirror(name(0, 0), 20, 20) == None);
    assert!(rt; mirror(name(0, 0), 0, 0) == None);
    assert!(rt; mirror(name(0, 0), 49, 0) == None);
    assert!(rt; mirror(name(-128, 0), 0, 20) == None);
    assert!(rt; mirror(name(0, 127), 20, 49) == None);
}

// Whether a text is the name of the room of this column and row, and that room has this name.
fn is_name(alloc: Global, text: &str, column: i32, row: i32) -> Result<bool, AllocError> {
    let name = RoomName { column, row };
    let written = format!(in alloc; "{name}")?;
    Ok(RoomName::read(text) == Ok(name) && written.as_str() == text)
}

#[test]
fn names_are_read(rt: HostRuntime) -> Result<(), Fail> {
    let rooms = [
        ("E0S0", 0, 0),
        ("W0N0", -1, -1),
        ("E1S0", 1, 0),
        ("W9S10", -10, 10),
        ("E10N99", 10, -100),
        ("W99N100", -100, -101),
        ("E100S127", 100, 127),
        ("E127N127", 127, -128),
        ("W127S0", -128, 0),
        ("W127N127", -128, -128),
    ];
    for (text, column, row) in rooms {
        assert!(rt; is_name(rt.alloc(), text, column, row)?, "{text}");
    }
    Ok(())
}

#[test]
fn other_texts_are_refused(rt: HostRuntime) {
    let texts = [
        "", "E", "E0", "E0S", "ES0", "S0E0", "E0E0", "e0s0", "E00S0", "E0S00", "E01S1", "E128S0",
        "E0S128", "E0N1270", "E-1S0", "E+1S0", "E0S0 ", " E0S0", "E 0S0", "E0S0W",
    ];
    for text in texts {
        assert_eq!(rt; RoomName::read(text), Err(NotAName));
    }
}

// A copy of plain ground with a swamp.
fn swamp(alloc: Global) -> Result<Terrain, AllocError> {
    let mut grounds = [Ground::Plain; 2500];
    grounds[3 * 50 + 7] = Ground::Swamp;
    Terrain::of(alloc, &grounds)?.copy(alloc)
}

#[test]
fn grounds_stand_row_by_row(rt: HostRuntime) -> Result<(), Fail> {
    let terrain = swamp(rt.alloc())?;
    assert!(rt; (terrain.at(7, 3), terrain.at(3, 7)) == (Ground::Swamp, Ground::Plain));
    assert!(rt; terrain.grounds().len() == 2500);
    assert!(rt; (Ground::of_number(2), Ground::of_number(3)) == (Some(Ground::Swamp), None));
    assert!(rt; Ground::Wall.number() == 1);
    Ok(())
}
