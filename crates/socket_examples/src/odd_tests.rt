// Doors, links and paces over a network and a clock in memory.
use crate::odd::OddNet;
use socket_links::{SleepPace, SocketDoor};
use std::test::Fail;
use std::time::Duration;
use world_io::Failed;
use world_link::{Door, Link, Pace};

const PORT: u16 = 7777;

fn door(net: &OddNet, port: u16) -> SocketDoor<&OddNet> {
    SocketDoor::open(
        net,
        port,
        Duration::from_secs(1),
        Duration::from_millis(100),
    )
}

#[test]
fn what_a_door_cannot_give_is_passed_over(rt: HostRuntime) -> Result<(), Fail> {
    let net = OddNet::new();
    let door = door(&net, PORT);
    assert!(rt; door.is_open());
    assert_eq!(rt; door.port(), Some(PORT));

    // Two calls fail, with a pause of 10 ms after each, and the third gives a stream that is refused.
    let mut link = door.next().ok_or("no link")?;
    assert_eq!(rt; (net.sleeps.get(), net.now.get()), (2, 20));

    // Three calls are interrupted, and made again.
    let mut buf = [0u8; 4];
    assert_eq!(rt; link.hear(&mut buf), Ok(4));
    assert_eq!(rt; buf, [7, 7, 7, 7]);
    assert_eq!(rt; link.tell(b"text"), Ok(2));
    assert_eq!(rt; (link.read_faults(), link.write_faults()), (0, 0));
    Ok(())
}

#[test]
fn a_link_ends_with_its_life(rt: HostRuntime) -> Result<(), Fail> {
    let net = OddNet::new();
    let mut link = door(&net, PORT).next().ok_or("no link")?;
    let mut buf = [0u8; 4];

    // (accepted at 20 ms)
    net.now.set(119);
    assert_eq!(rt; link.hear(&mut buf), Ok(4));
    assert_eq!(rt; link.tell(b"text"), Ok(2));
    net.now.set(120);
    assert_eq!(rt; link.hear(&mut buf), Err(Failed));
    assert_eq!(rt; (link.read_faults(), link.write_faults()), (1, 0));
    assert_eq!(rt; link.tell(b"text"), Err(Failed));
    assert_eq!(rt; link.tell(b"text"), Err(Failed));
    assert_eq!(rt; (link.read_faults(), link.write_faults()), (1, 2));

    // A clock that doesn't tell ends it too.
    net.now.set(20);
    assert_eq!(rt; link.hear(&mut buf), Ok(4));
    net.is_broken.set(true);
    assert_eq!(rt; link.hear(&mut buf), Err(Failed));
    assert_eq!(rt; (link.read_faults(), link.write_faults()), (2, 2));
    Ok(())
}

#[test]
fn a_door_at_a_port_that_is_not_allowed_is_closed(rt: HostRuntime) {
    let net = OddNet::new();
    let door = door(&net, 80);
    assert!(rt; !door.is_open());
    assert_eq!(rt; door.port(), None);
    assert!(rt; door.next().is_none());
    assert_eq!(rt; net.sleeps.get(), 0);
}

#[test]
fn a_pace_sleeps_before_each_tick(rt: HostRuntime) {
    let net = OddNet::new();
    let mut pace = SleepPace::new(&net, 250);
    pace.wait();
    pace.wait();
    assert_eq!(rt; (net.sleeps.get(), net.now.get()), (2, 500));
    let mut none = SleepPace::new(&net, 0);
    none.wait();
    assert_eq!(rt; (net.sleeps.get(), net.now.get()), (2, 500));
}
