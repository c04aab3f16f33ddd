use crate::outside_tests::numbers;
use sc_edge::*;
use sc_value::{List, Place, Text};
use std::alloc::Global;
use std::test::Fail;

// A piece of the first peer, one of the second, and the end of the first, which then fails.
fn coming_of(alloc: Global) -> Result<List<Polled>, Fail> {
    let abc = Text::from_slice(alloc, b"abc")?;
    let z = Text::from_slice(alloc, b"z")?;
    let mut coming = List::new(alloc);
    let _ = coming.push(Polled::Bytes(Place::Back(1), abc));
    let _ = coming.push(Polled::Bytes(Place::Back(2), z));
    let _ = coming.push(Polled::End(Place::Back(1)));
    let _ = coming.push(Polled::Failed(Place::Back(1)));
    Ok(coming)
}

// An edge to which that comes, whose third put fails.
fn edge_of(alloc: Global) -> Result<MemEdge, Fail> {
    let mut shares = List::new(alloc);
    shares.push(Share::AtMost(1))?;
    shares.push(Share::NotYet)?;
    let failing = numbers(alloc, 3)?;
    let coming = coming_of(alloc)?;
    match MemEdge::new(alloc, coming, shares, failing, 8) {
        Ok(edge) => Ok(edge),
        Err(_) => Err(Fail::new("no memory for the edge")),
    }
}

// Whether the place took these bytes.
fn has_taken(edge: &MemEdge, alloc: Global, place: Place, bytes: &[u8]) -> bool {
    match edge.took(alloc, place) {
        Ok(took) => took.as_bytes() == bytes,
        Err(_) => false,
    }
}

fn polled(edge: &mut MemEdge, room: &mut [u8; 2]) -> Got {
    edge.poll(room)
}

fn put_to(edge: &mut MemEdge, to: Place, bytes: &[u8]) -> Put {
    edge.put(to, bytes)
}

fn close_at(edge: &mut MemEdge, at: Place) {
    edge.close(at);
}

#[test]
fn edge_gives_what_comes(rt: HostRuntime) -> Result<(), Fail> {
    let alloc = rt.alloc();
    let one = Place::Back(1);
    let mut edge = edge_of(alloc)?;
    let mut room = [0u8; 2];
    assert_eq!(rt; polled(&mut edge, &mut room), Got::Bytes(one, 2));
    assert_eq!(rt; room, *b"ab");
    assert_eq!(rt; polled(&mut edge, &mut room), Got::Bytes(one, 1));
    close_at(&mut edge, Place::Back(2));
    assert_eq!(rt;
        polled(&mut edge, &mut room),
        Got::End(one),
        "two was closed"
    );
    Ok(())
}

#[test]
fn edge_takes_its_shares(rt: HostRuntime) -> Result<(), Fail> {
    let alloc = rt.alloc();
    let one = Place::Back(1);
    let there = Place::To([127, 0, 0, 1], 5070);
    let mut edge = edge_of(alloc)?;
    assert_eq!(rt; put_to(&mut edge, there, b"xy"), Put::Wrote(1));
    assert_eq!(rt; put_to(&mut edge, there, b"y"), Put::NotYet);
    assert_eq!(rt; put_to(&mut edge, one, b"y"), Put::Failed, "it is to fail");
    assert!(rt; has_taken(&edge, alloc, there, b"x"));
    assert_eq!(rt; edge.faults_at(one), 1);
    Ok(())
}

#[test]
fn edge_is_closed(rt: HostRuntime) -> Result<(), Fail> {
    let alloc = rt.alloc();
    let two = Place::Back(2);
    let mut edge = edge_of(alloc)?;
    let mut room = [0u8; 2];
    assert_eq!(rt; polled(&mut edge, &mut room), Got::Bytes(Place::Back(1), 2));
    close_at(&mut edge, Place::Back(1));
    close_at(&mut edge, two);
    assert_eq!(rt; put_to(&mut edge, two, b"y"), Put::Failed, "two was closed");
    assert_eq!(rt; polled(&mut edge, &mut room), Got::Closed);
    assert_eq!(rt; edge.polls(), 2);
    Ok(())
}

#[test]
fn edge_tells_what_it_closed(rt: HostRuntime) -> Result<(), Fail> {
    let alloc = rt.alloc();
    let two = Place::Back(2);
    let mut edge = edge_of(alloc)?;
    close_at(&mut edge, two);
    let closing = Closing {
        place: two,
        polls: 0,
    };
    assert!(rt; edge.closes() == Some([closing].as_slice()));
    Ok(())
}
