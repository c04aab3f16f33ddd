//! Orders that are posted and taken, in one thread and in three.

ghost use Rattle.std.specs.Prelude.{◌≡◌, true};
ghost use Rattle.sc_desk.specs.Desks.{IsOf, view_of};

use sc_desk::{Desk, DeskPass};
use sc_edge::Order;
use sc_value::AppId;
use std::sync::Wait;
use std::test::Fail;
use std::thread::{self, Threads, join};

/// So many orders each poster posts.
const ORDERS: u64 = 200;

/// An order of the poster of this host.
fn order(host: u32, serial: u64) -> Order {
    Order {
        epoch: 0,
        app: AppId { host, serial },
    }
}

#[test]
fn a_full_desk_hands_an_order_back(rt: HostRuntime) -> Result<(), Fail> {
    let (desk, mut taker) = Desk::new(rt.alloc(), 1)?;
    let mut poster = desk.split(&mut taker)?;
    assert!(&rt; desk.post_as(&rt, &mut poster, order(0, 1)).is_ok());
    assert_eq!(&rt;
        desk.post_as(&rt, &mut poster, order(0, 2)),
        Err(order(0, 2))
    );
    assert_eq!(&rt; desk.take_as(&rt, &mut taker), Some(order(0, 1)));
    assert_eq!(&rt; desk.take_as(&rt, &mut taker), None);
    desk.join(&mut taker, poster);
    assert_eq!(&rt; desk.take_as(&rt, &mut taker), None);
    Ok(())
}

/// Posts the orders of this host, one after the other, and again where the desk is full.
fn post_all<R: Wait>(rt: &R, desk: &Desk, pass: DeskPass, host: u32) -> DeskPass
    requires { IsOf desk.now pass × ((view_of pass).posts ≡ true) }
    ensures { IsOf desk.now result × ((view_of result).posts ≡ true) }
{
    let mut pass = pass;
    for serial in 1..=ORDERS {
        post(rt, desk, &mut pass, order(host, serial));
    }
    pass
}

fn post<R: Wait>(rt: &R, desk: &Desk, pass: &mut DeskPass, order: Order)
    requires { IsOf desk.now pass.old × ((view_of pass.old).posts ≡ true) }
    ensures { IsOf desk.now pass.new × ((view_of pass.new).posts ≡ true) }
{
    for _ in rt.forever() {
        if desk.post_as(rt, pass, order).is_ok() {
            return;
        }
        thread::yield_now();
    }
}

/// Both posters, each in a thread.
fn post_both<R: Threads + Wait + Sync>(
    rt: &R,
    desk: &Desk,
    first: DeskPass,
    second: DeskPass,
) -> (DeskPass, DeskPass)
    requires first { IsOf desk.now first × ((view_of first).posts ≡ true) }
    requires second { IsOf desk.now second × ((view_of second).posts ≡ true) }
    ensures first { IsOf desk.now result.0 × ((view_of result.0).posts ≡ true) }
    ensures second { IsOf desk.now result.1 × ((view_of result.1).posts ≡ true) }
{
    join(
        rt,
        move || -> DeskPass
            requires { IsOf desk.now first × ((view_of first).posts ≡ true) }
            ensures { IsOf desk.entry.now result × ((view_of result).posts ≡ true) }
        { post_all(rt, desk, first, 0) },
        move || -> DeskPass
            requires { IsOf desk.now second × ((view_of second).posts ≡ true) }
            ensures { IsOf desk.entry.now result × ((view_of result).posts ≡ true) }
        { post_all(rt, desk, second, 1) },
    )
}

/// Takes as many orders as both post, and counts those that come in their order.
fn take_all<R: Wait>(rt: &R, desk: &Desk, pass: DeskPass) -> (DeskPass, u64)
    requires { IsOf desk.now pass × ((view_of pass).first ≡ true) }
    ensures { IsOf desk.now result.0 × ((view_of result.0).first ≡ true) }
{
    let mut pass = pass;
    let mut seen = Seen {
        first: 0,
        second: 0,
    };
    let mut in_order: u64 = 0;
    for _ in 0..2 * ORDERS {
        let order = take(rt, desk, &mut pass);
        if seen.note(order.app) {
            in_order += 1;
        }
    }
    (pass, in_order)
}

/// The serials that were taken last, of each host.
#[derive(Drop)]
struct Seen {
    first: u64,
    second: u64,
}

impl Seen {
    /// Whether the serial is the next one of its host.
    fn note(&mut self, app: AppId) -> bool {
        let last = if app.host == 0 {
            self.first
        } else {
            self.second
        };
        if app.host == 0 {
            self.first = app.serial;
        } else {
            self.second = app.serial;
        }
        app.serial == last.saturating_add(1)
    }
}

fn take<R: Wait>(rt: &R, desk: &Desk, pass: &mut DeskPass) -> Order
    requires { IsOf desk.now pass.old × ((view_of pass.old).first ≡ true) }
    ensures { IsOf desk.now pass.new × ((view_of pass.new).first ≡ true) }
{
    for _ in rt.forever() {
        if let Some(order) = desk.take_as(rt, pass) {
            return order;
        }
        thread::yield_now();
    }
    unreachable!()
}

/// The taker beside both posters: its pass, and how many orders came in their order.
fn take_beside<R: Threads + Wait + Sync>(
    rt: &R,
    desk: &Desk,
    taker: DeskPass,
    first: DeskPass,
    second: DeskPass,
) -> (DeskPass, u64)
    requires taker { IsOf desk.now taker × ((view_of taker).first ≡ true) }
    requires first { IsOf desk.now first × ((view_of first).posts ≡ true) }
    requires second { IsOf desk.now second × ((view_of second).posts ≡ true) }
    ensures { IsOf desk.now result.0 × ((view_of result.0).first ≡ true) }
{
    let (taken, _) = join(
        rt,
        move || -> (DeskPass, u64)
            requires { IsOf desk.now taker × ((view_of taker).first ≡ true) }
            ensures { IsOf desk.entry.now result.0 × ((view_of result.0).first ≡ true) }
        { take_all(rt, desk, taker) },
        move || -> (DeskPass, DeskPass)
            requires first { IsOf desk.now first × ((view_of first).posts ≡ true) }
            requires second { IsOf desk.now second × ((view_of second).posts ≡ true) }
        { post_both(rt, desk, first, second) },
    );
    taken
}

#[test]
fn two_posters_and_a_taker(rt: HostRuntime) -> Result<(), Fail> {
    let (desk, mut taker) = Desk::new(rt.alloc(), 4)?;
    let first = desk.split(&mut taker)?;
    let second = desk.split(&mut taker)?;
    let (mut taker, in_order) = take_beside(&rt, &desk, taker, first, second);
    assert_eq!(&rt; in_order, 2 * ORDERS);
    assert_eq!(&rt; desk.take_as(&rt, &mut taker), None);
    Ok(())
}
