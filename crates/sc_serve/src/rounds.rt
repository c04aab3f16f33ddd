//! The rounds of a server.

ghost use Rattle.std.specs.Prelude.{◌≡◌, true, IfErr, OnOk, OnErr};
ghost use Rattle.sc_edge.specs.Edges.{CountsOn, EdgeState};
ghost use Rattle.sc_edge.specs.Faults.{one_more};
ghost use Rattle.sc_serve.specs.Running.{Blames, Goes, GoesOn, Halts, HaltsOn, Hears, IsDueAt, IsUnheard, Works, WorksPart};
ghost use Rattle.sc_edge.specs.declared.edge.Got.TheVariants as answers;

use crate::closing::close_broken;
use crate::server::Server;
use crate::stop::{Stop, stop_of};
use sc_edge::{Clock, Edge, Got, Notice, Orders};
use sc_journal::Journal;
use sc_lending::{Seat, work_once};
use sc_rounds::{Went, list, put_place, take_got, take_moment, take_order};
use sc_servlets::Catalogue;
use sc_terms::Step;
use sc_value::NoMemory;
use std::sync::Wait;

/// A round: what came is heard, an order and the clock are asked, turns are lent out, those that
/// were made are taken, and what was sent is put. Then steps are handed on that are recorded, and
/// the notice is told what lives, each where it is due. Whether anything came, was lent, was taken
/// or was put.
///
/// # Errors
///
/// `Edge` where the edge can't listen, `JournalFull` where the journal has no room for a step, and
/// `NoMemory`.
pub fn round<R: Wait, E: Edge, T: Clock, O: Orders, N: Notice<Journal<Step>>>(
    rt: &R,
    server: &mut Server,
    seat: &mut Option<Seat<'_>>,
    edge: &mut E,
    clock: &mut T,
    orders: &mut O,
    notice: &mut N,
    apps: &Catalogue,
) -> Result<bool, Stop>
    ensures ok { OnOk result
        (GoesOn server.old server.new (E.state edge.old) (E.state edge.new) (N.noted notice.old)
        (N.noted notice.new)
        ((T.asked clock.old, T.comes clock.old), (O.asked orders.old, O.comes orders.old))
        ((T.asked clock.new, T.comes clock.new), (O.asked orders.new, O.comes orders.new))) }
    ensures err { OnErr result
        (HaltsOn server.old server.new (E.state edge.old) (E.state edge.new) (N.noted notice.old)
        (N.noted notice.new)
        ((T.asked clock.old, T.comes clock.old), (O.asked orders.old, O.comes orders.old))
        ((T.asked clock.new, T.comes clock.new), (O.asked orders.new, O.comes orders.new))) }
    ensures due { IfErr result (λ cause. IsDueAt server.new.core.switch cause) }
    ensures later { CountsOn (E.state edge.old) (E.state edge.new) }
    ensures blames { IfErr result (λ cause. Blames (E.state edge.old) (E.state edge.new) cause) }
{
    match hear_once(server, edge, notice) {
        Ok(came) => {
            match step_once(rt, server, seat, clock, orders, notice, apps) {
                Ok(turned) => {
                    match put_once(server, edge, notice) {
                        Ok(went) => {
                            let busy = is_any(came, turned, went);
                            match tell_once(server, notice, busy) {
                                Ok(()) => Ok(busy),
                                Err(stop) => Err(stop),
                            }
                        }
                        Err(stop) => Err(stop),
                    }
                }
                Err(stop) => Err(stop),
            }
        }
        Err(stop) => Err(stop),
    }
}

fn is_any(came: bool, turned: bool, went: bool) -> bool {
    came || turned || went
}

/// Polls the edge once, unless the server has enough to work on: whether anything came.
fn hear_once<E: Edge, N: Notice<Journal<Step>>>(
    server: &mut Server,
    edge: &mut E,
    notice: &mut N,
) -> Result<bool, Stop>
    ensures ok { OnOk result
        (Goes server.old server.new (E.state edge.old) (E.state edge.new) (N.noted notice.old)
        (N.noted notice.new)) }
    ensures err { OnErr result
        (Halts server.old server.new (E.state edge.old) (E.state edge.new) (N.noted notice.old)
        (N.noted notice.new)) }
    ensures due { IfErr result (λ cause. IsDueAt server.new.core.switch cause) }
    ensures later { CountsOn (E.state edge.old) (E.state edge.new) }
    ensures blames { IfErr result (λ cause. Blames (E.state edge.old) (E.state edge.new) cause) }
    ensures hears { OnOk result
        (Hears server.old server.new (E.state edge.old) (E.state edge.new)) }
    ensures polled { OnErr result ((E.state edge.new).polls ≡ one_more (E.state edge.old).polls) }
{
    if !server.takes_more() {
        return Ok(false);
    }
    match poll_once(server, edge, notice) {
        Ok(came) => Ok(came),
        Err(stop) => Err(stop),
    }
}

/// Polls the edge once, and takes the steps of what came: whether anything did.
fn poll_once<E: Edge, N: Notice<Journal<Step>>>(
    server: &mut Server,
    edge: &mut E,
    notice: &mut N,
) -> Result<bool, Stop>
    ensures ok { OnOk result
        (Goes server.old server.new (E.state edge.old) (E.state edge.new) (N.noted notice.old)
        (N.noted notice.new)) }
    ensures err { OnErr result
        (Halts server.old server.new (E.state edge.old) (E.state edge.new) (N.noted notice.old)
        (N.noted notice.new)) }
    ensures due { IfErr result (λ cause. IsDueAt server.new.core.switch cause) }
    ensures later { CountsOn (E.state edge.old) (E.state edge.new) }
    ensures blames { IfErr result (λ cause. Blames (E.state edge.old) (E.state edge.new) cause) }
    ensures polled { (E.state edge.new).polls ≡ one_more (E.state edge.old).polls }
    ensures unpolled { server.new.unpolled ≡ server.old.unpolled }
{
    let got = edge.poll(&mut server.room);
    match take_got(
        &mut server.core,
        &mut server.streams,
        notice,
        got,
        &server.room,
    ) {
        Ok(came) => {
            if is_fault(got) {
                return Err(Stop::Edge);
            }
            match server.note(came) {
                Ok(some) => Ok(some),
                Err(NoMemory) => Err(Stop::NoMemory),
            }
        }
        Err(cause) => Err(stop_of(cause)),
    }
}

/// Whether the edge can't listen.
fn is_fault(got: Got) -> bool
    ensures { result ≡ true → got ≡ answers.Fault }
{
    match got {
        Got::Fault => true,
        _ => false,
    }
}

/// Takes one order, asks the clock, lends out turns and takes those that were made: whether an
/// order was taken, or a turn was lent or taken.
fn step_once<R: Wait, T: Clock, O: Orders, N: Notice<Journal<Step>>>(
    rt: &R,
    server: &mut Server,
    seat: &mut Option<Seat<'_>>,
    clock: &mut T,
    orders: &mut O,
    notice: &mut N,
    apps: &Catalogue,
) -> Result<bool, Stop>
    ensures ok { OnOk result
        ((edge : EdgeState)
        → Works server.old server.new edge (N.noted notice.old) (N.noted notice.new)
        ((T.asked clock.old, T.comes clock.old), (O.asked orders.old, O.comes orders.old))
        ((T.asked clock.new, T.comes clock.new), (O.asked orders.new, O.comes orders.new))) }
    ensures err { OnErr result
        ((edge : EdgeState)
        → WorksPart server.old server.new edge (N.noted notice.old) (N.noted notice.new)
        ((T.asked clock.old, T.comes clock.old), (O.asked orders.old, O.comes orders.old))
        ((T.asked clock.new, T.comes clock.new), (O.asked orders.new, O.comes orders.new))) }
    ensures due { IfErr result (λ cause. IsDueAt server.new.core.switch cause) }
    ensures blames { IfErr result (λ cause. (edge : EdgeState) → Blames edge edge cause) }
    ensures unpolled { server.new.unpolled ≡ server.old.unpolled }
{
    match take_order(&mut server.core, notice, orders) {
        Ok(ordered) => match take_moment(&mut server.core, notice, clock) {
            Ok(_) => match work_once(rt, &mut server.core, seat, notice, apps) {
                Ok(worked) => Ok(ordered || worked),
                Err(cause) => Err(stop_of(cause)),
            },
            Err(cause) => Err(stop_of(cause)),
        },
        Err(cause) => Err(stop_of(cause)),
    }
}

/// Puts what is left to each place once, and closes the places that gave what is no message:
/// whether anything was put or failed.
fn put_once<E: Edge, N: Notice<Journal<Step>>>(
    server: &mut Server,
    edge: &mut E,
    notice: &mut N,
) -> Result<bool, Stop>
    ensures ok { OnOk result
        (Goes server.old server.new (E.state edge.old) (E.state edge.new) (N.noted notice.old)
        (N.noted notice.new)) }
    ensures err { OnErr result
        (Halts server.old server.new (E.state edge.old) (E.state edge.new) (N.noted notice.old)
        (N.noted notice.new)) }
    ensures due { IfErr result (λ cause. IsDueAt server.new.core.switch cause) }
    ensures later { CountsOn (E.state edge.old) (E.state edge.new) }
    ensures blames { IfErr result (λ cause. Blames (E.state edge.old) (E.state edge.new) cause) }
    ensures unheard { IsUnheard server.old server.new (E.state edge.old) (E.state edge.new) }
{
    match put_all(server, edge, notice) {
        Ok(went) => {
            close_broken(
                edge,
                &mut server.broken,
                &server.core.outs,
                &mut server.watch,
            );
            Ok(went)
        }
        Err(stop) => Err(stop),
    }
}

/// Puts what is left to each place once. An entry that is done is taken out, so it goes from the
/// last one on.
fn put_all<E: Edge, N: Notice<Journal<Step>>>(
    server: &mut Server,
    edge: &mut E,
    notice: &mut N,
) -> Result<bool, Stop>
    ensures ok { OnOk result
        (Goes server.old server.new (E.state edge.old) (E.state edge.new) (N.noted notice.old)
        (N.noted notice.new)) }
    ensures err { OnErr result
        (Halts server.old server.new (E.state edge.old) (E.state edge.new) (N.noted notice.old)
        (N.noted notice.new)) }
    ensures due { IfErr result (λ cause. IsDueAt server.new.core.switch cause) }
    ensures later { CountsOn (E.state edge.old) (E.state edge.new) }
    ensures blames { IfErr result (λ cause. Blames (E.state edge.old) (E.state edge.new) cause) }
    ensures unheard { IsUnheard server.old server.new (E.state edge.old) (E.state edge.new) }
{
    let mut went = false;
    let count = server.core.outs.len();
    for done in 0..count {
        match put_at(server, edge, notice, count - 1 - done) {
            Ok(some) => went = went || some,
            Err(stop) => return Err(stop),
        }
    }
    Ok(went)
}

/// Puts what is left to the place of this entry, where there is one: whether anything was put or
/// failed.
fn put_at<E: Edge, N: Notice<Journal<Step>>>(
    server: &mut Server,
    edge: &mut E,
    notice: &mut N,
    at: usize,
) -> Result<bool, Stop>
    ensures ok { OnOk result
        (Goes server.old server.new (E.state edge.old) (E.state edge.new) (N.noted notice.old)
        (N.noted notice.new)) }
    ensures err { OnErr result
        (Halts server.old server.new (E.state edge.old) (E.state edge.new) (N.noted notice.old)
        (N.noted notice.new)) }
    ensures due { IfErr result (λ cause. IsDueAt server.new.core.switch cause) }
    ensures later { CountsOn (E.state edge.old) (E.state edge.new) }
    ensures blames { IfErr result (λ cause. Blames (E.state edge.old) (E.state edge.new) cause) }
    ensures unheard { IsUnheard server.old server.new (E.state edge.old) (E.state edge.new) }
{
    match server.core.outs.place_at(at) {
        Some(place) => match put_place(&mut server.core, &mut server.streams, edge, notice, place) {
            Ok(went) => match server.note_put(place, went) {
                Ok(some) => Ok(some),
                Err(NoMemory) => Err(Stop::NoMemory),
            },
            Err(cause) => Err(stop_of(cause)),
        },
        None => Ok(false),
    }
}

/// Tells the notice what lives, where that is due. `busy` is whether anything came, was lent, was taken or was put.
fn tell_once<N: Notice<Journal<Step>>>(
    server: &mut Server,
    notice: &mut N,
    busy: bool,
) -> Result<(), Stop>
    ensures ok { OnOk result
        ((edge : EdgeState)
        → Goes server.old server.new edge edge (N.noted notice.old) (N.noted notice.new)) }
    ensures err { OnErr result
        ((edge : EdgeState)
        → Halts server.old server.new edge edge (N.noted notice.old) (N.noted notice.new)) }
    ensures due { IfErr result (λ cause. IsDueAt server.new.core.switch cause) }
    ensures blames { IfErr result (λ cause. (edge : EdgeState) → Blames edge edge cause) }
    ensures unpolled { server.new.unpolled ≡ server.old.unpolled }
{
    let is_put_off = server.puts_off_listing(busy);
    if !server.core.is_list_due(is_put_off) {
        return Ok(());
    }
    match list(&mut server.core, notice) {
        Ok(()) => Ok(()),
        Err(cause) => Err(stop_of(cause)),
    }
}
