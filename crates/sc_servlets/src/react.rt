//! Making a turn: calling whom its event is for.

ghost use Rattle.std.specs.Prelude.{◌≡◌, ◌<◌, [], true, false, map, length, Option, None, Some, option_map};
ghost use Rattle.std.specs.List.{slice_get};
ghost use Rattle.sc_servlets.specs.Stated.{both_charters, servlet_at, listener_at};
ghost use Rattle.sc_hosts.specs.Bringing.{is_listened};
ghost use Rattle.sc_servlets.specs.Brought.{Meets, ServletAllowed, ListenerAllowed, Promises, ListenerPromises, IsBrought, called_servlet, called_listener};

use crate::{Catalogue, Done, Kind, Lease, Listener};
use sc_terms::{Charter, End, Event, ListenerCharter, View};
use sc_turn::{Called, Turn};
use sc_value::{List, Shared};
use std::alloc::Global;

/// A turn that was made, with whom was called.
#[derive(Drop)]
struct Made {
    charter: Option<Charter>,
    listener: Option<ListenerCharter>,
    called: Called,
}

impl Catalogue {
    /// Makes the turn of a lease. At `Expired` and `Ready` the kind's listener is told, where there
    /// is one, that the application session expires or is ready to go away (JSR 289 sections
    /// 6.1.2.1 and 6.1.2.2). At every other event the kind's servlet is called. Else nobody is
    /// called: no calls, and the end is `Fine`. For want of memory the end is `Starved`, whatever
    /// the servlet or listener answered.
    pub fn react(&self, alloc: Global, lease: Lease) -> Done
        requires { lease.kind < length self.now.kinds }
        ensures lease { result.lease ≡ lease }
        ensures charter { option_map (servlet_at lease.event)
            (slice_get
            (map
            (λ k. both_charters (stated k.servlet) (option_map (λ l. listens l) k.listener))
            self.now.kinds) lease.kind) ≡ Some result.charter }
        ensures listener { option_map (listener_at lease.event)
            (slice_get
            (map
            (λ k. both_charters (stated k.servlet) (option_map (λ l. listens l) k.listener))
            self.now.kinds) lease.kind) ≡ Some result.listener }
    {
        react_of(alloc, &self.kinds.items[lease.kind], lease)
    }
}

fn react_of(alloc: Global, kind: &Kind, lease: Lease) -> Done
    ensures lease { result.lease ≡ lease }
    ensures charter { result.charter ≡ called_servlet lease.event (stated kind.now.servlet) }
    ensures listener { result.listener
        ≡ called_listener lease.event (option_map (λ l. listens l) kind.now.listener) }
{
    let Lease {
        number,
        app,
        kind: place,
        event_number,
        shown,
        event,
    } = lease;
    let Made {
        charter,
        listener,
        called,
    } = made_of(alloc, kind, shown, &event);
    let Called { shown, calls, end } = called;
    Done {
        lease: Lease {
            number,
            app,
            kind: place,
            event_number,
            shown,
            event,
        },
        charter,
        listener,
        calls,
        end,
    }
}

#[tactic(auto, unfolding(crate::specs::Brought::IsBrought, crate::specs::Brought::CalledAllowed, crate::specs::Brought::called_servlet, crate::specs::Brought::called_listener))]
fn made_of(alloc: Global, kind: &Kind, shown: Shared<View>, event: &Option<Shared<Event>>) -> Made
    ensures shown { result.called.shown ≡ shown }
    ensures charter { result.charter ≡ called_servlet event.now (stated kind.now.servlet) }
    ensures listener { result.listener
        ≡ called_listener event.now (option_map (λ l. listens l) kind.now.listener) }
    ensures brought { IsBrought shown event.now result.charter result.listener result.called.calls
        result.called.end }
{
    match event {
        None => nobody(alloc, shown),
        Some(event) => {
            let event = event.get();
            if is_listened(event) {
                return made_told(alloc, &kind.listener, shown, event);
            }
            Made {
                charter: Some(servlet_charter(kind)),
                listener: None,
                called: call_servlet(alloc, kind, shown, event),
            }
        }
    }
}

/// Whether the listener is told of the event, which is `Expired` or `Ready`, and not the servlet.
#[tactic(auto, unfolding(sc_hosts::specs::Bringing::is_listened))]
pub fn is_listened(event: &Event) -> bool
    ensures { result ≡ is_listened event.now }
{
    match event {
        Event::Expired | Event::Ready => true,
        _ => false,
    }
}

#[tactic(auto, unfolding(crate::specs::Brought::IsBrought, crate::specs::Brought::CalledAllowed))]
fn made_told(
    alloc: Global,
    listener: &Option<Box<dyn Listener>>,
    shown: Shared<View>,
    event: &Event,
) -> Made
    requires { is_listened event.now ≡ true }
    ensures shown { result.called.shown ≡ shown }
    ensures charter { result.charter ≡ None }
    ensures listener { result.listener ≡ option_map (λ l. listens l) listener.now }
    ensures brought { IsBrought shown (Some event.now) None result.listener result.called.calls
        result.called.end }
{
    match listener {
        Some(listener) => Made {
            charter: None,
            listener: Some(charter_of(listener)),
            called: call_listener(alloc, listener, shown, event),
        },
        None => nobody(alloc, shown),
    }
}

fn servlet_charter(kind: &Kind) -> Charter
    ensures { result ≡ stated kind.now.servlet }
{
    kind.servlet.charter()
}

fn charter_of(listener: &Box<dyn Listener>) -> ListenerCharter
    ensures { result ≡ listens listener.now }
{
    listener.charter()
}

/// The turn at which nobody is called.
fn nobody(alloc: Global, shown: Shared<View>) -> Made
    ensures shown { result.called.shown ≡ shown }
    ensures charter { result.charter ≡ None }
    ensures listener { result.listener ≡ None }
    ensures calls { result.called.calls ≡ [] }
    ensures end { result.called.end ≡ End.Fine }
{
    Made {
        charter: None,
        listener: None,
        called: Called {
            shown,
            calls: List::new(alloc),
            end: End::Fine,
        },
    }
}

/// The turn that couldn't begin for want of memory.
fn starved(alloc: Global, shown: Shared<View>) -> Called
    ensures shown { result.shown ≡ shown }
    ensures end { result.end ≡ End.Starved }
{
    Called {
        shown,
        calls: List::new(alloc),
        end: End::Starved,
    }
}

#[tactic(auto, unfolding(crate::specs::Brought::Meets))]
fn call_servlet(alloc: Global, kind: &Kind, shown: Shared<View>, event: &Event) -> Called
    ensures shown { result.shown ≡ shown }
    ensures allowed { Meets result.end
        (ServletAllowed (stated kind.now.servlet) shown event.now result.calls result.end) }
{
    match Turn::begin(alloc, shown) {
        Ok(mut turn) => {
            let end = servlet_turn(kind, &mut turn, event);
            turn.finish(end)
        }
        Err(shown) => starved(alloc, shown),
    }
}

#[tactic(auto, unfolding(crate::specs::Brought::Meets))]
fn call_listener(
    alloc: Global,
    listener: &Box<dyn Listener>,
    shown: Shared<View>,
    event: &Event,
) -> Called
    requires { is_listened event.now ≡ true }
    ensures shown { result.shown ≡ shown }
    ensures allowed { Meets result.end
        (ListenerAllowed (listens listener.now) shown event.now result.calls result.end) }
{
    match Turn::begin(alloc, shown) {
        Ok(mut turn) => {
            let end = listener_turn(listener, &mut turn, event);
            turn.finish(end)
        }
        Err(shown) => starved(alloc, shown),
    }
}

/// The servlet's turn, as its trait promises it.
fn servlet_turn(kind: &Kind, turn: &mut Turn, event: &Event) -> End
    requires calls { turn.old.calls ≡ [] }
    requires memory { turn.old.starved ≡ false }
    ensures same { turn.new.shown ≡ turn.old.shown }
    ensures promised { Meets result
        (Promises (stated kind.now.servlet) turn.old.shown event.now turn.new.calls result) }
{
    kind.servlet.turn(turn, event)
}

/// The listener's turn at `Expired` or at `Ready`, as its trait promises it.
#[tactic(auto, unfolding(sc_hosts::specs::Bringing::is_listened))]
fn listener_turn(listener: &Box<dyn Listener>, turn: &mut Turn, event: &Event) -> End
    requires told { is_listened event.now ≡ true }
    requires calls { turn.old.calls ≡ [] }
    requires memory { turn.old.starved ≡ false }
    ensures same { turn.new.shown ≡ turn.old.shown }
    ensures promised { Meets result
        (ListenerPromises (listens listener.now) turn.old.shown event.now turn.new.calls result) }
{
    match event {
        Event::Expired => listener.expired(turn),
        Event::Ready => listener.ready(turn),
        _ => unreachable!(),
    }
}
