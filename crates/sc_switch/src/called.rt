//! Whom a lease calls, and whether a brought turn is that of a live lease.

ghost use Rattle.std.specs.Prelude.{◌≡◌, ◌↔◌, filter, position, Option, Some, slice_get, IsTrue};
ghost use Rattle.std.specs.Option.{option_copied};
ghost use Rattle.std.specs.List.{find};
ghost use Rattle.sc_model.specs.Settings.{charters_of};
ghost use Rattle.sc_servlets.specs.Brought.{called_servlet, called_listener};
ghost use Rattle.sc_switch.specs.Standing.{servlet_of, listener_of, is_live_lease};
ghost use Rattle.sc_leases.specs.Leases.{has_number, has_other_number, is_of_other, kept_after, without_app, without_number};
ghost use Rattle.sc_switch.specs.Offering.{Judges};

use crate::leasing::app_of;
use sc_parts::Setup;
use sc_servlets::{Done, Lease, is_listened};
use sc_terms::{Charter, Event, ListenerCharter, Step};
use sc_transact::is_same_app;
use sc_value::{AppId, List, Same, Shared};

/// What a brought turn is to the live leases.
#[derive(Clone, Copy, Debug, PartialEq, Eq)]
pub enum Judged {
    /// The turn of a live lease.
    Fits,
    /// No lease of its number is live.
    Gone,
    /// Another lease, or others called, under the number of a live one.
    Other,
}

/// Judges a brought turn by the live leases. It looks at all parts of the turn, so that it stands
/// apart from what takes the turn.
#[inline(never)]
#[tactic(auto, unfolding(crate::specs::Offering::Judges, crate::specs::Standing::is_live_lease))]
pub fn judge(setup: &Setup, kept: &[Lease], done: &Done) -> Judged
    ensures { Judges setup.now kept.now done.now result }
{
    match lease_of(kept, done.lease.number) {
        Some(lease) => judge_by(setup, kept, lease, done),
        None => Judged::Gone,
    }
}

/// The live lease of this number.
#[tactic(auto, using(sc_value::proofs::ListFacts::find_position, sc_value::proofs::ListFacts::find_none))]
fn lease_of(kept: &[Lease], number: u64) -> Option<&Lease>
    ensures { option_copied result ≡ find (has_number number) kept.now }
{
    match lease_place(kept, number) {
        Some(at) => Some(&kept[at]),
        None => None,
    }
}

fn lease_place(kept: &[Lease], number: u64) -> Option<usize>
    ensures { result ≡ position (has_number number) kept.now }
{
    kept.iter().position(|lease| lease.number == number)
}

#[tactic(auto, unfolding(crate::specs::Offering::Judges, crate::specs::Standing::is_live_lease))]
fn judge_by(setup: &Setup, kept: &[Lease], lease: &Lease, done: &Done) -> Judged
    requires { find (has_number done.now.lease.number) kept.now ≡ Some lease.now }
    ensures { Judges setup.now kept.now done.now result }
{
    if lease.same(&done.lease) && calls_right(setup, done) {
        Judged::Fits
    } else {
        Judged::Other
    }
}

/// Whether those were called whom the lease calls.
fn calls_right(setup: &Setup, done: &Done) -> bool
    ensures { IsTrue result ↔
        ((done.now.charter ≡ servlet_of setup.now done.now.lease)
        × (done.now.listener ≡ listener_of setup.now done.now.lease)) }
{
    done.charter == servlet_of(setup, &done.lease)
        && done.listener == listener_of(setup, &done.lease)
}

/// The charter of the servlet that a lease calls.
#[tactic(auto, unfolding(crate::specs::Standing::servlet_of))]
fn servlet_of(setup: &Setup, lease: &Lease) -> Option<Charter>
    ensures { result ≡ servlet_of setup.now lease.now }
{
    let (servlet, _) = charters_of(setup, lease.app.host)?;
    called_servlet(&lease.event, servlet)
}

/// The charter of the listener that a lease calls.
#[tactic(auto, unfolding(crate::specs::Standing::listener_of))]
fn listener_of(setup: &Setup, lease: &Lease) -> Option<ListenerCharter>
    ensures { result ≡ listener_of setup.now lease.now }
{
    let (_, listener) = charters_of(setup, lease.app.host)?;
    called_listener(&lease.event, listener)
}

/// The servlet's charter, where the event calls it.
#[tactic(auto, unfolding(sc_servlets::specs::Brought::called_servlet))]
fn called_servlet(event: &Option<Shared<Event>>, servlet: Charter) -> Option<Charter>
    ensures { result ≡ called_servlet event.now servlet }
{
    match event {
        Some(event) => {
            if is_listened(event.get()) {
                None
            } else {
                Some(servlet)
            }
        }
        None => None,
    }
}

/// The listener's charter, where the event calls it.
#[tactic(auto, unfolding(sc_servlets::specs::Brought::called_listener))]
fn called_listener(
    event: &Option<Shared<Event>>,
    listener: Option<ListenerCharter>,
) -> Option<ListenerCharter>
    ensures { result ≡ called_listener event.now listener }
{
    match event {
        Some(event) => {
            if is_listened(event.get()) {
                listener
            } else {
                None
            }
        }
        None => None,
    }
}

/// The charters of a host's application.
#[tactic(auto, unfolding(sc_model::specs::Settings::charters_of))]
fn charters_of(setup: &Setup, host: u32) -> Option<(Charter, Option<ListenerCharter>)>
    ensures { result ≡ charters_of setup.now host }
{
    match app_of(setup, host) {
        Some(app) => kind_at(setup.kinds.as_slice(), app.kind).copied(),
        None => None,
    }
}

/// The charters of the kind at this place.
fn kind_at(
    kinds: &[(Charter, Option<ListenerCharter>)],
    kind: usize,
) -> Option<&(Charter, Option<ListenerCharter>)>
    ensures { option_copied result ≡ slice_get kinds.now kind }
{
    kinds.get(kind)
}

#[tactic(auto, unfolding(sc_leases::specs::Leases::has_other_number))]
fn has_other_number(number: u64, lease: &Lease) -> bool
    ensures { result ≡ has_other_number number lease.now }
{
    lease.number != number
}

fn retain_others(number: u64, kept: &mut Vec<Lease>)
    ensures { kept.new.items ≡ filter (has_other_number number) kept.old.items }
{
    kept.retain(|lease| has_other_number(number, lease));
}

/// Ends the lease of this number.
#[tactic(auto, unfolding(sc_leases::specs::Leases::without_number))]
pub fn end_lease(number: u64, kept: &mut List<Lease>)
    ensures { kept.new ≡ without_number number kept.old }
{
    retain_others(number, &mut kept.items);
}

#[tactic(auto, unfolding(sc_leases::specs::Leases::is_of_other))]
fn is_of_other(app: AppId, lease: &Lease) -> bool
    ensures { result ≡ is_of_other app lease.now }
{
    !is_same_app(lease.app, app)
}

fn retain_of_others(app: AppId, kept: &mut Vec<Lease>)
    ensures { kept.new.items ≡ filter (is_of_other app) kept.old.items }
{
    kept.retain(|lease| is_of_other(app, lease));
}

/// Ends the leases of a session.
#[tactic(auto, unfolding(sc_leases::specs::Leases::without_app))]
fn end_leases(app: AppId, kept: &mut List<Lease>)
    ensures { kept.new ≡ without_app app kept.old }
{
    retain_of_others(app, &mut kept.items);
}

/// Ends the leases of the session whose turn or withdrawal a step is.
#[tactic(auto, unfolding(sc_leases::specs::Leases::kept_after))]
pub fn end_own(step: &Step, kept: &mut List<Lease>)
    ensures { kept.new ≡ kept_after step.now kept.old }
{
    match step {
        Step::Turn { app, .. } => end_leases(*app, kept),
        Step::Withdraw(app) => end_leases(*app, kept),
        Step::In(..) | Step::Bad(..) | Step::Lost(_) | Step::Tick(_) => {}
    }
}
