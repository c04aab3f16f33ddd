//! Lending out turns, and whether a lease still shows what there is.

ghost use Rattle.std.specs.Prelude.{◌≡◌, ◌≤◌, ◌<◌, ◌^◌, ◌++◌, ◌∷◌, [], IfOk, OnErr, OnOk, IfSome, IsTrue, Option, Some, is_some, length, slice_get, false, true};
ghost use Rattle.std.specs.Option.{option_copied};
ghost use Rattle.sc_hosts.specs.Histories.{as_session};
ghost use Rattle.sc_hosts.specs.Runs.{prepared_turn};
ghost use Rattle.sc_hosts.specs.Nets.{host_at};
ghost use Rattle.sc_hosts.specs.Steps.{live_at, ringing_at};
ghost use Rattle.sc_model.specs.Settings.{app_of};
ghost use Rattle.sc_servlets.specs.Ranges.{is_numbered_below};
ghost use Rattle.sc_switch.specs.Beginnings.{BeginsAnyhow, IsOfferBegun, OffersBegun, is_branch_timer};
ghost use Rattle.sc_switch.specs.Offering.{Offers, IsOffer, IsMade};

use crate::readied::Readied;
use sc_parts::Setup;
use sc_prepare::prepared;
use sc_servlets::Lease;
use sc_state::{Live, Net, Prepared, Queued, Session, Waiting};
use sc_steps::{live_at, ringing_at};
use sc_terms::{AppEntry, Event, SessionView, View};
use sc_value::{AppId, Boxed, CloneIn, List, NoMemory, Same, Shared};
use std::alloc::Global;

/// A lease that is offered, and what its turn begins with, where the session and its event alone
/// tell it.
#[derive(Drop)]
pub struct Offered {
    pub lease: Lease,
    pub begun: Option<Boxed<Prepared>>,
}

/// A live session of a net, and its first event.
#[derive(Clone, Copy)]
struct First<'a> {
    app: AppId,
    live: &'a Live<Session>,
    waiting: &'a Waiting,
}

/// The application of a host.
pub fn app_of(setup: &Setup, host: u32) -> Option<&AppEntry>
    ensures { option_copied result ≡ app_of setup.now.config host }
{
    setup.config.app.as_slice().get(host as usize)
}

/// Whether the event is the timer of a branch.
#[tactic(auto, unfolding(crate::specs::Beginnings::is_branch_timer))]
fn is_branch_timer(event: &Queued) -> bool
    ensures { result ≡ is_branch_timer event.now }
{
    match event {
        Queued::BranchTimer { .. } => true,
        _ => false,
    }
}

/// The branches that ring, where the turn of this event asks for them.
fn ringing_for(
    alloc: Global,
    app: AppId,
    event: &Queued,
    net: &Net<Session>,
) -> Result<List<u64>, NoMemory>
    ensures { IfOk result
        (λ ringing.
        is_branch_timer event.now ≡ true → ringing ≡ ringing_at app (host_at app.host net.now)) }
{
    if is_branch_timer(event) {
        let ringing = ringing_at(alloc, app, net)?;
        return Ok(ringing);
    }
    Ok(List::new(alloc))
}

/// What the first event of a session shows at a moment.
#[tactic(auto, unfolding(sc_hosts::specs::Runs::prepared_turn, sc_hosts::specs::Histories::as_session))]
fn shown(
    alloc: Global,
    setup: &Setup,
    net: &Net<Session>,
    first: &First<'_>,
    now: u64,
) -> Result<Prepared, NoMemory>
    ensures { IfOk result
        (λ p.
        p
        ≡ prepared_turn as_session setup.now net.now first.now.app first.now.live.now
        first.now.waiting.now now) }
{
    let live = first.live;
    let waiting = first.waiting;
    let ringing = ringing_for(alloc, first.app, &waiting.event, net)?;
    let session = live.session.get().clone_in(alloc)?;
    prepared(
        alloc,
        &setup.config,
        ringing.as_slice(),
        session,
        waiting,
        now,
    )
}

/// The same, on the heap: it is handed from call to call until its turn.
fn shown_kept(
    alloc: Global,
    setup: &Setup,
    net: &Net<Session>,
    first: &First<'_>,
    now: u64,
) -> Result<Boxed<Prepared>, NoMemory>
    ensures { IfOk result
        (λ p.
        p
        ≡ prepared_turn as_session setup.now net.now first.now.app first.now.live.now
        first.now.waiting.now now) }
{
    let shown = shown(alloc, setup, net, first, now)?;
    Boxed::new(alloc, shown)
}

/// Whether the number of each SipSession is below 2^31.
#[tactic(auto, unfolding(sc_servlets::specs::Ranges::is_numbered_below))]
fn are_small(sessions: &[SessionView]) -> bool
    ensures { result ≡ is_numbered_below (2 ^ 31) sessions.now }
{
    sessions.iter().all(|session| session.id.0 < 2_147_483_648)
}

/// Whether the numbers of a view are in the ranges of a lease.
fn is_in_range(view: &View) -> bool
    ensures moment { IsTrue result → view.entry.now.now ≤ 2 ^ 63 }
    ensures counter { IsTrue result → view.entry.now.counter < 2 ^ 62 }
    ensures requests { IsTrue result → view.entry.now.next_request < 2 ^ 31 }
    ensures timers { IsTrue result → view.entry.now.next_timer < 2 ^ 31 }
    ensures sessions { IsTrue result → is_numbered_below (2 ^ 31) view.entry.now.sessions ≡ true }
{
    view.now <= 9_223_372_036_854_775_808
        && view.counter < 4_611_686_018_427_387_904
        && view.next_request < 2_147_483_648
        && view.next_timer < 2_147_483_648
        && are_small(view.sessions.as_slice())
}

/// A copy of the event that several owners have, where there is one.
fn shared_event(alloc: Global, event: &Option<Event>) -> Result<Option<Shared<Event>>, NoMemory>
    ensures { IfOk result (λ copy. copy ≡ event.now) }
{
    match event {
        Some(event) => Ok(Some(Shared::new(alloc, event.clone_in(alloc)?)?)),
        None => Ok(None),
    }
}

/// The lease that shows this, at this moment. `NoMemory` too where its numbers are out of the
/// ranges of a lease.
fn lease_of(
    alloc: Global,
    number: u64,
    first: &First<'_>,
    kind: usize,
    now: u64,
    shown: &Prepared,
) -> Result<Lease, NoMemory>
    ensures { IfOk result
        (λ lease.
        IsMade number first.now.app kind first.now.waiting.now.number now shown.now lease) }
{
    let waiting = first.waiting;
    if shown.view.now != now || !is_in_range(&shown.view) {
        return Err(NoMemory);
    }
    let event = shared_event(alloc, &shown.event)?;
    let shown = Shared::new(alloc, shown.view.clone_in(alloc)?)?;
    Ok(Lease {
        number,
        app: first.app,
        kind,
        event_number: waiting.number,
        shown,
        event,
    })
}

fn let_go(shown: Boxed<Prepared>) {
    drop(shown);
}

/// What is shown, but for the timer of a branch.
fn begun_of(event: &Queued, shown: Boxed<Prepared>) -> Option<Boxed<Prepared>>
    ensures { IfSome result
        (λ begun. (begun ≡ shown) × (is_branch_timer event.now ≡ false)) }
{
    if is_branch_timer(event) {
        let_go(shown);
        return None;
    }
    Some(shown)
}

/// The lease of the first event of a session, at the last moment; None exactly where the session
/// doesn't live or no event waits for it. What its turn begins with is kept.
#[tactic(auto, unfolding(crate::specs::Beginnings::IsOfferBegun, crate::specs::Beginnings::OffersBegun, crate::specs::Offering::Offers))]
pub fn offer(
    alloc: Global,
    setup: &Setup,
    net: &mut Readied,
    app: AppId,
    number: u64,
) -> Result<Option<Lease>, NoMemory>
    requires past { IfSome (live_at app net.old) (λ live. live.since ≤ net.old.moment) }
    requires hosts { length net.old.hosts ≡ length setup.now.config.app }
    ensures offers { IfOk result (λ lease. Offers setup.now net.old app number lease) }
    ensures same { net.new ≡ net.old }
{
    let now = net.moment();
    match offer_begun(alloc, setup, net.get(), app, number)? {
        Some(offered) => Ok(Some(keep_begun(app, now, offered, net))),
        None => Ok(None),
    }
}

/// Keeps what the turn of an offered lease begins with.
fn keep_begun(app: AppId, now: u64, offered: Offered, net: &mut Readied) -> Lease
    requires { IfSome offered.begun (λ shown. BeginsAnyhow net.old app now shown) }
    ensures lease { result ≡ offered.lease }
    ensures same { net.new ≡ net.old }
{
    let Offered { lease, begun } = offered;
    net.keep(app, now, begun);
    lease
}

#[tactic(auto, unfolding(crate::specs::Beginnings::OffersBegun, sc_runs::specs::Following::first_number), using(crate::proofs::Firsts::past_there, crate::proofs::Firsts::kind_there))]
fn offer_begun(
    alloc: Global,
    setup: &Setup,
    net: &Net<Session>,
    app: AppId,
    number: u64,
) -> Result<Option<Offered>, NoMemory>
    requires past { IfSome (live_at app net.now) (λ live. live.since ≤ net.now.moment) }
    requires hosts { length net.now.hosts ≡ length setup.now.config.app }
    ensures { IfOk result (λ offered. OffersBegun setup.now net.now app number offered) }
{
    match live_at(app, net) {
        Some(live) => offer_of(alloc, setup, net, app, live, number),
        None => Ok(None),
    }
}

#[tactic(auto, unfolding(crate::specs::Beginnings::OffersBegun, sc_runs::specs::Following::first_number))]
fn offer_of(
    alloc: Global,
    setup: &Setup,
    net: &Net<Session>,
    app: AppId,
    live: &Live<Session>,
    number: u64,
) -> Result<Option<Offered>, NoMemory>
    requires live { live_at app net.now ≡ Some live.now }
    requires past { live.now.since ≤ net.now.moment }
    requires kind { is_some (app_of setup.now.config app.host) ≡ true }
    ensures { IfOk result (λ offered. OffersBegun setup.now net.now app number offered) }
{
    match live.inbox.first() {
        Some(waiting) => {
            let first = First { app, live, waiting };
            Ok(Some(offer_waiting(alloc, setup, net, &first, number)?))
        }
        None => Ok(None),
    }
}

fn offer_waiting(
    alloc: Global,
    setup: &Setup,
    net: &Net<Session>,
    first: &First<'_>,
    number: u64,
) -> Result<Offered, NoMemory>
    requires live { live_at first.now.app net.now ≡ Some first.now.live.now }
    requires waits { slice_get first.now.live.now.inbox 0 ≡ Some first.now.waiting.now }
    requires past { first.now.live.now.since ≤ net.now.moment }
    requires kind { is_some (app_of setup.now.config first.now.app.host) ≡ true }
    ensures { IfOk result (λ offered. IsOfferBegun setup.now net.now first.now.app number offered) }
{
    let shown = shown_kept(alloc, setup, net, first, net.moment)?;
    match offer_first(alloc, setup, net, first, number, shown.get()) {
        Ok(lease) => {
            let waiting = first.waiting;
            let begun = begun_of(&waiting.event, shown);
            Ok(Offered { lease, begun })
        }
        Err(NoMemory) => {
            let_go(shown);
            Err(NoMemory)
        }
    }
}

fn offer_first(
    alloc: Global,
    setup: &Setup,
    net: &Net<Session>,
    first: &First<'_>,
    number: u64,
    begun: &Prepared,
) -> Result<Lease, NoMemory>
    requires live { live_at first.now.app net.now ≡ Some first.now.live.now }
    requires waits { slice_get first.now.live.now.inbox 0 ≡ Some first.now.waiting.now }
    requires past { first.now.live.now.since ≤ net.now.moment }
    requires kind { is_some (app_of setup.now.config first.now.app.host) ≡ true }
    requires begun { begun.now
        ≡ prepared_turn as_session setup.now net.now first.now.app first.now.live.now
        first.now.waiting.now net.now.moment }
    ensures { IfOk result (λ lease. IsOffer setup.now net.now first.now.app number lease) }
{
    let kind = match app_of(setup, first.app.host) {
        Some(entry) => entry.kind,
        None => unreachable!(),
    };
    lease_of(alloc, number, first, kind, net.moment, begun)
}

/// A copy of the lease is kept behind those that are.
pub fn keep_copy(alloc: Global, lease: &Lease, kept: &mut List<Lease>) -> Result<(), NoMemory>
    ensures ok { OnOk result (kept.new ≡ kept.old ++ lease.now ∷ []) }
    ensures err { OnErr result (kept.new ≡ kept.old) }
{
    let copy = lease.clone_in(alloc)?;
    kept.push(copy)?;
    Ok(())
}
