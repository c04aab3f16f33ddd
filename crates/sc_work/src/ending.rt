//! What the end of SipSessions sends: answers to requests that wait for one, and CANCELs.

ghost use Rattle.std.specs.Prelude.{◌≡◌, ◌++◌, ◌∷◌, [], true, nat_le, None, map, position, IfOk, OnOk};
ghost use Rattle.std.specs.List.{flat_map};
ghost use Rattle.sc_value.specs.Lists.{change_first};
ghost use Rattle.sc_hosts.specs.Looking.{same_session};
ghost use Rattle.sc_hosts.specs.Legs.{change_leg, is_leg_of};
ghost use Rattle.sc_hosts.specs.Working.{branch_of, goodbyes, in_order, insert_number, invalidates, invite_branches, owed_answer};
ghost use Rattle.sc_sending.specs.Pieces.{as_invalidated};
ghost use Rattle.sc_work.specs.Goodbyes.{is_whose, owed_by, kept_branches, proxy_branches, cancel_now};
ghost use Rattle.sc_model.specs.BestResponses.{server_error};

use sc_branches::is_invite;
use sc_effects::{is_owed, kept_of};
use sc_legs::leg_place;
use sc_pages::{Page, Pages};
use sc_sending::answers;
use sc_state::{Branch, Kept, Known, Leg, Order, Proxy, Way, Working};
use sc_terms::{Answer, Config, RequestView, View};
use sc_value::{List, NoMemory, SessId, Text};
use std::alloc::Global;

#[tactic(auto, unfolding(sc_model::specs::BestResponses::server_error))]
fn error_answer(alloc: Global) -> Result<Answer, NoMemory>
    ensures { IfOk result
        (λ answer.
        answer
        ≡ record { code = 500; reason = server_error; fields = []; contact = []; body = [] }) }
{
    let reason = Text::from_slice(alloc, b"Server Internal Error")?;
    Ok(Answer {
        code: 500,
        reason,
        fields: List::new(alloc),
        contact: List::new(alloc),
        body: Text::new(alloc),
    })
}

#[tactic(auto, unfolding(sc_hosts::specs::Working::owed_answer))]
fn owed_answer(
    alloc: Global,
    config: &Config,
    view: &View,
    known: &Known,
    request: &RequestView,
    orders: &mut List<Order>,
) -> Result<(), NoMemory>
    ensures { OnOk result
        (orders.new ≡ orders.old ++ owed_answer config.now view.entry.now known.now request.now) }
{
    let answer = error_answer(alloc)?;
    let kept = kept_of(known, request.id);
    answers(alloc, config, &answer, view, kept, request.initial, orders)
}

#[tactic(auto, unfolding(crate::specs::Goodbyes::is_whose))]
fn is_whose(whose: Option<SessId>, sess: SessId) -> bool
    ensures { result ≡ is_whose whose sess }
{
    match whose {
        Some(one) => one.0 == sess.0,
        None => true,
    }
}

#[tactic(auto, unfolding(crate::specs::Goodbyes::owed_by))]
fn owed_by(
    alloc: Global,
    config: &Config,
    view: &View,
    known: &Known,
    whose: Option<SessId>,
    request: &RequestView,
    orders: &mut List<Order>,
) -> Result<(), NoMemory>
    ensures { OnOk result
        (orders.new ≡ orders.old ++ owed_by config.now view.entry.now known.now whose request.now) }
{
    if is_whose(whose, request.sess) && is_owed(request) {
        return owed_answer(alloc, config, view, known, request, orders);
    }
    Ok(())
}

fn all_owed(
    alloc: Global,
    config: &Config,
    view: &View,
    known: &Known,
    whose: Option<SessId>,
    requests: &[RequestView],
    orders: &mut List<Order>,
) -> Result<(), NoMemory>
    ensures { OnOk result
        (orders.new
        ≡ orders.old
        ++ flat_map (owed_by config.now view.entry.now known.now whose) requests.now) }
{
    for request in requests {
        owed_by(alloc, config, view, known, whose, request, orders)?;
    }
    Ok(())
}

fn all_owed_of_pages(
    alloc: Global,
    config: &Config,
    view: &View,
    known: &Known,
    whose: Option<SessId>,
    pages: &[Page<RequestView>],
    orders: &mut List<Order>,
) -> Result<(), NoMemory>
    ensures { OnOk result
        (orders.new
        ≡ orders.old
        ++ flat_map (λ page. flat_map (owed_by config.now view.entry.now known.now whose) page)
        pages.now) }
{
    for page in pages {
        all_owed(alloc, config, view, known, whose, page.items(), orders)?;
    }
    Ok(())
}

#[tactic(auto, using(sc_pages::proofs::PagesLaws::flat_parts))]
fn all_owed_in(
    alloc: Global,
    config: &Config,
    view: &View,
    known: &Known,
    whose: Option<SessId>,
    orders: &mut List<Order>,
) -> Result<(), NoMemory>
    ensures { OnOk result
        (orders.new
        ≡ orders.old
        ++ flat_map (owed_by config.now view.entry.now known.now whose)
        view.entry.now.requests) }
{
    let (pages, newest) = view.requests.parts();
    all_owed_of_pages(alloc, config, view, known, whose, pages, orders)?;
    all_owed(alloc, config, view, known, whose, newest, orders)
}

fn number_place(numbers: &[u64], number: u64) -> Option<usize>
    ensures { result ≡ position (nat_le number) numbers.now }
{
    numbers.iter().position(|other| number <= *other)
}

#[tactic(auto, using(crate::proofs::Endings::insert_some, crate::proofs::Endings::insert_none))]
fn insert_number(number: u64, numbers: &mut Vec<u64>) -> Result<(), NoMemory>
    ensures { OnOk result (numbers.new.items ≡ insert_number number numbers.old.items) }
{
    match number_place(numbers.as_slice(), number) {
        Some(at) => numbers.insert(at, number)?,
        None => numbers.push(number)?,
    }
    Ok(())
}

#[tactic(auto, unfolding(sc_hosts::specs::Working::in_order))]
fn in_order(alloc: Global, numbers: &[u64]) -> Result<Vec<u64>, NoMemory>
    ensures { IfOk result (λ sorted. sorted.items ≡ in_order numbers.now) }
{
    let mut sorted = Vec::new(alloc);
    let mut left = numbers.len();
    while 0 < left {
        left -= 1;
        insert_number(numbers[left], &mut sorted)?;
    }
    Ok(sorted)
}

#[tactic(auto, unfolding(sc_hosts::specs::Working::branch_of))]
fn branch_of(way: Way, numbers: &mut Vec<u64>) -> Result<(), NoMemory>
    ensures { OnOk result (numbers.new.items ≡ numbers.old.items ++ branch_of way) }
{
    match way {
        Way::Sent { branch } => numbers.push(branch)?,
        Way::Received { .. } => {}
    }
    Ok(())
}

#[tactic(auto, unfolding(crate::specs::Goodbyes::kept_branches))]
fn kept_branches(whose: Option<SessId>, kept: &Kept, numbers: &mut Vec<u64>) -> Result<(), NoMemory>
    ensures { OnOk result (numbers.new.items ≡ numbers.old.items ++ kept_branches whose kept.now) }
{
    if is_whose(whose, kept.sess) && sc_methods::is_invite(kept.request.get().method.as_bytes()) {
        return branch_of(kept.way, numbers);
    }
    Ok(())
}

fn all_kept(whose: Option<SessId>, kept: &[Kept], numbers: &mut Vec<u64>) -> Result<(), NoMemory>
    ensures { OnOk result
        (numbers.new.items ≡ numbers.old.items ++ flat_map (kept_branches whose) kept.now) }
{
    for one in kept {
        kept_branches(whose, one, numbers)?;
    }
    Ok(())
}

fn branch_numbers(branches: &[Branch], numbers: &mut Vec<u64>) -> Result<(), NoMemory>
    ensures { OnOk result
        (numbers.new.items ≡ numbers.old.items ++ map (λ branch. branch.number) branches.now) }
{
    for branch in branches {
        numbers.push(branch.number)?;
    }
    Ok(())
}

#[tactic(auto, unfolding(crate::specs::Goodbyes::proxy_branches))]
fn proxy_branches(
    whose: Option<SessId>,
    proxy: &Proxy,
    numbers: &mut Vec<u64>,
) -> Result<(), NoMemory>
    ensures { OnOk result
        (numbers.new.items ≡ numbers.old.items ++ proxy_branches whose proxy.now) }
{
    if is_whose(whose, proxy.sess) && is_invite(proxy) {
        return branch_numbers(proxy.branches.as_slice(), numbers);
    }
    Ok(())
}

fn all_proxies(
    whose: Option<SessId>,
    proxies: &[Proxy],
    numbers: &mut Vec<u64>,
) -> Result<(), NoMemory>
    ensures { OnOk result
        (numbers.new.items ≡ numbers.old.items ++ flat_map (proxy_branches whose) proxies.now) }
{
    for proxy in proxies {
        proxy_branches(whose, proxy, numbers)?;
    }
    Ok(())
}

fn all_kept_of_pages(
    whose: Option<SessId>,
    pages: &[Page<Kept>],
    numbers: &mut Vec<u64>,
) -> Result<(), NoMemory>
    ensures { OnOk result
        (numbers.new.items
        ≡ numbers.old.items ++ flat_map (λ page. flat_map (kept_branches whose) page) pages.now) }
{
    for page in pages {
        all_kept(whose, page.items(), numbers)?;
    }
    Ok(())
}

#[tactic(auto, using(sc_pages::proofs::PagesLaws::flat_parts))]
fn all_kept_in(
    whose: Option<SessId>,
    kept: &Pages<Kept>,
    numbers: &mut Vec<u64>,
) -> Result<(), NoMemory>
    ensures { OnOk result
        (numbers.new.items ≡ numbers.old.items ++ flat_map (kept_branches whose) kept.now) }
{
    let (pages, newest) = kept.parts();
    all_kept_of_pages(whose, pages, numbers)?;
    all_kept(whose, newest, numbers)
}

fn all_proxies_of_pages(
    whose: Option<SessId>,
    pages: &[Page<Proxy>],
    numbers: &mut Vec<u64>,
) -> Result<(), NoMemory>
    ensures { OnOk result
        (numbers.new.items
        ≡ numbers.old.items ++ flat_map (λ page. flat_map (proxy_branches whose) page) pages.now) }
{
    for page in pages {
        all_proxies(whose, page.items(), numbers)?;
    }
    Ok(())
}

#[tactic(auto, using(sc_pages::proofs::PagesLaws::flat_parts))]
fn all_proxies_in(
    whose: Option<SessId>,
    proxies: &Pages<Proxy>,
    numbers: &mut Vec<u64>,
) -> Result<(), NoMemory>
    ensures { OnOk result
        (numbers.new.items ≡ numbers.old.items ++ flat_map (proxy_branches whose) proxies.now) }
{
    let (pages, newest) = proxies.parts();
    all_proxies_of_pages(whose, pages, numbers)?;
    all_proxies(whose, newest, numbers)
}

// The branches of the INVITEs that were sent, in their order.
#[tactic(auto, using(crate::proofs::Pieced::invite_branches_are))]
fn invite_branches(
    alloc: Global,
    whose: Option<SessId>,
    known: &Known,
) -> Result<Vec<u64>, NoMemory>
    ensures { IfOk result
        (λ numbers. numbers.items ≡ in_order (invite_branches (is_whose whose) known.now)) }
{
    let mut numbers = Vec::new(alloc);
    all_kept_in(whose, &known.kept, &mut numbers)?;
    all_proxies_in(whose, &known.proxies, &mut numbers)?;
    in_order(alloc, numbers.as_slice())
}

#[tactic(auto, unfolding(crate::specs::Goodbyes::cancel_now))]
fn cancel_now(branch: u64, orders: &mut List<Order>) -> Result<(), NoMemory>
    ensures { OnOk result (orders.new ≡ orders.old ++ cancel_now branch ∷ []) }
{
    orders.push(Order::CancelNow { branch })?;
    Ok(())
}

fn all_cancelled(branches: &[u64], orders: &mut List<Order>) -> Result<(), NoMemory>
    ensures { OnOk result (orders.new ≡ orders.old ++ map cancel_now branches.now) }
{
    for branch in branches {
        cancel_now(*branch, orders)?;
    }
    Ok(())
}

#[tactic(auto, using(crate::proofs::Pieced::goodbyes_made))]
fn goodbyes(
    alloc: Global,
    config: &Config,
    view: &View,
    known: &Known,
    whose: Option<SessId>,
    orders: &mut List<Order>,
) -> Result<(), NoMemory>
    ensures { OnOk result
        (orders.new ≡ orders.old ++ goodbyes config.now view.entry.now known.now (is_whose whose)) }
{
    let branches = invite_branches(alloc, whose, known)?;
    all_owed_in(alloc, config, view, known, whose, orders)?;
    all_cancelled(branches.as_slice(), orders)?;
    Ok(())
}

/// Puts the answers that the end of all SipSessions gives at the end of a list: 500 to what was
/// received, in order of number.
pub fn owed_all(
    alloc: Global,
    config: &Config,
    view: &View,
    known: &Known,
    orders: &mut List<Order>,
) -> Result<(), NoMemory>
    ensures { OnOk result
        (orders.new
        ≡ orders.old
        ++ flat_map (owed_by config.now view.entry.now known.now None)
        view.entry.now.requests) }
{
    all_owed_in(alloc, config, view, known, None, orders)
}

/// Puts the CANCELs that the end of all SipSessions sends at the end of a list: one to each INVITE
/// that was sent, in order of their branches.
#[tactic(auto, unfolding(crate::specs::Goodbyes::is_whose))]
pub fn cancels_all(alloc: Global, known: &Known, orders: &mut List<Order>) -> Result<(), NoMemory>
    ensures { OnOk result
        (orders.new
        ≡ orders.old ++ map cancel_now (in_order (invite_branches (λ sess. true) known.now))) }
{
    let branches = invite_branches(alloc, None, known)?;
    all_cancelled(branches.as_slice(), orders)
}

/// Puts what the end of a SipSession sends at the end of a list: 500 to what was received, in order
/// of number, and a CANCEL to each INVITE that was sent, in order of their branches.
#[tactic(auto, unfolding(crate::specs::Goodbyes::is_whose))]
pub fn goodbyes_of(
    alloc: Global,
    config: &Config,
    view: &View,
    known: &Known,
    sess: SessId,
    orders: &mut List<Order>,
) -> Result<(), NoMemory>
    ensures { OnOk result
        (orders.new
        ≡ orders.old ++ goodbyes config.now view.entry.now known.now (same_session sess)) }
{
    goodbyes(alloc, config, view, known, Some(sess), orders)
}

#[tactic(auto, unfolding(sc_sending::specs::Pieces::as_invalidated))]
fn as_invalidated(leg: &mut Leg)
    ensures { leg.new ≡ as_invalidated leg.old }
{
    leg.invalidated = true;
}

#[tactic(auto, using(sc_value::proofs::ListFacts::change_first_position, sc_value::proofs::ListFacts::change_first_none))]
fn invalidated_among(legs: &mut [Leg], sess: SessId)
    ensures { legs.new ≡ change_first (is_leg_of sess) as_invalidated legs.old }
{
    match leg_place(legs, sess) {
        Some(at) => as_invalidated(&mut legs[at]),
        None => {}
    }
}

#[tactic(auto, unfolding(sc_hosts::specs::Legs::change_leg))]
fn invalidated_in(known: &mut Known, sess: SessId)
    ensures { known.new ≡ change_leg sess as_invalidated known.old }
{
    invalidated_among(&mut known.legs.items, sess);
}

/// Ends a SipSession by a call.
#[tactic(auto, unfolding(sc_hosts::specs::Working::invalidates, sc_sending::specs::Pieces::as_invalidated))]
pub fn invalidates(
    alloc: Global,
    config: &Config,
    sess: SessId,
    working: &mut Working,
) -> Result<(), NoMemory>
    ensures { OnOk result (working.new ≡ invalidates config.now sess working.old) }
{
    goodbyes_of(
        alloc,
        config,
        &working.play.view,
        &working.known,
        sess,
        &mut working.orders,
    )?;
    invalidated_in(&mut working.known, sess);
    Ok(())
}
