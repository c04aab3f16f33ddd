//! Proxies, timers, attributes and flags.

ghost use Rattle.std.specs.Prelude.{◌≡◌, position, OnOk, IfOk};
ghost use Rattle.sc_value.specs.Lists.{change_first, remove_first};
ghost use Rattle.sc_tokens.specs.Names.{same_bytes};
ghost use Rattle.sc_model.specs.Settings.{moment_after};
ghost use Rattle.sc_hosts.specs.Looking.{is_request, is_session, is_timer, request_in};
ghost use Rattle.sc_hosts.specs.Refusals.{is_set};
ghost use Rattle.sc_hosts.specs.Effects.{proxied_request, proxying, view_with_targets, with_attribute, with_invalidation_flag, with_timer};
ghost use Rattle.sc_effects.specs.Elements.{proxied_at, with_flag, with_value};

use sc_looking::{Numbered, is_proxy, is_set, request_in, session_place, timer_place};
use sc_pages::{Change, Pages, Scope};
use sc_terms::{Period, RequestView, Role, SessionView, Target, TimerView, View};
use sc_value::{
    CloneIn, Field, List, NoMemory, ReqId, SessId, Text, TimerId, sum, sum_u8, sum_u32,
};
use std::alloc::Global;

#[tactic(auto, unfolding(sc_hosts::specs::Effects::proxied_request))]
fn proxied_request(request: &mut RequestView, count: usize) -> Result<(), NoMemory>
    ensures { OnOk result (request.new ≡ proxied_request count request.old) }
{
    let branches = sum_u8(request.branches, count)?;
    request.proxied = true;
    request.branches = branches;
    Ok(())
}

// A request that is proxied to so many targets more.
#[derive(Clone, Copy)]
struct MoreProxied {
    count: usize,
}

impl Change<RequestView> for MoreProxied {
    ghost changed = { λ p. proxied_request p.count };

    fn change(&self, request: &mut RequestView) -> Result<(), NoMemory> {
        proxied_request(request, self.count)
    }
}

fn proxied_in(requests: &mut Pages<RequestView>, req: ReqId, count: usize) -> Result<(), NoMemory>
    ensures { OnOk result
        (requests.new ≡ change_first (is_request req) (proxied_request count) requests.old) }
{
    requests.change_first(
        Scope::Number(req.0),
        &Numbered { req },
        &MoreProxied { count },
    )
}

#[tactic(auto, unfolding(sc_hosts::specs::Effects::proxying))]
fn proxying(session: &mut SessionView)
    ensures { session.new ≡ proxying session.old }
{
    if !is_proxy(session.role) {
        session.role = Role::Proxy;
        session.peer_tag = None;
    }
}

#[tactic(auto, using(sc_value::proofs::ListFacts::change_first_position, sc_value::proofs::ListFacts::change_first_none))]
fn proxying_in(sessions: &mut [SessionView], sess: SessId)
    ensures { sessions.new ≡ change_first (is_session sess) proxying sessions.old }
{
    match session_place(sessions, sess) {
        Some(at) => proxying(&mut sessions[at]),
        None => {}
    }
}

#[tactic(auto, unfolding(crate::specs::Elements::proxied_at))]
fn proxied_at(view: &mut View, req: ReqId, sess: SessId, count: usize) -> Result<(), NoMemory>
    ensures { OnOk result (view.new ≡ proxied_at req sess count view.old) }
{
    proxied_in(&mut view.requests, req, count)?;
    proxying_in(&mut view.sessions.items, sess);
    Ok(())
}

/// Notes that a request is proxied to so many targets more. Its SipSession then waits for the tag
/// of the callee.
#[tactic(auto, unfolding(sc_hosts::specs::Effects::view_with_targets, crate::specs::Elements::proxied_at))]
pub fn proxied(view: &mut View, req: ReqId, count: usize) -> Result<(), NoMemory>
    ensures { OnOk result (view.new ≡ view_with_targets (request_in view.old req) count view.old) }
{
    match request_in(view, req) {
        Some(request) => {
            let (id, sess) = (request.id, request.sess);
            proxied_at(view, id, sess, count)
        }
        None => Ok(()),
    }
}

/// Starts a timer.
#[tactic(auto, unfolding(sc_hosts::specs::Effects::with_timer))]
pub fn with_timer(
    alloc: Global,
    view: &mut View,
    delay: u32,
    period: Period,
    info: &Text,
) -> Result<(), NoMemory>
    ensures { OnOk result (view.new ≡ with_timer delay period info.now view.old) }
{
    let due = sum(view.now, u64::from(delay))?;
    let next_timer = sum_u32(view.next_timer, 1)?;
    let info = info.clone_in(alloc)?;
    let id = TimerId(view.next_timer);
    view.timers.push(TimerView {
        id,
        due,
        period,
        info,
    })?;
    view.next_timer = next_timer;
    Ok(())
}

/// Ends a timer.
#[tactic(auto, using(sc_value::proofs::ListFacts::remove_first_position, sc_value::proofs::ListFacts::remove_first_none))]
pub fn remove_timer(timers: &mut List<TimerView>, id: TimerId)
    ensures { timers.new ≡ remove_first (is_timer id) timers.old }
{
    match timer_place(timers.as_slice(), id) {
        Some(at) => drop(timers.items.remove(at)),
        None => {}
    }
}

fn field_place(fields: &[Field], name: &[u8]) -> Option<usize>
    ensures { result ≡ position (λ field. same_bytes field.name name.now) fields.now }
{
    fields
        .iter()
        .position(|field| field.name.as_bytes() == name)
}

#[tactic(auto, unfolding(crate::specs::Elements::with_value))]
fn with_value(field: &mut Field, value: Text)
    ensures { field.new ≡ with_value value field.old }
{
    field.value = value;
}

#[tactic(auto, using(sc_value::proofs::ListFacts::change_first_position, sc_value::proofs::ListFacts::change_first_none))]
fn value_in(fields: &mut [Field], name: &[u8], value: Text)
    ensures { fields.new
        ≡ change_first (λ field. same_bytes field.name name.now) (with_value value) fields.old }
{
    match field_place(fields, name) {
        Some(at) => with_value(&mut fields[at], value),
        None => {}
    }
}

/// Sets an attribute. One that is set again keeps its place.
#[tactic(auto, unfolding(sc_hosts::specs::Effects::with_attribute, crate::specs::Elements::with_value))]
pub fn with_attribute(
    alloc: Global,
    fields: &mut List<Field>,
    name: &Text,
    value: &Text,
) -> Result<(), NoMemory>
    ensures { OnOk result (fields.new ≡ with_attribute name.now value.now fields.old) }
{
    let value = value.clone_in(alloc)?;
    if is_set(name.as_bytes(), fields.as_slice()) {
        value_in(&mut fields.items, name.as_bytes(), value);
        return Ok(());
    }
    let name = name.clone_in(alloc)?;
    fields.push(Field { name, value })?;
    Ok(())
}

fn field_at(fields: &List<Field>, name: &[u8]) -> Option<usize>
    ensures { result ≡ position (λ field. same_bytes field.name name.now) fields.now }
{
    field_place(fields.as_slice(), name)
}

/// Removes an attribute.
#[tactic(auto, using(sc_value::proofs::ListFacts::remove_first_position, sc_value::proofs::ListFacts::remove_first_none))]
pub fn remove_attribute(fields: &mut List<Field>, name: &[u8])
    ensures { fields.new ≡ remove_first (λ field. same_bytes field.name name.now) fields.old }
{
    match field_at(fields, name) {
        Some(at) => drop(fields.items.remove(at)),
        None => {}
    }
}

/// The moment so many minutes after another, None for 0 and less.
#[tactic(auto, unfolding(sc_model::specs::Settings::moment_after))]
pub fn moment_after(began: u64, minutes: i32) -> Result<Option<u64>, NoMemory>
    ensures { IfOk result (λ moment. moment ≡ moment_after began minutes) }
{
    if minutes <= 0 {
        return Ok(None);
    }
    let moment = sum(began, minutes as u64 * 60_000)?;
    Ok(Some(moment))
}

#[tactic(auto, unfolding(crate::specs::Elements::with_flag))]
fn with_flag(session: &mut SessionView, flag: bool)
    ensures { session.new ≡ with_flag flag session.old }
{
    session.ready_flag = flag;
}

#[tactic(auto, using(sc_value::proofs::ListFacts::change_first_position, sc_value::proofs::ListFacts::change_first_none))]
fn flag_in(sessions: &mut [SessionView], sess: SessId, flag: bool)
    ensures { sessions.new ≡ change_first (is_session sess) (with_flag flag) sessions.old }
{
    match session_place(sessions, sess) {
        Some(at) => with_flag(&mut sessions[at], flag),
        None => {}
    }
}

/// Sets whether the target goes away by itself once it is ready.
#[tactic(auto, unfolding(sc_hosts::specs::Effects::with_invalidation_flag, crate::specs::Elements::with_flag))]
pub fn flagged(view: &mut View, target: Target, flag: bool)
    ensures { view.new ≡ with_invalidation_flag target flag view.old }
{
    match target {
        Target::Application => view.ready_flag = flag,
        Target::Session(sess) => flag_in(&mut view.sessions.items, sess, flag),
    }
}
