//! A session that ends with a turn where nothing is sent.

ghost use Rattle.std.specs.Prelude.{◌≡◌, [], drop, IfOk, IsTrue};
ghost use Rattle.sc_hosts.specs.Finishing.{goodbye};
ghost use Rattle.sc_hosts.specs.Steps.{inbox_of, live_at};
ghost use Rattle.sc_steps.specs.TurnParts.{EndsSilently};

use crate::lives::live_at;
use sc_finish::goodbye;
use sc_parts::Setup;
use sc_state::{Net, Order, Outcome, Session, Waiting};
use sc_terms::Config;
use sc_value::{AppId, List, NoMemory};
use std::alloc::Global;

// Whether nothing is sent.
fn is_silent(orders: &[Order]) -> bool
    ensures { IsTrue result → orders.now ≡ [] }
{
    match orders {
        [] => true,
        _ => false,
    }
}

// What the end of a session sends whose first event leaves the inbox.
fn goodbye_behind(
    alloc: Global,
    config: &Config,
    session: &Session,
    inbox: &[Waiting],
) -> Result<List<Order>, NoMemory>
    ensures { IfOk result (λ given. given ≡ goodbye config.now session.now (drop 1 inbox.now)) }
{
    match inbox {
        [_, rest @ ..] => goodbye(alloc, config, session, rest),
        [] => goodbye(alloc, config, session, &[]),
    }
}

#[tactic(auto, unfolding(sc_hosts::specs::Steps::inbox_of))]
fn goodbye_at(
    alloc: Global,
    config: &Config,
    app: AppId,
    session: &Session,
    net: &Net<Session>,
) -> Result<List<Order>, NoMemory>
    ensures { IfOk result
        (λ given.
        given ≡ goodbye config.now session.now (drop 1 (inbox_of (live_at app net.now)))) }
{
    match live_at(app, net) {
        Some(live) => {
            let inbox = live.inbox.to_list()?;
            goodbye_behind(alloc, config, session, inbox.as_slice())
        }
        None => goodbye(alloc, config, session, &[]),
    }
}

/// Whether the session ends with a turn that sends nothing, and its end sends nothing either.
pub fn ends_silently(
    alloc: Global,
    setup: &Setup,
    app: AppId,
    done: &Outcome,
    net: &Net<Session>,
) -> Result<bool, NoMemory>
    ensures { IfOk result (λ silent. IsTrue silent → EndsSilently setup.now app done.now net.now) }
{
    if !done.ends || !is_silent(done.orders.as_slice()) {
        return Ok(false);
    }
    let given = goodbye_at(alloc, &setup.config, app, &done.session, net)?;
    Ok(is_silent(given.as_slice()))
}
