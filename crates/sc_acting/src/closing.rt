//! What a proxied request leaves once it is over, and the CANCELs that it sends.

ghost use Rattle.std.specs.Prelude.{◌≡◌, ◌∷◌, [], ◌++◌, OnOk, map};
ghost use Rattle.sc_hosts.specs.Acting.{closed_session, closes, is_over, proxy_now, sends_cancels};
ghost use Rattle.sc_acting.specs.Acts.{cancel_order};

use crate::changing::proxy_now;
use sc_branches::{cancelled_now, is_exhausted};
use sc_derived::is_of;
use sc_effects::{in_state, is_early};
use sc_looking::is_initial_state;
use sc_state::{Known, Order, Proxy, Working};
use sc_terms::{SessionView, State};
use sc_value::{List, NoMemory, ReqId, SessId};
use std::alloc::Global;

#[tactic(auto, unfolding(sc_hosts::specs::Acting::is_over))]
fn is_over(known: &Known, req: ReqId, original: SessId, session: &SessionView) -> bool
    ensures { result ≡ is_over known.now req original session.now }
{
    is_of(known, req, session)
        && (is_early(session.state)
            || (is_initial_state(session.state) && session.id.0 != original.0))
}

#[tactic(auto, unfolding(sc_hosts::specs::Acting::closed_session))]
fn closed_session(known: &Known, req: ReqId, original: SessId, session: &mut SessionView)
    ensures { session.new ≡ closed_session known.now req original session.old }
{
    if is_over(known, req, original, session) {
        in_state(session, State::Terminated);
    }
}

fn all_closed(known: &Known, req: ReqId, original: SessId, sessions: &mut [SessionView])
    ensures { sessions.new ≡ map (closed_session known.now req original) sessions.old }
{
    for i in 0..sessions.len() {
        closed_session(known, req, original, &mut sessions[i]);
    }
}

/// Once no branch is open and no target left, early dialogs end.
#[tactic(auto, unfolding(sc_hosts::specs::Acting::closes))]
pub fn closes(proxy: &Proxy, working: &mut Working)
    ensures { working.new ≡ closes proxy.now working.old }
{
    if is_exhausted(proxy) && proxy.options.is_some() {
        all_closed(
            &working.known,
            proxy.req,
            proxy.sess,
            &mut working.play.view.sessions.items,
        );
    }
}

#[tactic(auto, unfolding(crate::specs::Acts::cancel_order))]
fn add_cancel(orders: &mut List<Order>, branch: u64) -> Result<(), NoMemory>
    ensures { OnOk result (orders.new ≡ orders.old ++ cancel_order branch ∷ []) }
{
    orders.push(Order::Cancel { branch })?;
    Ok(())
}

fn add_cancels(orders: &mut List<Order>, branches: &[u64]) -> Result<(), NoMemory>
    ensures { OnOk result (orders.new ≡ orders.old ++ map cancel_order branches.now) }
{
    for branch in branches {
        add_cancel(orders, *branch)?;
    }
    Ok(())
}

/// A CANCEL to each branch that is to be cancelled, in their order.
#[tactic(auto, unfolding(sc_hosts::specs::Acting::sends_cancels, crate::specs::Acts::cancel_order))]
pub fn sends_cancels(alloc: Global, proxy: &Proxy, working: &mut Working) -> Result<(), NoMemory>
    ensures { OnOk result (working.new ≡ sends_cancels proxy.now working.old) }
{
    let current = proxy_now(alloc, proxy, working)?;
    let branches = cancelled_now(alloc, &current)?;
    add_cancels(&mut working.orders, branches.as_slice())
}
