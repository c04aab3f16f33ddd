//! What invalidation sends.

ghost use Rattle.std.specs.Prelude.{◌≡◌, ◌++◌, ◌∷◌, [], IfOk, OnOk};
ghost use Rattle.std.specs.List.{flat_map};
ghost use Rattle.sc_hosts.specs.Legs.{FIRST_SESSION};
ghost use Rattle.sc_hosts.specs.Messages.{own_response};
ghost use Rattle.sc_hosts.specs.Preparing.{own_tag_of};
ghost use Rattle.sc_hosts.specs.Words.{does_not_exist};
ghost use Rattle.sc_hosts.specs.Finishing.{goodbye, waiting_answer};
ghost use Rattle.sc_finish.specs.Partings.{gone_order};

use sc_effects::own_tag_of;
use sc_messages::own_response;
use sc_methods::is_ack;
use sc_state::{Order, Queued, Session, Waiting};
use sc_terms::{Config, View};
use sc_value::{List, NoMemory, Request, Response, SessId, Shared};
use sc_work::{cancels_all, owed_all};
use std::alloc::Global;

#[tactic(auto, unfolding(sc_hosts::specs::Words::does_not_exist))]
fn gone_response(alloc: Global, tag: &[u8], request: &Request) -> Result<Response, NoMemory>
    ensures { IfOk result (λ r. r ≡ own_response tag.now 481 does_not_exist request.now) }
{
    own_response(alloc, tag, 481, b"Call/Transaction Does Not Exist", request)
}

fn gone_owner(alloc: Global, tag: &[u8], request: &Request) -> Result<Shared<Response>, NoMemory>
    ensures { IfOk result (λ r. r ≡ own_response tag.now 481 does_not_exist request.now) }
{
    let response = gone_response(alloc, tag, request)?;
    Shared::new(alloc, response)
}

#[tactic(auto, unfolding(crate::specs::Partings::gone_order))]
fn gone_order(
    alloc: Global,
    tag: &[u8],
    event: u64,
    request: &Request,
    orders: &mut List<Order>,
) -> Result<(), NoMemory>
    ensures { OnOk result (orders.new ≡ orders.old ++ gone_order tag.now event request.now ∷ []) }
{
    let response = gone_owner(alloc, tag, request)?;
    orders.push(Order::Respond { event, response })?;
    Ok(())
}

/// 481 to a request that waits; its SipSession has drawn its tag where it begins one.
#[tactic(auto, unfolding(sc_hosts::specs::Finishing::waiting_answer, crate::specs::Partings::gone_order))]
fn waiting_answer(
    alloc: Global,
    tag: &[u8],
    waiting: &Waiting,
    orders: &mut List<Order>,
) -> Result<(), NoMemory>
    ensures { OnOk result (orders.new ≡ orders.old ++ waiting_answer tag.now waiting.now) }
{
    match &waiting.event {
        Queued::Initial { request, .. } => {
            gone_order(alloc, tag, waiting.number, request.get(), orders)
        }
        Queued::Request { request } => {
            if is_ack(request.get().method.as_bytes()) {
                return Ok(());
            }
            gone_order(alloc, b"", waiting.number, request.get(), orders)
        }
        _ => Ok(()),
    }
}

fn all_waiting(
    alloc: Global,
    tag: &[u8],
    inbox: &[Waiting],
    orders: &mut List<Order>,
) -> Result<(), NoMemory>
    ensures { OnOk result (orders.new ≡ orders.old ++ flat_map (waiting_answer tag.now) inbox.now) }
{
    for waiting in inbox {
        waiting_answer(alloc, tag, waiting, orders)?;
    }
    Ok(())
}

fn first_tag(view: &View) -> &[u8]
    ensures { result.now ≡ own_tag_of view.entry.now FIRST_SESSION }
{
    own_tag_of(view, SessId(1))
}

/// What the invalidation of an application session sends: 500 to what was handled, 481 to what
/// waits, and then the CANCELs.
#[tactic(auto, using(crate::proofs::Partings::goodbye_made))]
pub fn goodbye(
    alloc: Global,
    config: &Config,
    session: &Session,
    inbox: &[Waiting],
) -> Result<List<Order>, NoMemory>
    ensures { IfOk result (λ orders. orders ≡ goodbye config.now session.now inbox.now) }
{
    let mut orders = List::new(alloc);
    owed_all(alloc, config, &session.view, &session.known, &mut orders)?;
    all_waiting(alloc, first_tag(&session.view), inbox, &mut orders)?;
    cancels_all(alloc, &session.known, &mut orders)?;
    Ok(orders)
}
