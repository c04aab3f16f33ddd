//! Answers to requests that came.

ghost use Rattle.std.specs.Prelude.{◌≡◌, ◌++◌, Some, IfOk, OnOk};
ghost use Rattle.std.specs.Option.{option_copied};
ghost use Rattle.sc_hosts.specs.Looking.{request_in};
ghost use Rattle.sc_hosts.specs.Messages.{given_response};
ghost use Rattle.sc_hosts.specs.Refusals.{begun_by};
ghost use Rattle.sc_hosts.specs.Preparing.{kept_of};
ghost use Rattle.sc_hosts.specs.Giving.{giving, answer_order, answers, answering};

use sc_effects::{kept_of, own_tag_of};
use sc_looking::{begun_by, request_in};
use sc_messages::given_response;
use sc_state::{Kept, Order, Way, Working};
use sc_terms::{Answer, Config, RequestView, View};
use sc_value::{List, NoMemory, ReqId, Request, Response, SessId, Shared};
use std::alloc::Global;

fn given(
    alloc: Global,
    config: &Config,
    view: &View,
    tag: &[u8],
    initial: bool,
    request: &Request,
    answer: &Answer,
) -> Result<Shared<Response>, NoMemory>
    ensures { IfOk result
        (λ r. r ≡ given_response config.now view.entry.now tag.now initial request.now answer.now) }
{
    let response = given_response(alloc, config, view, tag, initial, request, answer)?;
    Shared::new(alloc, response)
}

// Puts the answer to a request that came at the end of a list.
#[tactic(auto, unfolding(sc_hosts::specs::Giving::answer_order))]
fn answer_order(
    alloc: Global,
    config: &Config,
    view: &View,
    initial: bool,
    answer: &Answer,
    kept: &Kept,
    orders: &mut List<Order>,
) -> Result<(), NoMemory>
    ensures { OnOk result
        (orders.new
        ≡ orders.old
        ++ answer_order config.now view.entry.now initial answer.now kept.now kept.now.way) }
{
    match kept.way {
        Way::Received { event } => {
            let tag = own_tag_of(view, kept.sess);
            let request = kept.request.get();
            let response = given(alloc, config, view, tag, initial, request, answer)?;
            orders.push(Order::Respond { event, response })?;
            Ok(())
        }
        Way::Sent { .. } => Ok(()),
    }
}

/// Puts the answer to a request, where it is kept and came, at the end of a list.
#[tactic(auto, unfolding(sc_hosts::specs::Giving::answers))]
pub fn answers(
    alloc: Global,
    config: &Config,
    answer: &Answer,
    view: &View,
    kept: Option<&Kept>,
    initial: bool,
    orders: &mut List<Order>,
) -> Result<(), NoMemory>
    ensures { OnOk result
        (orders.new
        ≡ orders.old
        ++ answers config.now answer.now view.entry.now (option_copied kept.entry) initial) }
{
    match kept {
        Some(kept) => answer_order(alloc, config, view, initial, answer, kept, orders),
        None => Ok(()),
    }
}

fn answered_to(
    alloc: Global,
    config: &Config,
    req: ReqId,
    initial: bool,
    answer: &Answer,
    working: &mut Working,
) -> Result<(), NoMemory>
    ensures { OnOk result
        (working.new
        ≡ giving
        (answers config.now answer.now working.old.play.view (kept_of working.old.known req)
        initial) working.old) }
{
    let kept = kept_of(&working.known, req);
    answers(
        alloc,
        config,
        answer,
        &working.play.view,
        kept,
        initial,
        &mut working.orders,
    )
}

/// Gives the answer to a request that is shown.
#[tactic(auto, unfolding(sc_hosts::specs::Giving::answering))]
pub fn answering(
    alloc: Global,
    config: &Config,
    request: &RequestView,
    answer: &Answer,
    working: &mut Working,
) -> Result<(), NoMemory>
    ensures { OnOk result
        (working.new ≡ answering config.now (Some request.now) answer.now working.old) }
{
    answered_to(alloc, config, request.id, request.initial, answer, working)
}

/// Gives the answer to the request of this number.
#[tactic(auto, unfolding(sc_hosts::specs::Giving::answering))]
pub fn answering_by(
    alloc: Global,
    config: &Config,
    req: ReqId,
    answer: &Answer,
    working: &mut Working,
) -> Result<(), NoMemory>
    ensures { OnOk result
        (working.new
        ≡ answering config.now (request_in working.old.play.view req) answer.now working.old) }
{
    match request_in(&working.play.view, req) {
        Some(request) => {
            let (id, initial) = (request.id, request.initial);
            answered_to(alloc, config, id, initial, answer, working)
        }
        None => Ok(()),
    }
}

/// Gives the answer to the received request that began a SipSession.
#[tactic(auto, unfolding(sc_hosts::specs::Giving::answering))]
pub fn answering_begun(
    alloc: Global,
    config: &Config,
    sess: SessId,
    answer: &Answer,
    working: &mut Working,
) -> Result<(), NoMemory>
    ensures { OnOk result
        (working.new
        ≡ answering config.now (begun_by working.old.play.view sess) answer.now working.old) }
{
    match begun_by(&working.play.view, sess) {
        Some(request) => {
            let (id, initial) = (request.id, request.initial);
            answered_to(alloc, config, id, initial, answer, working)
        }
        None => Ok(()),
    }
}
