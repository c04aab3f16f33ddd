//! A message comes from outside.

ghost use Rattle.std.specs.Prelude.{◌≡◌, IfOk, OnOk};
ghost use Rattle.sc_hosts.specs.Histories.{as_session};
ghost use Rattle.sc_hosts.specs.Arrivals.{after_arrival, arrives_as, first_host, sort_in};
ghost use Rattle.sc_arrivals.specs.HostTests.{awaits};

use crate::answers::answer_unknown;
use crate::beginning::initial_arrives;
use crate::finding::awaiting_host;
use crate::messages::take_request;
use crate::sorting::sort_in;
use sc_hosts::Sort;
use sc_net::taken_at;
use sc_parts::Setup;
use sc_state::{Net, Session};
use sc_value::{Message, NoMemory, Place, Request, Response, Shared};
use std::alloc::Global;

// A request of each sort.
#[tactic(auto, unfolding(sc_hosts::specs::Arrivals::arrives_as))]
fn arrives_as(
    alloc: Global,
    setup: &Setup,
    from: Place,
    request: &Shared<Request>,
    sort: Sort<u32, u32>,
    net: &mut Net<Session>,
) -> Result<(), NoMemory>
    ensures { OnOk result
        (net.new ≡ arrives_as as_session setup.now from request.now sort net.old) }
{
    match sort {
        Sort::Cancels(host) => take_request(alloc, setup, from, &None, request, host, net),
        Sort::Acks(host) => take_request(alloc, setup, from, &None, request, host, net),
        Sort::Repeats(host) => take_request(alloc, setup, from, &None, request, host, net),
        Sort::Later(host) => take_request(alloc, setup, from, &None, request, host, net),
        Sort::Begins => initial_arrives(alloc, setup, from, request, net),
        Sort::Nobodys => answer_unknown(alloc, &setup.config, from, request.get(), net),
    }
}

fn request_arrives(
    alloc: Global,
    setup: &Setup,
    from: Place,
    request: &Shared<Request>,
    net: &mut Net<Session>,
) -> Result<(), NoMemory>
    ensures { OnOk result
        (net.new
        ≡ arrives_as as_session setup.now from request.now
        (sort_in setup.now.config from request.now net.old) net.old) }
{
    let sort = sort_in(alloc, &setup.config, from, request.get(), net)?;
    arrives_as(alloc, setup, from, request, sort, net)
}

fn awaiting(
    alloc: Global,
    setup: &Setup,
    from: Place,
    response: &Response,
    net: &Net<Session>,
) -> Result<Option<u32>, NoMemory>
    ensures { IfOk result
        (λ number.
        number
        ≡ first_host (awaits setup.now.config.salt net.now.epoch from response.now) 0
        net.now.hosts) }
{
    awaiting_host(
        alloc,
        setup.config.salt.as_text().as_bytes(),
        net.epoch,
        from,
        response,
        net.hosts.as_slice(),
    )
}

/// A message comes from outside. The first host with its transaction takes it; else a request goes
/// to the session that it names or may begin one, and a response is dropped (RFC 3261 sections
/// 16.3, 17.1.3 and 17.2.3).
#[tactic(auto, using(crate::proofs::Arrivals::request_sorted, crate::proofs::Arrivals::response_at, crate::proofs::Arrivals::response_nowhere))]
pub fn arrived(
    alloc: Global,
    setup: &Setup,
    from: Place,
    message: &Message,
    net: &mut Net<Session>,
) -> Result<(), NoMemory>
    ensures { OnOk result (net.new ≡ after_arrival as_session setup.now from message.now net.old) }
{
    match message {
        Message::Request(request) => request_arrives(alloc, setup, from, request, net),
        Message::Response(response) => match awaiting(alloc, setup, from, response.get(), net)? {
            Some(host) => taken_at(alloc, setup, from, &None, message, host, net),
            None => Ok(()),
        },
    }
}
