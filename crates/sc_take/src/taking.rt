//! Every message that comes to a host.

ghost use Rattle.std.specs.Prelude.{◌≡◌, IfOk};
ghost use Rattle.sc_hosts.specs.Histories.{as_session};
ghost use Rattle.sc_hosts.specs.Taking.{sort_at, taken_as, takes};
ghost use Rattle.sc_inboxes.specs.TakenParts.{taken_by};

use crate::beginning::take_initial;
use crate::claims::{acked, cancelled, repeated};
use crate::later::queue_later;
use crate::responses::take_response;
use crate::sorting::sort_at;
use sc_hosts::Sort;
use sc_inboxes::{Told, refuse_unknown};
use sc_state::{Coming, Host, Live, Note, Server, Session};
use sc_terms::Config;
use sc_value::{Message, NoMemory, Request, Shared};
use std::alloc::Global;

// A request of each sort.
#[tactic(auto, unfolding(sc_hosts::specs::Taking::taken_as))]
fn taken_as(
    alloc: Global,
    config: &Config,
    coming: Coming,
    noted: &Option<Note>,
    request: &Shared<Request>,
    sort: Sort<Shared<Server>, Shared<Live<Session>>>,
    host: &mut Host<Session>,
) -> Result<Told, NoMemory>
    ensures { IfOk result
        (λ t.
        taken_as as_session config.now coming noted.now request.now sort host.old
        ≡ taken_by host.new t) }
{
    match sort {
        Sort::Cancels(server) => cancelled(
            alloc,
            coming.from,
            coming.now,
            server.get(),
            request.get(),
            coming.count,
            host,
        ),
        Sort::Acks(server) => acked(alloc, server.get(), coming.count, host),
        Sort::Repeats(server) => repeated(alloc, server.get(), coming.count, host),
        Sort::Later(live) => queue_later(alloc, config, coming, request, live.get(), host),
        Sort::Begins => take_initial(alloc, config, coming, noted, request, host),
        Sort::Nobodys => refuse_unknown(alloc, config, coming.from, request.get(), coming.count),
    }
}

fn take_request(
    alloc: Global,
    config: &Config,
    coming: Coming,
    noted: &Option<Note>,
    request: &Shared<Request>,
    host: &mut Host<Session>,
) -> Result<Told, NoMemory>
    ensures { IfOk result
        (λ t.
        taken_as as_session config.now coming noted.now request.now
        (sort_at config.now coming request.now host.old) host.old ≡ taken_by host.new t) }
{
    let sort = sort_at(alloc, config, coming, request.get(), host)?;
    taken_as(alloc, config, coming, noted, request, sort, host)
}

/// What a host takes that comes so. `noted` goes with a request that may begin a session.
#[tactic(auto, unfolding(sc_hosts::specs::Taking::takes))]
pub fn takes(
    alloc: Global,
    config: &Config,
    coming: Coming,
    noted: &Option<Note>,
    message: &Message,
    host: &mut Host<Session>,
) -> Result<Told, NoMemory>
    ensures { IfOk result
        (λ t.
        takes as_session config.now coming noted.now message.now host.old ≡ taken_by host.new t) }
{
    match message {
        Message::Request(request) => take_request(alloc, config, coming, noted, request, host),
        Message::Response(response) => take_response(
            alloc,
            config,
            coming.epoch,
            coming.from,
            coming.now,
            response.get(),
            coming.count,
            host,
        ),
    }
}
