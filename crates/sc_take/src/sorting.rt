//! The sort of a request: what it is to those that may take it.

ghost use Rattle.std.specs.Prelude.{◌≡◌, None, IfOk};
ghost use Rattle.sc_tokens.specs.Names.{same_bytes};
ghost use Rattle.sc_model.specs.Dialogs.{update};
ghost use Rattle.sc_hosts.specs.Taking.{is_never_initial, sort_at, sort_of};
ghost use Rattle.sc_hosts.specs.Transacting.{method_of};
ghost use Rattle.sc_hosts.specs.Words.{prack};

use crate::claims::server_for;
use crate::later::own_live;
use sc_hosts::Sort;
use sc_methods::is_bye;
use sc_state::{Coming, Host, Live, Server, Session};
use sc_terms::Config;
use sc_transact::{is_ack, is_cancel, method_of};
use sc_value::{CloneIn, NoMemory, Request, Shared, tag};
use std::alloc::Global;

#[tactic(auto, unfolding(sc_hosts::specs::Words::prack))]
fn is_prack(request: &Request) -> bool
    ensures { result ≡ same_bytes (method_of request.now) prack }
{
    method_of(request) == b"PRACK".as_slice()
}

#[tactic(auto, unfolding(sc_model::specs::Dialogs::update))]
fn is_update(request: &Request) -> bool
    ensures { result ≡ same_bytes (method_of request.now) update }
{
    method_of(request) == b"UPDATE".as_slice()
}

// Whether a request of this method begins nothing.
#[tactic(auto, unfolding(sc_hosts::specs::Taking::is_never_initial))]
fn is_never_initial(request: &Request) -> bool
    ensures { result ≡ is_never_initial request.now }
{
    is_bye(method_of(request)) || is_prack(request) || is_update(request)
}

// The sort of a request that belongs to no transaction.
#[tactic(auto, unfolding(sc_hosts::specs::Taking::sort_of))]
fn sort_alone<T: Drop, L: Drop>(request: &Request, named: Option<L>) -> Sort<T, L>
    ensures { result ≡ sort_of request.now None named }
{
    if is_cancel(request) {
        return Sort::Nobodys;
    }
    if tag(&request.head.to).is_some() {
        return match named {
            Some(named) => Sort::Later(named),
            None => Sort::Nobodys,
        };
    }
    if is_never_initial(request) {
        return Sort::Nobodys;
    }
    Sort::Begins
}

/// The sort of a request, by the transaction that it belongs to and the session that it names,
/// where there are such.
#[tactic(auto, unfolding(sc_hosts::specs::Taking::sort_of))]
pub fn sort_of<T: Drop, L: Drop>(
    request: &Request,
    transaction: Option<T>,
    named: Option<L>,
) -> Sort<T, L>
    ensures { result ≡ sort_of request.now transaction named }
{
    let transaction = match transaction {
        Some(transaction) => transaction,
        None => return sort_alone(request, named),
    };
    if is_cancel(request) {
        return Sort::Cancels(transaction);
    }
    if is_ack(request) {
        return Sort::Acks(transaction);
    }
    Sort::Repeats(transaction)
}

/// The sort of a request to a host. Which session it names is looked up where that counts.
#[tactic(auto, using(crate::proofs::Sorted::sorted_served, crate::proofs::Sorted::sorted_untagged, crate::proofs::Sorted::sorted_named))]
pub fn sort_at(
    alloc: Global,
    config: &Config,
    coming: Coming,
    request: &Request,
    host: &Host<Session>,
) -> Result<Sort<Shared<Server>, Shared<Live<Session>>>, NoMemory>
    ensures { IfOk result
        (λ sort. sort ≡ sort_at config.now coming request.now host.now) }
{
    if let Some(server) = server_for(alloc, coming.from, request, host)? {
        return Ok(sort_of(request, Some(server.clone_in(alloc)?), None));
    }
    if tag(&request.head.to).is_some() {
        let live = own_live(alloc, config, coming, request, host)?;
        return Ok(sort_of(request, None, live));
    }
    Ok(sort_of(request, None, None))
}
