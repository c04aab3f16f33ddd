//! Requests: the own ones, those that are passed on, CANCEL and ACK.

ghost use Rattle.std.specs.Prelude.{◌≡◌, ◌∷◌, [], unwrap_or, map, if◌then◌else◌, IfOk};
ghost use Rattle.sc_model.specs.Responses.{kept_field};
ghost use Rattle.sc_hosts.specs.Messages.{ack_of, asked_request, begins_dialog, cancel_of, from_here, kin, leg_request, on_branch, own_address, passed_request, proxied_request};
ghost use Rattle.sc_model.specs.Responses.{address_with_tag, address_without_tag};

use crate::own::{own_address, own_via};
use crate::parts::{Content, head_of, no_content, set_contact, set_record_route, set_uri, set_via};
use crate::sides::{tagged, untagged};
use crate::vias::{behind, top_via};
use sc_dialog::{asked_method, cseq, kept_fields, sets_target};
use sc_terms::{Ask, Config, View};
use sc_value::{
    Address, AppId, CloneIn, Contact, Head, HeaderValue, List, Names, NoMemory, Request, Response,
    Shared, SharedList, Text, Token, Uri,
};
use std::alloc::Global;

/// The request as it is sent on this branch.
#[tactic(auto, unfolding(sc_hosts::specs::Messages::on_branch))]
pub fn on_branch(
    alloc: Global,
    config: &Config,
    view: &View,
    branch: u64,
    request: &Request,
) -> Result<Request, NoMemory>
    ensures { IfOk result (λ r. r ≡ on_branch config.now view.entry.now branch request.now) }
{
    let own = own_via(alloc, config, view.epoch, view.app, branch)?;
    let via = behind(alloc, own, request.head.via.as_slice())?;
    let mut copy = request.clone_in(alloc)?;
    set_via(&mut copy, via);
    Ok(copy)
}

/// A request that an application makes, with the own Contact where it sets the target of a dialog.
#[tactic(auto, unfolding(sc_hosts::specs::Messages::from_here))]
pub fn from_here(
    alloc: Global,
    config: &Config,
    view: &View,
    request: &Request,
) -> Result<Request, NoMemory>
    ensures { IfOk result (λ r. r ≡ from_here config.now view.entry.now request.now) }
{
    if !sets_target(request.method.as_bytes()) {
        return request.clone_in(alloc);
    }
    let contact = own_contact(alloc, config, view.epoch, view.app)?;
    let mut copy = request.clone_in(alloc)?;
    set_contact(&mut copy, contact);
    Ok(copy)
}

/// The Contact of an application session.
pub fn own_contact(
    alloc: Global,
    config: &Config,
    epoch: u32,
    app: AppId,
) -> Result<SharedList<Contact>, NoMemory>
    ensures { IfOk result (λ l. l ≡ Contact.At (own_address config.now epoch app) ∷ []) }
{
    let address = own_address(alloc, config, epoch, app)?;
    let mut contact = List::new(alloc);
    contact.push(Contact::At(address))?;
    SharedList::from_list(alloc, contact)
}

/// Whether the request begins a dialog where it is accepted.
#[tactic(auto, unfolding(sc_model::specs::Dialogs::subscribe, sc_model::specs::SessionStates::invite))]
pub fn begins_dialog(request: &Request) -> bool
    ensures { result ≡ begins_dialog request.now }
{
    request.method.as_bytes() == b"INVITE".as_slice()
        || request.method.as_bytes() == b"SUBSCRIBE".as_slice()
}

/// A request of one's own, with this Call-ID and tag (RFC 3261 section 8.1.1).
#[tactic(auto, unfolding(sc_hosts::specs::Messages::asked_request))]
pub fn asked_request(
    alloc: Global,
    call_id: &HeaderValue,
    tag: &Text,
    ask: &Ask,
) -> Result<Request, NoMemory>
    ensures { IfOk result (λ r. r ≡ asked_request call_id.now tag.now ask.now) }
{
    let method = asked_method(alloc, ask.method.as_bytes())?;
    let uri = ask.uri.clone_in(alloc)?;
    let content = asked_content(alloc, ask)?;
    let names = begun_names(alloc, call_id, tag, &ask.from, &ask.to, &method)?;
    Ok(Request {
        method,
        uri,
        hops: 70,
        head: head_of(
            alloc,
            SharedList::new(alloc),
            List::new(alloc),
            names,
            content,
        ),
    })
}

fn asked_content(alloc: Global, ask: &Ask) -> Result<Content, NoMemory>
    ensures { IfOk result
        (λ c.
        c
        ≡ record {
          contact = ask.now.contact;
          others = map kept_field ask.now.fields;
          body = ask.now.body;
        }) }
{
    let body = ask.body.clone_in(alloc)?;
    let contact = SharedList::from_list(alloc, ask.contact.clone_in(alloc)?)?;
    let others = kept_fields(alloc, ask.fields.as_slice())?;
    Ok(Content {
        contact,
        others,
        body,
    })
}

// What names the first request of a dialog that the own side begins.
fn begun_names(
    alloc: Global,
    call_id: &HeaderValue,
    tag: &Text,
    from: &Address,
    to: &Address,
    method: &Token,
) -> Result<Names, NoMemory>
    ensures { IfOk result
        (λ n.
        n
        ≡ record {
          from = address_with_tag tag.now from.now;
          to = address_without_tag to.now;
          call_id = call_id.now;
          cseq = record { number = 1; method = method.now };
        }) }
{
    let call_id = call_id.clone_in(alloc)?;
    let cseq = cseq(alloc, 1, method)?;
    let from = Shared::new(alloc, tagged(alloc, tag.as_bytes(), from)?)?;
    let to = Shared::new(alloc, untagged(alloc, to)?)?;
    Ok(Names {
        from,
        to,
        call_id,
        cseq,
    })
}

/// The request of a back-to-back agent's second leg: what the application didn't change is that of
/// the first (JSR 289 section 12.3).
#[tactic(auto, unfolding(sc_hosts::specs::Messages::leg_request))]
pub fn leg_request(
    alloc: Global,
    call_id: &HeaderValue,
    tag: &Text,
    uri: &Option<Uri>,
    request: &Request,
) -> Result<Request, NoMemory>
    ensures { IfOk result (λ r. r ≡ leg_request call_id.now tag.now uri.now request.now) }
{
    let method = request.method.clone_in(alloc)?;
    let uri = uri_or(alloc, uri, &request.uri)?;
    let route = request.head.route.clone_in(alloc)?;
    let content = leg_content(alloc, &request.head)?;
    let names = leg_names(alloc, call_id, tag, request)?;
    Ok(Request {
        method,
        uri,
        hops: request.hops.saturating_sub(1),
        head: head_of(alloc, SharedList::new(alloc), route, names, content),
    })
}

fn uri_or(alloc: Global, uri: &Option<Uri>, other: &Uri) -> Result<Uri, NoMemory>
    ensures { IfOk result (λ u. u ≡ unwrap_or uri.now other.now) }
{
    match uri {
        Some(uri) => uri.clone_in(alloc),
        None => other.clone_in(alloc),
    }
}

fn leg_names(
    alloc: Global,
    call_id: &HeaderValue,
    tag: &Text,
    request: &Request,
) -> Result<Names, NoMemory>
    ensures { IfOk result
        (λ n.
        n
        ≡ record {
          from = address_with_tag tag.now request.now.head.from;
          to = address_without_tag request.now.head.to;
          call_id = call_id.now;
          cseq = record { number = 1; method = request.now.method };
        }) }
{
    let head = &request.head;
    begun_names(alloc, call_id, tag, &head.from, &head.to, &request.method)
}

fn leg_content(alloc: Global, head: &Head) -> Result<Content, NoMemory>
    ensures { IfOk result
        (λ c. c ≡ record { contact = []; others = head.now.others; body = head.now.body }) }
{
    let body = head.body.clone_in(alloc)?;
    let others = head.others.clone_in(alloc)?;
    Ok(Content {
        contact: SharedList::new(alloc),
        others,
        body,
    })
}

/// A proxied request: the target, one hop less, and the own Record-Route on top where the
/// application stays on the path (RFC 3261 section 16.6).
#[tactic(auto, unfolding(sc_hosts::specs::Messages::proxied_request))]
pub fn proxied_request(
    alloc: Global,
    config: &Config,
    view: &View,
    record_route: bool,
    target: &Uri,
    request: &Request,
) -> Result<Request, NoMemory>
    ensures { IfOk result
        (λ r. r ≡ proxied_request config.now view.entry.now record_route target.now request.now) }
{
    let routes = proxied_routes(
        alloc,
        config,
        view,
        record_route,
        &request.head.record_route,
    )?;
    let uri = target.clone_in(alloc)?;
    let mut copy = request.clone_in(alloc)?;
    set_uri(&mut copy, uri, request.hops.saturating_sub(1));
    set_record_route(&mut copy, routes);
    Ok(copy)
}

fn proxied_routes(
    alloc: Global,
    config: &Config,
    view: &View,
    record_route: bool,
    routes: &SharedList<Address>,
) -> Result<SharedList<Address>, NoMemory>
    ensures { IfOk result
        (λ l.
        l
        ≡ (if record_route
        then own_address config.now view.entry.now.epoch view.entry.now.app ∷ routes.now
        else routes.now)) }
{
    if !record_route {
        return routes.clone_in(alloc);
    }
    let own = own_address(alloc, config, view.epoch, view.app)?;
    let mut copy = routes.to_list()?;
    copy.items.reserve_exact(1)?;
    copy.items.insert(0, own)?;
    SharedList::from_list(alloc, copy)
}

/// A later request on a proxied dialog: one hop less.
#[tactic(auto, unfolding(sc_hosts::specs::Messages::passed_request))]
pub fn passed_request(alloc: Global, request: &Request) -> Result<Request, NoMemory>
    ensures { IfOk result (λ r. r ≡ passed_request request.now) }
{
    let mut copy = request.clone_in(alloc)?;
    copy.hops = request.hops.saturating_sub(1);
    Ok(copy)
}

/// The CANCEL of an INVITE as it was sent (RFC 3261 section 9.1).
#[tactic(auto, unfolding(sc_hosts::specs::Messages::cancel_of, sc_model::specs::DialogRequests::cancel, sc_tokens::specs::Tokens::is_token, sc_tokens::specs::Tokens::is_token_byte))]
pub fn cancel_of(alloc: Global, request: &Request) -> Result<Request, NoMemory>
    ensures { IfOk result (λ r. r ≡ cancel_of request.now) }
{
    let method = Token::from_slice(alloc, b"CANCEL")?;
    kin(alloc, method, &request.head.to, request)
}

/// The ACK to a final response other than 2xx to an INVITE as it was sent (RFC 3261 section
/// 17.1.1.3).
#[tactic(auto, unfolding(sc_hosts::specs::Messages::ack_of, sc_model::specs::SessionStates::ack, sc_tokens::specs::Tokens::is_token, sc_tokens::specs::Tokens::is_token_byte))]
pub fn ack_of(alloc: Global, request: &Request, response: &Response) -> Result<Request, NoMemory>
    ensures { IfOk result (λ r. r ≡ ack_of request.now response.now) }
{
    let method = Token::from_slice(alloc, b"ACK")?;
    kin(alloc, method, &response.head.to, request)
}

// A request of this method with the top Via, Request-URI, Route, From, Call-ID and CSeq number of
// another, and with this To.
#[tactic(auto, unfolding(sc_hosts::specs::Messages::kin))]
fn kin(
    alloc: Global,
    method: Token,
    to: &Shared<Address>,
    request: &Request,
) -> Result<Request, NoMemory>
    ensures { IfOk result (λ r. r ≡ kin method to.now request.now) }
{
    let uri = request.uri.clone_in(alloc)?;
    let via = top_via(alloc, request.head.via.as_slice())?;
    let route = request.head.route.clone_in(alloc)?;
    let names = kin_names(alloc, &method, to, &request.head)?;
    let content = no_content(alloc);
    Ok(Request {
        method,
        uri,
        hops: 70,
        head: head_of(alloc, via, route, names, content),
    })
}

fn kin_names(
    alloc: Global,
    method: &Token,
    to: &Shared<Address>,
    head: &Head,
) -> Result<Names, NoMemory>
    ensures { IfOk result
        (λ n.
        n
        ≡ record {
          from = head.now.from;
          to = to.now;
          call_id = head.now.call_id;
          cseq = record { number = head.now.cseq.number; method = method.now };
        }) }
{
    let call_id = head.call_id.clone_in(alloc)?;
    let own = &head.cseq;
    own.known();
    let cseq = cseq(alloc, own.number, method)?;
    let from = head.from.clone_in(alloc)?;
    let to = to.clone_in(alloc)?;
    Ok(Names {
        from,
        to,
        call_id,
        cseq,
    })
}
