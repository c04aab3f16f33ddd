//! The parts of a head, finished before the head is built, and changes of one part of a message.

ghost use Rattle.std.specs.Prelude.{◌≡◌, []};

use sc_value::{
    Address, Contact, Head, List, Names, Others, Request, Response, SharedList, Text, Uri, Via,
};
use std::alloc::Global;

/// What a message says.
#[derive(Drop)]
pub struct Content {
    pub contact: SharedList<Contact>,
    pub others: Others,
    pub body: Text,
}

/// The head of these parts, without Record-Route.
pub fn head_of(
    alloc: Global,
    via: SharedList<Via>,
    route: List<Address>,
    names: Names,
    content: Content,
) -> Head
    ensures { result
        ≡ record {
          via = via;
          route = route;
          record_route = [];
          from = names.from;
          to = names.to;
          call_id = names.call_id;
          cseq = names.cseq;
          contact = content.contact;
          others = content.others;
          body = content.body;
        } }
{
    Head {
        via,
        route,
        record_route: SharedList::new(alloc),
        from: names.from,
        to: names.to,
        call_id: names.call_id,
        cseq: names.cseq,
        contact: content.contact,
        others: content.others,
        body: content.body,
    }
}

/// What a message without Contacts, other headers and body says.
pub fn no_content(alloc: Global) -> Content
    ensures { result ≡ record { contact = []; others = []; body = [] } }
{
    Content {
        contact: SharedList::new(alloc),
        others: Others::new(alloc),
        body: Text::new(alloc),
    }
}

/// Puts these Vias in place of a request's own.
pub fn set_via(request: &mut Request, via: SharedList<Via>)
    ensures { request.new ≡ record request.old { head = record request.old.head { via = via } } }
{
    request.head.via = via;
}

/// Puts this Contact in place of a request's own.
pub fn set_contact(request: &mut Request, contact: SharedList<Contact>)
    ensures { request.new
        ≡ record request.old { head = record request.old.head { contact = contact } } }
{
    request.head.contact = contact;
}

/// Puts these Record-Routes in place of a request's own.
pub fn set_record_route(request: &mut Request, routes: SharedList<Address>)
    ensures { request.new
        ≡ record request.old { head = record request.old.head { record_route = routes } } }
{
    request.head.record_route = routes;
}

/// Sends a request to this URI, with so many hops.
pub fn set_uri(request: &mut Request, uri: Uri, hops: u8)
    ensures { request.new ≡ record request.old { uri = uri; hops = hops } }
{
    request.uri = uri;
    request.hops = hops;
}

/// Puts this Contact in place of a response's own.
pub fn set_response_contact(response: &mut Response, contact: SharedList<Contact>)
    ensures { response.new
        ≡ record response.old { head = record response.old.head { contact = contact } } }
{
    response.head.contact = contact;
}

/// Puts these Record-Routes in place of a response's own.
pub fn set_response_routes(response: &mut Response, routes: SharedList<Address>)
    ensures { response.new
        ≡ record response.old { head = record response.old.head { record_route = routes } } }
{
    response.head.record_route = routes;
}

/// Puts these Vias in place of a response's own.
pub fn set_response_via(response: &mut Response, via: SharedList<Via>)
    ensures { response.new
        ≡ record response.old { head = record response.old.head { via = via } } }
{
    response.head.via = via;
}
