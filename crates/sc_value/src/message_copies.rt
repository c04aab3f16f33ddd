//! Copies and comparisons of messages.

ghost use Rattle.std.specs.Prelude.{◌≡◌, IfOk};

use crate::{
    Address, CSeq, CloneIn, Contact, Head, HeaderValue, List, Message, NoMemory, Others, Request,
    Response, Same, Shared, SharedList, Text, Via,
};
use std::alloc::Global;

/// What routes a message.
#[derive(Drop)]
struct Routing {
    via: SharedList<Via>,
    route: List<Address>,
    record_route: SharedList<Address>,
}

/// What names the transaction and the dialog of a message.
#[derive(Drop)]
pub struct Names {
    pub from: Shared<Address>,
    pub to: Shared<Address>,
    pub call_id: HeaderValue,
    pub cseq: CSeq,
}

/// What else it has.
#[derive(Drop)]
struct Content {
    contact: SharedList<Contact>,
    others: Others,
    body: Text,
}

// A head is copied in three groups: a literal of ten parts, each of which may want memory, takes
// minutes to prove.
impl CloneIn for Head {
    fn clone_in(&self, alloc: Global) -> Result<Head, NoMemory> {
        let content = content_of(alloc, self)?;
        let names = names_of(alloc, self)?;
        let routing = routing_of(alloc, self)?;
        Ok(head_of(routing, names, content))
    }
}

fn routing_of(alloc: Global, head: &Head) -> Result<Routing, NoMemory>
    ensures { IfOk result
        (λ r.
        r
        ≡ record {
          via = head.now.via;
          route = head.now.route;
          record_route = head.now.record_route;
        }) }
{
    let via = head.via.clone_in(alloc)?;
    let route = head.route.clone_in(alloc)?;
    let record_route = head.record_route.clone_in(alloc)?;
    Ok(Routing {
        via,
        route,
        record_route,
    })
}

/// What names the transaction and the dialog of a message with this head.
pub fn names_of(alloc: Global, head: &Head) -> Result<Names, NoMemory>
    ensures { IfOk result
        (λ n.
        n
        ≡ record {
          from = head.now.from;
          to = head.now.to;
          call_id = head.now.call_id;
          cseq = head.now.cseq;
        }) }
{
    let call_id = head.call_id.clone_in(alloc)?;
    let cseq = head.cseq.clone_in(alloc)?;
    let from = head.from.clone_in(alloc)?;
    let to = head.to.clone_in(alloc)?;
    Ok(Names {
        from,
        to,
        call_id,
        cseq,
    })
}

fn content_of(alloc: Global, head: &Head) -> Result<Content, NoMemory>
    ensures { IfOk result
        (λ c.
        c
        ≡ record {
          contact = head.now.contact;
          others = head.now.others;
          body = head.now.body;
        }) }
{
    let body = head.body.clone_in(alloc)?;
    let contact = head.contact.clone_in(alloc)?;
    let others = head.others.clone_in(alloc)?;
    Ok(Content {
        contact,
        others,
        body,
    })
}

fn head_of(routing: Routing, names: Names, content: Content) -> Head
    ensures { result
        ≡ record {
          via = routing.via;
          route = routing.route;
          record_route = routing.record_route;
          from = names.from;
          to = names.to;
          call_id = names.call_id;
          cseq = names.cseq;
          contact = content.contact;
          others = content.others;
          body = content.body;
        } }
{
    Head {
        via: routing.via,
        route: routing.route,
        record_route: routing.record_route,
        from: names.from,
        to: names.to,
        call_id: names.call_id,
        cseq: names.cseq,
        contact: content.contact,
        others: content.others,
        body: content.body,
    }
}

impl Same for Head {
    fn same(&self, other: &Head) -> bool {
        self.via.same(&other.via)
            && self.route.same(&other.route)
            && self.record_route.same(&other.record_route)
            && self.from.same(&other.from)
            && self.to.same(&other.to)
            && self.call_id.same(&other.call_id)
            && self.cseq.same(&other.cseq)
            && self.contact.same(&other.contact)
            && self.others.same(&other.others)
            && self.body.same(&other.body)
    }
}

impl CloneIn for Request {
    fn clone_in(&self, alloc: Global) -> Result<Request, NoMemory> {
        Ok(Request {
            method: self.method.clone_in(alloc)?,
            uri: self.uri.clone_in(alloc)?,
            hops: self.hops,
            head: self.head.clone_in(alloc)?,
        })
    }
}

impl Same for Request {
    fn same(&self, other: &Request) -> bool {
        self.method.same(&other.method)
            && self.uri.same(&other.uri)
            && self.hops == other.hops
            && self.head.same(&other.head)
    }
}

impl CloneIn for Response {
    fn clone_in(&self, alloc: Global) -> Result<Response, NoMemory> {
        Ok(Response {
            code: self.code,
            reason: self.reason.clone_in(alloc)?,
            head: self.head.clone_in(alloc)?,
        })
    }
}

impl Same for Response {
    fn same(&self, other: &Response) -> bool {
        self.code == other.code && self.reason.same(&other.reason) && self.head.same(&other.head)
    }
}

impl CloneIn for Message {
    fn clone_in(&self, alloc: Global) -> Result<Message, NoMemory> {
        match self {
            Message::Request(request) => Ok(Message::Request(request.clone_in(alloc)?)),
            Message::Response(response) => Ok(Message::Response(response.clone_in(alloc)?)),
        }
    }
}

impl Same for Message {
    fn same(&self, other: &Message) -> bool {
        match (self, other) {
            (Message::Request(a), Message::Request(b)) => a.same(b),
            (Message::Response(a), Message::Response(b)) => a.same(b),
            (Message::Request(_), Message::Response(_))
            | (Message::Response(_), Message::Request(_)) => false,
        }
    }
}
