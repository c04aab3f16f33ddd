//! Responses: those that an application gives and the container's own (RFC 3261 section 8.2.6).

ghost use Rattle.std.specs.Prelude.{◌≡◌, map, IfOk, OnOk};
ghost use Rattle.sc_model.specs.Names.{edge_tag};
ghost use Rattle.sc_model.specs.Responses.{kept_field, response_head, response_to, with_tag};
ghost use Rattle.sc_hosts.specs.Messages.{answered_here, bad_response, bare_answer, given_response, makes_dialog, own_response, trying_response, with_routes, without_via};

use crate::parts::{
    Content, head_of, no_content, set_response_contact, set_response_routes, set_response_via,
};
use crate::requests::{begins_dialog, own_contact};
use crate::sides::with_tag;
use crate::vias::below;
use sc_dialog::{kept_fields, sets_target};
use sc_terms::{Answer, Config, View};
use sc_value::{
    Answerable, CloneIn, Discard, Head, List, Names, NoMemory, Reason, Request, Response, Shared,
    SharedList, Text, is_one_line, names_of,
};
use std::alloc::Global;

/// Whether a response of this code to a request that begins a dialog makes it: 101 to 299.
pub fn makes_dialog(code: u16) -> bool
    ensures { result ≡ makes_dialog code }
{
    100 < code && code < 300
}

/// The response that an answer makes to a request, with this tag on To where that has none.
#[tactic(auto, unfolding(sc_model::specs::Responses::response_to))]
pub fn response_to(
    alloc: Global,
    tag: &[u8],
    request: &Request,
    answer: &Answer,
) -> Result<Response, NoMemory>
    ensures { IfOk result (λ r. r ≡ response_to tag.now request.now answer.now) }
{
    let reason = asked_reason(alloc, answer.reason.as_bytes())?;
    let head = response_head(alloc, tag, request, answer)?;
    Ok(Response {
        code: answer.code,
        reason,
        head,
    })
}

// The reason of an answer. An application's was found one line where the call was judged; it is
// tested again, since no type says so.
fn asked_reason(alloc: Global, reason: &[u8]) -> Result<Reason, NoMemory>
    ensures { IfOk result (λ r. r ≡ reason.now) }
{
    if !is_one_line(reason) {
        return Err(NoMemory);
    }
    Reason::from_slice(alloc, reason)
}

#[tactic(auto, unfolding(sc_model::specs::Responses::response_head))]
fn response_head(
    alloc: Global,
    tag: &[u8],
    request: &Request,
    answer: &Answer,
) -> Result<Head, NoMemory>
    ensures { IfOk result (λ h. h ≡ response_head tag.now request.now answer.now) }
{
    let via = request.head.via.clone_in(alloc)?;
    let content = answer_content(alloc, answer)?;
    let names = answer_names(alloc, tag, &request.head)?;
    Ok(head_of(alloc, via, List::new(alloc), names, content))
}

fn answer_names(alloc: Global, tag: &[u8], head: &Head) -> Result<Names, NoMemory>
    ensures { IfOk result
        (λ n.
        n
        ≡ record {
          from = head.now.from;
          to = with_tag tag.now head.now.to;
          call_id = head.now.call_id;
          cseq = head.now.cseq;
        }) }
{
    let call_id = head.call_id.clone_in(alloc)?;
    let cseq = head.cseq.clone_in(alloc)?;
    let from = head.from.clone_in(alloc)?;
    let to = Shared::new(alloc, with_tag(alloc, tag, &head.to)?)?;
    Ok(Names {
        from,
        to,
        call_id,
        cseq,
    })
}

fn answer_content(alloc: Global, answer: &Answer) -> Result<Content, NoMemory>
    ensures { IfOk result
        (λ c.
        c
        ≡ record {
          contact = answer.now.contact;
          others = map kept_field answer.now.fields;
          body = answer.now.body;
        }) }
{
    let body = answer.body.clone_in(alloc)?;
    let contact = SharedList::from_list(alloc, answer.contact.clone_in(alloc)?)?;
    let others = kept_fields(alloc, answer.fields.as_slice())?;
    Ok(Content {
        contact,
        others,
        body,
    })
}

/// The response to a received request that an application gives, with this tag.
#[tactic(auto, unfolding(sc_hosts::specs::Messages::given_response))]
pub fn given_response(
    alloc: Global,
    config: &Config,
    view: &View,
    tag: &[u8],
    initial: bool,
    request: &Request,
    answer: &Answer,
) -> Result<Response, NoMemory>
    ensures { IfOk result
        (λ r. r ≡ given_response config.now view.entry.now tag.now initial request.now answer.now) }
{
    let mut response = response_to(alloc, tag, request, answer)?;
    match completed(alloc, config, view, initial, request, &mut response) {
        Ok(()) => Ok(response),
        Err(cause) => {
            response.discard();
            Err(cause)
        }
    }
}

fn completed(
    alloc: Global,
    config: &Config,
    view: &View,
    initial: bool,
    request: &Request,
    response: &mut Response,
) -> Result<(), NoMemory>
    ensures { OnOk result
        (response.new
        ≡ with_routes initial request.now
        (answered_here config.now view.entry.now request.now response.old)) }
{
    answered_here(alloc, config, view, request, response)?;
    with_routes(alloc, initial, request, response)
}

// An answer that sets the target of a dialog has the own Contact.
#[tactic(auto, unfolding(sc_hosts::specs::Messages::answered_here))]
fn answered_here(
    alloc: Global,
    config: &Config,
    view: &View,
    request: &Request,
    response: &mut Response,
) -> Result<(), NoMemory>
    ensures { OnOk result
        (response.new ≡ answered_here config.now view.entry.now request.now response.old) }
{
    if sets_target(request.method.as_bytes()) && makes_dialog(response.code) {
        let contact = own_contact(alloc, config, view.epoch, view.app)?;
        set_response_contact(response, contact);
    }
    Ok(())
}

// The Record-Route list goes back in the answer that makes the dialog (RFC 3261 section 12.1.1).
#[tactic(auto, unfolding(sc_hosts::specs::Messages::with_routes))]
fn with_routes(
    alloc: Global,
    initial: bool,
    request: &Request,
    response: &mut Response,
) -> Result<(), NoMemory>
    ensures { OnOk result (response.new ≡ with_routes initial request.now response.old) }
{
    if initial && begins_dialog(request) && makes_dialog(response.code) {
        let routes = request.head.record_route.clone_in(alloc)?;
        set_response_routes(response, routes);
    }
    Ok(())
}

/// A response that the container gives by itself.
#[tactic(auto, unfolding(sc_hosts::specs::Messages::own_response))]
pub fn own_response(
    alloc: Global,
    tag: &[u8],
    code: u16,
    reason: &[u8],
    request: &Request,
) -> Result<Response, NoMemory>
    ensures { IfOk result (λ r. r ≡ own_response tag.now code reason.now request.now) }
{
    let answer = bare_answer(alloc, code, reason)?;
    response_to(alloc, tag, request, &answer)
}

#[tactic(auto, unfolding(sc_hosts::specs::Messages::bare_answer))]
fn bare_answer(alloc: Global, code: u16, reason: &[u8]) -> Result<Answer, NoMemory>
    ensures { IfOk result (λ a. a ≡ bare_answer code reason.now) }
{
    let reason = Text::from_slice(alloc, reason)?;
    Ok(Answer {
        code,
        reason,
        fields: List::new(alloc),
        contact: List::new(alloc),
        body: Text::new(alloc),
    })
}

/// A 100, which has no tag (RFC 3261 section 8.2.6.1).
#[tactic(auto, unfolding(sc_hosts::specs::Messages::trying_response, sc_hosts::specs::Messages::bare_answer, sc_model::specs::Responses::response_to, sc_model::specs::Responses::response_head))]
pub fn trying_response(
    alloc: Global,
    reason: &[u8],
    request: &Request,
) -> Result<Response, NoMemory>
    ensures { IfOk result (λ r. r ≡ trying_response reason.now request.now) }
{
    let reason = asked_reason(alloc, reason)?;
    let via = request.head.via.clone_in(alloc)?;
    let names = names_of(alloc, &request.head)?;
    let content = no_content(alloc);
    Ok(Response {
        code: 100,
        reason,
        head: head_of(alloc, via, List::new(alloc), names, content),
    })
}

/// The answer to a text that isn't a message.
#[tactic(auto, unfolding(sc_hosts::specs::Messages::bad_response, sc_hosts::specs::Words::bad_request, sc_tokens::specs::Tokens::is_one_line, sc_tokens::specs::Tokens::is_line_break))]
pub fn bad_response(alloc: Global, salt: &Text, heads: &Answerable) -> Result<Response, NoMemory>
    ensures { IfOk result (λ r. r ≡ bad_response salt.now heads.now) }
{
    let reason = Reason::from_slice(alloc, b"Bad Request")?;
    let via = SharedList::from_list(alloc, heads.via.clone_in(alloc)?)?;
    let names = bad_names(alloc, salt, heads)?;
    let content = no_content(alloc);
    Ok(Response {
        code: 400,
        reason,
        head: head_of(alloc, via, List::new(alloc), names, content),
    })
}

fn bad_names(alloc: Global, salt: &Text, heads: &Answerable) -> Result<Names, NoMemory>
    ensures { IfOk result
        (λ n.
        n
        ≡ record {
          from = heads.now.from;
          to = with_tag (edge_tag salt.now) heads.now.to;
          call_id = heads.now.call_id;
          cseq = heads.now.cseq;
        }) }
{
    let mut tag = Text::new(alloc);
    sc_names::edge_tag(alloc, salt, &mut tag)?;
    let call_id = heads.call_id.clone_in(alloc)?;
    let cseq = heads.cseq.clone_in(alloc)?;
    let from = Shared::new(alloc, heads.from.clone_in(alloc)?)?;
    let to = Shared::new(alloc, with_tag(alloc, tag.as_bytes(), &heads.to)?)?;
    Ok(Names {
        from,
        to,
        call_id,
        cseq,
    })
}

/// A response without its top Via.
#[tactic(auto, unfolding(sc_hosts::specs::Messages::without_via))]
pub fn without_via(alloc: Global, response: &Response) -> Result<Response, NoMemory>
    ensures { IfOk result (λ r. r ≡ without_via response.now) }
{
    let via = below(alloc, response.head.via.as_slice())?;
    let mut copy = response.clone_in(alloc)?;
    set_response_via(&mut copy, via);
    Ok(copy)
}
