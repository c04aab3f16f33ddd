//! What is forwarded of the best response (RFC 3261 section 16.7, steps 6 and 7).

ghost use Rattle.std.specs.Prelude.{◌≡◌, ◌==◌, ◌<◌, ◌++◌, ◌||◌, length, IfOk, OnOk, filter, slice_get};
ghost use Rattle.std.specs.List.{flat_map};
ghost use Rattle.sc_value.specs.declared.message.Response.{Response};
ghost use Rattle.sc_model.specs.BestResponses.{asks_credentials, challenges_beside, challenges_of, forwarded_code, forwarded_reason, is_challenge, response_onward};

use sc_value::{CloneIn, Field, Head, List, NoMemory, Others, Reason, Response, Shared, same_name};
use std::alloc::Global;

/// The challenges that a chosen 401 or 407 is given: the WWW-Authenticate and Proxy-Authenticate
/// fields of all other 401 and 407 responses, in their order; none where another response is
/// chosen.
/// `Err` for want of memory alone.
pub fn gather(
    alloc: Global,
    list: &List<Shared<Response>>,
    chosen: usize,
) -> Result<Others, NoMemory>
    requires { chosen < length list.now }
    ensures { IfOk result (λ fields. fields ≡ challenges_beside list.now chosen) }
{
    let mut fields = Others::new(alloc);
    add_gathered(alloc, list.as_slice(), chosen, &mut fields)?;
    Ok(fields)
}

fn add_gathered(
    alloc: Global,
    responses: &[Shared<Response>],
    chosen: usize,
    fields: &mut Others,
) -> Result<(), NoMemory>
    requires { chosen < length responses.now }
    ensures { OnOk result (fields.new ≡ fields.old ++ challenges_beside responses.now chosen) }
{
    if !asks_credentials(responses[chosen].get()) {
        return Ok(());
    }
    add_challenges(alloc, &responses[..chosen], fields)?;
    add_challenges(alloc, &responses[chosen + 1..], fields)?;
    Ok(())
}

fn add_challenges(
    alloc: Global,
    responses: &[Shared<Response>],
    fields: &mut Others,
) -> Result<(), NoMemory>
    ensures { OnOk result (fields.new ≡ fields.old ++ flat_map challenges_of responses.now) }
{
    for response in responses {
        add_challenges_of(alloc, response.get(), fields)?;
    }
    Ok(())
}

#[tactic(auto, unfolding(sc_model::specs::BestResponses::challenges_of))]
fn add_challenges_of(
    alloc: Global,
    response: &Response,
    fields: &mut Others,
) -> Result<(), NoMemory>
    ensures { OnOk result (fields.new ≡ fields.old ++ challenges_of response.now) }
{
    if !asks_credentials(response) {
        return Ok(());
    }
    add_some(alloc, &response.head.others, fields)
}

/// Adds the challenges among these headers.
fn add_some(alloc: Global, others: &Others, fields: &mut Others) -> Result<(), NoMemory>
    ensures { OnOk result (fields.new ≡ fields.old ++ filter is_challenge others.now) }
{
    for at in 0..others.len() {
        if is_challenge(&others.as_slice()[at]) {
            fields.push_copy(alloc, others, at)?;
        }
    }
    Ok(())
}

fn asks_credentials(response: &Response) -> bool
    ensures { result ≡ asks_credentials response.now }
{
    response.code == 401 || response.code == 407
}

#[tactic(auto, unfolding(sc_model::specs::BestResponses::is_challenge, sc_model::specs::BestResponses::www_authenticate, sc_model::specs::BestResponses::proxy_authenticate))]
fn is_challenge(field: &Field) -> bool
    ensures { result ≡ is_challenge field.now }
{
    let name = field.name.as_bytes();
    same_name(name, b"WWW-Authenticate") || same_name(name, b"Proxy-Authenticate")
}

/// The chosen response as it is forwarded: a 503 made a 500, a 401 or 407 with the challenges of
/// the others. `Err` for want of memory alone.
pub fn forwarded(
    alloc: Global,
    list: &List<Shared<Response>>,
    chosen: usize,
) -> Result<Response, NoMemory>
    requires { chosen < length list.now }
    ensures { IfOk result (λ response. response_onward list.now chosen ≡ Some response) }
{
    let responses = list.as_slice();
    let response = responses[chosen].get();
    let reason = forwarded_reason(alloc, response)?;
    let head = forwarded_head(alloc, responses, chosen)?;
    Ok(Response {
        code: forwarded_code(response.code),
        reason,
        head,
    })
}

#[tactic(auto, unfolding(sc_model::specs::BestResponses::forwarded_code))]
fn forwarded_code(code: u16) -> u16
    ensures { result ≡ forwarded_code code }
{
    if code == 503 { 500 } else { code }
}

#[tactic(auto, using(sc_model::proofs::ReasonFacts::server_error_is_line), unfolding(sc_model::specs::BestResponses::forwarded_reason, sc_model::specs::BestResponses::server_error))]
fn forwarded_reason(alloc: Global, response: &Response) -> Result<Reason, NoMemory>
    ensures { IfOk result (λ reason. reason ≡ forwarded_reason response.now) }
{
    if response.code == 503 {
        return Reason::from_slice(alloc, b"Server Internal Error");
    }
    response.reason.clone_in(alloc)
}

/// The headers with the challenges that are gathered, after its own.
fn forwarded_head(
    alloc: Global,
    responses: &[Shared<Response>],
    chosen: usize,
) -> Result<Head, NoMemory>
    requires { chosen < length responses.now }
    ensures { IfOk result
        (λ head.
        (response : Response) → slice_get responses.now chosen ≡ Some response
        → head
        ≡ record response.head {
          others = response.head.others ++ challenges_beside responses.now chosen;
        }) }
{
    let others = forwarded_others(alloc, responses, chosen)?;
    head_with(alloc, &responses[chosen].get().head, others)
}

fn forwarded_others(
    alloc: Global,
    responses: &[Shared<Response>],
    chosen: usize,
) -> Result<Others, NoMemory>
    requires { chosen < length responses.now }
    ensures { IfOk result
        (λ fields.
        (response : Response) → slice_get responses.now chosen ≡ Some response
        → fields ≡ response.head.others ++ challenges_beside responses.now chosen) }
{
    let mut fields = responses[chosen].get().head.others.clone_in(alloc)?;
    add_gathered(alloc, responses, chosen, &mut fields)?;
    Ok(fields)
}

/// A copy with other headers without structure.
fn head_with(alloc: Global, head: &Head, others: Others) -> Result<Head, NoMemory>
    ensures { IfOk result (λ copy. copy ≡ record head.now { others = others }) }
{
    let mut copy = head.clone_in(alloc)?;
    copy.others = others;
    Ok(copy)
}
