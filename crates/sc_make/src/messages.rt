//! The three messages of a call.

ghost use Rattle.std.specs.Prelude.{◌≡◌, ◌∷◌, ◌<◌, ◌^◌, [], true, IfOk};
ghost use Rattle.std.specs.List.{list_all};
ghost use Rattle.sc_tokens.specs.Tokens.{is_one_line, is_token, is_token_byte};
ghost use Rattle.sc_tokens.specs.HeaderTokens.{is_param_text};
ghost use Rattle.sc_value.specs.ParamRules.{AreHeaderParams};
ghost use Rattle.sc_model.specs.Generated.{ack_of, answer_tag, answered_side, branch_of, bye_of, caller, caller_contact, from_side, head_of, invite_of, later_of, name_and_value, route_of, to_side, via_of};
ghost use Rattle.sc_model.specs.SessionStates.{ack, bye, invite};
ghost use Rattle.sc_value.specs.Params.{tag_name, branch_name};

use crate::names::{answer_tag, branch_of, call_of, session_uri, user_uri, valued};
use sc_value::{
    Address, CSeq, Contact, Head, List, NoMemory, Others, Param, Request, Shared, SharedList, Text,
    Token, Via, plain_address,
};
use std::alloc::Global;

/// The INVITE of call i.
#[tactic(auto, unfolding(sc_model::specs::Generated::invite_of, sc_model::specs::Generated::called_user, sc_model::specs::Generated::home, sc_model::specs::SessionStates::invite, sc_tokens::specs::Tokens::is_token, sc_tokens::specs::Tokens::is_token_byte, sc_tokens::specs::Bytes::is_open, sc_tokens::specs::Bytes::is_closed, sc_tokens::specs::Cuts::has, sc_tokens::specs::Hosts::is_host, sc_tokens::specs::Hosts::begins, sc_tokens::specs::Hosts::is_host_name, sc_tokens::specs::Bytes::is_host_byte))]
pub fn invite_of(alloc: Global, i: u64) -> Result<Request, NoMemory>
    ensures { IfOk result (λ r. r ≡ invite_of i) }
{
    let to = to_side(alloc)?;
    let contact = contacts(alloc)?;
    let head = head_of(alloc, i, b"", b"INVITE", 1, to, List::new(alloc), contact)?;
    let uri = user_uri(alloc, b"u", b"home.test", None)?;
    let method = Token::from_slice(alloc, b"INVITE")?;
    Ok(Request {
        method,
        uri,
        hops: 70,
        head,
    })
}

/// The ACK of call i.
#[tactic(auto, unfolding(sc_model::specs::Generated::ack_of, sc_model::specs::SessionStates::ack, sc_tokens::specs::Tokens::is_token, sc_tokens::specs::Tokens::is_token_byte))]
pub fn ack_of(alloc: Global, i: u64) -> Result<Request, NoMemory>
    ensures { IfOk result (λ r. r ≡ ack_of i) }
{
    later_of(alloc, i, b"a", b"ACK", 1)
}

/// The BYE of call i.
#[tactic(auto, unfolding(sc_model::specs::Generated::bye_of, sc_model::specs::SessionStates::bye, sc_tokens::specs::Tokens::is_token, sc_tokens::specs::Tokens::is_token_byte))]
pub fn bye_of(alloc: Global, i: u64) -> Result<Request, NoMemory>
    ensures { IfOk result (λ r. r ≡ bye_of i) }
{
    later_of(alloc, i, b"b", b"BYE", 2)
}

#[tactic(auto, unfolding(sc_model::specs::Generated::later_of))]
fn later_of(
    alloc: Global,
    i: u64,
    letter: &[u8],
    method: &[u8],
    number: u32,
) -> Result<Request, NoMemory>
    requires letter { list_all is_token_byte letter.now ≡ true }
    requires number { number < 2 ^ 31 }
    requires method { is_token method.now ≡ true }
    ensures { IfOk result (λ r. r ≡ later_of i letter.now method.now number) }
{
    let to = answered_side(alloc, i)?;
    let route = routes(alloc, i)?;
    let head = head_of(
        alloc,
        i,
        letter,
        method,
        number,
        to,
        route,
        List::new(alloc),
    )?;
    let uri = session_uri(alloc, 1, i)?;
    let method = Token::from_slice(alloc, method)?;
    Ok(Request {
        method,
        uri,
        hops: 70,
        head,
    })
}

#[tactic(auto, unfolding(sc_model::specs::Generated::head_of))]
fn head_of(
    alloc: Global,
    i: u64,
    letter: &[u8],
    method: &[u8],
    number: u32,
    to: Address,
    route: List<Address>,
    contact: List<Contact>,
) -> Result<Head, NoMemory>
    requires letter { list_all is_token_byte letter.now ≡ true }
    requires number { number < 2 ^ 31 }
    requires method { is_token method.now ≡ true }
    ensures { IfOk result (λ h. h ≡ head_of i letter.now method.now number to route contact) }
{
    let via = SharedList::from_list(alloc, vias(alloc, i, letter)?)?;
    let from = Shared::new(alloc, from_side(alloc)?)?;
    let to = Shared::new(alloc, to)?;
    let contact = SharedList::from_list(alloc, contact)?;
    let call_id = call_of(alloc, i)?;
    let method = Token::from_slice(alloc, method)?;
    Ok(Head {
        via,
        route,
        record_route: SharedList::new(alloc),
        from,
        to,
        call_id,
        cseq: CSeq { number, method },
        contact,
        others: Others::new(alloc),
        body: Text::new(alloc),
    })
}

fn vias(alloc: Global, i: u64, letter: &[u8]) -> Result<List<Via>, NoMemory>
    requires { list_all is_token_byte letter.now ≡ true }
    ensures { IfOk result (λ l. l ≡ via_of i letter.now ∷ []) }
{
    let via = via_of(alloc, i, letter)?;
    let mut vias = List::new(alloc);
    vias.push(via)?;
    Ok(vias)
}

#[tactic(auto, unfolding(sc_model::specs::Generated::via_of, sc_model::specs::Generated::local, sc_tokens::specs::Tokens::is_token, sc_tokens::specs::Tokens::is_token_byte, sc_tokens::specs::Hosts::is_host, sc_tokens::specs::Hosts::begins, sc_tokens::specs::Hosts::is_host_name, sc_tokens::specs::Bytes::is_host_byte))]
fn via_of(alloc: Global, i: u64, letter: &[u8]) -> Result<Via, NoMemory>
    requires { list_all is_token_byte letter.now ≡ true }
    ensures { IfOk result (λ v. v ≡ via_of i letter.now) }
{
    let params = branch_params(alloc, i, letter)?;
    let transport = Text::from_slice(alloc, b"TCP")?;
    let host = Text::from_slice(alloc, b"127.0.0.1")?;
    Ok(Via {
        transport,
        host,
        port: Some(5090),
        params,
    })
}

#[tactic(auto, using(sc_model::proofs::TokenFacts::branch_token, sc_model::proofs::TokenFacts::branch_line), unfolding(sc_value::specs::Params::branch_name, sc_tokens::specs::Tokens::is_token, sc_tokens::specs::Tokens::is_token_byte))]
fn branch_params(alloc: Global, i: u64, letter: &[u8]) -> Result<List<Param>, NoMemory>
    requires { list_all is_token_byte letter.now ≡ true }
    ensures exact { IfOk result
        (λ l. l ≡ name_and_value branch_name (branch_of i letter.now) ∷ []) }
    ensures kept { IfOk result (λ l. AreHeaderParams l) }
{
    let branch = branch_of(alloc, i, letter)?;
    one_param(alloc, b"branch", branch)
}

#[tactic(auto, using(sc_model::proofs::TokenFacts::valued_kept))]
fn one_param(alloc: Global, name: &[u8], value: Text) -> Result<List<Param>, NoMemory>
    requires name { is_token name.now ≡ true }
    requires value { is_param_text value ≡ true }
    requires line { is_one_line value ≡ true }
    ensures exact { IfOk result (λ l. l ≡ name_and_value name.now value ∷ []) }
    ensures kept { IfOk result (λ l. AreHeaderParams l) }
{
    let param = valued(alloc, name, value)?;
    let mut params = List::new(alloc);
    params.push(param)?;
    Ok(params)
}

#[tactic(auto, using(sc_model::proofs::ParamFacts::token_is_value, sc_model::proofs::ParamFacts::token_is_line), unfolding(sc_value::specs::Params::tag_name, sc_model::specs::Generated::caller, sc_tokens::specs::Tokens::is_token, sc_tokens::specs::Tokens::is_token_byte))]
fn caller_params(alloc: Global) -> Result<List<Param>, NoMemory>
    ensures exact { IfOk result (λ l. l ≡ name_and_value tag_name caller ∷ []) }
    ensures kept { IfOk result (λ l. AreHeaderParams l) }
{
    let tag = Text::from_slice(alloc, b"m")?;
    one_param(alloc, b"tag", tag)
}

#[tactic(auto, using(sc_model::proofs::TokenFacts::answer_token, sc_model::proofs::TokenFacts::answer_line), unfolding(sc_value::specs::Params::tag_name, sc_tokens::specs::Tokens::is_token, sc_tokens::specs::Tokens::is_token_byte))]
fn answer_params(alloc: Global, i: u64) -> Result<List<Param>, NoMemory>
    ensures exact { IfOk result (λ l. l ≡ name_and_value tag_name (answer_tag i) ∷ []) }
    ensures kept { IfOk result (λ l. AreHeaderParams l) }
{
    let tag = answer_tag(alloc, i)?;
    one_param(alloc, b"tag", tag)
}

#[tactic(auto, unfolding(sc_model::specs::Generated::from_side, sc_model::specs::Generated::caller, sc_model::specs::Generated::home, sc_tokens::specs::Bytes::is_open, sc_tokens::specs::Bytes::is_closed, sc_tokens::specs::Cuts::has, sc_tokens::specs::Hosts::is_host, sc_tokens::specs::Hosts::begins, sc_tokens::specs::Hosts::is_host_name, sc_tokens::specs::Bytes::is_host_byte, sc_tokens::specs::HeaderTokens::IsDisplay))]
fn from_side(alloc: Global) -> Result<Address, NoMemory>
    ensures { IfOk result (λ a. a ≡ from_side) }
{
    let params = caller_params(alloc)?;
    let uri = user_uri(alloc, b"m", b"home.test", None)?;
    uri.known();
    Ok(Address {
        display: None,
        uri,
        params,
    })
}

#[tactic(auto, unfolding(sc_model::specs::Generated::to_side, sc_model::specs::Generated::called_user, sc_model::specs::Generated::home, sc_tokens::specs::Bytes::is_open, sc_tokens::specs::Bytes::is_closed, sc_tokens::specs::Cuts::has, sc_tokens::specs::Hosts::is_host, sc_tokens::specs::Hosts::begins, sc_tokens::specs::Hosts::is_host_name, sc_tokens::specs::Bytes::is_host_byte))]
fn to_side(alloc: Global) -> Result<Address, NoMemory>
    ensures { IfOk result (λ a. a ≡ to_side) }
{
    let uri = user_uri(alloc, b"u", b"home.test", None)?;
    Ok(plain_address(alloc, uri))
}

#[tactic(auto, unfolding(sc_model::specs::Generated::answered_side, sc_model::specs::Generated::called_user, sc_model::specs::Generated::home, sc_tokens::specs::Bytes::is_open, sc_tokens::specs::Bytes::is_closed, sc_tokens::specs::Cuts::has, sc_tokens::specs::Hosts::is_host, sc_tokens::specs::Hosts::begins, sc_tokens::specs::Hosts::is_host_name, sc_tokens::specs::Bytes::is_host_byte, sc_tokens::specs::HeaderTokens::IsDisplay))]
fn answered_side(alloc: Global, i: u64) -> Result<Address, NoMemory>
    ensures { IfOk result (λ a. a ≡ answered_side i) }
{
    let params = answer_params(alloc, i)?;
    let uri = user_uri(alloc, b"u", b"home.test", None)?;
    uri.known();
    Ok(Address {
        display: None,
        uri,
        params,
    })
}

fn contacts(alloc: Global) -> Result<List<Contact>, NoMemory>
    ensures { IfOk result (λ l. l ≡ caller_contact ∷ []) }
{
    let contact = caller_contact(alloc)?;
    let mut contacts = List::new(alloc);
    contacts.push(contact)?;
    Ok(contacts)
}

#[tactic(auto, unfolding(sc_model::specs::Generated::caller_contact, sc_model::specs::Generated::caller, sc_model::specs::Generated::local, sc_tokens::specs::Bytes::is_open, sc_tokens::specs::Bytes::is_closed, sc_tokens::specs::Cuts::has, sc_tokens::specs::Hosts::is_host, sc_tokens::specs::Hosts::begins, sc_tokens::specs::Hosts::is_host_name, sc_tokens::specs::Bytes::is_host_byte))]
fn caller_contact(alloc: Global) -> Result<Contact, NoMemory>
    ensures { IfOk result (λ c. c ≡ caller_contact) }
{
    let uri = user_uri(alloc, b"m", b"127.0.0.1", Some(5090))?;
    Ok(Contact::At(plain_address(alloc, uri)))
}

fn routes(alloc: Global, i: u64) -> Result<List<Address>, NoMemory>
    ensures { IfOk result (λ l. l ≡ route_of i ∷ []) }
{
    let route = route_of(alloc, i)?;
    let mut routes = List::new(alloc);
    routes.push(route)?;
    Ok(routes)
}

#[tactic(auto, unfolding(sc_model::specs::Generated::route_of))]
fn route_of(alloc: Global, i: u64) -> Result<Address, NoMemory>
    ensures { IfOk result (λ a. a ≡ route_of i) }
{
    let uri = session_uri(alloc, 0, i)?;
    Ok(plain_address(alloc, uri))
}
