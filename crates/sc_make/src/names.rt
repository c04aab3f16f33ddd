//! The names and URIs in the script's messages.

ghost use Rattle.std.specs.Prelude.{◌≡◌, ◌∷◌, [], None, Some, IfOk, true, false};
ghost use Rattle.sc_tokens.specs.Bytes.{is_open};
ghost use Rattle.sc_tokens.specs.Cuts.{has};
ghost use Rattle.sc_tokens.specs.Hosts.{is_host};
ghost use Rattle.sc_tokens.specs.Tokens.{is_value};
ghost use Rattle.sc_value.specs.ParamRules.{AreUriParams};
ghost use Rattle.sc_value.specs.declared.parts.Uri.{Uri};
ghost use Rattle.sc_model.specs.Generated.{answer_tag, branch_of, call_of, caller, cookie, local, mark, name_and_value, session_param, session_text, session_uri, user_uri};
ghost use Rattle.sc_model.specs.Names.{loose_param, tcp_param};

use sc_names::{loose_param, tcp_param};
use sc_value::{HeaderValue, List, NoMemory, Param, SipUri, Text, Uri, write_u64};
use std::alloc::Global;

/// `name=value`.
#[tactic(auto, unfolding(sc_model::specs::Generated::name_and_value))]
pub fn valued(alloc: Global, name: &[u8], value: Text) -> Result<Param, NoMemory>
    ensures { IfOk result (λ p. p ≡ name_and_value name.now value) }
{
    let name = Text::from_slice(alloc, name)?;
    Ok(Param {
        name,
        value: Some(value),
    })
}

/// `sip:user@host:port`.
#[tactic(auto, unfolding(sc_model::specs::Generated::user_uri, sc_tokens::specs::UriTokens::IsUser, sc_value::specs::ParamRules::AreUriParams))]
pub fn user_uri(alloc: Global, user: &[u8], host: &[u8], port: Option<u16>) -> Result<Uri, NoMemory>
    requires bytes { is_open user.now ≡ true }
    requires user { has 64 user.now ≡ false }
    requires host { is_host host.now ≡ true }
    ensures { IfOk result (λ u. u ≡ user_uri user.now host.now port) }
{
    let user = Text::from_slice(alloc, user)?;
    let host = Text::from_slice(alloc, host)?;
    let uri = SipUri {
        user: Some(user),
        host,
        port,
        params: List::new(alloc),
        headers: None,
    };
    Uri::sip(alloc, uri)
}

/// `sip:127.0.0.1:5060;transport=tcp;lr;ap=h-i`.
#[tactic(auto, unfolding(sc_model::specs::Generated::session_uri, sc_model::specs::Generated::local, sc_tokens::specs::UriTokens::IsUser, sc_tokens::specs::Hosts::is_host, sc_tokens::specs::Hosts::begins, sc_tokens::specs::Hosts::is_host_name, sc_tokens::specs::Bytes::is_host_byte))]
pub fn session_uri(alloc: Global, host: u64, i: u64) -> Result<Uri, NoMemory>
    ensures { IfOk result (λ u. u ≡ session_uri host i) }
{
    let params = session_params(alloc, host, i)?;
    let host = Text::from_slice(alloc, b"127.0.0.1")?;
    let uri = SipUri {
        user: None,
        host,
        port: Some(5060),
        params,
        headers: None,
    };
    Uri::sip(alloc, uri)
}

#[tactic(auto, using(sc_model::proofs::UriFacts::session_kept))]
fn session_params(alloc: Global, host: u64, i: u64) -> Result<List<Param>, NoMemory>
    ensures exact { IfOk result (λ l. l ≡ tcp_param ∷ loose_param ∷ session_param host i ∷ []) }
    ensures kept { IfOk result (λ l. AreUriParams l) }
{
    let transport = tcp_param(alloc)?;
    let lr = loose_param(alloc)?;
    let session = session_param(alloc, host, i)?;
    let mut params = List::new(alloc);
    params.push(transport)?;
    params.push(lr)?;
    params.push(session)?;
    Ok(params)
}

#[tactic(auto, unfolding(sc_model::specs::Generated::session_param))]
fn session_param(alloc: Global, host: u64, i: u64) -> Result<Param, NoMemory>
    ensures { IfOk result (λ p. p ≡ session_param host i) }
{
    let value = session_text(alloc, host, i)?;
    valued(alloc, b"ap", value)
}

#[tactic(auto, unfolding(sc_model::specs::Generated::session_text))]
fn session_text(alloc: Global, host: u64, i: u64) -> Result<Text, NoMemory>
    ensures { IfOk result (λ t. t ≡ session_text host i) }
{
    let mut text = Text::new(alloc);
    write_u64(host, &mut text)?;
    text.append(b"-")?;
    write_u64(i, &mut text)?;
    Ok(text)
}

/// `s1-1-i-1`.
#[tactic(auto, unfolding(sc_model::specs::Generated::answer_tag, sc_model::specs::Generated::mark))]
pub fn answer_tag(alloc: Global, i: u64) -> Result<Text, NoMemory>
    ensures { IfOk result (λ t. t ≡ answer_tag i) }
{
    let mut text = Text::from_slice(alloc, b"s1-1-")?;
    write_u64(i, &mut text)?;
    text.append(b"-1")?;
    Ok(text)
}

/// `z9hG4bKm` and i, and the letter.
#[tactic(auto, unfolding(sc_model::specs::Generated::branch_of, sc_model::specs::Generated::cookie))]
pub fn branch_of(alloc: Global, i: u64, letter: &[u8]) -> Result<Text, NoMemory>
    ensures { IfOk result (λ t. t ≡ branch_of i letter.now) }
{
    let mut text = Text::from_slice(alloc, b"z9hG4bKm")?;
    write_u64(i, &mut text)?;
    text.append(letter)?;
    Ok(text)
}

/// `m` and i.
pub fn call_of(alloc: Global, i: u64) -> Result<HeaderValue, NoMemory>
    ensures { IfOk result (λ t. t ≡ call_of i) }
{
    let text = call_text(alloc, i)?;
    HeaderValue::from_slice(alloc, text.as_bytes())
}

#[tactic(auto, using(sc_model::proofs::TokenFacts::call_value), unfolding(sc_model::specs::Generated::call_of, sc_model::specs::Generated::caller))]
fn call_text(alloc: Global, i: u64) -> Result<Text, NoMemory>
    ensures exact { IfOk result (λ t. t ≡ call_of i) }
    ensures value { IfOk result (λ t. is_value t ≡ true) }
{
    let mut text = Text::from_slice(alloc, b"m")?;
    write_u64(i, &mut text)?;
    Ok(text)
}
