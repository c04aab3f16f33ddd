//! The marks by which the container knows its own: the Via of a branch, and the Record-Route and
//! Contact of an application session.

ghost use Rattle.std.specs.Prelude.{◌≡◌, true, ◌∷◌, [], Some, IfOk};
ghost use Rattle.sc_tokens.specs.Hosts.{is_host};
ghost use Rattle.sc_value.specs.Params.{branch_name};
ghost use Rattle.sc_value.specs.ParamRules.{AreHeaderParams, AreUriParams};
ghost use Rattle.sc_model.specs.Names.{ap_name, ap_value, branch_text, loose_param, session_uri, tcp_param};
ghost use Rattle.sc_hosts.specs.Messages.{own_address, own_via};

use sc_names::{ip_text, loose_param, put_ap_value, tcp_param};
use sc_terms::Config;
use sc_value::{
    Address, AppId, List, NoMemory, Param, SipUri, Text, Token, Uri, Via, plain_address,
};
use std::alloc::Global;

/// The Via of a branch (RFC 3261 section 8.1.1.7).
#[tactic(auto, unfolding(sc_hosts::specs::Messages::own_via, sc_hosts::specs::Messages::tcp, sc_tokens::specs::Tokens::is_token, sc_tokens::specs::Tokens::is_token_byte))]
pub fn own_via(
    alloc: Global,
    config: &Config,
    epoch: u32,
    app: AppId,
    branch: u64,
) -> Result<Via, NoMemory>
    ensures { IfOk result (λ v. v ≡ own_via config.now epoch app branch) }
{
    let transport = Text::from_slice(alloc, b"TCP")?;
    let host = ip_text(alloc, config.listen.0)?;
    let params = branch_params(alloc, &config.salt, epoch, app, branch)?;
    Ok(Via {
        transport,
        host,
        port: Some(config.listen.1.get()),
        params,
    })
}

#[tactic(auto, using(sc_model::proofs::NameFacts::branch_kept))]
fn branch_params(
    alloc: Global,
    salt: &Token,
    epoch: u32,
    app: AppId,
    branch: u64,
) -> Result<List<Param>, NoMemory>
    ensures kept { IfOk result (λ l. AreHeaderParams l) }
    ensures exact { IfOk result
        (λ l.
        l
        ≡ record { name = branch_name; value = Some (branch_text salt.now epoch app branch) }
        ∷ []) }
{
    salt.known();
    let mut params = List::new(alloc);
    params.push(branch_param(alloc, salt, epoch, app, branch)?)?;
    Ok(params)
}

#[tactic(auto, unfolding(sc_value::specs::Params::branch_name))]
fn branch_param(
    alloc: Global,
    salt: &Token,
    epoch: u32,
    app: AppId,
    branch: u64,
) -> Result<Param, NoMemory>
    ensures { IfOk result
        (λ p.
        p ≡ record { name = branch_name; value = Some (branch_text salt.now epoch app branch) }) }
{
    let mut value = Text::new(alloc);
    sc_names::branch(alloc, salt.as_text(), epoch, app, branch, &mut value)?;
    let name = Text::from_slice(alloc, b"branch")?;
    Ok(Param {
        name,
        value: Some(value),
    })
}

/// The Record-Route and Contact of an application session.
#[tactic(auto, unfolding(sc_hosts::specs::Messages::own_address, sc_hosts::specs::Messages::plain))]
pub fn own_address(
    alloc: Global,
    config: &Config,
    epoch: u32,
    app: AppId,
) -> Result<Address, NoMemory>
    ensures { IfOk result (λ a. a ≡ own_address config.now epoch app) }
{
    let host = ip_text(alloc, config.listen.0)?;
    let uri = session_uri(alloc, host, config.listen.1.get(), epoch, app)?;
    let uri = Uri::sip(alloc, uri)?;
    Ok(plain_address(alloc, uri))
}

#[tactic(auto, unfolding(sc_model::specs::Names::session_uri, sc_model::specs::Names::own_uri, sc_tokens::specs::UriTokens::IsUser))]
fn session_uri(
    alloc: Global,
    host: Text,
    port: u16,
    epoch: u32,
    app: AppId,
) -> Result<SipUri, NoMemory>
    requires { is_host host ≡ true }
    ensures { IfOk result (λ u. u ≡ session_uri host port epoch app) }
{
    let params = session_params(alloc, epoch, app)?;
    Ok(SipUri {
        user: None,
        host,
        port: Some(port),
        params,
        headers: None,
    })
}

#[tactic(auto, using(sc_model::proofs::NameFacts::session_params_kept))]
fn session_params(alloc: Global, epoch: u32, app: AppId) -> Result<List<Param>, NoMemory>
    ensures kept { IfOk result (λ l. AreUriParams l) }
    ensures exact { IfOk result
        (λ l.
        l
        ≡ tcp_param ∷ loose_param ∷ record { name = ap_name; value = Some (ap_value epoch app) }
        ∷ []) }
{
    let mut params = List {
        items: Vec::with_capacity(alloc, 3)?,
    };
    params.push(tcp_param(alloc)?)?;
    params.push(loose_param(alloc)?)?;
    params.push(ap_param(alloc, epoch, app)?)?;
    Ok(params)
}

#[tactic(auto, unfolding(sc_model::specs::Names::ap_name))]
fn ap_param(alloc: Global, epoch: u32, app: AppId) -> Result<Param, NoMemory>
    ensures { IfOk result (λ p. p ≡ record { name = ap_name; value = Some (ap_value epoch app) }) }
{
    let mut value = Text::new(alloc);
    put_ap_value(epoch, app, &mut value)?;
    let name = Text::from_slice(alloc, b"ap")?;
    Ok(Param {
        name,
        value: Some(value),
    })
}
