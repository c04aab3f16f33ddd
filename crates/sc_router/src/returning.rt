//! The own route by which a request comes back to the router.

ghost use Rattle.std.specs.Prelude.{◌≡◌, ◌∷◌, [], Some, IfOk};
ghost use Rattle.sc_value.specs.ParamRules.{AreUriParams};
ghost use Rattle.sc_value.specs.declared.parts.Param.{Param};
ghost use Rattle.sc_value.specs.declared.parts.Uri.TheVariants.{Sip};
ghost use Rattle.sc_model.specs.Names.{ar_value, ar_name, tcp_param, loose_param, return_uri};
ghost use Rattle.sc_model.specs.OwnHosts.{listen_host};
ghost use Rattle.sc_model.specs.Choices.{way_back};

use sc_names::{ar_value, ip_text, loose_param, tcp_param};
use sc_terms::Config;
use sc_value::{Address, List, NoMemory, Param, Region, SipUri, Text, Uri, plain_address};
use std::alloc::Global;

#[tactic(auto, unfolding(sc_model::specs::Names::ar_name))]
fn ar_param(alloc: Global, order: u32, region: Region) -> Result<Param, NoMemory>
    ensures { IfOk result
        (λ p. p ≡ record { name = ar_name; value = Some (ar_value order region) }) }
{
    let name = Text::from_slice(alloc, b"ar")?;
    let value = ar_value(alloc, order, region)?;
    Ok(Param {
        name,
        value: Some(value),
    })
}

// `transport=tcp;lr;ar=n-R`
#[tactic(auto, using(sc_model::proofs::HostFacts::return_kept))]
fn return_params(alloc: Global, order: u32, region: Region) -> Result<List<Param>, NoMemory>
    ensures exact { IfOk result
        (λ ps.
        ps
        ≡ tcp_param ∷ loose_param
        ∷ record { name = ar_name; value = Some (ar_value order region) } ∷ []) }
    ensures kept { IfOk result (λ ps. AreUriParams ps) }
{
    let mut params = List::new(alloc);
    params.push(tcp_param(alloc)?)?;
    params.push(loose_param(alloc)?)?;
    params.push(ar_param(alloc, order, region)?)?;
    Ok(params)
}

// `sip:host:port;transport=tcp;lr;ar=n-R`
#[tactic(auto, unfolding(sc_model::specs::Names::return_uri, sc_model::specs::Names::own_uri, sc_tokens::specs::UriTokens::IsUser))]
fn return_uri(alloc: Global, config: &Config, order: u32, region: Region) -> Result<Uri, NoMemory>
    ensures { IfOk result
        (λ u. u ≡ Sip (return_uri (listen_host config.now) config.now.listen.1 order region)) }
{
    let host = ip_text(alloc, config.listen.0)?;
    let params = return_params(alloc, order, region)?;
    let uri = SipUri {
        user: None,
        host,
        port: Some(config.listen.1.get()),
        params,
        headers: None,
    };
    Uri::sip(alloc, uri)
}

// The own route that leads to this order of the router's list.
#[tactic(auto, unfolding(sc_model::specs::Choices::way_back))]
pub fn way_back(
    alloc: Global,
    config: &Config,
    order: u32,
    region: Region,
) -> Result<Address, NoMemory>
    ensures { IfOk result (λ a. a ≡ way_back config.now order region) }
{
    let uri = return_uri(alloc, config, order, region)?;
    Ok(plain_address(alloc, uri))
}
