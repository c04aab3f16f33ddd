//! The two sides of a message, with and without a tag (RFC 3261 section 19.3).

ghost use Rattle.std.specs.Prelude.{◌≡◌, ◌++◌, ◌∷◌, [], not, filter, IfOk};
ghost use Rattle.sc_value.specs.ParamRules.{AreHeaderParams};
ghost use Rattle.sc_model.specs.Responses.{address_with_tag, address_without_tag, is_tag, tag_param, with_tag};

use sc_value::{Address, CloneIn, List, NoMemory, Param, Text, is_token, same_name, tag};
use std::alloc::Global;

/// The address with this tag, where it has none; a parameter `tag` without a value is none (RFC
/// 3261 section 25.1).
#[tactic(auto, unfolding(sc_model::specs::Responses::with_tag))]
pub fn with_tag(alloc: Global, own_tag: &[u8], address: &Address) -> Result<Address, NoMemory>
    ensures { IfOk result (λ a. a ≡ with_tag own_tag.now address.now) }
{
    if tag(address).is_some() {
        return address.clone_in(alloc);
    }
    tagged(alloc, own_tag, address)
}

/// The address with this tag in place of its own.
#[tactic(auto, unfolding(sc_model::specs::Responses::address_with_tag, sc_model::specs::Responses::address_without_tag))]
pub fn tagged(alloc: Global, own_tag: &[u8], address: &Address) -> Result<Address, NoMemory>
    ensures { IfOk result (λ a. a ≡ address_with_tag own_tag.now address.now) }
{
    address.known();
    let params = other_params(alloc, address.params.as_slice())?;
    tagged_by(alloc, own_tag, address, params)
}

/// The address without its tag.
#[tactic(auto, unfolding(sc_model::specs::Responses::address_without_tag))]
pub fn untagged(alloc: Global, address: &Address) -> Result<Address, NoMemory>
    ensures { IfOk result (λ a. a ≡ address_without_tag address.now) }
{
    address.known();
    let params = other_params(alloc, address.params.as_slice())?;
    with_params(alloc, address, params)
}

// The address with these parameters, and behind them this tag. An own tag is a token, and nothing
// where there is none; it is tested, since no type says so.
#[tactic(auto, using(sc_model::proofs::ParamFacts::token_is_value, sc_model::proofs::ParamFacts::nothing_is_value, sc_model::proofs::ParamFacts::token_is_line, sc_model::proofs::ParamFacts::nothing_is_line, sc_model::proofs::ParamFacts::tag_joined))]
fn tagged_by(
    alloc: Global,
    own_tag: &[u8],
    address: &Address,
    params: List<Param>,
) -> Result<Address, NoMemory>
    requires { AreHeaderParams params }
    ensures { IfOk result
        (λ a. a ≡ record address.now { params = params ++ tag_param own_tag.now ∷ [] }) }
{
    if !own_tag.is_empty() && !is_token(own_tag) {
        return Err(NoMemory);
    }
    let mut params = params;
    params.push(tag_param(alloc, own_tag)?)?;
    with_params(alloc, address, params)
}

fn with_params(alloc: Global, address: &Address, params: List<Param>) -> Result<Address, NoMemory>
    requires { AreHeaderParams params }
    ensures { IfOk result (λ a. a ≡ record address.now { params = params }) }
{
    let display = address.display.clone_in(alloc)?;
    let uri = address.uri.clone_in(alloc)?;
    uri.known();
    Ok(Address {
        display,
        uri,
        params,
    })
}

#[tactic(auto, unfolding(sc_model::specs::Responses::tag_param, sc_value::specs::Params::tag_name))]
fn tag_param(alloc: Global, own_tag: &[u8]) -> Result<Param, NoMemory>
    ensures { IfOk result (λ p. p ≡ tag_param own_tag.now) }
{
    let value = Text::from_slice(alloc, own_tag)?;
    let name = Text::from_slice(alloc, b"tag")?;
    Ok(Param {
        name,
        value: Some(value),
    })
}

// All parameters but the tag.
#[tactic(auto, using(sc_model::proofs::ParamFacts::params_filtered))]
fn other_params(alloc: Global, params: &[Param]) -> Result<List<Param>, NoMemory>
    requires { AreHeaderParams params.now }
    ensures kept { IfOk result (λ l. AreHeaderParams l) }
    ensures exact { IfOk result (λ l. l ≡ filter (λ param. not (is_tag param)) params.now) }
{
    without_tag(alloc, params)
}

fn without_tag(alloc: Global, params: &[Param]) -> Result<List<Param>, NoMemory>
    ensures { IfOk result (λ l. l ≡ filter (λ param. not (is_tag param)) params.now) }
{
    let mut others = List::new(alloc);
    for param in params {
        if !is_tag(param) {
            others.push(param.clone_in(alloc)?)?;
        }
    }
    Ok(others)
}

#[tactic(auto, unfolding(sc_value::specs::Params::tag_name))]
fn is_tag(param: &Param) -> bool
    ensures { result ≡ is_tag param.now }
{
    same_name(param.name.as_bytes(), b"tag")
}
