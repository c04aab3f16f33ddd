//! The two sides of a dialog, as later requests write them (RFC 3261 section 12.2.1.1).

ghost use Rattle.std.specs.Prelude.{◌≡◌, ◌&&◌, [], ◌∷◌, None, Some, IfOk, IsTrue, is_some, true};
ghost use Rattle.sc_tokens.specs.HeaderTokens.{is_param_text};
ghost use Rattle.sc_tokens.specs.Names.{same_bytes};
ghost use Rattle.sc_tokens.specs.Tokens.{is_one_line};
ghost use Rattle.sc_value.specs.ParamRules.{AreHeaderParams};
ghost use Rattle.sc_value.specs.Params.{param_value, tag_name};
ghost use Rattle.sc_model.specs.Dialogs.{bare, tag_of, tag_params};
ghost use Rattle.sc_model.specs.Responses.{tag_param};

use sc_value::{
    Address, CloneIn, Head, List, NoMemory, Param, Same, Shared, Text, Uri, is_token, tag,
};
use std::alloc::Global;

/// Both sides of a dialog.
#[derive(Drop)]
pub struct Sides {
    pub local: Shared<Address>,
    pub remote: Shared<Address>,
}

/// The sides of a dialog that a request of the peer with this head begins, on which the own side
/// puts the tag.
// The own tag is a token; it is tested, since no type says so.
#[tactic(auto, using(sc_model::proofs::ParamFacts::token_is_value, sc_model::proofs::ParamFacts::token_is_line))]
pub fn called_sides(alloc: Global, head: &Head, tag: &[u8]) -> Result<Sides, NoMemory>
    ensures { IfOk result
        (λ s.
        s
        ≡ record {
          local = bare head.now.to.uri (Some tag.now);
          remote = bare head.now.from.uri (tag_of head.now.from);
        }) }
{
    if !is_token(tag) {
        return Err(NoMemory);
    }
    let local = Shared::new(alloc, tagged_side(alloc, &head.to.uri, tag)?)?;
    let remote = own_side(alloc, &head.from)?;
    Ok(Sides { local, remote })
}

/// The sides of a dialog that an own request begins, with the response that gave the peer's tag.
pub fn calling_sides(alloc: Global, own: &Head, peer: &Head) -> Result<Sides, NoMemory>
    ensures { IfOk result
        (λ s.
        s
        ≡ record {
          local = bare own.now.from.uri (tag_of own.now.from);
          remote = bare own.now.to.uri (tag_of peer.now.to);
        }) }
{
    let local = own_side(alloc, &own.from)?;
    let remote = peer_side(alloc, &own.to, &peer.to)?;
    Ok(Sides { local, remote })
}

/// The side of an address with its own tag. Where the address is written so already, it gets one
/// owner more.
fn own_side(alloc: Global, address: &Shared<Address>) -> Result<Shared<Address>, NoMemory>
    ensures { IfOk result (λ a. a ≡ bare address.now.uri (tag_of address.now)) }
{
    if is_bare(address.get()) {
        return address.clone_in(alloc);
    }
    let side = side_of(alloc, &address.get().uri, address.get())?;
    Shared::new(alloc, side)
}

/// The side of a peer that is asked by one address, and gives its tag in another. Where the other
/// is written so already, it gets one owner more.
#[tactic(auto, using(crate::proofs::BareSides::bare_at))]
fn peer_side(
    alloc: Global,
    asked: &Shared<Address>,
    given: &Shared<Address>,
) -> Result<Shared<Address>, NoMemory>
    ensures { IfOk result (λ a. a ≡ bare asked.now.uri (tag_of given.now)) }
{
    if is_bare(given.get()) && given.get().uri.same(&asked.get().uri) {
        return given.clone_in(alloc);
    }
    let side = side_of(alloc, &asked.get().uri, given.get())?;
    Shared::new(alloc, side)
}

/// Whether the address has no display, and no parameter but a tag that has a value: it is then
/// written as later requests write it.
#[tactic(auto, using(crate::proofs::BareSides::bare_address))]
fn is_bare(address: &Address) -> bool
    ensures { IsTrue result → address.now ≡ bare address.now.uri (tag_of address.now) }
{
    address.display.is_none() && is_tag_alone(address.params.as_slice())
}

#[tactic(auto, using(crate::proofs::BareSides::tag_alone))]
fn is_tag_alone(params: &[Param]) -> bool
    ensures { IsTrue result → params.now ≡ tag_params (param_value tag_name params.now) }
{
    match params.first() {
        Some(param) => params.len() == 1 && is_plain_tag(param),
        None => false,
    }
}

/// Whether it is a tag with a value, and its name has small letters alone.
#[tactic(auto, unfolding(sc_value::specs::Params::tag_name))]
fn is_plain_tag(param: &Param) -> bool
    ensures { result ≡ (same_bytes param.now.name tag_name && is_some param.now.value) }
{
    param.name.as_bytes() == b"tag".as_slice() && param.value.is_some()
}

/// `<URI>;tag=..`, with the tag of this address, without one where that has none.
#[tactic(auto, using(sc_model::proofs::ParamFacts::value_kept, sc_model::proofs::ParamFacts::value_line))]
fn side_of(alloc: Global, uri: &Uri, tagged: &Address) -> Result<Address, NoMemory>
    ensures { IfOk result (λ a. a ≡ bare uri.now (tag_of tagged.now)) }
{
    tagged.known();
    match tag(tagged) {
        Some(tag) => tagged_side(alloc, uri, tag.as_bytes()),
        None => untagged_side(alloc, uri),
    }
}

/// `<URI>;tag=..`.
#[tactic(auto, unfolding(sc_model::specs::Dialogs::bare, sc_model::specs::Dialogs::tag_params, sc_tokens::specs::HeaderTokens::IsDisplay))]
fn tagged_side(alloc: Global, uri: &Uri, tag: &[u8]) -> Result<Address, NoMemory>
    requires value { is_param_text tag.now ≡ true }
    requires line { is_one_line tag.now ≡ true }
    ensures { IfOk result (λ a. a ≡ bare uri.now (Some tag.now)) }
{
    let params = tag_params(alloc, tag)?;
    let uri = uri.clone_in(alloc)?;
    uri.known();
    Ok(Address {
        display: None,
        uri,
        params,
    })
}

#[tactic(auto, unfolding(sc_model::specs::Dialogs::bare, sc_model::specs::Dialogs::tag_params, sc_tokens::specs::HeaderTokens::IsDisplay, sc_value::specs::ParamRules::AreHeaderParams))]
fn untagged_side(alloc: Global, uri: &Uri) -> Result<Address, NoMemory>
    ensures { IfOk result (λ a. a ≡ bare uri.now None) }
{
    let uri = uri.clone_in(alloc)?;
    uri.known();
    Ok(Address {
        display: None,
        uri,
        params: List::new(alloc),
    })
}

#[tactic(auto, using(sc_model::proofs::ParamFacts::tag_kept))]
fn tag_params(alloc: Global, tag: &[u8]) -> Result<List<Param>, NoMemory>
    requires value { is_param_text tag.now ≡ true }
    requires line { is_one_line tag.now ≡ true }
    ensures exact { IfOk result (λ l. l ≡ tag_param tag.now ∷ []) }
    ensures kept { IfOk result (λ l. AreHeaderParams l) }
{
    let param = tag_param(alloc, tag)?;
    let mut params = List::new(alloc);
    params.push(param)?;
    Ok(params)
}

#[tactic(auto, unfolding(sc_model::specs::Responses::tag_param, sc_value::specs::Params::tag_name))]
fn tag_param(alloc: Global, tag: &[u8]) -> Result<Param, NoMemory>
    ensures { IfOk result (λ p. p ≡ tag_param tag.now) }
{
    let value = Text::from_slice(alloc, tag)?;
    let name = Text::from_slice(alloc, b"tag")?;
    Ok(Param {
        name,
        value: Some(value),
    })
}
