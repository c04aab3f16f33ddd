//! The targets and the requests of an application's own.

use sc_terms::Ask;
use sc_value::{Address, Directive, List, NoMemory, ReqId, Text, Uri};
use std::alloc::Global;

fn uri(alloc: Global, text: &[u8]) -> Result<Uri, NoMemory> {
    match sc_uri_text::read(alloc, text) {
        Ok(uri) => Ok(uri),
        Err(_) => Err(NoMemory),
    }
}

/// The targets to which the cases proxy.
pub fn targets(alloc: Global) -> Result<List<Uri>, NoMemory> {
    let mut targets = first_target(alloc)?;
    targets.push(uri(alloc, b"sip:x@127.0.0.1:5072")?)?;
    Ok(targets)
}

/// The first of them.
pub fn first_target(alloc: Global) -> Result<List<Uri>, NoMemory> {
    target(alloc, b"sip:x@127.0.0.1:5071")
}

/// The second of them.
pub fn second_target(alloc: Global) -> Result<List<Uri>, NoMemory> {
    target(alloc, b"sip:x@127.0.0.1:5072")
}

fn target(alloc: Global, text: &[u8]) -> Result<List<Uri>, NoMemory> {
    let mut targets = List::new(alloc);
    targets.push(uri(alloc, text)?)?;
    Ok(targets)
}

#[tactic(auto, unfolding(sc_tokens::specs::HeaderTokens::IsDisplay, sc_value::specs::ParamRules::AreHeaderParams))]
fn address(alloc: Global, text: &[u8]) -> Result<Address, NoMemory> {
    let uri = uri(alloc, text)?;
    uri.known();
    Ok(Address {
        display: None,
        uri,
        params: List::new(alloc),
    })
}

/// A MESSAGE of the application's own to the first target, for which the table has no list.
pub fn own_message(alloc: Global) -> Result<Ask, NoMemory> {
    own_request(alloc, b"MESSAGE", Directive::New, None)
}

/// An INVITE of the application's own to the first target, for which the table goes on from the
/// request 1.
pub fn own_invite(alloc: Global) -> Result<Ask, NoMemory> {
    own_request(alloc, b"INVITE", Directive::Continue, Some(ReqId(1)))
}

fn own_request(
    alloc: Global,
    method: &[u8],
    directive: Directive,
    origin: Option<ReqId>,
) -> Result<Ask, NoMemory> {
    let method = Text::from_slice(alloc, method)?;
    let uri = uri(alloc, b"sip:x@127.0.0.1:5071")?;
    let from = address(alloc, b"sip:d@home.test")?;
    let to = address(alloc, b"sip:x@127.0.0.1:5071")?;
    Ok(Ask {
        method,
        uri,
        from,
        to,
        fields: List::new(alloc),
        contact: List::new(alloc),
        body: Text::new(alloc),
        directive,
        origin,
    })
}
