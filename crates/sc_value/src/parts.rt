//! The parts of a message's head (RFC 3261 sections 19.1, 20 and 25.1).

ghost use Rattle.std.specs.Prelude.{◌≡◌, [], None, position, IfOk};
ghost use Rattle.std.specs.Option.{option_copied};
ghost use Rattle.sc_value.specs.Params.{param_value, branch_name, tag_name, is_named};

use crate::{List, NoMemory, OtherUri, Shared, Text, Token, same_name};
use std::alloc::Global;
use std::marker::Model;

/// A parameter of a URI, an address or a Via: `;name` or `;name=value`. An empty value is not the
/// same as none.
#[derive(Drop)]
pub struct Param {
    pub name: Text,
    pub value: Option<Text>,
}

/// A `sip:` URI (RFC 3261 section 19.1.1). The user part holds the password, and the headers are
/// all that follows `?`, both as written. Few URIs have headers, so that they stand apart.
#[derive(Drop)]
pub struct SipUri {
    pub user: Option<Text>,
    pub host: Text,
    pub port: Option<u16>,
    pub params: List<Param>,
    pub headers: Option<Shared<Text>>,
}

impl Model for SipUri {
    ghost use Rattle.sc_value.specs.UriValues.{SipValue, IsSip};

    ghost Value = { SipValue };

    ghost view = { λ u.
        record {
          user = u.user;
          host = u.host;
          port = u.port;
          params = u.params;
          headers = u.headers;
        } };

    ghost invariant = { λ u.
        IsSip
        (record {
          user = u.user;
          host = u.host;
          port = u.port;
          params = u.params;
          headers = u.headers;
        }) };
}

/// A `sip:` URI in its parts, or a URI of another scheme as written. A copy is one owner more.
#[derive(Drop)]
pub enum Uri {
    Sip(Shared<SipUri>),
    Other(OtherUri),
}

impl Uri {
    /// The URI of these parts.
    pub fn sip(alloc: Global, uri: SipUri) -> Result<Uri, NoMemory>
        ensures { IfOk result (λ u. u ≡ Uri.Sip uri) }
    {
        let uri = Shared::new(alloc, uri)?;
        Ok(Uri::Sip(uri))
    }
}

/// An address with its header parameters (RFC 3261 section 20.10). The display is as written, with
/// its quotes; it stands apart, as many addresses have none.
#[derive(Drop)]
pub struct Address {
    pub display: Option<Shared<Text>>,
    pub uri: Uri,
    pub params: List<Param>,
}

impl Model for Address {
    ghost use Rattle.sc_value.specs.AddressValues.{AddressValue, IsAddress};

    ghost Value = { AddressValue };

    ghost view = { λ a. record { display = a.display; uri = a.uri; params = a.params } };

    ghost invariant = { λ a.
        IsAddress (record { display = a.display; uri = a.uri; params = a.params }) };
}

/// An item of a Contact header: `*` or an address.
#[derive(Drop)]
pub enum Contact {
    Star,
    At(Address),
}

/// An item of a Via header, of version `SIP/2.0` (RFC 3261 section 20.42).
#[derive(Drop)]
pub struct Via {
    pub transport: Text,
    pub host: Text,
    pub port: Option<u16>,
    pub params: List<Param>,
}

impl Model for Via {
    ghost use Rattle.sc_value.specs.ViaValues.{ViaValue, IsVia};

    ghost Value = { ViaValue };

    ghost view = { λ v.
        record { transport = v.transport; host = v.host; port = v.port; params = v.params } };

    ghost invariant = { λ v.
        IsVia
        (record { transport = v.transport; host = v.host; port = v.port; params = v.params }) };
}

/// The sequence number of a request with its method (RFC 3261 section 20.16).
#[derive(Drop)]
pub struct CSeq {
    pub number: u32,
    pub method: Token,
}

impl Model for CSeq {
    ghost use Rattle.sc_value.specs.SequenceValues.{Sequence, IsCSeq};

    ghost Value = { Sequence };

    ghost view = { λ c. record { number = c.number; method = c.method } };

    ghost invariant = { λ c. IsCSeq (record { number = c.number; method = c.method }) };
}

/// A header that has no structure here: its name, never in compact form, and its value.
#[derive(Drop)]
pub struct Field {
    pub name: Text,
    pub value: Text,
}

/// The address of a URI alone, without display and parameters (RFC 3261 section 20.10).
#[tactic(auto, unfolding(sc_tokens::specs::HeaderTokens::IsDisplay, crate::specs::ParamRules::AreHeaderParams))]
pub fn plain_address(alloc: Global, uri: Uri) -> Address
    ensures { result ≡ record { display = None; uri = uri; params = [] } }
{
    uri.known();
    Address {
        display: None,
        uri,
        params: List::new(alloc),
    }
}

/// The value of the address's parameter `tag`, None exactly where there is none (RFC 3261 section
/// 19.3).
#[tactic(auto, unfolding(crate::specs::Params::tag_name))]
pub fn tag(address: &Address) -> Option<&Text>
    ensures { option_copied result ≡ param_value tag_name address.now.params }
{
    param_value(address.params.as_slice(), b"tag")
}

/// The value of the Via's parameter `branch`, None exactly where there is none (RFC 3261 section
/// 8.1.1.7).
#[tactic(auto, unfolding(crate::specs::Params::branch_name))]
pub fn branch(via: &Via) -> Option<&Text>
    ensures { option_copied result ≡ param_value branch_name via.now.params }
{
    param_value(via.params.as_slice(), b"branch")
}

/// The value of the first parameter of this name, without regard to case: None where there is none
/// or it has no value.
#[tactic(auto, unfolding(crate::specs::Params::param_value), using(crate::proofs::ListFacts::find_position, crate::proofs::ListFacts::find_none))]
pub fn param_value<'a>(params: &'a [Param], name: &[u8]) -> Option<&'a Text>
    ensures { option_copied result ≡ param_value name.now params.now }
{
    match param_place(params, name) {
        Some(at) => params[at].value.as_ref(),
        None => None,
    }
}

fn param_place(params: &[Param], name: &[u8]) -> Option<usize>
    ensures { result ≡ position (is_named name.now) params.now }
{
    params
        .iter()
        .position(|param| same_name(param.name.as_bytes(), name))
}
