//! Addresses and items of Contact (RFC 3261 sections 20.10, 20.20, 20.30, 20.34 and 20.39).

ghost use Rattle.std.specs.Prelude.{◌≡◌, IfOk, true};
ghost use Rattle.std.specs.List.{All};
ghost use Rattle.std.specs.Option.{option_map_or};
ghost use Rattle.sc_syntax.specs.Addresses.{address_of, address_with, addresses_of, contact_of, contacts_of, with_uri};
ghost use Rattle.sc_syntax.specs.SpelledAddresses.{AreAddressesSpelled, AreContactsSpelled, IsAddressSpelled};
ghost use Rattle.sc_head_text.specs.Answers.{Gives, GivesSpelled};
ghost use Rattle.sc_tokens.specs.HeaderTokens.{IsDisplay};
ghost use Rattle.sc_tokens.specs.Tokens.{is_one_line};
ghost use Rattle.sc_value.specs.ParamRules.{AreHeaderParams};
ghost use Rattle.sc_value.specs.AddressValues.{IsAddress};
ghost use Rattle.sc_value.specs.ContactRules.{IsContact};
ghost use Rattle.sc_head_text.specs.Seen.{seen};

use crate::Unread;
use crate::named::{Named, split_named};
use crate::params::read_params;
use crate::parts::{Readable, read_parts, split_part};
use sc_ascii::trim;
use sc_syntax::Scan;
use sc_uri_text::shared_copy_of;
use sc_value::{Address, Contact, List, Param};
use std::alloc::Global;

/// The address of a From or To: `display <uri>;params`, or a bare URI, whose semicolons begin
/// header parameters (RFC 3261 sections 20.20 and 20.39). A display is kept as written: a quoted
/// string, or tokens with blanks between. The value is of one line, so nothing of the address ends
/// its line.
/// `Fault` exactly where the value is outside the grammar; `NoMemory` says nothing of it.
pub fn read_address(alloc: Global, b: &[u8]) -> Result<Address, Unread>
    requires { is_one_line b.now ≡ true }
    ensures exact { Gives result (address_of b.now) }
    ensures spelled { GivesSpelled result (λ address. IsAddressSpelled b.now address) }
    ensures kept { IfOk result (λ address. IsAddress address) }
{
    Address::read(alloc, b)
}

/// The addresses of a Route or Record-Route, commas between, in their order (RFC 3261 sections
/// 20.30 and 20.34). A bare URI ends at a comma too. The value is of one line. `Fault` exactly
/// where an item is outside the grammar; `NoMemory` says nothing of the value.
#[tactic(auto, unfolding(sc_syntax::specs::Addresses::addresses_of, crate::specs::Parts::parts_behind))]
pub fn read_addresses(alloc: Global, b: &[u8]) -> Result<List<Address>, Unread>
    requires { is_one_line b.now ≡ true }
    ensures exact { Gives result (addresses_of b.now) }
    ensures spelled { GivesSpelled result (λ addresses. AreAddressesSpelled b.now addresses) }
    ensures kept { IfOk result (λ addresses. All IsAddress addresses) }
{
    read_parts(alloc, Some(b), b',', Scan::Front)
}

/// The items of a Contact, commas between, in their order: addresses as those of Route, and `*`
/// without parameters, anywhere (RFC 3261 section 20.10). The value is of one line. `Fault` exactly
/// where an item is outside the grammar; `NoMemory` says nothing of the value.
#[tactic(auto, unfolding(sc_syntax::specs::Addresses::contacts_of, crate::specs::Parts::parts_behind))]
pub fn read_contacts(alloc: Global, b: &[u8]) -> Result<List<Contact>, Unread>
    requires { is_one_line b.now ≡ true }
    ensures exact { Gives result (contacts_of b.now) }
    ensures spelled { GivesSpelled result (λ contacts. AreContactsSpelled b.now contacts) }
    ensures kept { IfOk result (λ contacts. All IsContact contacts) }
{
    read_parts(alloc, Some(b), b',', Scan::Front)
}

impl Readable for Contact {
    ghost read_of = { contact_of };

    #[tactic(auto, unfolding(sc_syntax::specs::Addresses::contact_of))]
    fn read(alloc: Global, text: &[u8]) -> Result<Contact, Unread> {
        if trim(text) == b"*".as_slice() {
            return Ok(Contact::Star);
        }
        match Address::read(alloc, text) {
            Ok(address) => Ok(Contact::At(address)),
            Err(unread) => Err(unread),
        }
    }
}

impl Readable for Address {
    ghost read_of = { address_of };

    fn read(alloc: Global, text: &[u8]) -> Result<Address, Unread> {
        let (first, rest) = split_part(text, b';', Scan::Front);
        match read_params(alloc, rest) {
            Ok(params) => read_address_with(alloc, first, params),
            Err(unread) => Err(unread),
        }
    }
}

// The first part, with these parameters.
#[tactic(auto, unfolding(sc_syntax::specs::Addresses::address_with))]
fn read_address_with(alloc: Global, text: &[u8], params: List<Param>) -> Result<Address, Unread>
    requires line { is_one_line text.now ≡ true }
    requires params { AreHeaderParams params }
    ensures { Gives result (address_with text.now params) }
{
    match split_named(trim(text)) {
        Some(named) => with_uri(alloc, named, params),
        None => Err(Unread::Fault),
    }
}

#[tactic(auto, unfolding(sc_syntax::specs::Addresses::with_uri), using(crate::proofs::ValueSteps::unread_uri))]
fn with_uri(alloc: Global, named: Named<'_>, params: List<Param>) -> Result<Address, Unread>
    requires display { IsDisplay (seen named).0 }
    requires line { option_map_or is_one_line (seen named).0 true ≡ true }
    requires params { AreHeaderParams params }
    ensures { Gives result (with_uri params (seen named.entry)) }
{
    let display = shared_copy_of(alloc, named.display)?;
    match sc_uri_text::read(alloc, named.uri) {
        Ok(uri) => {
            uri.known();
            Ok(Address {
                display,
                uri,
                params,
            })
        }
        Err(refused) => Err(Unread::from(refused)),
    }
}
