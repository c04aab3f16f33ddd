//! The subscriber that a tuple names: a text, or `DAR:` and the name of a header that gives it.

ghost use Rattle.std.specs.Prelude.{◌≡◌, ◌≤◌, length, IsTrue, IfOk, position, nat_eq};
ghost use Rattle.std.specs.List.{starts_with};
ghost use Rattle.sc_tokens.specs.HeaderNames.{from_name, to_name, contact_name};
ghost use Rattle.sc_tokens.specs.Names.{same_name};
ghost use Rattle.sc_model.specs.Routing.{dar_prefix, request_uri_name, first_contact_text, field_value, header_text, subscriber_of};

use sc_message_text::uri_text;
use sc_value::{CloneIn, Contact, Field, NoMemory, Request, Text, long_name, same_name};
use std::alloc::Global;

/// The text of a subscriber for a request.
#[tactic(auto, unfolding(sc_model::specs::Routing::subscriber_of))]
pub fn subscriber_of(alloc: Global, text: &[u8], request: &Request) -> Result<Text, NoMemory>
    ensures { IfOk result (λ t. t ≡ subscriber_of text.now request.now) }
{
    if begins_dar(text) {
        return header_text(alloc, long_name(&text[4..]), request);
    }
    Text::from_slice(alloc, text)
}

#[tactic(auto, unfolding(sc_model::specs::Routing::dar_prefix))]
fn begins_dar(text: &[u8]) -> bool
    ensures test { result ≡ starts_with nat_eq text.now dar_prefix }
    ensures bound { IsTrue result → 4 ≤ length text.now }
{
    text.starts_with(b"DAR:")
}

#[tactic(auto, unfolding(sc_model::specs::Routing::header_text))]
fn header_text(alloc: Global, name: &[u8], request: &Request) -> Result<Text, NoMemory>
    ensures { IfOk result (λ t. t ≡ header_text name.now request.now) }
{
    if is_from(name) {
        return uri_text(alloc, &request.head.from.uri);
    }
    if is_to(name) {
        return uri_text(alloc, &request.head.to.uri);
    }
    if is_contact(name) {
        return first_contact_text(alloc, request.head.contact.as_slice());
    }
    if is_request_uri(name) {
        return uri_text(alloc, &request.uri);
    }
    field_value(alloc, request.head.others.as_slice(), name)
}

#[tactic(auto, unfolding(sc_tokens::specs::HeaderNames::from_name))]
fn is_from(name: &[u8]) -> bool
    ensures { result ≡ same_name name.now from_name }
{
    same_name(name, b"From")
}

#[tactic(auto, unfolding(sc_tokens::specs::HeaderNames::to_name))]
fn is_to(name: &[u8]) -> bool
    ensures { result ≡ same_name name.now to_name }
{
    same_name(name, b"To")
}

#[tactic(auto, unfolding(sc_tokens::specs::HeaderNames::contact_name))]
fn is_contact(name: &[u8]) -> bool
    ensures { result ≡ same_name name.now contact_name }
{
    same_name(name, b"Contact")
}

#[tactic(auto, unfolding(sc_model::specs::Routing::request_uri_name))]
fn is_request_uri(name: &[u8]) -> bool
    ensures { result ≡ same_name name.now request_uri_name }
{
    same_name(name, b"Request-URI")
}

/// The URI of the first Contact, an empty text where there is none.
#[tactic(auto, unfolding(sc_model::specs::Routing::first_contact_text))]
fn first_contact_text(alloc: Global, contacts: &[Contact]) -> Result<Text, NoMemory>
    ensures { IfOk result (λ t. t ≡ first_contact_text contacts.now) }
{
    match contacts {
        [Contact::At(address), ..] => uri_text(alloc, &address.uri),
        [Contact::Star, ..] => Ok(Text::new(alloc)),
        [] => Ok(Text::new(alloc)),
    }
}

/// The value of the first header of this name, an empty text where there is none.
#[tactic(auto, unfolding(sc_model::specs::Routing::field_value), using(sc_value::proofs::ListFacts::find_position, sc_value::proofs::ListFacts::find_none))]
fn field_value(alloc: Global, fields: &[Field], name: &[u8]) -> Result<Text, NoMemory>
    ensures { IfOk result (λ t. t ≡ field_value name.now fields.now) }
{
    match field_place(fields, name) {
        Some(at) => fields[at].value.clone_in(alloc),
        None => Ok(Text::new(alloc)),
    }
}

fn field_place(fields: &[Field], name: &[u8]) -> Option<usize>
    ensures { result ≡ position (λ field. same_name field.name name.now) fields.now }
{
    fields
        .iter()
        .position(|field| same_name(field.name.as_bytes(), name))
}
