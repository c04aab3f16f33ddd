//! The header fields of a request, by name, and the items of their values.

ghost use Rattle.std.specs.Prelude.{◌≡◌, position};
ghost use Rattle.std.specs.List.{find, list_any};
ghost use Rattle.std.specs.Option.{option_copied};
ghost use Rattle.sc_tokens.specs.Names.{same_name};
ghost use Rattle.sc_hosts.specs.HelperParts.{field_of, items_of, lists_option};
ghost use Rattle.sc_helpers.specs.Parts.{is_called, is_listing};

use crate::pieces::cut;
use sc_ascii::same_name;
use sc_message_text::trim;
use sc_value::{Field, Request, Text};

fn field_place(fields: &[Field], name: &[u8]) -> Option<usize>
    ensures { result ≡ position (is_called name.now) fields.now }
{
    fields
        .iter()
        .position(|field| same_name(field.name.as_bytes(), name))
}

#[tactic(auto, using(sc_value::proofs::ListFacts::find_position, sc_value::proofs::ListFacts::find_none))]
fn field_among<'a>(fields: &'a [Field], name: &[u8]) -> Option<&'a Field>
    ensures { option_copied result ≡ find (is_called name.now) fields.now }
{
    match field_place(fields, name) {
        Some(at) => Some(&fields[at]),
        None => None,
    }
}

/// The value of the first header of this name, in any case (RFC 3261 section 7.3.1).
#[tactic(auto, unfolding(sc_hosts::specs::HelperParts::field_of))]
pub fn field_of<'a>(request: &'a Request, name: &[u8]) -> Option<&'a Text>
    ensures { option_copied result ≡ field_of name.now request.now }
{
    match field_among(request.head.others.as_slice(), name) {
        Some(field) => Some(&field.value),
        None => None,
    }
}

// Whether this is one of the items between commas.
#[tactic(auto, using(crate::proofs::Items::item_found, crate::proofs::Items::item_next, crate::proofs::Items::item_last))]
fn has_item(value: &[u8], item: &[u8]) -> bool
    ensures { result ≡ list_any (same_name item.now) (items_of value.now) }
{
    let mut rest = value;
    loop {
        let (piece, more) = cut(rest, b',');
        if same_name(item, trim(piece)) {
            return true;
        }
        match more {
            Some(more) => rest = more,
            None => return false,
        }
    }
}

#[tactic(auto, unfolding(sc_hosts::specs::HelperParts::supported_word, sc_hosts::specs::HelperParts::require_word, crate::specs::Parts::is_listing))]
fn is_listing(field: &Field, option: &[u8]) -> bool
    ensures { result ≡ is_listing option.now field.now }
{
    let name = field.name.as_bytes();
    (same_name(name, b"Supported") || same_name(name, b"Require"))
        && has_item(field.value.as_bytes(), option)
}

/// Whether a Supported or Require header has this option (RFC 3261 sections 20.32 and 20.37).
#[tactic(auto, unfolding(sc_hosts::specs::HelperParts::lists_option, crate::specs::Parts::is_listing))]
pub fn lists_option(request: &Request, option: &[u8]) -> bool
    ensures { result ≡ lists_option option.now request.now }
{
    request
        .head
        .others
        .as_slice()
        .iter()
        .any(|field| is_listing(field, option))
}
