//! What an application reads of its turn: parameters, attributes, numbers and URIs.

ghost use Rattle.std.specs.Prelude.{◌≡◌, ◌<◌, [], false, decimal, IfOk, slice_get, position};
ghost use Rattle.std.specs.List.{find};
ghost use Rattle.std.specs.Option.{option_copied};
ghost use Rattle.sc_hosts.specs.Scripting.{attribute, param_at, readable, small_number, uri_param};
ghost use Rattle.sc_apps.specs.Scripted.{is_field};

use sc_ascii::read_u64;
use sc_terms::View;
use sc_turn::Turn;
use sc_uri_text::UriRefused;
use sc_value::{Field, NoMemory, Text, Uri, write_u64};
use std::alloc::Global;

/// Where a turn takes its memory.
pub fn memory_of(t: &Turn) -> Global {
    *t.view().sessions.items.allocator()
}

/// What a turn shows that has made no call yet.
#[tactic(auto, using(crate::proofs::Playing::begun_view))]
pub fn shown(t: &Turn) -> &View
    requires calls { t.now.calls ≡ [] }
    requires memory { t.now.starved ≡ false }
    ensures { result.now ≡ t.now.shown }
{
    t.view()
}

/// The URI that a text is, None where it is none.
#[tactic(auto, using(crate::proofs::Readable::readable_ok, crate::proofs::Readable::readable_err))]
pub fn readable(alloc: Global, text: &[u8]) -> Result<Option<Uri>, NoMemory>
    ensures { IfOk result (λ uri. uri ≡ readable text.now) }
{
    match sc_uri_text::read(alloc, text) {
        Ok(uri) => Ok(Some(uri)),
        Err(UriRefused::Refused { .. }) => Ok(None),
        Err(UriRefused::NoMemory) => Err(NoMemory),
    }
}

#[tactic(auto, using(sc_value::proofs::ListFacts::slice_get_at, sc_value::proofs::ListFacts::slice_get_none))]
fn text_at(texts: &[Text], at: usize) -> Option<&Text>
    ensures { option_copied result ≡ slice_get texts.now at }
{
    if at < texts.len() {
        Some(&texts[at])
    } else {
        None
    }
}

/// The parameter at a place.
#[tactic(auto, unfolding(sc_hosts::specs::Scripting::param_at))]
pub fn param_at(view: &View, at: usize) -> Option<&Text>
    ensures { option_copied result ≡ param_at view.entry.now at }
{
    text_at(view.params.as_slice(), at)
}

/// The parameter's URI, None where there is no readable one.
#[tactic(auto, unfolding(sc_hosts::specs::Scripting::uri_param))]
pub fn uri_param(alloc: Global, view: &View, at: usize) -> Result<Option<Uri>, NoMemory>
    ensures { IfOk result (λ uri. uri ≡ uri_param view.entry.now at) }
{
    match param_at(view, at) {
        Some(text) => readable(alloc, text.as_bytes()),
        None => Ok(None),
    }
}

/// The number of a text, None where it is none of 32 bits.
#[tactic(auto, unfolding(sc_hosts::specs::Scripting::small_number), using(sc_syntax::proofs::NumberLaws::below_none, sc_syntax::proofs::NumberLaws::below_small, sc_syntax::proofs::NumberLaws::below_large))]
pub fn small_number(text: &[u8]) -> Option<u32>
    ensures { result ≡ small_number text.now }
{
    let number = read_u64(text)?;
    if number < 4294967296 {
        Some(number as u32)
    } else {
        None
    }
}

fn attribute_place(fields: &[Field], name: &[u8]) -> Option<usize>
    ensures { result ≡ position (is_field name.now) fields.now }
{
    fields
        .iter()
        .position(|field| field.name.as_bytes() == name)
}

#[tactic(auto, using(sc_value::proofs::ListFacts::find_position, sc_value::proofs::ListFacts::find_none))]
fn attribute_among<'a>(fields: &'a [Field], name: &[u8]) -> Option<&'a Field>
    ensures { option_copied result ≡ find (is_field name.now) fields.now }
{
    match attribute_place(fields, name) {
        Some(at) => Some(&fields[at]),
        None => None,
    }
}

/// The value of an attribute, None where it isn't set.
#[tactic(auto, unfolding(sc_hosts::specs::Scripting::attribute))]
pub fn attribute<'a>(view: &'a View, name: &[u8]) -> Option<&'a Text>
    ensures { option_copied result ≡ attribute name.now view.entry.now }
{
    match attribute_among(view.attributes.as_slice(), name) {
        Some(field) => Some(&field.value),
        None => None,
    }
}

/// The decimal of a number.
pub fn decimal_text(alloc: Global, number: u32) -> Result<Text, NoMemory>
    ensures { IfOk result (λ text. text ≡ decimal number) }
{
    let mut text = Text::new(alloc);
    write_u64(u64::from(number), &mut text)?;
    Ok(text)
}
