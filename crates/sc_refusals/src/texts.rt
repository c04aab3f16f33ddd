//! Whether the texts that a call brings are in form, and their headers the application's to set.

ghost use Rattle.std.specs.Prelude.{◌≡◌, ◌+◌, min, position, Some};
ghost use Rattle.sc_tokens.specs.HeaderNames.{is_system_name};
ghost use Rattle.sc_tokens.specs.Names.{same_bytes};
ghost use Rattle.sc_hosts.specs.Words.{options, register};
ghost use Rattle.sc_hosts.specs.RefusalParts.{answer_text, asked_text, bad_field, has_system_answer, has_system_ask, has_system_name, is_bad_method, may_have_contact};
ghost use Rattle.sc_model.specs.DialogRequests.{is_bad_field};

use sc_methods::{is_ack, is_cancel};
use sc_terms::{Answer, Ask, Refusal};
use sc_value::{Field, is_one_line, is_system_name, is_token, is_value};

#[tactic(auto, unfolding(sc_hosts::specs::Words::options))]
fn is_options(method: &[u8]) -> bool
    ensures { result ≡ same_bytes method.now options }
{
    method == b"OPTIONS".as_slice()
}

#[tactic(auto, unfolding(sc_hosts::specs::Words::register))]
fn is_register(method: &[u8]) -> bool
    ensures { result ≡ same_bytes method.now register }
{
    method == b"REGISTER".as_slice()
}

#[tactic(auto, unfolding(sc_hosts::specs::RefusalParts::may_have_contact))]
fn may_have_contact(method: &[u8], code: u16) -> bool
    ensures { result ≡ may_have_contact method.now code }
{
    (300 <= code && code < 400)
        || code == 485
        || (code == 200 && is_options(method))
        || is_register(method)
}

/// Whether a field has the name of a header that the container sets itself.
#[tactic(auto, unfolding(sc_hosts::specs::RefusalParts::has_system_name))]
pub fn has_system_name(fields: &[Field]) -> bool
    ensures { result ≡ has_system_name fields.now }
{
    fields
        .iter()
        .any(|field| is_system_name(field.name.as_bytes()))
}

/// Whether an answer to a request of this method has a header that the container sets itself.
#[tactic(auto, unfolding(sc_hosts::specs::RefusalParts::has_system_answer))]
pub fn has_system_answer(method: &[u8], answer: &Answer) -> bool
    ensures { result ≡ has_system_answer method.now answer.now }
{
    has_system_name(answer.fields.as_slice())
        || (!answer.contact.is_empty() && !may_have_contact(method, answer.code))
}

/// Whether a request of one's own has a header that the container sets itself.
#[tactic(auto, unfolding(sc_hosts::specs::RefusalParts::has_system_ask))]
pub fn has_system_ask(ask: &Ask) -> bool
    ensures { result ≡ has_system_ask ask.now }
{
    has_system_name(ask.fields.as_slice())
        || (!ask.contact.is_empty() && !is_register(ask.method.as_bytes()))
}

#[tactic(auto, unfolding(sc_model::specs::DialogRequests::is_bad_field))]
fn is_bad_field(field: &Field) -> bool
    ensures { result ≡ is_bad_field field.now }
{
    !is_token(field.name.as_bytes()) || !is_value(field.value.as_bytes())
}

fn bad_field_place(fields: &[Field]) -> Option<usize>
    ensures { result ≡ position is_bad_field fields.now }
{
    fields.iter().position(|field| is_bad_field(field))
}

// The number of a field's texts, by its place.
fn text_number(at: usize) -> u32
    ensures { result ≡ min (at + 2) 4294967295 }
{
    if at < 4_294_967_293 {
        (at + 2) as u32
    } else {
        4_294_967_295
    }
}

#[tactic(auto, unfolding(sc_hosts::specs::RefusalParts::bad_field))]
fn bad_field(fields: &[Field]) -> Option<Refusal>
    ensures { result ≡ bad_field fields.now }
{
    match bad_field_place(fields) {
        Some(at) => Some(Refusal::BadText(text_number(at))),
        None => None,
    }
}

/// The refusal of an answer's code, reason or fields, None exactly where all are in form.
#[tactic(auto, unfolding(sc_hosts::specs::RefusalParts::answer_text, sc_hosts::specs::RefusalParts::first_of))]
pub fn answer_text(answer: &Answer) -> Option<Refusal>
    ensures { result ≡ answer_text answer.now }
{
    if answer.code < 101 || 699 < answer.code {
        return Some(Refusal::BadText(0));
    }
    if !is_one_line(answer.reason.as_bytes()) {
        return Some(Refusal::BadText(1));
    }
    bad_field(answer.fields.as_slice())
}

#[tactic(auto, unfolding(sc_hosts::specs::RefusalParts::is_bad_method))]
fn is_bad_method(method: &[u8]) -> bool
    ensures { result ≡ is_bad_method method.now }
{
    !is_token(method) || is_ack(method) || is_cancel(method)
}

/// The refusal of the method or the fields that a request is made with.
#[tactic(auto, unfolding(sc_hosts::specs::RefusalParts::asked_text, sc_hosts::specs::RefusalParts::first_of))]
pub fn asked_text(method: &[u8], fields: &[Field]) -> Option<Refusal>
    ensures { result ≡ asked_text method.now fields.now }
{
    if is_bad_method(method) {
        return Some(Refusal::BadText(0));
    }
    bad_field(fields)
}
