//! How many bytes a step counts in the journal. A number that passes 64 bits stands at the
//! greatest.

ghost use Rattle.std.specs.Prelude.{◌≡◌, ℕ, ◌+◌, min, length, sum_by, Option};
ghost use Rattle.std.specs.Option.{option_copied};
ghost use Rattle.sc_model.specs.JournalSizes.{option_size, param_size, sip_uri_size, uri_size, address_size, contact_size, field_size, answer_size, ask_size, inside_size, option_uri_size, call_size, record_size};

use sc_terms::{Answer, Ask, Call, CallRecord, Inside};
use sc_value::{Address, Contact, Field, Param, SipUri, Text, Uri, shared_value};

/// A value whose texts have a size.
pub trait Measured {
    ghost size: { Self → ℕ };

    /// How many bytes its texts have together.
    fn size(&self) -> u64
        ensures { result ≡ min (size self.now) u64.MAX };
}

/// The sizes of all together.
pub fn total<T: Measured>(items: &[T]) -> u64
    ensures { result ≡ min (sum_by T.size items.now) u64.MAX }
{
    let mut sum: u64 = 0;
    for item in items {
        sum = sum.saturating_add(item.size());
    }
    sum
}

/// How many bytes a text has.
pub fn length_of(text: &Text) -> u64
    ensures { result ≡ min (length text.now) u64.MAX }
{
    text.len() as u64
}

#[tactic(auto, unfolding(sc_model::specs::JournalSizes::option_size))]
fn option_size(text: Option<&Text>) -> u64
    ensures { result ≡ min (option_size (option_copied text.entry)) u64.MAX }
{
    match text {
        Some(text) => length_of(text),
        None => 0,
    }
}

impl Measured for Param {
    ghost size = { param_size };

    #[tactic(auto, unfolding(sc_model::specs::JournalSizes::param_size))]
    fn size(&self) -> u64 {
        length_of(&self.name).saturating_add(option_size(self.value.as_ref()))
    }
}

#[tactic(auto, unfolding(sc_model::specs::JournalSizes::sip_uri_size))]
fn sip_uri_size(uri: &SipUri) -> u64
    ensures { result ≡ min (sip_uri_size uri.now) u64.MAX }
{
    let named = option_size(uri.user.as_ref()).saturating_add(length_of(&uri.host));
    let params = total(uri.params.as_slice());
    named
        .saturating_add(params)
        .saturating_add(option_size(shared_value(&uri.headers)))
}

impl Measured for Uri {
    ghost size = { uri_size };

    #[tactic(auto, unfolding(sc_model::specs::JournalSizes::uri_size))]
    fn size(&self) -> u64 {
        match self {
            Uri::Sip(uri) => sip_uri_size(uri),
            Uri::Other(text) => length_of(text.as_text()),
        }
    }
}

#[tactic(auto, unfolding(sc_model::specs::JournalSizes::address_size))]
fn address_size(address: &Address) -> u64
    ensures { result ≡ min (address_size address.now) u64.MAX }
{
    option_size(shared_value(&address.display))
        .saturating_add(address.uri.size())
        .saturating_add(total(address.params.as_slice()))
}

impl Measured for Contact {
    ghost size = { contact_size };

    #[tactic(auto, unfolding(sc_model::specs::JournalSizes::contact_size))]
    fn size(&self) -> u64 {
        match self {
            Contact::Star => 0,
            Contact::At(address) => address_size(address),
        }
    }
}

impl Measured for Field {
    ghost size = { field_size };

    #[tactic(auto, unfolding(sc_model::specs::JournalSizes::field_size))]
    fn size(&self) -> u64 {
        length_of(&self.name).saturating_add(length_of(&self.value))
    }
}

#[tactic(auto, unfolding(sc_model::specs::JournalSizes::answer_size))]
fn answer_size(answer: &Answer) -> u64
    ensures { result ≡ min (answer_size answer.now) u64.MAX }
{
    let reason = length_of(&answer.reason);
    let fields = total(answer.fields.as_slice());
    let contact = total(answer.contact.as_slice());
    reason
        .saturating_add(fields)
        .saturating_add(contact)
        .saturating_add(length_of(&answer.body))
}

#[tactic(auto, unfolding(sc_model::specs::JournalSizes::ask_size))]
fn ask_size(ask: &Ask) -> u64
    ensures { result ≡ min (ask_size ask.now) u64.MAX }
{
    length_of(&ask.method)
        .saturating_add(ask.uri.size())
        .saturating_add(address_size(&ask.from))
        .saturating_add(address_size(&ask.to))
        .saturating_add(total(ask.fields.as_slice()))
        .saturating_add(total(ask.contact.as_slice()))
        .saturating_add(length_of(&ask.body))
}

#[tactic(auto, unfolding(sc_model::specs::JournalSizes::inside_size))]
fn inside_size(ask: &Inside) -> u64
    ensures { result ≡ min (inside_size ask.now) u64.MAX }
{
    length_of(&ask.method)
        .saturating_add(total(ask.fields.as_slice()))
        .saturating_add(length_of(&ask.body))
}

#[tactic(auto, unfolding(sc_model::specs::JournalSizes::option_uri_size))]
fn option_uri_size(uri: &Option<Uri>) -> u64
    ensures { result ≡ min (option_uri_size uri.now) u64.MAX }
{
    match uri {
        Some(uri) => uri.size(),
        None => 0,
    }
}

fn attribute_size(name: &Text, value: &Text) -> u64
    ensures { result ≡ min (length name.now + length value.now) u64.MAX }
{
    length_of(name).saturating_add(length_of(value))
}

#[tactic(auto, unfolding(sc_model::specs::JournalSizes::call_size))]
fn call_size(call: &Call) -> u64
    ensures { result ≡ min (call_size call.now) u64.MAX }
{
    match call {
        Call::Respond { answer, .. } | Call::B2bRespond { answer, .. } => answer_size(answer),
        Call::CreateRequest { ask } => ask_size(ask),
        Call::CreateInDialog { ask, .. } => inside_size(ask),
        Call::B2bCreate { uri, .. } => option_uri_size(uri),
        Call::Ack { body, .. } => length_of(body),
        Call::ProxyTo { targets, .. } => total(targets.as_slice()),
        Call::StartTimer { info, .. } => length_of(info),
        Call::SetAttribute { name, value } => attribute_size(name, value),
        Call::RemoveAttribute { name } => length_of(name),
        _ => 0,
    }
}

impl Measured for CallRecord {
    ghost size = { record_size };

    #[tactic(auto, unfolding(sc_model::specs::JournalSizes::record_size))]
    fn size(&self) -> u64 {
        call_size(&self.call)
    }
}
