//! The parts of a line, each behind a blank.

ghost use Rattle.std.specs.Prelude.{◌≡◌, ◌++◌, OnOk};
ghost use Rattle.sc_grammar.specs.Written.{address_text, contact_text};
ghost use Rattle.sc_recording.specs.CallTexts.{acting_on, contact_part, contacts_text, decimal_text, field_part, fields_text, flag_text, integer_text, number_or, numbered_or, text_with_length, uri_or, uri_part, uris_text};

use crate::forms::{Form, put_items};
use sc_message_text::{put_address, uri_text};
use sc_uri_text::put_byte;
use sc_value::{Address, Contact, Field, NoMemory, ReqId, Text, Uri, write_u64};
use std::alloc::Global;

/// Appends a number.
#[tactic(auto, unfolding(crate::specs::CallTexts::decimal_text))]
pub fn put_number(n: u64, out: &mut Text) -> Result<(), NoMemory>
    ensures { OnOk result (out.new ≡ out.old ++ decimal_text n) }
{
    put_byte(b' ', out)?;
    write_u64(n, out)
}

/// Appends the number of a request, or a dash.
#[tactic(auto, unfolding(crate::specs::CallTexts::numbered_or, crate::specs::CallTexts::number_or))]
pub fn put_request_or(req: Option<ReqId>, out: &mut Text) -> Result<(), NoMemory>
    ensures { OnOk result (out.new ≡ out.old ++ numbered_or (number_or req)) }
{
    match req {
        Some(req) => put_number(u64::from(req.0), out),
        None => out.append(b" -"),
    }
}

/// Appends a number of either sign.
#[tactic(auto, unfolding(crate::specs::CallTexts::integer_text))]
pub fn put_signed_number(n: i32, out: &mut Text) -> Result<(), NoMemory>
    ensures { OnOk result (out.new ≡ out.old ++ integer_text n) }
{
    if n < 0 {
        out.append(b" -")?;
        write_u64(u64::from(n.unsigned_abs()), out)
    } else {
        put_number(u64::from(n.unsigned_abs()), out)
    }
}

/// Appends a text: how many bytes it has, a colon, and the bytes.
#[tactic(auto, unfolding(crate::specs::CallTexts::text_with_length))]
pub fn put_sized(text: &[u8], out: &mut Text) -> Result<(), NoMemory>
    ensures { OnOk result (out.new ≡ out.old ++ text_with_length text.now) }
{
    put_number(text.len() as u64, out)?;
    put_byte(b':', out)?;
    out.append(text)
}

/// Appends a flag.
#[tactic(auto, unfolding(crate::specs::CallTexts::flag_text))]
pub fn put_flag(flag: bool, out: &mut Text) -> Result<(), NoMemory>
    ensures { OnOk result (out.new ≡ out.old ++ flag_text flag) }
{
    if flag {
        out.append(b" yes")
    } else {
        out.append(b" no")
    }
}

/// Appends a name, and the number of what it is of.
#[tactic(auto, unfolding(crate::specs::CallTexts::acting_on))]
pub fn put_acting(name: &[u8], n: u32, out: &mut Text) -> Result<(), NoMemory>
    ensures { OnOk result (out.new ≡ out.old ++ acting_on name.now n) }
{
    out.append(name)?;
    put_number(u64::from(n), out)
}

/// Appends a URI.
#[tactic(auto, unfolding(crate::specs::CallTexts::uri_part))]
pub fn put_uri_part(alloc: Global, uri: &Uri, out: &mut Text) -> Result<(), NoMemory>
    ensures { OnOk result (out.new ≡ out.old ++ uri_part uri.now) }
{
    let text = uri_text(alloc, uri)?;
    put_sized(text.as_bytes(), out)
}

/// Appends a URI, or a dash.
#[tactic(auto, unfolding(crate::specs::CallTexts::uri_or, crate::specs::CallTexts::uri_part))]
pub fn put_uri_or(alloc: Global, uri: &Option<Uri>, out: &mut Text) -> Result<(), NoMemory>
    ensures { OnOk result (out.new ≡ out.old ++ uri_or uri.now) }
{
    match uri {
        Some(uri) => put_uri_part(alloc, uri, out),
        None => out.append(b" -"),
    }
}

/// Appends an address, with how many bytes it has.
pub fn put_address_part(alloc: Global, address: &Address, out: &mut Text) -> Result<(), NoMemory>
    ensures { OnOk result (out.new ≡ out.old ++ text_with_length (address_text address.now)) }
{
    let mut text = Text::new(alloc);
    put_address(address, &mut text)?;
    put_sized(text.as_bytes(), out)
}

#[tactic(auto, unfolding(crate::specs::CallTexts::contact_part, sc_grammar::specs::Written::contact_text))]
fn put_contact_part(alloc: Global, contact: &Contact, out: &mut Text) -> Result<(), NoMemory>
    ensures { OnOk result (out.new ≡ out.old ++ contact_part contact.now) }
{
    match contact {
        Contact::Star => put_sized(b"*", out),
        Contact::At(address) => put_address_part(alloc, address, out),
    }
}

#[tactic(auto, unfolding(crate::specs::CallTexts::field_part))]
fn put_field_part(field: &Field, out: &mut Text) -> Result<(), NoMemory>
    ensures { OnOk result (out.new ≡ out.old ++ field_part field.now) }
{
    put_sized(field.name.as_bytes(), out)?;
    put_sized(field.value.as_bytes(), out)
}

/// An item of a list of URIs.
pub struct UriPart;

impl Form<Uri> for UriPart {
    ghost form = { uri_part };

    fn put(alloc: Global, item: &Uri, out: &mut Text) -> Result<(), NoMemory> {
        put_uri_part(alloc, item, out)
    }
}

/// An item of a list of Contacts.
pub struct ContactPart;

impl Form<Contact> for ContactPart {
    ghost form = { contact_part };

    fn put(alloc: Global, item: &Contact, out: &mut Text) -> Result<(), NoMemory> {
        put_contact_part(alloc, item, out)
    }
}

/// An item of a list of fields.
pub struct FieldPart;

impl Form<Field> for FieldPart {
    ghost form = { field_part };

    fn put(_alloc: Global, item: &Field, out: &mut Text) -> Result<(), NoMemory> {
        put_field_part(item, out)
    }
}

/// Appends how many URIs there are, and each of them.
#[tactic(auto, unfolding(crate::specs::CallTexts::uris_text))]
pub fn put_uris(alloc: Global, uris: &[Uri], out: &mut Text) -> Result<(), NoMemory>
    ensures { OnOk result (out.new ≡ out.old ++ uris_text uris.now) }
{
    put_number(uris.len() as u64, out)?;
    put_items::<Uri, UriPart>(alloc, uris, out)
}

/// Appends how many Contacts there are, and each of them.
#[tactic(auto, unfolding(crate::specs::CallTexts::contacts_text))]
pub fn put_contacts(alloc: Global, contacts: &[Contact], out: &mut Text) -> Result<(), NoMemory>
    ensures { OnOk result (out.new ≡ out.old ++ contacts_text contacts.now) }
{
    put_number(contacts.len() as u64, out)?;
    put_items::<Contact, ContactPart>(alloc, contacts, out)
}

/// Appends how many fields there are, and each of them.
#[tactic(auto, unfolding(crate::specs::CallTexts::fields_text))]
pub fn put_fields(alloc: Global, fields: &[Field], out: &mut Text) -> Result<(), NoMemory>
    ensures { OnOk result (out.new ≡ out.old ++ fields_text fields.now) }
{
    put_number(fields.len() as u64, out)?;
    put_items::<Field, FieldPart>(alloc, fields, out)
}
