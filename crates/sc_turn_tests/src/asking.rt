//! What the calls of the cases ask for.

use crate::reading::{number, small_number, text_of, word};
use sc_terms::{Answer, Ask, Inside, ProxyOptions};
use sc_value::{Address, Contact, Directive, Field, List, NoMemory, ReqId, Text, Uri};
use std::alloc::Global;

// What an answer or a request says: its reason or method, a field, and whether there is a Contact.
#[derive(Drop)]
struct Content {
    said: Text,
    fields: List<Field>,
    contact: List<Contact>,
}

// The URI and the sides of a request.
#[derive(Drop)]
struct Sides {
    uri: Uri,
    from: Address,
    to: Address,
}

fn uri(alloc: Global) -> Result<Uri, NoMemory> {
    match sc_uri_text::read(alloc, b"sip:x@127.0.0.1:5071") {
        Ok(uri) => Ok(uri),
        Err(_) => Err(NoMemory),
    }
}

/// So many targets.
pub fn targets(alloc: Global, count: u32) -> Result<List<Uri>, NoMemory> {
    let mut targets = List::new(alloc);
    for _ in 0..count {
        targets.push(uri(alloc)?)?;
    }
    Ok(targets)
}

#[tactic(auto, unfolding(sc_tokens::specs::HeaderTokens::IsDisplay, sc_value::specs::ParamRules::AreHeaderParams))]
fn address(alloc: Global) -> Result<Address, NoMemory> {
    let uri = uri(alloc)?;
    uri.known();
    Ok(Address {
        display: None,
        uri,
        params: List::new(alloc),
    })
}

fn both_sides(alloc: Global) -> Result<Sides, NoMemory> {
    let from = address(alloc)?;
    let to = address(alloc)?;
    let uri = uri(alloc)?;
    Ok(Sides { uri, from, to })
}

fn field(alloc: Global, name: &str, value: &str) -> Result<Field, NoMemory> {
    let name = text_of(alloc, name)?;
    let value = text_of(alloc, value)?;
    Ok(Field { name, value })
}

// The field of a row, behind one that is in form.
fn fields_of(alloc: Global, name: &str, value: &str) -> Result<List<Field>, NoMemory> {
    let mut fields = List::new(alloc);
    fields.push(field(alloc, "Subject", "b")?)?;
    if !name.is_empty() && name != "@" {
        fields.push(field(alloc, name, value)?)?;
    }
    Ok(fields)
}

fn contact_of(alloc: Global, name: &str) -> Result<List<Contact>, NoMemory> {
    let mut contact = List::new(alloc);
    if name == "@" {
        contact.push(Contact::At(address(alloc)?))?;
    }
    Ok(contact)
}

// What stands in a row as the reason or the method, and as the name and the value of a field. `@`
// in place of the name is a Contact, and nothing is no field.
fn content_of(alloc: Global, said: &str, name: &str, value: &str) -> Result<Content, NoMemory> {
    let fields = fields_of(alloc, name, value)?;
    let contact = contact_of(alloc, name)?;
    let said = text_of(alloc, said)?;
    Ok(Content {
        said,
        fields,
        contact,
    })
}

/// The answer of a row of a code, a reason and a field.
pub fn answer(alloc: Global, row: &str) -> Result<Answer, NoMemory> {
    let Content {
        said,
        fields,
        contact,
    } = content_of(alloc, word(row, 3), word(row, 4), word(row, 5))?;
    Ok(Answer {
        code: small_number(row, 2),
        reason: said,
        fields,
        contact,
        body: Text::new(alloc),
    })
}

/// The directive that stands at this place.
pub fn directive(row: &str, place: usize) -> Directive {
    let word = word(row, place);
    if word == "Continue" {
        Directive::Continue
    } else if word == "Reverse" {
        Directive::Reverse
    } else {
        Directive::New
    }
}

/// The request whose number stands at this place.
pub fn origin(row: &str, place: usize) -> Option<ReqId> {
    let number = number(row, place);
    if number == 0 {
        None
    } else {
        Some(ReqId(number))
    }
}

fn ask_of(alloc: Global, row: &str, sides: Sides, content: Content) -> Ask {
    let Sides { uri, from, to } = sides;
    let Content {
        said,
        fields,
        contact,
    } = content;
    Ask {
        method: said,
        uri,
        from,
        to,
        fields,
        contact,
        body: Text::new(alloc),
        directive: directive(row, 1),
        origin: origin(row, 2),
    }
}

/// The initial request of a row of a directive, an origin, a method and a field.
pub fn ask(alloc: Global, row: &str) -> Result<Ask, NoMemory> {
    let sides = both_sides(alloc)?;
    let content = content_of(alloc, word(row, 3), word(row, 4), word(row, 5))?;
    Ok(ask_of(alloc, row, sides, content))
}

/// The request in a dialog of a row of a SipSession, a method and a field.
pub fn inside(alloc: Global, row: &str) -> Result<Inside, NoMemory> {
    let fields = fields_of(alloc, word(row, 3), word(row, 4))?;
    let method = text_of(alloc, word(row, 2))?;
    Ok(Inside {
        method,
        fields,
        body: Text::new(alloc),
    })
}

/// Proxying of which a branch is ended after so many seconds.
pub fn options(timeout: u16) -> ProxyOptions {
    ProxyOptions {
        parallel: true,
        recurse: false,
        supervised: true,
        record_route: false,
        timeout,
    }
}
