//! One line of a header: its name, a colon, a space, its value and the line's end (RFC 3261 section
//! 7.3). For want of memory `out` may hold a part of it.

ghost use Rattle.std.specs.Prelude.{◌≡◌, ◌++◌, ◌∷◌, [], decimal, OnOk};
ghost use Rattle.sc_tokens.specs.HeaderNames.{cseq_name};
ghost use Rattle.sc_grammar.specs.Written.{address_text, contact_line, cseq_text, field_line, line, record_route_line, route_line, via_line};

use crate::addresses::{put_address, put_contact};
use crate::headers::{put_cseq, put_via};
use crate::items::Form;
use crate::names;
use crate::pieces::put_line_end;
use sc_uri_text::{Growing, put_number};
use sc_value::{Address, CSeq, Contact, Field, NoMemory, Via};

pub fn put_name<G: Growing>(name: &[u8], out: &mut G) -> Result<(), NoMemory>
    ensures { OnOk result (G.bytes out.new ≡ G.bytes out.old ++ (name.now ++ 58 ∷ 32 ∷ [])) }
{
    out.put_bytes(name)?;
    out.put_bytes(b": ")
}

/// Appends the line of the header of this name with this value.
#[tactic(auto, unfolding(sc_grammar::specs::Written::line))]
pub fn put_line<G: Growing>(name: &[u8], value: &[u8], out: &mut G) -> Result<(), NoMemory>
    ensures { OnOk result (G.bytes out.new ≡ G.bytes out.old ++ line name.now value.now) }
{
    put_name(name, out)?;
    out.put_bytes(value)?;
    put_line_end(out)
}

#[tactic(auto, unfolding(sc_grammar::specs::Written::line))]
pub fn put_number_line<G: Growing>(name: &[u8], number: u64, out: &mut G) -> Result<(), NoMemory>
    ensures { OnOk result (G.bytes out.new ≡ G.bytes out.old ++ line name.now (decimal number)) }
{
    put_name(name, out)?;
    put_number(number, out)?;
    put_line_end(out)
}

/// Appends the line of the header of this name whose value is this address.
#[tactic(auto, unfolding(sc_grammar::specs::Written::line))]
pub fn put_address_line<G: Growing>(
    name: &[u8],
    address: &Address,
    out: &mut G,
) -> Result<(), NoMemory>
    ensures { OnOk result
        (G.bytes out.new ≡ G.bytes out.old ++ line name.now (address_text address.now)) }
{
    put_name(name, out)?;
    put_address(address, out)?;
    put_line_end(out)
}

/// Appends the line of CSeq.
#[tactic(auto, unfolding(sc_grammar::specs::Written::line))]
pub fn put_cseq_line<G: Growing>(cseq: &CSeq, out: &mut G) -> Result<(), NoMemory>
    ensures { OnOk result
        (G.bytes out.new ≡ G.bytes out.old ++ line cseq_name (cseq_text cseq.now)) }
{
    put_name(names::cseq_name(), out)?;
    put_cseq(cseq, out)?;
    put_line_end(out)
}

/// Appends the line of a Via.
#[tactic(auto, unfolding(sc_grammar::specs::Written::via_line, sc_grammar::specs::Written::line))]
pub fn put_via_line<G: Growing>(via: &Via, out: &mut G) -> Result<(), NoMemory>
    ensures { OnOk result (G.bytes out.new ≡ G.bytes out.old ++ via_line via.now) }
{
    put_name(names::via_name(), out)?;
    put_via(via, out)?;
    put_line_end(out)
}

#[tactic(auto, unfolding(sc_grammar::specs::Written::contact_line, sc_grammar::specs::Written::line))]
fn put_contact_line<G: Growing>(contact: &Contact, out: &mut G) -> Result<(), NoMemory>
    ensures { OnOk result (G.bytes out.new ≡ G.bytes out.old ++ contact_line contact.now) }
{
    put_name(names::contact_name(), out)?;
    put_contact(contact, out)?;
    put_line_end(out)
}

pub struct ViaLine;

impl Form<Via> for ViaLine {
    ghost form = { via_line };

    fn put(item: &Via, out: &mut Vec<u8>) -> Result<(), NoMemory> {
        put_via_line(item, out)
    }
}

pub struct RouteLine;

impl Form<Address> for RouteLine {
    ghost form = { route_line };

    #[tactic(auto, unfolding(sc_grammar::specs::Written::route_line))]
    fn put(item: &Address, out: &mut Vec<u8>) -> Result<(), NoMemory> {
        put_address_line(names::route_name(), item, out)
    }
}

pub struct RecordRouteLine;

impl Form<Address> for RecordRouteLine {
    ghost form = { record_route_line };

    #[tactic(auto, unfolding(sc_grammar::specs::Written::record_route_line))]
    fn put(item: &Address, out: &mut Vec<u8>) -> Result<(), NoMemory> {
        put_address_line(names::record_route_name(), item, out)
    }
}

pub struct ContactLine;

impl Form<Contact> for ContactLine {
    ghost form = { contact_line };

    fn put(item: &Contact, out: &mut Vec<u8>) -> Result<(), NoMemory> {
        put_contact_line(item, out)
    }
}

pub struct FieldLine;

impl Form<Field> for FieldLine {
    ghost form = { field_line };

    #[tactic(auto, unfolding(sc_grammar::specs::Written::field_line))]
    fn put(item: &Field, out: &mut Vec<u8>) -> Result<(), NoMemory> {
        put_line(item.name.as_bytes(), item.value.as_bytes(), out)
    }
}
