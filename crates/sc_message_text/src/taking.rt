//! Header lines, judged one by one (RFC 3261 sections 7.3 and 20).

ghost use Rattle.std.specs.Prelude.{◌≡◌, Some, is_some, true};
ghost use Rattle.sc_syntax.specs.Addresses.{address_of, addresses_of, contacts_of};
ghost use Rattle.sc_syntax.specs.Judging.{header_named, in_line, left_with_line, taken_as, taken_once, with_call_id, with_contacts, with_cseq, with_field, with_from, with_header, with_hops, with_length, with_named_header, with_record_routes, with_routes, with_to, with_vias};
ghost use Rattle.sc_tokens.specs.Blanks.{without_blanks};
ghost use Rattle.sc_tokens.specs.HeaderNames.{long_name};
ghost use Rattle.sc_tokens.specs.Numbers.{number_of};
ghost use Rattle.sc_tokens.specs.Tokens.{is_token};
ghost use Rattle.sc_syntax.specs.declared.left.Header.TheVariants as headers;
ghost use Rattle.sc_syntax.specs.Sequences.{cseq_of, hops_of};
ghost use Rattle.sc_syntax.specs.Vias.{vias_of};
ghost use Rattle.sc_message_text.specs.Answers.{Takes};
ghost use Rattle.sc_message_text.specs.UsualNames.{IsUsual};

use crate::refused::LineRefused;
use crate::{keeping, names};
use sc_ascii::{cut, trim, trim_back};
use sc_head_text::{
    read_address, read_addresses, read_contacts, read_cseq, read_hops, read_length, read_vias,
};
use sc_syntax::{Header, Left};
use sc_value::{Field, HeaderValue, Text, is_one_line, is_token, long_name, same_name};
use std::alloc::Global;

// Takes what the text of a header line leaves, or answers the kind of its fault.
#[tactic(auto, unfolding(sc_syntax::specs::Judging::left_with_line))]
pub fn take_line(left: &mut Left, alloc: Global, line: &[u8]) -> Result<(), LineRefused>
    ensures { Takes result left.new (left_with_line left.old line.now) }
{
    let (name, value) = cut(line, b':');
    match value {
        Some(value) => take_named(left, alloc, trim_back(name), value),
        None => Err(LineRefused::Fault(6)),
    }
}

// A name, which may be compact, and what stands behind its colon.
fn take_named(left: &mut Left, alloc: Global, name: &[u8], value: &[u8]) -> Result<(), LineRefused>
    ensures { Takes result left.new (with_named_header left.old name.now value.now) }
{
    match names::usual_header(name) {
        Some(header) => take_usual(left, alloc, name, header, value),
        None => take_spelled(left, alloc, name, value),
    }
}

// The same, where the name is the long one of this header, letter for letter.
#[tactic(auto, using(crate::proofs::NameSteps::usual_token, crate::proofs::NameSteps::usual_long, crate::proofs::NameSteps::usual_named, crate::proofs::NameSteps::usual_taken, sc_syntax::proofs::ValueLaws::ends_taken))]
fn take_usual(
    left: &mut Left,
    alloc: Global,
    name: &[u8],
    header: Header,
    value: &[u8],
) -> Result<(), LineRefused>
    requires { IsUsual header name.now }
    ensures { Takes result left.new (with_named_header left.old name.now value.now) }
{
    take_value(left, alloc, name, header, trim(value))
}

// The same, where the name is spelled in another way, or is that of another header.
#[tactic(auto, unfolding(sc_syntax::specs::Judging::with_named_header), using(sc_syntax::proofs::NameLaws::long_token, sc_syntax::proofs::NameLaws::long_again, sc_syntax::proofs::ValueLaws::ends_taken))]
fn take_spelled(
    left: &mut Left,
    alloc: Global,
    name: &[u8],
    value: &[u8],
) -> Result<(), LineRefused>
    ensures { Takes result left.new (with_named_header left.old name.now value.now) }
{
    if !is_token(name) {
        return Err(LineRefused::Fault(6));
    }
    let name = long_name(name);
    take_value(left, alloc, name, header_named(name), trim(value))
}

// Which header has this long name.
#[tactic(auto, unfolding(sc_syntax::specs::Judging::header_named))]
fn header_named(name: &[u8]) -> Header
    ensures { result ≡ header_named name.now }
{
    if same_name(name, names::via_name()) {
        Header::Via
    } else if same_name(name, names::route_name()) {
        Header::Route
    } else if same_name(name, names::record_route_name()) {
        Header::RecordRoute
    } else if same_name(name, names::contact_name()) {
        Header::Contact
    } else if same_name(name, names::from_name()) {
        Header::From
    } else if same_name(name, names::to_name()) {
        Header::To
    } else if same_name(name, names::call_id_name()) {
        Header::CallId
    } else if same_name(name, names::cseq_name()) {
        Header::CSeq
    } else if same_name(name, names::max_forwards_name()) {
        Header::MaxForwards
    } else if same_name(name, names::content_length_name()) {
        Header::ContentLength
    } else {
        Header::Other
    }
}

// The header of this long name with this value, which has no blank at an end.
#[tactic(auto, unfolding(sc_syntax::specs::Judging::with_header))]
fn take_value(
    left: &mut Left,
    alloc: Global,
    name: &[u8],
    header: Header,
    value: &[u8],
) -> Result<(), LineRefused>
    requires token { is_token name.now ≡ true }
    requires long { long_name name.now ≡ name.now }
    requires header { header ≡ header_named name.now }
    requires value { without_blanks value.now ≡ value.now }
    ensures { Takes result left.new (with_header left.old name.now header value.now) }
{
    match header {
        Header::Via => take_vias(left, alloc, value),
        Header::Route => take_routes(left, alloc, value),
        Header::RecordRoute => take_record_routes(left, alloc, value),
        Header::Contact => take_contacts(left, alloc, value),
        Header::From => take_from(left, alloc, value),
        Header::To => take_to(left, alloc, value),
        Header::CallId => take_call_id(left, alloc, value),
        Header::CSeq => take_cseq(left, alloc, value),
        Header::MaxForwards => take_hops(left, value),
        Header::ContentLength => take_length(left, value),
        Header::Other => take_field(left, alloc, name, value),
    }
}

#[tactic(auto, unfolding(sc_syntax::specs::Judging::taken_as, sc_syntax::specs::Judging::in_line))]
fn take_vias(left: &mut Left, alloc: Global, value: &[u8]) -> Result<(), LineRefused>
    ensures { Takes result left.new (taken_as (with_vias left.old) (in_line vias_of value.now)) }
{
    if !is_one_line(value) {
        return Err(LineRefused::Fault(9));
    }
    match read_vias(alloc, value) {
        Ok(items) => keeping::keep_vias(left, items),
        Err(unread) => Err(LineRefused::from(unread)),
    }
}

#[tactic(auto, unfolding(sc_syntax::specs::Judging::taken_as, sc_syntax::specs::Judging::in_line))]
fn take_routes(left: &mut Left, alloc: Global, value: &[u8]) -> Result<(), LineRefused>
    ensures { Takes result left.new
        (taken_as (with_routes left.old) (in_line addresses_of value.now)) }
{
    if !is_one_line(value) {
        return Err(LineRefused::Fault(9));
    }
    match read_addresses(alloc, value) {
        Ok(items) => keeping::keep_routes(left, items),
        Err(unread) => Err(LineRefused::from(unread)),
    }
}

#[tactic(auto, unfolding(sc_syntax::specs::Judging::taken_as, sc_syntax::specs::Judging::in_line))]
fn take_record_routes(left: &mut Left, alloc: Global, value: &[u8]) -> Result<(), LineRefused>
    ensures { Takes result left.new
        (taken_as (with_record_routes left.old) (in_line addresses_of value.now)) }
{
    if !is_one_line(value) {
        return Err(LineRefused::Fault(9));
    }
    match read_addresses(alloc, value) {
        Ok(items) => keeping::keep_record_routes(left, items),
        Err(unread) => Err(LineRefused::from(unread)),
    }
}

#[tactic(auto, unfolding(sc_syntax::specs::Judging::taken_as, sc_syntax::specs::Judging::in_line))]
fn take_contacts(left: &mut Left, alloc: Global, value: &[u8]) -> Result<(), LineRefused>
    ensures { Takes result left.new
        (taken_as (with_contacts left.old) (in_line contacts_of value.now)) }
{
    if !is_one_line(value) {
        return Err(LineRefused::Fault(9));
    }
    match read_contacts(alloc, value) {
        Ok(items) => keeping::keep_contacts(left, items),
        Err(unread) => Err(LineRefused::from(unread)),
    }
}

#[tactic(auto, unfolding(sc_syntax::specs::Judging::taken_once, sc_syntax::specs::Judging::taken_as, sc_syntax::specs::Judging::in_line))]
fn take_from(left: &mut Left, alloc: Global, value: &[u8]) -> Result<(), LineRefused>
    ensures { Takes result left.new
        (taken_once (is_some left.old.singles.from) (with_from left.old)
        (in_line address_of value.now)) }
{
    if left.singles.from.is_some() {
        return Err(LineRefused::Fault(8));
    }
    if !is_one_line(value) {
        return Err(LineRefused::Fault(9));
    }
    match read_address(alloc, value) {
        Ok(address) => keeping::keep_from(left, alloc, address),
        Err(unread) => Err(LineRefused::from(unread)),
    }
}

#[tactic(auto, unfolding(sc_syntax::specs::Judging::taken_once, sc_syntax::specs::Judging::taken_as, sc_syntax::specs::Judging::in_line))]
fn take_to(left: &mut Left, alloc: Global, value: &[u8]) -> Result<(), LineRefused>
    ensures { Takes result left.new
        (taken_once (is_some left.old.singles.to) (with_to left.old)
        (in_line address_of value.now)) }
{
    if left.singles.to.is_some() {
        return Err(LineRefused::Fault(8));
    }
    if !is_one_line(value) {
        return Err(LineRefused::Fault(9));
    }
    match read_address(alloc, value) {
        Ok(address) => keeping::keep_to(left, alloc, address),
        Err(unread) => Err(LineRefused::from(unread)),
    }
}

#[tactic(auto, unfolding(sc_syntax::specs::Judging::taken_once, sc_syntax::specs::Judging::taken_as, sc_syntax::specs::Judging::in_line))]
fn take_cseq(left: &mut Left, alloc: Global, value: &[u8]) -> Result<(), LineRefused>
    ensures { Takes result left.new
        (taken_once (is_some left.old.singles.cseq) (with_cseq left.old)
        (in_line cseq_of value.now)) }
{
    if left.singles.cseq.is_some() {
        return Err(LineRefused::Fault(8));
    }
    if !is_one_line(value) {
        return Err(LineRefused::Fault(9));
    }
    match read_cseq(alloc, value) {
        Ok(cseq) => keeping::keep_cseq(left, cseq),
        Err(unread) => Err(LineRefused::from(unread)),
    }
}

#[tactic(auto, unfolding(sc_syntax::specs::Judging::taken_once, sc_syntax::specs::Judging::taken_as, sc_syntax::specs::Judging::in_line), using(sc_syntax::proofs::ValueLaws::trimmed_is_value))]
fn take_call_id(left: &mut Left, alloc: Global, value: &[u8]) -> Result<(), LineRefused>
    requires { without_blanks value.now ≡ value.now }
    ensures { Takes result left.new
        (taken_once (is_some left.old.singles.call_id) (with_call_id left.old)
        (in_line Some value.now)) }
{
    if left.singles.call_id.is_some() {
        return Err(LineRefused::Fault(8));
    }
    if !is_one_line(value) {
        return Err(LineRefused::Fault(9));
    }
    let id = HeaderValue::from_slice(alloc, value)?;
    keeping::keep_call_id(left, id)
}

#[tactic(auto, unfolding(sc_syntax::specs::Judging::taken_once, sc_syntax::specs::Judging::taken_as, sc_syntax::specs::Judging::in_line))]
fn take_hops(left: &mut Left, value: &[u8]) -> Result<(), LineRefused>
    ensures { Takes result left.new
        (taken_once (is_some left.old.singles.hops) (with_hops left.old)
        (in_line hops_of value.now)) }
{
    if left.singles.hops.is_some() {
        return Err(LineRefused::Fault(8));
    }
    if !is_one_line(value) {
        return Err(LineRefused::Fault(9));
    }
    match read_hops(value) {
        Some(hops) => keeping::keep_hops(left, hops),
        None => Err(LineRefused::Fault(9)),
    }
}

#[tactic(auto, unfolding(sc_syntax::specs::Judging::taken_once, sc_syntax::specs::Judging::taken_as, sc_syntax::specs::Judging::in_line))]
fn take_length(left: &mut Left, value: &[u8]) -> Result<(), LineRefused>
    ensures { Takes result left.new
        (taken_once (is_some left.old.singles.length) (with_length left.old)
        (in_line number_of value.now)) }
{
    if left.singles.length.is_some() {
        return Err(LineRefused::Fault(8));
    }
    if !is_one_line(value) {
        return Err(LineRefused::Fault(9));
    }
    match read_length(value) {
        Some(len) => keeping::keep_length(left, len),
        None => Err(LineRefused::Fault(9)),
    }
}

#[tactic(auto, unfolding(sc_syntax::specs::Judging::taken_as, sc_syntax::specs::Judging::in_line), using(sc_syntax::proofs::ValueLaws::trimmed_is_value, sc_syntax::proofs::NameLaws::other_is_free))]
fn take_field(left: &mut Left, alloc: Global, name: &[u8], value: &[u8]) -> Result<(), LineRefused>
    requires token { is_token name.now ≡ true }
    requires long { long_name name.now ≡ name.now }
    requires other { header_named name.now ≡ headers.Other }
    requires value { without_blanks value.now ≡ value.now }
    ensures { Takes result left.new
        (taken_as (with_field left.old name.now) (in_line Some value.now)) }
{
    if !is_one_line(value) {
        return Err(LineRefused::Fault(9));
    }
    let name = Text::from_slice(alloc, name)?;
    let value = Text::from_slice(alloc, value)?;
    keeping::keep_field(left, Field { name, value })
}
