//! Whole messages (RFC 3261 section 7).

ghost use Rattle.std.specs.Prelude.{◌≡◌, ◌++◌, Ok, IfOk, OnErr, OnOk};
ghost use Rattle.sc_grammar.specs.Written.{closing_lines, dialog_lines, head_text, hops_line, request_line, routing_lines, status_line, text_of_message};
ghost use Rattle.sc_value.specs.declared.message.Message.{Message};
ghost use Rattle.sc_syntax.specs.Messages.{message_of};
ghost use Rattle.sc_spelling.specs.Kept.{HasBranch, HasRoom};
ghost use Rattle.sc_spelling.specs.Made.{HasCode};
ghost use Rattle.sc_spelling.specs.SpelledMessages.{HasMethod};

use crate::items::put_items;
use crate::lines::{
    ContactLine, FieldLine, RecordRouteLine, RouteLine, ViaLine, put_address_line, put_cseq_line,
    put_line, put_number_line,
};
use crate::names;
use crate::pieces::{put_line_end, put_version};
use sc_spelling::written_again;
use sc_uri_text::{Growing, put_number, put_uri};
use sc_value::{Address, Contact, Field, Head, Message, NoMemory, Request, Response, Text, Via};
use std::alloc::Global;

/// The written form of a message, in a text of its own (RFC 3261 section 7). The order of the
/// headers is Via, Route, Record-Route, Max-Forwards (in requests alone), From, To, Call-ID, CSeq,
/// Contact, all others, Content-Length, one line an item. It is never read as another message, and
/// it is read as this one where a request has its CSeq's method, a response a code of 100 to 699,
/// the first Via its branch, and where there are at most 128 values. The one error is want of
/// memory.
pub fn text_of(alloc: Global, message: &Message) -> Result<Text, NoMemory>
    ensures written { IfOk result (λ text. text ≡ text_of_message message.now) }
    ensures again { HasMethod message.now → HasCode message.now → HasBranch message.now
        → HasRoom message.now → IfOk result (λ text. message_of text ≡ Ok message.now) }
    ensures never_another { (other : Message)
        → IfOk result (λ text. message_of text ≡ Ok other → other ≡ message.now) }
{
    written_again(message);
    let bytes = bytes_of(alloc, message)?;
    Text::from_vec(alloc, bytes)
}

// How many bytes a message has in most calls: a list of them is made without growing.
const ROOM: usize = 512;

/// The bytes of a message's written form (RFC 3261 section 7), as [`text_of`] gives them. The one
/// error is want of memory.
pub fn bytes_of(alloc: Global, message: &Message) -> Result<Vec<u8>, NoMemory>
    ensures { IfOk result (λ bytes. bytes.items ≡ text_of_message message.now) }
{
    let mut out = Vec::with_capacity(alloc, ROOM)?;
    put_message(message, &mut out)?;
    Ok(out)
}

/// Puts the written form of a message at the end of a text (RFC 3261 section 7), as [`text_of`]
/// gives it. The one error is want of memory, and then the text is as before.
pub fn write(alloc: Global, message: &Message, out: &mut Text) -> Result<(), NoMemory>
    ensures ok { OnOk result (out.new ≡ out.old ++ text_of_message message.now) }
    ensures err { OnErr result (out.new ≡ out.old) }
{
    let text = text_of(alloc, message)?;
    out.append(text.as_bytes())
}

#[tactic(auto, unfolding(sc_grammar::specs::Written::text_of_message))]
fn put_message(message: &Message, out: &mut Vec<u8>) -> Result<(), NoMemory>
    ensures { OnOk result (out.new.items ≡ out.old.items ++ text_of_message message.now) }
{
    match message {
        Message::Request(request) => {
            put_request_line(request.get(), out)?;
            put_head(Some(request.get().hops), &request.get().head, out)
        }
        Message::Response(response) => {
            put_status_line(response.get(), out)?;
            put_head(None, &response.get().head, out)
        }
    }
}

#[tactic(auto, unfolding(sc_grammar::specs::Written::request_line))]
fn put_request_line(request: &Request, out: &mut Vec<u8>) -> Result<(), NoMemory>
    ensures { OnOk result (out.new.items ≡ out.old.items ++ request_line request.now) }
{
    out.put_bytes(request.method.as_bytes())?;
    out.put_one(b' ')?;
    put_uri(&request.uri, out)?;
    out.put_one(b' ')?;
    put_version(out)?;
    put_line_end(out)
}

#[tactic(auto, unfolding(sc_grammar::specs::Written::status_line))]
fn put_status_line(response: &Response, out: &mut Vec<u8>) -> Result<(), NoMemory>
    ensures { OnOk result (out.new.items ≡ out.old.items ++ status_line response.now) }
{
    put_version(out)?;
    out.put_one(b' ')?;
    put_number(u64::from(response.code), out)?;
    out.put_one(b' ')?;
    out.put_bytes(response.reason.as_bytes())?;
    put_line_end(out)
}

// All that follows the start line.
#[tactic(auto, unfolding(sc_grammar::specs::Written::head_text))]
fn put_head(hops: Option<u8>, head: &Head, out: &mut Vec<u8>) -> Result<(), NoMemory>
    ensures { OnOk result (out.new.items ≡ out.old.items ++ head_text hops head.now) }
{
    put_routing_lines(head, out)?;
    put_hops_line(hops, out)?;
    put_dialog_lines(head, out)?;
    put_closing_lines(head, out)?;
    put_line_end(out)?;
    out.put_bytes(head.body.as_bytes())
}

// The lists of Via, Route and Record-Route.
#[tactic(auto, unfolding(sc_grammar::specs::Written::routing_lines))]
fn put_routing_lines(head: &Head, out: &mut Vec<u8>) -> Result<(), NoMemory>
    ensures { OnOk result (out.new.items ≡ out.old.items ++ routing_lines head.now) }
{
    put_items::<Via, ViaLine>(head.via.as_slice(), out)?;
    put_items::<Address, RouteLine>(head.route.as_slice(), out)?;
    put_items::<Address, RecordRouteLine>(head.record_route.as_slice(), out)
}

#[tactic(auto, unfolding(sc_grammar::specs::Written::hops_line))]
fn put_hops_line(hops: Option<u8>, out: &mut Vec<u8>) -> Result<(), NoMemory>
    ensures { OnOk result (out.new.items ≡ out.old.items ++ hops_line hops) }
{
    match hops {
        Some(hops) => put_number_line(names::max_forwards_name(), u64::from(hops), out),
        None => Ok(()),
    }
}

#[tactic(auto, unfolding(sc_grammar::specs::Written::dialog_lines))]
fn put_dialog_lines(head: &Head, out: &mut Vec<u8>) -> Result<(), NoMemory>
    ensures { OnOk result (out.new.items ≡ out.old.items ++ dialog_lines head.now) }
{
    put_address_line(names::from_name(), &head.from, out)?;
    put_address_line(names::to_name(), &head.to, out)?;
    put_line(names::call_id_name(), head.call_id.as_bytes(), out)?;
    put_cseq_line(&head.cseq, out)
}

#[tactic(auto, unfolding(sc_grammar::specs::Written::closing_lines))]
fn put_closing_lines(head: &Head, out: &mut Vec<u8>) -> Result<(), NoMemory>
    ensures { OnOk result (out.new.items ≡ out.old.items ++ closing_lines head.now) }
{
    put_items::<Contact, ContactLine>(head.contact.as_slice(), out)?;
    put_items::<Field, FieldLine>(head.others.as_slice(), out)?;
    put_number_line(names::content_length_name(), head.body.len() as u64, out)
}
