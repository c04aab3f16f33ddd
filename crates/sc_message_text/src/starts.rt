//! Start lines (RFC 3261 sections 7.1 and 7.2).

ghost use Rattle.std.specs.Prelude.{◌≡◌, take};
ghost use Rattle.std.specs.Result.{result_ok};
ghost use Rattle.sc_head_text.specs.Answers.{Gives};
ghost use Rattle.sc_tokens.specs.Numbers.{number_below};
ghost use Rattle.sc_syntax.specs.StartLines.{at_least_100, code_of, is_broken, is_status_line, is_version, request_behind, request_in, request_of, start_of, status_behind, status_in, status_of};
ghost use Rattle.sc_syntax.specs.Uris.{uri_of};
ghost use Rattle.sc_message_text.specs.Answers.{ReadsLine};

use crate::refused::LineRefused;
use sc_ascii::{cut, has, read_u64};
use sc_head_text::Unread;
use sc_syntax::Start;
use sc_value::{Reason, Token, Uri, is_one_line, is_token, same_name};
use std::alloc::Global;

// The start line, or the kind of its fault.
#[tactic(auto, unfolding(sc_syntax::specs::StartLines::start_of))]
pub fn read_start(alloc: Global, line: &[u8]) -> Result<Start, LineRefused>
    ensures { ReadsLine result (start_of line.now) }
{
    if is_broken(line) {
        return Err(LineRefused::Fault(1));
    }
    if is_status_line(line) {
        read_status(alloc, line)
    } else {
        read_request(alloc, line)
    }
}

// Whether CR or LF stands in the line.
#[tactic(auto, unfolding(sc_syntax::specs::StartLines::is_broken))]
fn is_broken(line: &[u8]) -> bool
    ensures { result ≡ is_broken line.now }
{
    has(line, b'\r') || has(line, b'\n')
}

/// Whether the line begins as that of a response, without regard to case (RFC 3261 section 7.2).
#[tactic(auto, unfolding(sc_syntax::specs::StartLines::is_status_line))]
pub fn is_status_line(line: &[u8]) -> bool
    ensures { result ≡ is_status_line line.now }
{
    same_name(first_four(line), b"SIP/")
}

fn first_four(line: &[u8]) -> &[u8]
    ensures { result.now ≡ take 4 line.now }
{
    if line.len() < 4 { line } else { &line[..4] }
}

#[tactic(auto, unfolding(sc_syntax::specs::StartLines::is_version))]
fn is_version(text: &[u8]) -> bool
    ensures { result ≡ is_version text.now }
{
    text == b"SIP/2.0".as_slice()
}

// A request line.
#[tactic(auto, unfolding(sc_syntax::specs::StartLines::request_of))]
fn read_request(alloc: Global, line: &[u8]) -> Result<Start, LineRefused>
    ensures { ReadsLine result (request_of line.now) }
{
    let (method, rest) = cut(line, b' ');
    match rest {
        Some(rest) => read_request_behind(alloc, method, rest),
        None => Err(LineRefused::Fault(1)),
    }
}

// The method, and what stands behind the first space.
#[tactic(auto, unfolding(sc_syntax::specs::StartLines::request_behind))]
fn read_request_behind(alloc: Global, method: &[u8], rest: &[u8]) -> Result<Start, LineRefused>
    ensures { ReadsLine result (request_behind method.now rest.now) }
{
    let (uri, version) = cut(rest, b' ');
    match version {
        Some(version) => read_request_parts(alloc, method, uri, version),
        None => Err(LineRefused::Fault(1)),
    }
}

#[tactic(auto, unfolding(sc_syntax::specs::StartLines::request_in))]
fn read_request_parts(
    alloc: Global,
    method: &[u8],
    uri: &[u8],
    version: &[u8],
) -> Result<Start, LineRefused>
    ensures { ReadsLine result (request_in method.now uri.now version.now) }
{
    if has(version, b' ') {
        return Err(LineRefused::Fault(1));
    }
    if !is_version(version) {
        return Err(LineRefused::Fault(2));
    }
    if !is_token(method) {
        return Err(LineRefused::Fault(3));
    }
    let method = Token::from_slice(alloc, method)?;
    match read_target(alloc, uri) {
        Ok(uri) => Ok(Start::Request { method, uri }),
        Err(Unread::Fault) => Err(LineRefused::Fault(4)),
        Err(Unread::NoMemory) => Err(LineRefused::NoMemory),
    }
}

#[tactic(auto, using(sc_head_text::proofs::ValueSteps::unread_uri))]
fn read_target(alloc: Global, text: &[u8]) -> Result<Uri, Unread>
    ensures { Gives result (result_ok (uri_of text.now)) }
{
    match sc_uri_text::read(alloc, text) {
        Ok(uri) => Ok(uri),
        Err(refused) => Err(Unread::from(refused)),
    }
}

// A status line.
#[tactic(auto, unfolding(sc_syntax::specs::StartLines::status_of))]
fn read_status(alloc: Global, line: &[u8]) -> Result<Start, LineRefused>
    ensures { ReadsLine result (status_of line.now) }
{
    let (version, rest) = cut(line, b' ');
    match rest {
        Some(rest) => read_status_behind(alloc, version, rest),
        None => Err(LineRefused::Fault(1)),
    }
}

// The version, and what stands behind the first space.
#[tactic(auto, unfolding(sc_syntax::specs::StartLines::status_behind))]
fn read_status_behind(alloc: Global, version: &[u8], rest: &[u8]) -> Result<Start, LineRefused>
    ensures { ReadsLine result (status_behind version.now rest.now) }
{
    let (code, reason) = cut(rest, b' ');
    match reason {
        Some(reason) => read_status_parts(alloc, version, code, reason),
        None => Err(LineRefused::Fault(1)),
    }
}

#[tactic(auto, unfolding(sc_syntax::specs::StartLines::status_in))]
fn read_status_parts(
    alloc: Global,
    version: &[u8],
    code: &[u8],
    reason: &[u8],
) -> Result<Start, LineRefused>
    ensures { ReadsLine result (status_in version.now code.now reason.now) }
{
    if !is_one_line(reason) {
        return Err(LineRefused::Fault(1));
    }
    if !is_version(version) {
        return Err(LineRefused::Fault(2));
    }
    match read_code(code) {
        Some(code) => {
            let reason = Reason::from_slice(alloc, reason)?;
            Ok(Start::Status { code, reason })
        }
        None => Err(LineRefused::Fault(5)),
    }
}

// Three digits, 100 to 699.
#[tactic(auto, unfolding(sc_syntax::specs::StartLines::code_of, sc_syntax::specs::StartLines::at_least_100))]
fn read_code(text: &[u8]) -> Option<u16>
    ensures { result ≡ code_of text.now }
{
    if text.len() != 3 {
        return None;
    }
    match read_below_700(text) {
        Some(code) => { if code >= 100 { Some(code) } else { None } }
        None => None,
    }
}

#[tactic(auto, using(sc_syntax::proofs::NumberLaws::below_none, sc_syntax::proofs::NumberLaws::below_small, sc_syntax::proofs::NumberLaws::below_large))]
fn read_below_700(text: &[u8]) -> Option<u16>
    ensures { result ≡ number_below 700 text.now }
{
    let number = read_u64(text)?;
    if number < 700 {
        Some(number as u16)
    } else {
        None
    }
}
