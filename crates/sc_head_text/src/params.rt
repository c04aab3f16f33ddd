//! Header parameters (RFC 3261 section 25.1).

ghost use Rattle.std.specs.Prelude.{◌≡◌, ◌==◌, Some, true};
ghost use Rattle.std.specs.List.{list_all};
ghost use Rattle.std.specs.Option.{option_copied, option_map_or};
ghost use Rattle.sc_syntax.specs.declared.scan.Scan.TheVariants.{Params};
ghost use Rattle.sc_tokens.specs.HeaderTokens.{is_param_text, is_string, is_value_byte};
ghost use Rattle.sc_tokens.specs.Tokens.{is_one_line};
ghost use Rattle.sc_syntax.specs.Parameters.{param_in, param_of, params_of};
ghost use Rattle.sc_head_text.specs.Answers.{Gives};
ghost use Rattle.sc_head_text.specs.Parts.{parts_behind};

use crate::Unread;
use crate::parts::{Readable, read_parts};
use sc_ascii::{cut, is_token_byte, quoted_end, trim};
use sc_syntax::Scan;
use sc_uri_text::copy_of;
use sc_value::{List, Param, Text, is_token};
use std::alloc::Global;

// The parameters behind a semicolon, where there is one.
pub fn read_params(alloc: Global, rest: Option<&[u8]>) -> Result<List<Param>, Unread>
    requires { list_all is_one_line (parts_behind Params 59 (option_copied rest)) ≡ true }
    ensures { Gives result (params_of (parts_behind Params 59 (option_copied rest.entry))) }
{
    read_parts(alloc, rest, b';', Scan::Params)
}

impl Readable for Param {
    ghost read_of = { param_of };

    #[tactic(auto, unfolding(sc_syntax::specs::Parameters::param_of))]
    fn read(alloc: Global, text: &[u8]) -> Result<Param, Unread> {
        read_param(alloc, trim(text))
    }
}

// `name` or `name=value`.
#[tactic(auto, unfolding(sc_syntax::specs::Parameters::param_in))]
fn read_param(alloc: Global, text: &[u8]) -> Result<Param, Unread>
    ensures { Gives result (param_in text.now) }
{
    let (name, value) = cut(text, b'=');
    if !is_token(name) || !is_value(value) {
        return Err(Unread::Fault);
    }
    let name = Text::from_slice(alloc, name)?;
    let value = copy_of(alloc, value)?;
    Ok(Param { name, value })
}

fn is_value(value: Option<&[u8]>) -> bool
    ensures { result ≡ option_map_or is_param_text (option_copied value.entry) true }
{
    match value {
        Some(value) => is_param_text(value),
        None => true,
    }
}

#[tactic(auto, unfolding(sc_tokens::specs::HeaderTokens::is_param_text))]
fn is_param_text(text: &[u8]) -> bool
    ensures { result ≡ is_param_text text.now }
{
    has_value_bytes(text) || is_string(text)
}

fn has_value_bytes(text: &[u8]) -> bool
    ensures { result ≡ list_all is_value_byte text.now }
{
    text.iter().all(|b| is_value_byte(*b))
}

#[tactic(auto, unfolding(sc_tokens::specs::HeaderTokens::is_value_byte))]
fn is_value_byte(b: u8) -> bool
    ensures { result ≡ is_value_byte b }
{
    is_token_byte(b) || b == b'[' || b == b']' || b == b':'
}

// A quoted string, and no more.
#[tactic(auto, unfolding(sc_tokens::specs::HeaderTokens::is_string))]
fn is_string(text: &[u8]) -> bool
    ensures { result ≡ is_string text.now }
{
    match quoted_end(text, 0) {
        Some(end) => end == text.len(),
        None => false,
    }
}
