//! The parameters of a URI (RFC 3261 section 19.1.1).

ghost use Rattle.std.specs.Prelude.{◌≡◌, ◌≤◌, ◌+◌, ◌^◌, ◌++◌, ◌∷◌, [], IfSome, OnOk, length};
ghost use Rattle.std.specs.Option.{option_copied};
ghost use Rattle.sc_tokens.specs.Cuts.{pieces};
ghost use Rattle.sc_tokens.specs.UriTokens.{is_param_value};
ghost use Rattle.sc_syntax.specs.UriParts.{param_at, params_at, params_in};
ghost use Rattle.sc_uri_text.specs.Answers.{IsRead};

use crate::UriRefused;
use crate::classes::{has_param_bytes, is_param_name};
use crate::copies::copy_of;
use sc_ascii::cut;
use sc_value::{List, NoMemory, Param, Text};
use std::alloc::Global;

// None, or the parameters of the text, which stands at this place.
#[tactic(auto, unfolding(sc_syntax::specs::UriParts::params_at))]
pub fn read_params(alloc: Global, text: Option<&[u8]>, at: usize) -> Result<List<Param>, UriRefused>
    requires { IfSome text (λ t. at + length t.now ≤ 2 ^ 63 + 1) }
    ensures { IsRead result (params_at at (option_copied text.entry)) }
{
    match text {
        Some(text) => read_all(alloc, text, at),
        None => Ok(List::new(alloc)),
    }
}

#[tactic(auto, using(crate::proofs::ParamSteps::behind_none, crate::proofs::ParamSteps::params_on, crate::proofs::ParamSteps::params_last, crate::proofs::ParamSteps::params_fault))]
fn read_all(alloc: Global, text: &[u8], at: usize) -> Result<List<Param>, UriRefused>
    requires { at + length text.now ≤ 2 ^ 63 + 1 }
    ensures { IsRead result (params_in at (pieces 59 text.now)) }
{
    let mut params = List::new(alloc);
    let mut rest = text;
    let mut place = at;
    loop {
        let (piece, more) = cut(rest, b';');
        let param = read_param(alloc, piece, place)?;
        put_last(&mut params, param)?;
        match more {
            Some(more) => {
                place += piece.len() + 1;
                rest = more;
            }
            None => return Ok(params),
        }
    }
}

fn put_last(params: &mut List<Param>, param: Param) -> Result<(), NoMemory>
    ensures { OnOk result (params.new ≡ params.old ++ param ∷ []) }
{
    match params.push(param) {
        Ok(()) => Ok(()),
        Err(_) => Err(NoMemory),
    }
}

// `name` or `name=value`, at this place.
#[tactic(auto, unfolding(sc_syntax::specs::UriParts::param_at))]
fn read_param(alloc: Global, text: &[u8], at: usize) -> Result<Param, UriRefused>
    ensures { IsRead result (param_at at text.now) }
{
    let (name, value) = cut(text, b'=');
    if !is_param_name(name) || !is_param_value(value) {
        return Err(UriRefused::Refused { at, kind: 4 });
    }
    let name = Text::from_slice(alloc, name)?;
    let value = copy_of(alloc, value)?;
    Ok(Param { name, value })
}

#[tactic(auto, unfolding(sc_tokens::specs::UriTokens::is_param_value))]
fn is_param_value(value: Option<&[u8]>) -> bool
    ensures { result ≡ is_param_value (option_copied value.entry) }
{
    match value {
        Some(value) => has_param_bytes(value),
        None => true,
    }
}
