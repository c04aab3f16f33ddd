//! Header lines with their folds joined (RFC 3261 section 7.3.1).

ghost use Rattle.std.specs.Prelude.{◌≡◌, IfOk, OnOk};
ghost use Rattle.std.specs.List.{fold};
ghost use Rattle.std.specs.Option.{option_copied};
ghost use Rattle.sc_syntax.specs.declared.ending.Ending.TheVariants.{Any};
ghost use Rattle.sc_tokens.specs.Blanks.{trimmed_back};
ghost use Rattle.sc_syntax.specs.Folds.{text_without_folds, with_piece};
ghost use Rattle.sc_message_text.specs.Pieces.{pieces_behind};

use crate::ends::split_piece;
use sc_ascii::{front_len, trim_front};
use sc_syntax::Ending;
use sc_value::NoMemory;
use std::alloc::Global;

/// The text of a line: each line end in it and all blanks round that are one space (RFC 3261
/// section 7.3.1).
#[tactic(auto, using(crate::proofs::FoldSteps::joined_is))]
pub fn join(alloc: Global, line: &[u8]) -> Result<Vec<u8>, NoMemory>
    ensures { IfOk result (λ text. text.items ≡ text_without_folds line.now) }
{
    let (first, rest) = split_piece(Ending::Any, line);
    let mut text = Vec::from_slice(alloc, first)?;
    continue_all(&mut text, rest)?;
    Ok(text)
}

fn continue_all(text: &mut Vec<u8>, rest: Option<&[u8]>) -> Result<(), NoMemory>
    ensures { OnOk result
        (text.new.items
        ≡ fold with_piece text.old.items (pieces_behind Any (option_copied rest.entry))) }
{
    let mut rest = rest;
    loop {
        let behind = match rest {
            Some(behind) => behind,
            None => return Ok(()),
        };
        let (piece, more) = split_piece(Ending::Any, behind);
        continue_by(text, piece)?;
        rest = more;
    }
}

#[tactic(auto, unfolding(sc_syntax::specs::Folds::with_piece, sc_tokens::specs::Blanks::trimmed_back))]
fn continue_by(text: &mut Vec<u8>, piece: &[u8]) -> Result<(), NoMemory>
    ensures { OnOk result (text.new.items ≡ with_piece text.old.items piece.now) }
{
    let len = front_len(text.as_slice());
    text.truncate(len);
    text.push(b' ')?;
    text.extend_from_slice(trim_front(piece))?;
    Ok(())
}
