//! Texts cut at a sign, or behind a word.

ghost use Rattle.std.specs.Prelude.{◌≡◌, [], ◌∷◌, ◌+◌, false, IfSome, IfNone, length, option_and_then};
ghost use Rattle.std.specs.Option.{option_copied};
ghost use Rattle.sc_tokens.specs.Cuts.{before, after, pieces};
ghost use Rattle.sc_hosts.specs.HelperParts.{session_number, strict_number};
ghost use Rattle.sc_hosts.specs.Offers.{after_word};
ghost use Rattle.sc_helpers.specs.Parts.{is_three, more_pieces};

use crate::numbers::strict_number;
use sc_value::SessId;

/// The first piece of a text between such signs, and what stands behind it, where there is more.
#[tactic(auto, using(crate::proofs::Cuts::cut_at))]
pub fn cut(text: &[u8], sign: u8) -> (&[u8], Option<&[u8]>)
    ensures front { result.0.now ≡ before sign text.now }
    ensures rest { option_copied result.1 ≡ after sign text.now }
    ensures pieces { pieces sign text.now
        ≡ result.0.now ∷ more_pieces sign (option_copied result.1) }
    ensures less { IfSome result.1
        (λ rest. length result.0.now + length rest.now + 1 ≡ length text.now) }
{
    sc_uri_text::cut(text, sign)
}

/// What stands behind this word at the front, None where another text stands there.
#[tactic(auto, unfolding(sc_hosts::specs::Offers::after_word))]
pub fn after_word<'a>(text: &'a [u8], word: &[u8]) -> Option<&'a [u8]>
    ensures { option_copied result ≡ after_word word.now text.now }
{
    if text.starts_with(word) {
        Some(&text[word.len()..])
    } else {
        None
    }
}

/// The number of the decimal behind this word at the front, which ends the text.
pub fn number_after(text: &[u8], word: &[u8]) -> Option<u64>
    ensures { result ≡ option_and_then strict_number (after_word word.now text.now) }
{
    match after_word(text, word) {
        Some(rest) => strict_number(rest),
        None => None,
    }
}

/// The SipSession whose number of 32 bits stands behind this word at the front and ends the text.
#[tactic(auto, unfolding(sc_hosts::specs::HelperParts::session_number))]
pub fn session_after(text: &[u8], word: &[u8]) -> Option<SessId>
    ensures { result ≡ option_and_then session_number (after_word word.now text.now) }
{
    match after_word(text, word) {
        Some(rest) => session_number(rest),
        None => None,
    }
}

#[tactic(auto, unfolding(sc_hosts::specs::HelperParts::session_number))]
fn session_number(text: &[u8]) -> Option<SessId>
    ensures { result ≡ session_number text.now }
{
    let number = strict_number(text)?;
    match u32::try_from(number) {
        Ok(number) => Some(SessId(number)),
        Err(_) => None,
    }
}

/// The pieces between spaces where they are three.
#[tactic(auto, unfolding(crate::specs::Parts::more_pieces), using(crate::proofs::Cuts::four_pieces, crate::proofs::Cuts::one_piece, crate::proofs::Cuts::two_pieces))]
pub fn three_pieces(text: &[u8]) -> Option<(&[u8], &[u8], &[u8])>
    ensures some { IfSome result
        (λ three. pieces 32 text.now ≡ three.0.now ∷ three.1.now ∷ three.2.now ∷ []) }
    ensures none { IfNone result (is_three (pieces 32 text.now) ≡ false) }
{
    let (a, rest) = cut(text, b' ');
    let (b, rest) = cut(rest?, b' ');
    let (c, rest) = cut(rest?, b' ');
    match rest {
        Some(_) => None,
        None => Some((a, b, c)),
    }
}
