//! The words of a text, between blanks.

ghost use Rattle.std.specs.Prelude.{◌≡◌, [], ◌∷◌, false, IfSome, IfNone, drop, take};
ghost use Rattle.std.specs.List.{position_or_len};
ghost use Rattle.sc_tokens.specs.Tokens.{is_blank};
ghost use Rattle.sc_hosts.specs.HelperParts.{words_of};
ghost use Rattle.sc_helpers.specs.Parts.{is_three};

use sc_ascii::{trim_front, word_len};

fn split_word(text: &[u8]) -> (&[u8], &[u8])
    ensures word { result.0.now ≡ take (position_or_len is_blank text.now) text.now }
    ensures rest { result.1.now ≡ drop (position_or_len is_blank text.now) text.now }
{
    let len = word_len(text);
    (&text[..len], &text[len..])
}

/// The first word of a text, and what stands behind it; None where there are only blanks.
#[tactic(auto, using(crate::proofs::WordLaws::no_word, crate::proofs::WordLaws::a_word))]
pub fn next_word(text: &[u8]) -> Option<(&[u8], &[u8])>
    ensures word { IfSome result (λ cut. words_of text.now ≡ cut.0.now ∷ words_of cut.1.now) }
    ensures none { IfNone result (words_of text.now ≡ []) }
{
    let rest = trim_front(text);
    if rest.is_empty() {
        return None;
    }
    Some(split_word(rest))
}

/// The words of a text where they are three.
#[tactic(auto, unfolding(sc_helpers::specs::Parts::is_three))]
pub fn three_words(text: &[u8]) -> Option<(&[u8], &[u8], &[u8])>
    ensures some { IfSome result
        (λ three. words_of text.now ≡ three.0.now ∷ three.1.now ∷ three.2.now ∷ []) }
    ensures none { IfNone result (is_three (words_of text.now) ≡ false) }
{
    let (a, rest) = next_word(text)?;
    let (b, rest) = next_word(rest)?;
    let (c, rest) = next_word(rest)?;
    match next_word(rest) {
        Some(_) => None,
        None => Some((a, b, c)),
    }
}
