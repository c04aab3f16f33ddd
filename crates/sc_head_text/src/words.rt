//! The first word of a text.

ghost use Rattle.std.specs.Prelude.{◌≡◌};
ghost use Rattle.sc_tokens.specs.Blanks.{behind_word, first_word};

use sc_ascii::{trim, word_len};

// The first word, and what stands behind it without blanks.
#[tactic(auto, unfolding(sc_tokens::specs::Blanks::first_word, sc_tokens::specs::Blanks::behind_word))]
pub fn split_word(text: &[u8]) -> (&[u8], &[u8])
    ensures first { result.0.now ≡ first_word text.now }
    ensures behind { result.1.now ≡ behind_word text.now }
{
    let (word, rest) = text.split_at(word_len(text));
    (word, trim(rest))
}
