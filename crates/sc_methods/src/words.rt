//! Words of the protocol.

ghost use Rattle.std.specs.Prelude.{◌≡◌, ◌↔◌, IsTrue};
ghost use Rattle.sc_tokens.specs.Names.{same_bytes};

/// Whether a text is this word, in the same letters.
#[tactic(auto, using(crate::proofs::WordLaws::word_is))]
pub fn is_word(text: &[u8], word: &[u8]) -> bool
    ensures { result ≡ same_bytes text.now word.now }
{
    has_bytes(text, word)
}

// Words are short: their bytes are compared one by one, which takes less than the comparison of
// many.
fn has_bytes(text: &[u8], word: &[u8]) -> bool
    ensures { IsTrue result ↔ (text.now ≡ word.now) }
{
    if text.len() != word.len() {
        return false;
    }
    for i in 0..text.len() {
        if text[i] != word[i] {
            return false;
        }
    }
    true
}
