//! Blanks round the parts of a text (RFC 3261 section 25.1).

ghost use Rattle.std.specs.Prelude.{◌≡◌, ◌≤◌, ◌-◌, length};
ghost use Rattle.std.specs.List.{prefix_len, suffix_len, position_or_len};
ghost use Rattle.sc_tokens.specs.Tokens.{is_blank};
ghost use Rattle.sc_tokens.specs.Blanks.{trimmed_back, trimmed_front, without_blanks};

use sc_value::is_blank;

/// The text without the blanks at its ends.
#[tactic(auto, unfolding(sc_tokens::specs::Blanks::without_blanks))]
pub fn trim(text: &[u8]) -> &[u8]
    ensures { result.now ≡ without_blanks text.now }
{
    trim_back(trim_front(text))
}

/// The text without the blanks at its front.
#[tactic(auto, unfolding(sc_tokens::specs::Blanks::trimmed_front))]
pub fn trim_front(text: &[u8]) -> &[u8]
    ensures { result.now ≡ trimmed_front text.now }
{
    &text[blanks_len(text)..]
}

// How many blanks stand at the front.
fn blanks_len(text: &[u8]) -> usize
    ensures exact { result ≡ prefix_len is_blank text.now }
    ensures within { result ≤ length text.now }
{
    for i in 0..text.len() {
        if !is_blank(text[i]) {
            return i;
        }
    }
    text.len()
}

/// The text without the blanks at its back.
#[tactic(auto, unfolding(sc_tokens::specs::Blanks::trimmed_back))]
pub fn trim_back(text: &[u8]) -> &[u8]
    ensures { result.now ≡ trimmed_back text.now }
{
    &text[..front_len(text)]
}

/// How many bytes there are up to the last that is no blank.
#[tactic(auto, using(crate::proofs::BlankSteps::back_yes, crate::proofs::BlankSteps::back_no))]
pub fn front_len(text: &[u8]) -> usize
    ensures exact { result ≡ length text.now - suffix_len is_blank text.now }
    ensures within { result ≤ length text.now }
{
    let mut len = text.len();
    while len > 0 && is_blank(text[len - 1]) {
        len -= 1;
    }
    len
}

/// How many bytes stand before the first blank.
pub fn word_len(text: &[u8]) -> usize
    ensures exact { result ≡ position_or_len is_blank text.now }
    ensures within { result ≤ length text.now }
{
    for i in 0..text.len() {
        if is_blank(text[i]) {
            return i;
        }
    }
    text.len()
}
