//! A text cut at a blank.

ghost use Rattle.std.specs.Prelude.{◌≡◌, ◌≤◌, ◌==◌, length};
ghost use Rattle.std.specs.List.{position_or_len};
ghost use Rattle.std.specs.Option.{option_copied};
ghost use Rattle.sc_tokens.specs.Cuts.{before, after};

/// What stands before the first blank, or all, and what stands after it, where there is one.
#[tactic(auto, unfolding(sc_tokens::specs::Cuts::before, sc_tokens::specs::Cuts::after))]
pub fn cut(text: &[u8]) -> (&[u8], Option<&[u8]>)
    ensures front { result.0.now ≡ before 32 text.now }
    ensures rest { option_copied result.1 ≡ after 32 text.now }
{
    let place = blank_or_len(text);
    if place == text.len() {
        (text, None)
    } else {
        (&text[..place], Some(&text[place + 1..]))
    }
}

/// The place of the first blank, or the length.
fn blank_or_len(text: &[u8]) -> usize
    ensures exact { result ≡ position_or_len (λ b. b == 32) text.now }
    ensures within { result ≤ length text.now }
{
    for i in 0..text.len() {
        if text[i] == b' ' {
            return i;
        }
    }
    text.len()
}
