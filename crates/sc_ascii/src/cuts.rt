//! Texts cut at a sign.

ghost use Rattle.std.specs.Prelude.{◌≡◌, ◌≤◌, ◌<◌, ◌==◌, ◌+◌, IfSome, IsTrue, length};
ghost use Rattle.std.specs.List.{position_or_len};
ghost use Rattle.std.specs.Option.{option_copied};
ghost use Rattle.sc_tokens.specs.Cuts.{before, after, has};
ghost use Rattle.sc_tokens.specs.Hosts.{begins};

/// The first place of the sign, or the length.
pub fn place_or_len(text: &[u8], sign: u8) -> usize
    ensures exact { result ≡ position_or_len (λ b. b == sign) text.now }
    ensures within { result ≤ length text.now }
{
    for i in 0..text.len() {
        if text[i] == sign {
            return i;
        }
    }
    text.len()
}

/// What stands before the first such sign, or all, and what stands after it, where there is one.
#[tactic(auto, unfolding(sc_tokens::specs::Cuts::before, sc_tokens::specs::Cuts::after))]
pub fn cut(text: &[u8], sign: u8) -> (&[u8], Option<&[u8]>)
    ensures front { result.0.now ≡ before sign text.now }
    ensures rest { option_copied result.1 ≡ after sign text.now }
    ensures within { length result.0.now ≤ length text.now }
    ensures less { IfSome result.1
        (λ rest. length result.0.now + length rest.now + 1 ≡ length text.now) }
{
    let place = place_or_len(text, sign);
    if place == text.len() {
        (text, None)
    } else {
        (&text[..place], Some(&text[place + 1..]))
    }
}

/// Whether the sign stands in the text.
#[tactic(auto, unfolding(sc_tokens::specs::Cuts::has))]
pub fn has(text: &[u8], sign: u8) -> bool
    ensures { result ≡ has sign text.now }
{
    text.contains(&sign)
}

/// Whether the text begins with this byte.
#[tactic(auto, unfolding(sc_tokens::specs::Hosts::begins))]
pub fn begins(text: &[u8], sign: u8) -> bool
    ensures exact { result ≡ begins sign text.now }
    ensures within { IsTrue result → 0 < length text.now }
{
    match text.first() {
        Some(first) => *first == sign,
        None => false,
    }
}
