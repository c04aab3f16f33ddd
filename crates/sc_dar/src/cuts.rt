//! Texts cut at a sign, and blanks.

ghost use Rattle.std.specs.Prelude.{◌≡◌, ◌≤◌, ◌<◌, IfSome, IsTrue, None, length};
ghost use Rattle.std.specs.Option.{option_copied};
ghost use Rattle.sc_tokens.specs.Cuts.{before, after};
ghost use Rattle.sc_dar.specs.Lines.{drop_blanks, ends, is_blank_text, without_last};
ghost use Rattle.sc_dar.specs.Tuples.{behind};

use sc_ascii::{begins, is_blank, place_or_len};

// What stands before the first such sign, or all, and what stands after it, where there is one.
#[tactic(auto, unfolding(sc_tokens::specs::Cuts::before, sc_tokens::specs::Cuts::after))]
pub fn cut(text: &[u8], sign: u8) -> (&[u8], Option<&[u8]>)
    ensures front { result.0.now ≡ before sign text.now }
    ensures rest { option_copied result.1 ≡ after sign text.now }
    ensures whole { option_copied result.1 ≡ None → result.0.now ≡ text.now }
    ensures less { IfSome result.1 (λ rest. length rest.now < length text.now) }
{
    let place = place_or_len(text, sign);
    if place == text.len() {
        (text, None)
    } else {
        (&text[..place], Some(&text[place + 1..]))
    }
}

#[tactic(auto, unfolding(crate::specs::Lines::ends))]
pub fn ends(text: &[u8], sign: u8) -> bool
    ensures exact { result ≡ ends sign text.now }
    ensures within { IsTrue result → 0 < length text.now }
{
    match text.last() {
        Some(last) => *last == sign,
        None => false,
    }
}

#[tactic(auto, unfolding(crate::specs::Lines::without_last))]
pub fn without_last(text: &[u8]) -> &[u8]
    requires { 0 < length text.now }
    ensures exact { result.now ≡ without_last text.now }
    ensures less { length result.now ≤ length text.now }
{
    &text[..text.len() - 1]
}

// What stands after the blanks at the front.
#[tactic(auto, using(crate::proofs::Blanks::blank_dropped, crate::proofs::Blanks::other_kept, crate::proofs::Blanks::all_dropped))]
pub fn drop_blanks(text: &[u8]) -> &[u8]
    ensures exact { result.now ≡ drop_blanks text.now }
    ensures less { length result.now ≤ length text.now }
{
    for i in 0..text.len() {
        if !is_blank(text[i]) {
            return &text[i..];
        }
    }
    &[]
}

#[tactic(auto, unfolding(crate::specs::Lines::is_blank_text))]
pub fn is_blank_text(text: &[u8]) -> bool
    ensures { result ≡ is_blank_text text.now }
{
    text.iter().all(|b| is_blank(*b))
}

// What stands behind the sign at the front of the text, past blanks.
#[tactic(auto, unfolding(crate::specs::Tuples::behind))]
pub fn behind(text: &[u8], sign: u8) -> Option<&[u8]>
    ensures { option_copied result ≡ behind sign text.now }
{
    let text = drop_blanks(text);
    if begins(text, sign) {
        Some(&text[1..])
    } else {
        None
    }
}
