//! The ends of lines (RFC 3261 section 7).

ghost use Rattle.std.specs.Prelude.{◌≡◌, ◌≤◌, ◌+◌, ◌∷◌, IfSome, IsTrue, length};
ghost use Rattle.std.specs.Option.{option_copied};
ghost use Rattle.sc_tokens.specs.Tokens.{begins_blank};
ghost use Rattle.sc_syntax.specs.declared.ending.Ending.TheVariants.{Empty};
ghost use Rattle.sc_syntax.specs.Lines.{begins_break, behind_start, end_of, is_end, pieces_at, start_line};
ghost use Rattle.sc_message_text.specs.Pieces.{pieces_behind};

use memchr::memchr;
use sc_ascii::begins;
use sc_syntax::Ending;

/// Whether CR LF stands at the front.
#[tactic(auto, unfolding(sc_syntax::specs::Lines::begins_break))]
pub fn begins_break(text: &[u8]) -> bool
    ensures exact { result ≡ begins_break text.now }
    ensures within { IsTrue result → 2 ≤ length text.now }
{
    begins(text, b'\r') && begins(&text[1..], b'\n')
}

#[tactic(auto, unfolding(sc_tokens::specs::Tokens::begins_blank, sc_tokens::specs::Tokens::is_blank))]
fn begins_blank(text: &[u8]) -> bool
    ensures { result ≡ begins_blank text.now }
{
    match text.first() {
        Some(first) => *first == b' ' || *first == b'\t',
        None => false,
    }
}

/// Whether such an end stands at the front.
#[tactic(auto, unfolding(sc_syntax::specs::Lines::is_end))]
pub fn is_end(ending: Ending, text: &[u8]) -> bool
    ensures exact { result ≡ is_end ending text.now }
    ensures within { IsTrue result → 2 ≤ length text.now }
    ensures whole { IsTrue result → ending ≡ Empty → 4 ≤ length text.now }
{
    if !begins_break(text) {
        return false;
    }
    match ending {
        Ending::Any => true,
        Ending::Unfolded => !begins_blank(&text[2..]),
        Ending::Empty => begins_break(&text[2..]),
    }
}

/// The place, in bytes from 0, of the first such end; None exactly where there is none.
pub fn end_of(ending: Ending, text: &[u8]) -> Option<usize>
    ensures exact { result ≡ end_of ending text.now }
    ensures within { IfSome result (λ end. end + 2 ≤ length text.now) }
    ensures whole { ending ≡ Empty → IfSome result (λ end. end + 4 ≤ length text.now) }
{
    let mut place = 0;
    while let Some(found) = memchr(b'\r', &text[place..]) {
        let at = place + found;
        if is_end(ending, &text[at..]) {
            return Some(at);
        }
        place = at + 1;
    }
    None
}

/// The first piece between such ends, and what stands behind its end, where there is one.
#[tactic(auto, unfolding(crate::specs::Pieces::pieces_behind), using(crate::proofs::EndSteps::pieces_last, crate::proofs::EndSteps::pieces_more))]
pub fn split_piece(ending: Ending, text: &[u8]) -> (&[u8], Option<&[u8]>)
    ensures exact { pieces_at ending text.now
        ≡ result.0.now ∷ pieces_behind ending (option_copied result.1) }
    ensures within { length result.0.now ≤ length text.now }
    ensures less { IfSome result.1
        (λ rest. length result.0.now + 2 + length rest.now ≡ length text.now) }
{
    match end_of(ending, text) {
        Some(end) => (&text[..end], Some(&text[end + 2..])),
        None => (text, None),
    }
}

/// The start line of a head, and what stands behind its end, where there is something (RFC 3261
/// section 7).
#[tactic(auto, unfolding(sc_syntax::specs::Lines::start_line, sc_syntax::specs::Lines::behind_start))]
pub fn split_start(head: &[u8]) -> (&[u8], Option<&[u8]>)
    ensures line { result.0.now ≡ start_line head.now }
    ensures rest { option_copied result.1 ≡ behind_start head.now }
    ensures within { length result.0.now ≤ length head.now }
    ensures less { IfSome result.1
        (λ rest. length result.0.now + 2 + length rest.now ≡ length head.now) }
{
    match end_of(Ending::Any, head) {
        Some(end) => (&head[..end], Some(&head[end + 2..])),
        None => (head, None),
    }
}
