//! The numbers of scripts: decimals without leading zero.

ghost use Rattle.std.specs.Prelude.{◌≡◌, ◌≤◌, ◌&&◌, nat_le, if◌then◌else◌, Some, None, IfSome};
ghost use Rattle.sc_script.specs.ScriptTexts.{decimal_upto, is_plain};

use sc_ascii::{begins, read_u64};

/// The number of a decimal without leading zero, at most so great.
#[tactic(auto, using(crate::proofs::Decimals::upto_none, crate::proofs::Decimals::upto_some))]
pub fn decimal_upto(most: u64, text: &[u8]) -> Option<u64>
    ensures exact { result ≡ decimal_upto most text.now }
    ensures within { IfSome result (λ number. number ≤ most) }
{
    match read_u64(text) {
        Some(number) => plain_upto(most, number, text),
        None => None,
    }
}

fn plain_upto(most: u64, number: u64, text: &[u8]) -> Option<u64>
    ensures exact { result
        ≡ (if nat_le number most && is_plain text.now then Some number else None) }
    ensures within { IfSome result (λ number. number ≤ most) }
{
    if number <= most && is_plain(text) {
        return Some(number);
    }
    None
}

// Whether the text is one digit, or doesn't begin with 0.
#[tactic(auto, unfolding(crate::specs::ScriptTexts::is_plain))]
fn is_plain(text: &[u8]) -> bool
    ensures { result ≡ is_plain text.now }
{
    text.len() == 1 || !begins(text, b'0')
}
