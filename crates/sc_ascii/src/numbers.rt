//! Numbers of digits alone, leading zeros allowed (RFC 3261 section 25.1).

ghost use Rattle.std.specs.Prelude.{◌≡◌, ◌<◌, ◌^◌, IfSome};
ghost use Rattle.sc_tokens.specs.Numbers.{number_of, port_of};
ghost use Rattle.sc_ascii.specs.Digits.{digit_after, digits_after};

/// The number of the text; None exactly where the text is empty, holds another byte than a digit,
/// or has a number that doesn't fit 64 bits.
#[tactic(auto, using(crate::proofs::DigitSteps::number_of_none, crate::proofs::DigitSteps::number_of_digits))]
pub fn read_u64(b: &[u8]) -> Option<u64>
    ensures { result ≡ number_of b.now }
{
    if b.is_empty() {
        return None;
    }
    digits(b)
}

#[tactic(auto, using(crate::proofs::DigitSteps::loop_taken, crate::proofs::DigitSteps::loop_refused, crate::proofs::DigitSteps::loop_end))]
fn digits(b: &[u8]) -> Option<u64>
    ensures { result ≡ digits_after 0 b.now }
{
    let mut number: u64 = 0;
    for i in 0..b.len() {
        match with_digit(number, b[i]) {
            Some(more) => number = more,
            None => return None,
        }
    }
    Some(number)
}

#[tactic(auto, unfolding(crate::specs::Digits::digit_after, sc_tokens::specs::Numbers::with_digit))]
fn with_digit(number: u64, b: u8) -> Option<u64>
    ensures exact { result ≡ digit_after number b }
    ensures fits { IfSome result (λ n. n < 2 ^ 64) }
{
    if !b.is_ascii_digit() {
        return None;
    }
    number.checked_mul(10)?.checked_add(u64::from(b - b'0'))
}

/// The port of the text; None exactly where the text is empty, holds another byte than a digit, or
/// has a number above 65535.
#[tactic(auto, using(sc_syntax::proofs::NumberLaws::below_none, sc_syntax::proofs::NumberLaws::below_small, sc_syntax::proofs::NumberLaws::below_large))]
pub fn read_port(b: &[u8]) -> Option<u16>
    ensures { result ≡ port_of b.now }
{
    let number = read_u64(b)?;
    if number < 65536 {
        Some(number as u16)
    } else {
        None
    }
}
