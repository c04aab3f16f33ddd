//! Numbers at the front of texts, and decimals as they are written.

ghost use Rattle.std.specs.Prelude.{◌≡◌, ◌≤◌, decimal, length};
ghost use Rattle.std.specs.Char.{is_ascii_digit};
ghost use Rattle.std.specs.List.{prefix_len, take_while};
ghost use Rattle.sc_tokens.specs.Names.{same_bytes};
ghost use Rattle.sc_hosts.specs.HelperParts.{strict_number};
ghost use Rattle.sc_hosts.specs.SessionTimers.{leading_number};

use itoa::Buffer;
use sc_ascii::read_u64;

fn is_decimal(number: u64, text: &[u8]) -> bool
    ensures { result ≡ same_bytes (decimal number) text.now }
{
    let mut buffer = Buffer::new();
    buffer.format(number).as_bytes() == text
}

/// The number of a decimal without leading zeros, None where the text is none of 64 bits.
#[tactic(auto, unfolding(sc_hosts::specs::HelperParts::strict_number))]
pub fn strict_number(text: &[u8]) -> Option<u64>
    ensures { result ≡ strict_number text.now }
{
    let number = read_u64(text)?;
    if is_decimal(number, text) {
        Some(number)
    } else {
        None
    }
}

// How many digits stand at the front.
fn digits_len(text: &[u8]) -> usize
    ensures exact { result ≡ prefix_len is_ascii_digit text.now }
    ensures within { result ≤ length text.now }
{
    for i in 0..text.len() {
        if !text[i].is_ascii_digit() {
            return i;
        }
    }
    text.len()
}

fn leading_digits(text: &[u8]) -> &[u8]
    ensures { result.now ≡ take_while is_ascii_digit text.now }
{
    &text[..digits_len(text)]
}

/// The number of the digits at the front, None where there is none or it doesn't fit 64 bits.
#[tactic(auto, unfolding(sc_hosts::specs::SessionTimers::leading_number))]
pub fn leading_number(text: &[u8]) -> Option<u64>
    ensures { result ≡ leading_number text.now }
{
    read_u64(leading_digits(text))
}
