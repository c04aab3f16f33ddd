//! The numbers under which transactions and sessions are found.

ghost use Rattle.std.specs.Prelude.{◌≡◌, decimal};
ghost use Rattle.std.specs.List.{fold};
ghost use Rattle.sc_state.specs.Groups.{with_byte, text_number, via_number, branch_number, serial_number};

use itoa::Buffer;
use sc_stages::{branch_of, top_via};
use sc_value::{AppId, Via};

const SEED: u64 = 14_695_981_039_346_656_037;

fn with_byte(number: u64, byte: u8) -> u64
    ensures { result ≡ with_byte number byte }
{
    number
        .wrapping_mul(1_099_511_628_211)
        .wrapping_add(u64::from(byte))
}

fn with_text(number: u64, text: &[u8]) -> u64
    ensures { result ≡ fold with_byte number text.now }
{
    let mut number = number;
    for byte in text {
        number = with_byte(number, *byte);
    }
    number
}

fn with_decimal(number: u64, n: u64) -> u64
    ensures { result ≡ fold with_byte number (decimal n) }
{
    let mut buffer = Buffer::new();
    with_text(number, buffer.format(n).as_bytes())
}

/// A number of a text: that of the same text is the same.
#[tactic(auto, unfolding(crate::specs::Groups::text_number))]
pub fn text_number(text: &[u8]) -> u64
    ensures { result ≡ text_number text.now }
{
    with_text(SEED, text)
}

/// A number of the branch of the top Via: that of the same branch is the same.
#[tactic(auto, unfolding(crate::specs::Groups::via_number))]
pub fn via_number(via: &[Via]) -> u64
    ensures { result ≡ via_number via.now }
{
    match top_via(via) {
        Some(via) => text_number(branch_of(via)),
        None => 0,
    }
}

/// A number of a branch of a session: that of the text which names it.
#[tactic(auto, using(crate::proofs::NumberLaws::branch_is))]
pub fn branch_number(app: AppId, branch: u64) -> u64
    ensures { result ≡ branch_number app branch }
{
    let host = with_decimal(SEED, u64::from(app.host));
    let serial = with_decimal(with_byte(host, b'-'), app.serial);
    with_decimal(with_byte(serial, b'-'), branch)
}

/// A number of a session: that of its decimal.
#[tactic(auto, unfolding(crate::specs::Groups::serial_number, crate::specs::Groups::text_number))]
pub fn serial_number(serial: u64) -> u64
    ensures { result ≡ serial_number serial }
{
    with_decimal(SEED, serial)
}
