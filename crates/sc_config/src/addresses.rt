//! The address and the port that the container listens at.

ghost use Rattle.std.specs.Prelude.{◌≡◌};
ghost use Rattle.std.specs.List.{list_all};
ghost use Rattle.std.specs.Char.{is_ascii_digit};
ghost use Rattle.sc_config.specs.KeyValues.{ip_of, port_of, listen_text};

use sc_terms::Port;
use std::net::Ipv4Addr;

/// The IPv4 address that the text writes.
#[tactic(auto)]
pub(crate) fn ip_of(text: &str) -> Option<[u8; 4]>
    ensures { result ≡ ip_of text.now }
{
    match text.parse::<Ipv4Addr>() {
        Ok(ip) => Some(ip.octets()),
        Err(_) => None,
    }
}

/// The port that the text writes, 1 to 65,535 without leading zeros.
#[tactic(auto, unfolding(crate::specs::KeyValues::port_of))]
fn port_of(text: &str) -> Option<Port>
    ensures { result ≡ port_of text.now }
{
    let bytes = text.as_bytes();
    if !are_digits(bytes) || bytes.is_empty() || bytes[0] == b'0' {
        return None;
    }
    match text.parse::<u16>() {
        Ok(port) => Port::new(port),
        Err(_) => None,
    }
}

fn are_digits(bytes: &[u8]) -> bool
    ensures { result ≡ list_all is_ascii_digit bytes.now }
{
    bytes.iter().all(|b| b.is_ascii_digit())
}

#[tactic(auto, unfolding(crate::specs::KeyValues::listen_text), using(crate::proofs::AddressLaws::no_colon))]
/// The address and the port that a text with a colon between them writes.
pub(crate) fn listen_of(text: &str) -> Option<([u8; 4], Port)>
    ensures { result ≡ listen_text text.now }
{
    let (ip, port) = text.split_once(':')?;
    let ip = ip_of(ip)?;
    let port = port_of(port)?;
    Some((ip, port))
}
