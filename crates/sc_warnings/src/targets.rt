//! The URIs that requests are sent to.

use crate::lines::write_quoted;
use crate::settings::is_known;
use sc_terms::Config;
use sc_uri_text::{UriRefused, read};
use sc_value::{Discard, NoMemory, Text, Uri, same_name};
use std::alloc::Global;
use std::net::Ipv4Addr;

/// Whether a text is a URI, as the servlets read it.
pub fn is_uri(alloc: Global, text: &[u8]) -> Result<bool, NoMemory> {
    match read(alloc, text) {
        Ok(uri) => {
            uri.discard();
            Ok(true)
        }
        Err(UriRefused::Refused { .. }) => Ok(false),
        Err(UriRefused::NoMemory) => Err(NoMemory),
    }
}

/// A URI that nothing can be sent to. A text that is no URI isn't judged here.
pub fn write_target(
    alloc: Global,
    config: &Config,
    name: &[u8],
    text: &[u8],
    out: &mut Text,
) -> Result<(), NoMemory> {
    match read(alloc, text) {
        Ok(uri) => {
            let written = write_unsent(config, name, text, &uri, out);
            uri.discard();
            written
        }
        Err(UriRefused::Refused { .. }) => Ok(()),
        Err(UriRefused::NoMemory) => Err(NoMemory),
    }
}

fn write_unsent(
    config: &Config,
    name: &[u8],
    text: &[u8],
    uri: &Uri,
    out: &mut Text,
) -> Result<(), NoMemory> {
    match uri {
        Uri::Other(_) => write_quoted(
            name,
            text,
            b"is no sip: URI, so nothing can be sent there",
            out,
        ),
        Uri::Sip(uri) if has_address(config, uri.host.as_bytes()) => Ok(()),
        Uri::Sip(_) => write_quoted(
            name,
            text,
            b"has a host that isn't in hosts, so nothing can be sent there",
            out,
        ),
    }
}

/// Whether a host is the container's own, or has an address: an IPv4 literal, `localhost`, or a
/// name of `hosts`.
fn has_address(config: &Config, host: &[u8]) -> bool {
    same_name(host, config.domain.as_bytes())
        || same_name(host, b"localhost")
        || Ipv4Addr::parse_ascii(host).is_ok()
        || is_known(config.hosts.as_slice(), host)
}
