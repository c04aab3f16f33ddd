//! Which URIs lead to the container, and which it is responsible for.

ghost use Rattle.std.specs.Prelude.{◌≡◌, IfOk};
ghost use Rattle.sc_model.specs.OwnHosts.{is_at, is_of, is_own, is_home};

use sc_names::ip_text;
use sc_terms::Config;
use sc_value::{NoMemory, Uri, same_name};
use std::alloc::Global;

// Whether the URI leads to this host and port.
#[tactic(auto, unfolding(sc_model::specs::OwnHosts::is_at))]
fn is_at(host: &[u8], port: u16, uri: &Uri) -> bool
    ensures { result ≡ is_at host.now port uri.now }
{
    match uri {
        Uri::Sip(uri) => {
            same_name(uri.host.as_bytes(), host) && uri.port.unwrap_or(5060) == port
        }
        Uri::Other(_) => false,
    }
}

// Whether the URI is of this host, whatever the port.
#[tactic(auto, unfolding(sc_model::specs::OwnHosts::is_of))]
fn is_of(host: &[u8], uri: &Uri) -> bool
    ensures { result ≡ is_of host.now uri.now }
{
    match uri {
        Uri::Sip(uri) => same_name(uri.host.as_bytes(), host),
        Uri::Other(_) => true,
    }
}

/// Whether the URI leads to where the container listens: it is a `sip:` URI with its host and its
/// port, where none means 5060.
#[tactic(auto, unfolding(sc_model::specs::OwnHosts::is_own))]
pub fn is_own(alloc: Global, config: &Config, uri: &Uri) -> Result<bool, NoMemory>
    ensures { IfOk result (λ own. own ≡ is_own config.now uri.now) }
{
    let host = ip_text(alloc, config.listen.0)?;
    Ok(is_at(host.as_bytes(), config.listen.1.get(), uri))
}

// Whether the container is responsible for the URI.
#[tactic(auto, unfolding(sc_model::specs::OwnHosts::is_home))]
pub fn is_home(alloc: Global, config: &Config, uri: &Uri) -> Result<bool, NoMemory>
    ensures { IfOk result (λ home. home ≡ is_home config.now uri.now) }
{
    if is_of(config.domain.as_bytes(), uri) {
        return Ok(true);
    }
    is_own(alloc, config, uri)
}
