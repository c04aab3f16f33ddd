//! The words of the command.

ghost use Rattle.std.specs.Prelude.{◌≡◌, ◌≤◌, ℕ, List, map, string_bytes};
ghost use Rattle.std.specs.Option.{option_map};
ghost use Rattle.sc_serve.specs.Served.{served_names};

use sc_edge::Shelf;
use sc_replay::{read_settings, settled_names};
use sc_servlets::Catalogue;
use sc_terms::Config;
use std::alloc::Global;

/// The names of the configuration and of the routing table, None exactly where the words are not
/// `serve CONFIG DAR`.
pub fn served_names(words: &[String]) -> Option<(&String, &String)>
    ensures { option_map (λ p. (string_bytes p.0.now, string_bytes p.1.now)) result
        ≡ served_names (map string_bytes words.now) }
{
    settled_names(b"serve", words)
}

/// Where a server listens, and how it writes to addresses.
#[derive(Clone, Copy, Debug, PartialEq, Eq)]
pub struct Listening {
    /// The IPv4 address.
    pub ip: [u8; 4],
    /// The port, 1 to 65,535.
    pub port: u16,
    /// Whether what goes to an address is written on the open connection that came from there.
    pub reuse: bool,
}

/// What the settings of `serve CONFIG DAR` say of the outside: None of other words, and where the
/// configuration or the routing table is refused or can't be read. `serve` reads them again, and
/// says why.
pub fn listening_at<F: Shelf>(
    alloc: Global,
    words: &[String],
    shelf: &mut F,
    apps: &Catalogue,
) -> Option<Listening>
    ensures same { (n : List ℕ) → F.holds shelf.new n ≡ F.holds shelf.old n }
    ensures later { F.faults shelf.old ≤ F.faults shelf.new }
{
    match served_names(words) {
        Some((config, dar)) => match read_settings(alloc, config, dar, shelf, apps.names()) {
            Ok(settings) => Some(listening_of(&settings.config)),
            Err(_) => None,
        },
        None => None,
    }
}

fn listening_of(config: &Config) -> Listening {
    let (ip, port) = config.listen;
    Listening {
        ip,
        port: port.get(),
        reuse: config.reuse,
    }
}
