//! The settings of the container.

use crate::lines::{write_line, write_quoted};
use sc_terms::{Config, HostEntry};
use sc_value::{NoMemory, Text, same_name};

/// Appends what there is to say of the settings but for the applications.
pub fn write_settings(config: &Config, out: &mut Text) -> Result<(), NoMemory> {
    write_listen(config.listen.0, out)?;
    write_epochs(config, out)?;
    write_hosts(config.hosts.as_slice(), out)
}

fn write_listen(ip: [u8; 4], out: &mut Text) -> Result<(), NoMemory> {
    if ip != [0, 0, 0, 0] {
        return Ok(());
    }
    write_line(
        b"listen",
        b"0.0.0.0 is no address that a URI names, so requests to this machine's own aren't the container's",
        out,
    )
}

fn write_epochs(config: &Config, out: &mut Text) -> Result<(), NoMemory> {
    if config.journal_parts || config.epoch_steps.get() <= config.journal_steps.get() {
        return Ok(());
    }
    write_line(
        b"epoch_steps",
        b"more than journal_steps, so the journal is full before it is begun anew",
        out,
    )
}

/// Each name that stands twice but for its case: the first one counts.
fn write_hosts(hosts: &[HostEntry], out: &mut Text) -> Result<(), NoMemory> {
    for at in 0..hosts.len() {
        if is_known(&hosts[..at], hosts[at].name.as_bytes()) {
            write_quoted(
                b"hosts",
                hosts[at].name.as_bytes(),
                b"stands twice but for its case, and the first one counts",
                out,
            )?;
        }
    }
    Ok(())
}

/// Whether one of these entries has the name, without case.
pub fn is_known(hosts: &[HostEntry], name: &[u8]) -> bool {
    hosts
        .iter()
        .any(|entry| same_name(entry.name.as_bytes(), name))
}
