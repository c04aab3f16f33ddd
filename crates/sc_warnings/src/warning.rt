//! All warnings of two texts.

use crate::apps::write_apps;
use crate::comments::write_comments;
use crate::settings::write_settings;
use crate::tables::write_table;
use sc_terms::{Config, Dar};
use sc_value::{NoMemory, Text};
use std::alloc::Global;

/// Appends a line `warning: ..` for all that is accepted and can't work: in the configuration, in
/// each of its applications, and in the routing table, whose text is `table`. `kinds` are the names
/// of the kinds of applications, in the order by which the configuration numbers them.
pub fn write_warnings(
    alloc: Global,
    config: &Config,
    dar: &Dar,
    kinds: &[Text],
    table: &[u8],
    out: &mut Text,
) -> Result<(), NoMemory> {
    write_settings(config, out)?;
    write_apps(alloc, config, dar, kinds, out)?;
    write_table(dar, out)?;
    write_comments(table, out)
}
