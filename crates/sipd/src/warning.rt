//! `check -v`: what `check` writes, and behind it a line for all that is accepted and can't work.

use sc_edge::{Item, MemShelf, Shelf, Shelved, Sink, put_all};
use sc_replay::{Settings, Status, check, read_settings};
use sc_servlets::Catalogue;
use sc_value::{CloneIn, List, NoMemory, Text};
use sc_warnings::write_warnings;
use std::alloc::Global;

/// The most bytes of a configuration, and of a routing table.
const LONGEST: usize = 65_536;

/// Does what `check` does with the words behind `-v`, and where that ends at `Done`, puts the
/// warnings. The words are `check -v CONFIG DAR`. Each text is read once. Where one can't be,
/// `check` says how it ends.
pub fn check_and_warn<F: Shelf, K: Sink>(
    alloc: Global,
    words: &[String],
    shelf: &mut F,
    apps: &Catalogue,
    out: &mut K,
) -> Status {
    let [word, _, config, dar] = words else {
        return Status::Usage;
    };
    match plain_words(alloc, word, config, dar) {
        Ok(plain) => check_texts(alloc, plain.as_slice(), config, dar, shelf, apps, out),
        Err(NoMemory) => Status::NoMemory,
    }
}

/// The words of `check` itself.
fn plain_words(
    alloc: Global,
    word: &String,
    config: &String,
    dar: &String,
) -> Result<Vec<String>, NoMemory> {
    let mut plain = Vec::new(alloc);
    plain.push(copy_of(word)?)?;
    plain.push(copy_of(config)?)?;
    plain.push(copy_of(dar)?)?;
    Ok(plain)
}

fn copy_of(word: &String) -> Result<String, NoMemory> {
    match word.clone() {
        Ok(copy) => Ok(copy),
        Err(_) => Err(NoMemory),
    }
}

fn check_texts<F: Shelf, K: Sink>(
    alloc: Global,
    plain: &[String],
    config: &String,
    dar: &String,
    shelf: &mut F,
    apps: &Catalogue,
    out: &mut K,
) -> Status {
    let settings = text_of(alloc, config, shelf);
    let table = text_of(alloc, dar, shelf);
    match (settings, table) {
        (Some(settings), Some(table)) => {
            check_read(alloc, plain, config, &settings, dar, &table, apps, out)
        }
        _ => check(alloc, plain, shelf, apps, out).status,
    }
}

/// The text of this name, where it can be read.
fn text_of<F: Shelf>(alloc: Global, name: &String, shelf: &mut F) -> Option<Text> {
    let Ok(name) = Text::from_slice(alloc, name.as_bytes()) else {
        return None;
    };
    match shelf.read(&name, LONGEST) {
        Shelved::Got(text) => Some(text),
        _ => None,
    }
}

/// Checks the two texts, which stand on a shelf in memory under their names.
fn check_read<K: Sink>(
    alloc: Global,
    plain: &[String],
    config: &String,
    settings: &Text,
    dar: &String,
    table: &Text,
    apps: &Catalogue,
    out: &mut K,
) -> Status {
    match shelf_of(alloc, config, settings, dar, table) {
        Ok(mut kept) => check_kept(alloc, plain, config, dar, table, &mut kept, apps, out),
        Err(NoMemory) => Status::NoMemory,
    }
}

fn shelf_of(
    alloc: Global,
    config: &String,
    settings: &Text,
    dar: &String,
    table: &Text,
) -> Result<MemShelf, NoMemory> {
    let mut items = List::new(alloc);
    items.push(item(alloc, config, settings)?)?;
    items.push(item(alloc, dar, table)?)?;
    Ok(MemShelf::new(alloc, items, List::new(alloc)))
}

fn item(alloc: Global, name: &String, text: &Text) -> Result<Item, NoMemory> {
    Ok(Item {
        name: Text::from_slice(alloc, name.as_bytes())?,
        bytes: text.clone_in(alloc)?,
    })
}

fn check_kept<K: Sink>(
    alloc: Global,
    plain: &[String],
    config: &String,
    dar: &String,
    table: &Text,
    kept: &mut MemShelf,
    apps: &Catalogue,
    out: &mut K,
) -> Status {
    match check(alloc, plain, kept, apps, out).status {
        Status::Done => warn(alloc, config, dar, table, kept, apps, out),
        status => status,
    }
}

/// Puts the warnings of two texts that `check` accepted.
fn warn<K: Sink>(
    alloc: Global,
    config: &String,
    dar: &String,
    table: &Text,
    kept: &mut MemShelf,
    apps: &Catalogue,
    out: &mut K,
) -> Status {
    match read_settings(alloc, config, dar, kept, apps.names()) {
        Ok(settings) => put_warnings(alloc, &settings, apps.names(), table, out),
        Err(status) => status,
    }
}

fn put_warnings<K: Sink>(
    alloc: Global,
    settings: &Settings,
    kinds: &List<Text>,
    table: &Text,
    out: &mut K,
) -> Status {
    let mut lines = Text::new(alloc);
    match write_warnings(
        alloc,
        &settings.config,
        &settings.dar,
        kinds.as_slice(),
        table.as_bytes(),
        &mut lines,
    ) {
        Ok(()) => put_lines(&lines, out),
        Err(NoMemory) => Status::NoMemory,
    }
}

fn put_lines<K: Sink>(lines: &Text, out: &mut K) -> Status {
    match put_all(out, lines.as_bytes()) {
        Ok(()) => Status::Done,
        Err(_) => Status::Write,
    }
}
