//! The recording that `serve` writes where the settings name a file for it.

use sc_edge::FileShelf;
use sc_limit::{LimitedSink, room_behind};
use sc_recorder::WriteSink;
use sc_replay::read_settings;
use sc_servlets::Catalogue;
use sc_value::{CloneIn, Text};
use std::alloc::Global;
use std::fs::File;
use std::{fs, str};

/// A recording's file, up to the limit on its size.
pub type RecordingFile = LimitedSink<WriteSink<File>>;

/// The name of the file that the settings of `serve CONFIG DAR` ask to record to: None where they
/// ask for none, and where they are refused or can't be read, which `serve` finds again.
pub fn recording_of(
    alloc: Global,
    words: &[String],
    shelf: &mut FileShelf<HostRuntime>,
    apps: &Catalogue,
) -> Option<Text> {
    let [_, config, dar] = words else {
        return None;
    };
    match read_settings(alloc, config, dar, shelf, apps.names()) {
        Ok(settings) => match &settings.config.recording {
            Some(name) => name.clone_in(alloc).ok(),
            None => None,
        },
        Err(_) => None,
    }
}

/// The file of this name, without what it had, up to the limit on its size: None where it can't be
/// written.
pub fn begun(rt: &HostRuntime, name: &Text) -> Option<RecordingFile> {
    let name = str::from_utf8(name.as_bytes()).ok()?;
    let file = fs::create(rt, name).ok()?;
    Some(LimitedSink::new(WriteSink::new(file), room_behind(rt, name)))
}
