//! The command `trace`.

ghost use Rattle.std.specs.Prelude.{map, option_map};
ghost use Rattle.sc_servlets.specs.Stated.{both_charters};
ghost use Rattle.sc_model.specs.Settings.{IsSetup};

use crate::lines::follow;
use crate::putting::{Unput, closing_of, put_story, status_of};
use crate::reading::read_script;
use crate::recorded::follow_rows;
use sc_edge::{Shelf, Sink};
use sc_ladder::{Form, Story};
use sc_play::{Player, Unread, early_turns, read_recording};
use sc_replay::{Settings, Status, read_settings};
use sc_servlets::Catalogue;
use sc_switch::{StepRefused, Switch};
use sc_terms::{AppEntry, Line};
use sc_value::{CloneIn, Discard, List, NoMemory, Text};
use std::alloc::Global;

/// Runs a script as `replay` does, or a recording as `play` does, and puts what happened as a
/// ladder diagram in place of the records. The words are `trace CONFIG DAR SCRIPT`, or `trace
/// --recording CONFIG DAR RECORDING`; with `--svg` behind `trace` the picture is a drawing. The
/// status is that of `replay`, or of `play`, for the last three words: the same order of reading,
/// the same refusals. Where the run ends before its last step, at `JournalFull` and where a
/// recording is left (`Script` with kind 8), the picture is put without the last lines. Of the
/// moments of a recording those are told at which something was due.
pub fn trace<F: Shelf, K: Sink>(
    alloc: Global,
    words: &[String],
    shelf: &mut F,
    apps: &Catalogue,
    out: &mut K,
) -> Status {
    let Some((wanted, config, dar, run)) = wanted_of(words) else {
        return Status::Usage;
    };
    trace_texts(alloc, wanted, config, dar, run, shelf, apps, out)
}

/// What is drawn, and how.
#[derive(Clone, Copy)]
struct Wanted {
    form: Form,
    /// Whether it is a recording, and no script.
    is_recording: bool,
}

/// What the words ask for, and the names of the three texts; none where they have another form.
fn wanted_of(words: &[String]) -> Option<(Wanted, &String, &String, &String)> {
    match words {
        [_, config, dar, run] => Some((drawn_as(Form::Text, false), config, dar, run)),
        [_, flag, config, dar, run] if flag.as_str() == SVG => {
            Some((drawn_as(Form::Svg, false), config, dar, run))
        }
        [_, flag, config, dar, run] if flag.as_str() == RECORDING => {
            Some((drawn_as(Form::Text, true), config, dar, run))
        }
        [_, first, second, config, dar, run] if are_both(first, second) => {
            Some((drawn_as(Form::Svg, true), config, dar, run))
        }
        _ => None,
    }
}

/// Asks for a drawing.
const SVG: &str = "--svg";

/// Says that the run is a recording.
const RECORDING: &str = "--recording";

/// This form, of a recording or a script.
fn drawn_as(form: Form, is_recording: bool) -> Wanted {
    Wanted { form, is_recording }
}

/// Whether both flags stand there.
fn are_both(first: &String, second: &String) -> bool {
    first.as_str() == SVG && second.as_str() == RECORDING
        || first.as_str() == RECORDING && second.as_str() == SVG
}

fn trace_texts<F: Shelf, K: Sink>(
    alloc: Global,
    wanted: Wanted,
    config: &String,
    dar: &String,
    run: &String,
    shelf: &mut F,
    apps: &Catalogue,
    out: &mut K,
) -> Status {
    match read_settings(alloc, config, dar, shelf, apps.names()) {
        Ok(settings) => trace_over(alloc, wanted, settings, run, shelf, apps, out),
        Err(status) => status,
    }
}

/// Runs the text of this name with these settings.
fn trace_over<F: Shelf, K: Sink>(
    alloc: Global,
    wanted: Wanted,
    settings: Settings,
    run: &String,
    shelf: &mut F,
    apps: &Catalogue,
    out: &mut K,
) -> Status
    requires { IsSetup
        (record {
          config = settings.config;
          dar = settings.dar;
          kinds = map
              (λ k.
              both_charters (stated (k.servlet.vtable, k.servlet.value))
              (option_map (λ l. listens (l.vtable, l.value)) k.listener)) apps.now.kinds;
        }) }
{
    let names = names_of(alloc, settings.config.app.as_slice());
    let Settings { config, dar } = settings;
    match Switch::new(alloc, config, dar, apps) {
        Ok(switch) => trace_named(alloc, wanted, switch, names, run, shelf, apps, out),
        Err(NoMemory) => {
            let _ = names;
            Status::NoMemory
        }
    }
}

/// The names of the applications, by their hosts.
fn names_of(alloc: Global, apps: &[AppEntry]) -> Result<List<Text>, NoMemory> {
    let mut names = List::new(alloc);
    for app in apps {
        names.push(app.name.clone_in(alloc)?)?;
    }
    Ok(names)
}

fn trace_named<F: Shelf, K: Sink>(
    alloc: Global,
    wanted: Wanted,
    switch: Switch,
    names: Result<List<Text>, NoMemory>,
    run: &String,
    shelf: &mut F,
    apps: &Catalogue,
    out: &mut K,
) -> Status {
    match names {
        Ok(names) => trace_told(alloc, wanted, switch, names, run, shelf, apps, out),
        Err(NoMemory) => {
            drop(switch);
            Status::NoMemory
        }
    }
}

/// Runs the text of this name on a switch that took no step.
fn trace_told<F: Shelf, K: Sink>(
    alloc: Global,
    wanted: Wanted,
    switch: Switch,
    names: List<Text>,
    run: &String,
    shelf: &mut F,
    apps: &Catalogue,
    out: &mut K,
) -> Status {
    let mut story = Story {
        names,
        rows: List::new(alloc),
        sent: 0,
    };
    if wanted.is_recording {
        trace_recording(
            alloc,
            wanted.form,
            switch,
            run,
            &mut story,
            shelf,
            apps,
            out,
        )
    } else {
        trace_script(
            alloc,
            wanted.form,
            switch,
            run,
            &mut story,
            shelf,
            apps,
            out,
        )
    }
}

/// Runs the script of this name.
fn trace_script<F: Shelf, K: Sink>(
    alloc: Global,
    form: Form,
    mut switch: Switch,
    run: &String,
    story: &mut Story,
    shelf: &mut F,
    apps: &Catalogue,
    out: &mut K,
) -> Status {
    let status = trace_text(alloc, form, &mut switch, run, story, shelf, apps, out);
    drop(switch);
    status
}

fn trace_text<F: Shelf, K: Sink>(
    alloc: Global,
    form: Form,
    switch: &mut Switch,
    run: &String,
    story: &mut Story,
    shelf: &mut F,
    apps: &Catalogue,
    out: &mut K,
) -> Status {
    match read_script(alloc, run, shelf) {
        Ok(lines) => trace_lines(alloc, form, switch, lines.as_slice(), story, apps, out),
        Err(status) => status,
    }
}

fn trace_lines<K: Sink>(
    alloc: Global,
    form: Form,
    switch: &mut Switch,
    lines: &[Line],
    story: &mut Story,
    apps: &Catalogue,
    out: &mut K,
) -> Status {
    match follow(alloc, apps, lines, switch, story) {
        Ok(()) => put_whole(alloc, form, switch.journal().len(), switch, story, out),
        Err(StepRefused::JournalFull { .. }) => {
            put_cut(alloc, form, Status::JournalFull, story, out)
        }
        Err(StepRefused::NoMemory) => Status::NoMemory,
    }
}

/// Plays the recording of this name.
fn trace_recording<F: Shelf, K: Sink>(
    alloc: Global,
    form: Form,
    switch: Switch,
    run: &String,
    story: &mut Story,
    shelf: &mut F,
    apps: &Catalogue,
    out: &mut K,
) -> Status {
    match read_recording(alloc, run, shelf) {
        Ok(text) => trace_rows(alloc, form, switch, text.as_bytes(), story, apps, out),
        Err(status) => {
            drop(switch);
            status
        }
    }
}

fn trace_rows<K: Sink>(
    alloc: Global,
    form: Form,
    switch: Switch,
    text: &[u8],
    story: &mut Story,
    apps: &Catalogue,
    out: &mut K,
) -> Status {
    match early_turns(alloc, text) {
        Ok(early) => {
            let mut player = Player::new(alloc, switch, early);
            let status = trace_played(alloc, form, &mut player, text, story, apps, out);
            player.discard();
            status
        }
        Err(Unread::Refused { at, kind }) => {
            drop(switch);
            Status::Script { at, kind }
        }
        Err(Unread::NoMemory) => {
            drop(switch);
            Status::NoMemory
        }
    }
}

fn trace_played<K: Sink>(
    alloc: Global,
    form: Form,
    player: &mut Player,
    text: &[u8],
    story: &mut Story,
    apps: &Catalogue,
    out: &mut K,
) -> Status {
    match follow_rows(alloc, apps, text, player, story) {
        Ok(steps) => put_whole(alloc, form, steps, &player.switch, story, out),
        Err(Status::NoMemory) => Status::NoMemory,
        Err(cause) => put_cut(alloc, form, cause, story, out),
    }
}

/// Puts the picture of a run of so many steps.
fn put_whole<K: Sink>(
    alloc: Global,
    form: Form,
    steps: u64,
    switch: &Switch,
    story: &Story,
    out: &mut K,
) -> Status {
    match closing_of(alloc, steps, switch, story) {
        Ok(closing) => put_closed(alloc, form, story, &closing, out),
        Err(NoMemory) => Status::NoMemory,
    }
}

fn put_closed<K: Sink>(
    alloc: Global,
    form: Form,
    story: &Story,
    closing: &Text,
    out: &mut K,
) -> Status {
    match put_story(alloc, form, story, closing, out) {
        Ok(()) => Status::Done,
        Err(cause) => status_of(cause),
    }
}

/// Puts the picture of a run that ended before its last step, for this cause.
fn put_cut<K: Sink>(
    alloc: Global,
    form: Form,
    cause: Status,
    story: &Story,
    out: &mut K,
) -> Status {
    match put_story(alloc, form, story, &Text::new(alloc), out) {
        Err(Unput::NoMemory) => Status::NoMemory,
        _ => cause,
    }
}
