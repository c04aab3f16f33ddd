//! The command `trial`.

ghost use Rattle.std.specs.Prelude.{◌≡◌, ◌≤◌, ◌++◌, [], Some, Ok, IfErr, IfOk, OnOk, map, option_map, string_bytes};
ghost use Rattle.sc_edge.specs.Faults.{Rose};
ghost use Rattle.sc_follow.specs.Leading.{IsNew};
ghost use Rattle.sc_follow.specs.Moving.{IsUntaken};
ghost use Rattle.sc_model.specs.Generated.{generated_text};
ghost use Rattle.sc_model.specs.Settings.{IsSetup};
ghost use Rattle.sc_replay.specs.Putting.{IsPut};
ghost use Rattle.sc_replay.specs.Replaying.{TellsConfig, TellsTable, IsUnset, app_names};
ghost use Rattle.sc_replay.specs.Trying.{IsTried, TrialLeaves, Trials, TrialsWords, counted_text, trial_config, trial_line, trial_table, trial_text, tried_count};
ghost use Rattle.sc_script.specs.ScriptTexts.{script_of};
ghost use Rattle.sc_servlets.specs.Stated.{both_charters};

use crate::commanding::counted;
use crate::putting::{ended, not_started, put_whole, run_ended};
use crate::settings::{Settings, settings_of};
use sc_edge::Sink;
use sc_follow::follow;
use sc_make::script;
use sc_script::{ScriptRefused, read_lines};
use sc_servlets::Catalogue;
use sc_switch::{Ran, Status, StepRefused, Switch};
use sc_terms::Line;
use sc_value::{List, NoMemory, Text, write_u64};
use std::alloc::Global;

/// Runs the script of N calls, that of `make N`, through a recorder, a back-to-back user agent and
/// a phone that answers after a second, and puts one line: `trial N steps S sent M live L`, how
/// many steps were taken, messages sent, and application sessions live on. The words are `trial N`,
/// N a decimal from 1 to 1,000 without leading zero.
///
/// The status says how it ended:
///
/// - `Done`: the script was read to its end, and the line was put.
/// - `Usage`: the words have another form.
/// - `Config`: the configuration is refused: the catalogue lacks one of its kinds.
/// - `Dar`: the routing table is refused.
/// - `JournalFull`: a step was due that the journal had no room for. Nothing was put.
/// - `Write`: only where the sink's count of faults rose in this call.
/// - `NoMemory`: want of memory, at any place.
///
/// The journal is there exactly where words and settings were accepted, and it is lawful. At
/// `Write` and `NoMemory` a part from the front of the line was put.
pub fn trial<K: Sink>(alloc: Global, words: &[String], apps: &Catalogue, out: &mut K) -> Ran
    ensures trials { TrialsWords (tried_count (map string_bytes words.now)) apps.now.names
        (map
        (λ k.
        both_charters (stated (k.servlet.vtable, k.servlet.value))
        (option_map (λ l. listens (l.vtable, l.value)) k.listener)) apps.now.kinds)
        (Rose (K.faults out.old) (K.faults out.new)) (K.took out.old) (K.took out.new) result.status
        result.journal }
    ensures epoch { result.epoch ≡ 0 }
    ensures began { result.began ≡ 0 }
{
    match counted(b"trial", words) {
        Some(count) => trial_calls(alloc, count, apps, out),
        None => ended(Status::Usage),
    }
}

/// Runs so many calls, the words being right.
fn trial_calls<K: Sink>(alloc: Global, count: u32, apps: &Catalogue, out: &mut K) -> Ran
    requires least { 1 ≤ count }
    requires most { count ≤ 1000 }
    ensures trials { Trials apps.now.names
        (map
        (λ k.
        both_charters (stated (k.servlet.vtable, k.servlet.value))
        (option_map (λ l. listens (l.vtable, l.value)) k.listener)) apps.now.kinds) count
        (Rose (K.faults out.old) (K.faults out.new)) (K.took out.old) (K.took out.new) result.status
        result.journal }
    ensures epoch { result.epoch ≡ 0 }
    ensures began { result.began ≡ 0 }
{
    match trial_settings(alloc, apps.names()) {
        Ok(settings) => trial_over(alloc, settings, count, apps, out),
        Err(status) => ended(status),
    }
}

/// The settings of a trial.
#[tactic(auto, unfolding(crate::specs::Replaying::IsUnset))]
fn trial_settings(alloc: Global, kinds: &List<Text>) -> Result<Settings, Status>
    ensures config { IfOk result
        (λ settings. TellsConfig kinds.now (Some trial_config) settings.config) }
    ensures table { IfOk result
        (λ settings. TellsTable (app_names settings.config) (Some trial_table) settings.dar) }
    ensures unset { IfErr result
        (λ status. IsUnset kinds.now (Some trial_config) (Some trial_table) ⊥ status) }
{
    match trial_texts(alloc) {
        Ok((config, dar)) => settings_of(alloc, &config, &dar, kinds),
        Err(NoMemory) => Err(Status::NoMemory),
    }
}

/// The configuration and the routing table of a trial.
#[tactic(auto, unfolding(crate::specs::Trying::trial_config, crate::specs::Trying::trial_table))]
fn trial_texts(alloc: Global) -> Result<(Text, Text), NoMemory>
    ensures config { IfOk result (λ texts. texts.0 ≡ trial_config) }
    ensures table { IfOk result (λ texts. texts.1 ≡ trial_table) }
{
    let config = Text::from_slice(
        alloc,
        b"listen = \"127.0.0.1:5060\"\ndomain = \"home.test\"\nsalt = \"s1\"\n\n[[app]]\nname = \"recorder\"\nkind = \"recorder\"\n\n[[app]]\nname = \"b2b\"\nkind = \"b2b\"\n\n[[app]]\nname = \"ringer\"\nkind = \"ringer\"\nparams = [\"1000\"]\n",
    )?;
    let dar = Text::from_slice(
        alloc,
        b"INVITE: (\"recorder\", \"DAR:From\", \"NEUTRAL\", \"\", \"NO_ROUTE\", \"0\"), (\"b2b\", \"DAR:From\", \"NEUTRAL\", \"\", \"NO_ROUTE\", \"1\"), (\"ringer\", \"DAR:From\", \"NEUTRAL\", \"\", \"NO_ROUTE\", \"2\")\n",
    )?;
    Ok((config, dar))
}

/// Runs so many calls with these settings.
fn trial_over<K: Sink>(
    alloc: Global,
    settings: Settings,
    count: u32,
    apps: &Catalogue,
    out: &mut K,
) -> Ran
    requires least { 1 ≤ count }
    requires most { count ≤ 1000 }
    requires right { IsSetup
        (record {
          config = settings.config;
          dar = settings.dar;
          kinds = map
              (λ k.
              both_charters (stated (k.servlet.vtable, k.servlet.value))
              (option_map (λ l. listens (l.vtable, l.value)) k.listener)) apps.now.kinds;
        }) }
    ensures tried { IsTried
        (record {
          config = settings.config;
          dar = settings.dar;
          kinds = map
              (λ k.
              both_charters (stated (k.servlet.vtable, k.servlet.value))
              (option_map (λ l. listens (l.vtable, l.value)) k.listener)) apps.now.kinds;
        }) count (Rose (K.faults out.old) (K.faults out.new)) (K.took out.old) (K.took out.new)
        result }
    ensures epoch { result.epoch ≡ 0 }
    ensures began { result.began ≡ 0 }
{
    let Settings { config, dar } = settings;
    match Switch::new(alloc, config, dar, apps) {
        Ok(switch) => trial_on(alloc, switch, count, apps, out),
        Err(NoMemory) => not_started(alloc),
    }
}

/// Runs so many calls on a switch that took no step.
fn trial_on<K: Sink>(
    alloc: Global,
    mut switch: Switch,
    count: u32,
    apps: &Catalogue,
    out: &mut K,
) -> Ran
    requires least { 1 ≤ count }
    requires most { count ≤ 1000 }
    requires new { IsNew switch }
    requires right { IsSetup switch.setup }
    requires kinds { switch.setup.kinds
        ≡ map
        (λ k.
        both_charters (stated (k.servlet.vtable, k.servlet.value))
        (option_map (λ l. listens (l.vtable, l.value)) k.listener)) apps.now.kinds }
    ensures tried { IsTried switch.setup count (Rose (K.faults out.old) (K.faults out.new))
        (K.took out.old) (K.took out.new) result }
    ensures epoch { result.epoch ≡ 0 }
    ensures began { result.began ≡ 0 }
{
    let status = run_calls(alloc, &mut switch, count, apps, out);
    run_ended(status, switch)
}

/// Makes the script of so many calls and runs it.
fn run_calls<K: Sink>(
    alloc: Global,
    switch: &mut Switch,
    count: u32,
    apps: &Catalogue,
    out: &mut K,
) -> Status
    requires least { 1 ≤ count }
    requires most { count ≤ 1000 }
    requires new { IsNew switch.old }
    requires right { IsSetup switch.old.setup }
    requires kinds { switch.old.setup.kinds
        ≡ map
        (λ k.
        both_charters (stated (k.servlet.vtable, k.servlet.value))
        (option_map (λ l. listens (l.vtable, l.value)) k.listener)) apps.now.kinds }
    ensures setup { switch.new.setup ≡ switch.old.setup }
    ensures epoch { switch.new.epoch ≡ 0 }
    ensures began { switch.new.began ≡ 0 }
    ensures handed { switch.new.handed ≡ [] }
    ensures leaves { TrialLeaves switch.old.setup count (Rose (K.faults out.old) (K.faults out.new))
        (K.took out.old) (K.took out.new) result switch.new.journal }
{
    match made_lines(alloc, count) {
        Ok(lines) => try_lines(alloc, switch, count, lines.as_slice(), apps, out),
        Err(NoMemory) => Status::NoMemory,
    }
}

/// The lines of the script of n calls.
fn made_lines(alloc: Global, n: u32) -> Result<List<Line>, NoMemory>
    requires least { 1 ≤ n }
    requires most { n ≤ 1000 }
    ensures { IfOk result (λ lines. script_of (generated_text n) ≡ Ok lines) }
{
    let mut text = Text::new(alloc);
    script(alloc, n, &mut text)?;
    lines_of_calls(alloc, n, text.as_bytes())
}

/// The lines of this text of n calls, which is never refused.
#[tactic(auto, unfolding(sc_script::specs::Reading::Gives), using(crate::proofs::Tryings::never_refused))]
fn lines_of_calls(alloc: Global, n: u32, text: &[u8]) -> Result<List<Line>, NoMemory>
    requires most { n ≤ 1000 }
    requires text { text.now ≡ generated_text n }
    ensures { IfOk result (λ lines. script_of (generated_text n) ≡ Ok lines) }
{
    match read_lines(alloc, text) {
        Ok(lines) => Ok(lines),
        Err(ScriptRefused::Refused { .. }) => unreachable!(),
        Err(ScriptRefused::NoMemory) => Err(NoMemory),
    }
}

/// Runs the lines of a script of so many calls on a switch that took no step, and puts the line of
/// what came of it.
fn try_lines<K: Sink>(
    alloc: Global,
    switch: &mut Switch,
    count: u32,
    lines: &[Line],
    apps: &Catalogue,
    out: &mut K,
) -> Status
    requires lines { script_of (generated_text count) ≡ Ok lines.now }
    requires new { IsNew switch.old }
    requires right { IsSetup switch.old.setup }
    requires kinds { switch.old.setup.kinds
        ≡ map
        (λ k.
        both_charters (stated (k.servlet.vtable, k.servlet.value))
        (option_map (λ l. listens (l.vtable, l.value)) k.listener)) apps.now.kinds }
    ensures setup { switch.new.setup ≡ switch.old.setup }
    ensures epoch { switch.new.epoch ≡ 0 }
    ensures began { switch.new.began ≡ 0 }
    ensures handed { switch.new.handed ≡ [] }
    ensures leaves { TrialLeaves switch.old.setup count (Rose (K.faults out.old) (K.faults out.new))
        (K.took out.old) (K.took out.new) result switch.new.journal }
{
    match follow(alloc, switch, lines, apps) {
        Ok(()) => put_counts(alloc, count, switch, out),
        Err(StepRefused::JournalFull { .. }) => Status::JournalFull,
        Err(StepRefused::NoMemory) => Status::NoMemory,
    }
}

/// Puts the line of a switch that took the steps of so many calls.
fn put_counts<K: Sink>(alloc: Global, count: u32, switch: &Switch, out: &mut K) -> Status
    requires epoch { switch.now.epoch ≡ 0 }
    requires began { switch.now.began ≡ 0 }
    requires untaken { IsUntaken switch.now }
    ensures { IsPut (Rose (K.faults out.old) (K.faults out.new)) (K.took out.old) (K.took out.new)
        (trial_line switch.now.setup count switch.now.journal) result }
{
    let steps = switch.journal().len();
    let sent = switch.untaken();
    let live = switch.live();
    put_line(alloc, count, steps, sent, live, out)
}

/// Puts the line of these numbers.
#[tactic(auto, unfolding(crate::specs::Putting::IsPut))]
fn put_line<K: Sink>(
    alloc: Global,
    count: u32,
    steps: u64,
    sent: u64,
    live: u64,
    out: &mut K,
) -> Status
    ensures { IsPut (Rose (K.faults out.old) (K.faults out.new)) (K.took out.old) (K.took out.new)
        (trial_text count steps sent live) result }
{
    let mut text = Text::new(alloc);
    match write_line(count, steps, sent, live, &mut text) {
        Ok(()) => put_whole(&text, out),
        Err(NoMemory) => Status::NoMemory,
    }
}

#[tactic(auto, unfolding(crate::specs::Trying::trial_text, crate::specs::Trying::trial_word, crate::specs::Trying::steps_word, crate::specs::Trying::sent_word, crate::specs::Trying::live_word))]
fn write_line(count: u32, steps: u64, sent: u64, live: u64, out: &mut Text) -> Result<(), NoMemory>
    ensures { OnOk result (out.new ≡ out.old ++ trial_text count steps sent live) }
{
    write_counted(b"trial ", u64::from(count), out)?;
    write_counted(b" steps ", steps, out)?;
    write_counted(b" sent ", sent, out)?;
    write_counted(b" live ", live, out)?;
    out.append(b"\n")
}

/// Appends a word and a number.
fn write_counted(word: &[u8], number: u64, out: &mut Text) -> Result<(), NoMemory>
    ensures { OnOk result (out.new ≡ out.old ++ counted_text word.now number) }
{
    out.append(word)?;
    write_u64(number, out)
}
