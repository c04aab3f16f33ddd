//! The command `replay`.

ghost use Rattle.std.specs.Prelude.{◌≡◌, ◌↔◌, ◌≤◌, [], None, IfSome, is_some, get_or, map, option_map, string_bytes, IsTrue};
ghost use Rattle.sc_servlets.specs.Stated.{both_charters};
ghost use Rattle.sc_edge.specs.Faults.{Rose};
ghost use Rattle.sc_model.specs.Settings.{IsSetup};
ghost use Rattle.sc_replay.specs.Replaying.{IsReplay, ComesIn, Ends, Leaves, told_by};
ghost use Rattle.sc_follow.specs.Leading.{IsNew};
ghost use Rattle.sc_replay.specs.Running.{IsRan};

use crate::putting::{ended, not_started, run_ended};
use crate::reading::{ScriptUnread, read_script};
use crate::running::{RunRefused, drive};
use crate::settings::{Settings, read_settings};
use sc_edge::{Shelf, Sink};
use sc_servlets::Catalogue;
use sc_switch::{Ran, Status, Switch};
use sc_value::NoMemory;
use std::alloc::Global;

/// Runs a script and puts what it sent: a record for each message, `out PLACE N`, the N bytes of
/// the message, and then the line `end STEPS SENT LIVE`. The words are `replay CONFIG DAR SCRIPT`,
/// the names of three texts on the shelf, which are read in this order: the configuration, the
/// routing table for its applications, and the script.
///
/// The status says how it ended:
///
/// - `Done`: the script was read to its end and all was put.
/// - `Usage`: the words have another form.
/// - `Config`: the configuration is refused, with the first fault as `sc_config::read` tells it.
/// - `Dar`: the routing table is refused, with the first fault as `sc_dar::read` tells it.
/// - `JournalFull`: a step was due that the journal had no room for. The records are put without
///   the last line.
/// - `Script`: the script is refused, with the first fault as `sc_script::read_lines` tells it.
/// - `Read`, `Write`: only where the shelf's, the sink's count of faults rose in this call.
/// - `NoMemory`: want of memory, at any place.
///
/// The journal is there exactly where words and settings were accepted, and it is lawful.
pub fn replay<F: Shelf, K: Sink>(
    alloc: Global,
    words: &[String],
    shelf: &mut F,
    apps: &Catalogue,
    out: &mut K,
) -> Ran
    ensures usage { result.status ≡ Status.Usage ↔ (IsReplay (map string_bytes words.now) → ⊥) }
    ensures wrong { result.status ≡ Status.Usage
        → (result.journal ≡ None) × (K.took out.new ≡ K.took out.old) }
    ensures ends { IsReplay (map string_bytes words.now)
        → Ends apps.now.names
        (map
        (λ k.
        both_charters (stated (k.servlet.vtable, k.servlet.value))
        (option_map (λ l. listens (l.vtable, l.value)) k.listener)) apps.now.kinds)
        (told_by (λ name. F.holds shelf.old name) (map string_bytes words.now))
        (Rose (F.faults shelf.old) (F.faults shelf.new))
        (Rose (K.faults out.old) (K.faults out.new)) (K.took out.old) (K.took out.new)
        result.status result.journal }
    ensures epoch { result.epoch ≡ 0 }
    ensures began { result.began ≡ 0 }
{
    match texts_of(words) {
        Some((config, dar, script)) => {
            replay_texts(alloc, config, dar, script, shelf, apps, out)
        }
        None => ended(Status::Usage),
    }
}

/// The names of the three texts, None exactly where the words are not `replay CONFIG DAR SCRIPT`.
fn texts_of(words: &[String]) -> Option<(&String, &String, &String)>
    ensures replay { IsTrue (is_some result) ↔ IsReplay (map string_bytes words.now) }
    ensures config { IfSome result
        (λ names. string_bytes names.0.now ≡ get_or (map string_bytes words.now) 1 []) }
    ensures dar { IfSome result
        (λ names. string_bytes names.1.now ≡ get_or (map string_bytes words.now) 2 []) }
    ensures script { IfSome result
        (λ names. string_bytes names.2.now ≡ get_or (map string_bytes words.now) 3 []) }
{
    let [word, config, dar, script] = words else {
        return None;
    };
    if is_word(word, b"replay") {
        Some((config, dar, script))
    } else {
        None
    }
}

/// Runs the script of this name with the settings of these names, the words being right.
fn replay_texts<F: Shelf, K: Sink>(
    alloc: Global,
    config: &String,
    dar: &String,
    script: &String,
    shelf: &mut F,
    apps: &Catalogue,
    out: &mut K,
) -> Ran
    ensures ends { Ends apps.now.names
        (map
        (λ k.
        both_charters (stated (k.servlet.vtable, k.servlet.value))
        (option_map (λ l. listens (l.vtable, l.value)) k.listener)) apps.now.kinds)
        (record {
          config = F.holds shelf.old (string_bytes config.now);
          dar = F.holds shelf.old (string_bytes dar.now);
          script = F.holds shelf.old (string_bytes script.now);
        }) (Rose (F.faults shelf.old) (F.faults shelf.new))
        (Rose (K.faults out.old) (K.faults out.new)) (K.took out.old) (K.took out.new) result.status
        result.journal }
    ensures epoch { result.epoch ≡ 0 }
    ensures began { result.began ≡ 0 }
{
    match read_settings(alloc, config, dar, shelf, apps.names()) {
        Ok(settings) => replay_over(alloc, settings, script, shelf, apps, out),
        Err(status) => ended(status),
    }
}

/// Runs the script of this name with these settings.
fn replay_over<F: Shelf, K: Sink>(
    alloc: Global,
    settings: Settings,
    name: &String,
    shelf: &mut F,
    apps: &Catalogue,
    out: &mut K,
) -> Ran
    requires { IsSetup
        (record {
          config = settings.config;
          dar = settings.dar;
          kinds = map
              (λ k.
              both_charters (stated (k.servlet.vtable, k.servlet.value))
              (option_map (λ l. listens (l.vtable, l.value)) k.listener)) apps.now.kinds;
        }) }
    ensures ran { IsRan
        (record {
          config = settings.config;
          dar = settings.dar;
          kinds = map
              (λ k.
              both_charters (stated (k.servlet.vtable, k.servlet.value))
              (option_map (λ l. listens (l.vtable, l.value)) k.listener)) apps.now.kinds;
        }) (F.holds shelf.old (string_bytes name.now))
        (Rose (F.faults shelf.old) (F.faults shelf.new))
        (Rose (K.faults out.old) (K.faults out.new)) (K.took out.old) (K.took out.new) result }
    ensures later { F.faults shelf.old ≤ F.faults shelf.new }
    ensures epoch { result.epoch ≡ 0 }
    ensures began { result.began ≡ 0 }
{
    let Settings { config, dar } = settings;
    match Switch::new(alloc, config, dar, apps) {
        Ok(switch) => replay_on(alloc, switch, name, shelf, apps, out),
        Err(NoMemory) => not_started(alloc),
    }
}

/// Runs the script of this name on a switch that took no step.
fn replay_on<F: Shelf, K: Sink>(
    alloc: Global,
    mut switch: Switch,
    name: &String,
    shelf: &mut F,
    apps: &Catalogue,
    out: &mut K,
) -> Ran
    requires new { IsNew switch }
    requires right { IsSetup switch.setup }
    requires kinds { switch.setup.kinds
        ≡ map
        (λ k.
        both_charters (stated (k.servlet.vtable, k.servlet.value))
        (option_map (λ l. listens (l.vtable, l.value)) k.listener)) apps.now.kinds }
    ensures later { F.faults shelf.old ≤ F.faults shelf.new }
    ensures ran { IsRan switch.setup (F.holds shelf.old (string_bytes name.now))
        (Rose (F.faults shelf.old) (F.faults shelf.new))
        (Rose (K.faults out.old) (K.faults out.new)) (K.took out.old) (K.took out.new) result }
    ensures epoch { result.epoch ≡ 0 }
    ensures began { result.began ≡ 0 }
{
    let status = run_script(alloc, &mut switch, name, shelf, apps, out);
    run_ended(status, switch)
}

/// Reads the script of this name and runs it.
#[tactic(auto, unfolding(crate::specs::Replaying::Leaves, crate::specs::Replaying::LeavesNothing, crate::specs::Replaying::ComesIn, crate::specs::Running::IsUnread))]
fn run_script<F: Shelf, K: Sink>(
    alloc: Global,
    switch: &mut Switch,
    name: &String,
    shelf: &mut F,
    apps: &Catalogue,
    out: &mut K,
) -> Status
    requires new { IsNew switch.old }
    requires right { IsSetup switch.old.setup }
    requires kinds { switch.old.setup.kinds
        ≡ map
        (λ k.
        both_charters (stated (k.servlet.vtable, k.servlet.value))
        (option_map (λ l. listens (l.vtable, l.value)) k.listener)) apps.now.kinds }
    ensures setup { switch.new.setup ≡ switch.old.setup }
    ensures epoch { switch.new.epoch ≡ 0 }
    ensures began { switch.new.began ≡ 0 }
    ensures handed { switch.new.handed ≡ [] }
    ensures later { F.faults shelf.old ≤ F.faults shelf.new }
    ensures comes { ComesIn switch.old.setup (F.holds shelf.old (string_bytes name.now))
        (Rose (F.faults shelf.old) (F.faults shelf.new))
        (Rose (K.faults out.old) (K.faults out.new)) result }
    ensures leaves { Leaves switch.old.setup (F.holds shelf.old (string_bytes name.now))
        (Rose (K.faults out.old) (K.faults out.new)) (K.took out.old) (K.took out.new) result
        switch.new.journal }
{
    match read_script(alloc, name, shelf) {
        Ok(lines) => match drive(alloc, switch, lines.as_slice(), apps, out) {
            Ok(()) => Status::Done,
            Err(RunRefused::JournalFull) => Status::JournalFull,
            Err(RunRefused::NoMemory) => Status::NoMemory,
            Err(RunRefused::Write) => Status::Write,
        },
        Err(ScriptUnread::Failed) => Status::Read,
        Err(ScriptUnread::Refused { at, kind }) => Status::Script { at, kind },
        Err(ScriptUnread::NoMemory) => Status::NoMemory,
    }
}

/// Whether a word has these bytes.
fn is_word(word: &String, expected: &[u8]) -> bool
    ensures { IsTrue result ↔ (string_bytes word.now ≡ expected.now) }
{
    word.as_bytes() == expected
}
