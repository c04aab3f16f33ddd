//! The command itself.

ghost use Rattle.std.specs.Prelude.{◌≡◌, ◌≤◌, [], map, option_map, string_bytes, get_or, IfErr, IfOk, IfSome};
ghost use Rattle.sc_edge.specs.Shelving.{GivesAll};
ghost use Rattle.sc_servlets.specs.Stated.{both_charters};
ghost use Rattle.sc_model.specs.Settings.{IsSetup};
ghost use Rattle.sc_replay.specs.Replaying.{told_by};
ghost use Rattle.sc_play.specs.Played.{IsRecorded, PlaysBack};

use crate::rows::LONG;
use crate::running::run;
use sc_edge::{Shelf, Shelved, Sink};
use sc_replay::{Settings, Status, read_settings};
use sc_servlets::Catalogue;
use sc_switch::Switch;
use sc_value::{NoMemory, Text};
use std::alloc::Global;

/// The most bytes of a recording.
const LONGEST: usize = 1_073_741_824;

/// Takes the steps of a recording again, and puts what they send: a record for each message, `out
/// PLACE N`, the N bytes of the message, and then the line `end STEPS SENT LIVE`. The words are
/// `play CONFIG DAR RECORDING`, the names of three texts on the shelf, which are read in this
/// order.
///
/// Each step that is taken is told again, and has to have just the bytes that stand in the
/// recording; the servlets are called anew. So what is put is what these settings make of the
/// recorded messages and moments: at `Done` the records of all that the recorded run sends, epoch
/// by epoch, and the line with its counts, each of 64 bits at most.
///
/// The status says how it ended:
///
/// - `Done`: the recording was played to its end and all was put.
/// - `Usage`: the words have another form.
/// - `Config`, `Dar`: the settings are refused.
/// - `Script`: the recording is refused at the row that begins at this byte: kinds 1 to 5 and 7 as
///   of a script, before anything is put; 8 where another step is made than the one that stands
///   there, or none, and then what the rows before it send is put.
/// - `JournalFull`: a step has more bytes than the journal takes.
/// - `Read`, `Write`: a text couldn't be read, or the output not written.
/// - `NoMemory`: want of memory, at any place.
pub fn play<F: Shelf, K: Sink>(
    alloc: Global,
    words: &[String],
    shelf: &mut F,
    apps: &Catalogue,
    out: &mut K,
) -> Status
    ensures done { result ≡ Status.Done
        → PlaysBack apps.now.names
        (map
        (λ k.
        both_charters (stated (k.servlet.vtable, k.servlet.value))
        (option_map (λ l. listens (l.vtable, l.value)) k.listener)) apps.now.kinds)
        (told_by (λ name. F.holds shelf.old name) (map string_bytes words.now)) (K.took out.old)
        (K.took out.new) }
{
    match texts_of(words) {
        Some((config, dar, recording)) => {
            play_texts(alloc, config, dar, recording, shelf, apps, out)
        }
        None => Status::Usage,
    }
}

/// The names of the three texts, None where the words are not `play CONFIG DAR RECORDING`.
fn texts_of(words: &[String]) -> Option<(&String, &String, &String)>
    ensures config { IfSome result
        (λ names. string_bytes names.0.now ≡ get_or (map string_bytes words.now) 1 []) }
    ensures dar { IfSome result
        (λ names. string_bytes names.1.now ≡ get_or (map string_bytes words.now) 2 []) }
    ensures recording { IfSome result
        (λ names. string_bytes names.2.now ≡ get_or (map string_bytes words.now) 3 []) }
{
    let [word, config, dar, recording] = words else {
        return None;
    };
    if is_play(word) {
        Some((config, dar, recording))
    } else {
        None
    }
}

fn is_play(word: &String) -> bool {
    word.as_bytes() == b"play".as_slice()
}

/// Plays the recording of this name with the settings of these names.
fn play_texts<F: Shelf, K: Sink>(
    alloc: Global,
    config: &String,
    dar: &String,
    recording: &String,
    shelf: &mut F,
    apps: &Catalogue,
    out: &mut K,
) -> Status
    ensures done { result ≡ Status.Done
        → PlaysBack apps.now.names
        (map
        (λ k.
        both_charters (stated (k.servlet.vtable, k.servlet.value))
        (option_map (λ l. listens (l.vtable, l.value)) k.listener)) apps.now.kinds)
        (record {
          config = F.holds shelf.old (string_bytes config.now);
          dar = F.holds shelf.old (string_bytes dar.now);
          script = F.holds shelf.old (string_bytes recording.now);
        }) (K.took out.old) (K.took out.new) }
{
    match read_settings(alloc, config, dar, shelf, apps.names()) {
        Ok(settings) => play_over(alloc, settings, recording, shelf, apps, out),
        Err(status) => status,
    }
}

/// Plays the recording of this name with these settings.
fn play_over<F: Shelf, K: Sink>(
    alloc: Global,
    settings: Settings,
    recording: &String,
    shelf: &mut F,
    apps: &Catalogue,
    out: &mut K,
) -> Status
    requires { IsSetup
        (record {
          config = settings.config;
          dar = settings.dar;
          kinds = map
              (λ k.
              both_charters (stated (k.servlet.vtable, k.servlet.value))
              (option_map (λ l. listens (l.vtable, l.value)) k.listener)) apps.now.kinds;
        }) }
    ensures done { result ≡ Status.Done
        → IsRecorded
        (record {
          config = settings.config;
          dar = settings.dar;
          kinds = map
              (λ k.
              both_charters (stated (k.servlet.vtable, k.servlet.value))
              (option_map (λ l. listens (l.vtable, l.value)) k.listener)) apps.now.kinds;
        }) (F.holds shelf.old (string_bytes recording.now)) (K.took out.old) (K.took out.new) }
{
    let Settings { config, dar } = settings;
    match Switch::new(alloc, config, dar, apps) {
        Ok(switch) => play_on(alloc, switch, recording, shelf, apps, out),
        Err(NoMemory) => Status::NoMemory,
    }
}

#[tactic(auto, using(crate::proofs::PlayLaws::recorded))]
fn play_on<F: Shelf, K: Sink>(
    alloc: Global,
    switch: Switch,
    recording: &String,
    shelf: &mut F,
    apps: &Catalogue,
    out: &mut K,
) -> Status
    requires epoch { switch.epoch ≡ 0 }
    requires began { switch.began ≡ 0 }
    requires handed { switch.handed ≡ [] }
    requires journal { switch.journal ≡ [] }
    requires left { switch.left ≡ [] }
    ensures later { F.faults shelf.old ≤ F.faults shelf.new }
    ensures done { result ≡ Status.Done
        → IsRecorded switch.setup (F.holds shelf.old (string_bytes recording.now)) (K.took out.old)
        (K.took out.new) }
{
    match read_recording(alloc, recording, shelf) {
        Ok(text) => run(alloc, text.as_bytes(), switch, apps, out),
        Err(status) => {
            drop(switch);
            status
        }
    }
}

/// The recording that the shelf holds under a name, of 1 GiB at most.
///
/// # Errors
///
/// `Read` where it can't be read, `Script` with kind 7 where it has more bytes, and `NoMemory`.
#[tactic(auto, unfolding(sc_edge::specs::Shelving::Gives))]
pub fn read_recording<F: Shelf>(alloc: Global, name: &String, shelf: &mut F) -> Result<Text, Status>
    ensures later { F.faults shelf.old ≤ F.faults shelf.new }
    ensures told { IfOk result (λ text. GivesAll text (F.holds shelf.old (string_bytes name.now))) }
    ensures unread { IfErr result (λ status. status ≡ Status.Done → ⊥) }
{
    let Ok(name) = Text::from_slice(alloc, name.as_bytes()) else {
        return Err(Status::NoMemory);
    };
    match shelf.read(&name, LONGEST) {
        Shelved::Got(text) => Ok(text),
        Shelved::Long => Err(Status::Script {
            at: LONGEST,
            kind: LONG,
        }),
        Shelved::Failed => Err(Status::Read),
        Shelved::NoMemory => Err(Status::NoMemory),
    }
}
