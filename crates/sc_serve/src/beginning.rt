//! How a call begins: its settings are read, and a switch is made.

ghost use Rattle.std.specs.Prelude.{◌≡◌, [], None, map, option_map, string_bytes, IfErr, IfOk};
ghost use Rattle.sc_servlets.specs.Stated.{both_charters};
ghost use Rattle.sc_edge.specs.Edges.{EdgeState};
ghost use Rattle.sc_edge.specs.Faults.{Rose};
ghost use Rattle.sc_model.specs.Settings.{IsSetup};
ghost use Rattle.sc_courses.specs.Asking.{Sources};
ghost use Rattle.sc_courses.specs.Courses.{Told};
ghost use Rattle.sc_serve.specs.Running.{HasItems, IsNew, IsServed};
ghost use Rattle.sc_serve.specs.Served.{IsAsked, IsSetUp, Serves, ServesWords, served_names};

use crate::naming::served_names;
use crate::server::Server;
use sc_edge::Shelf;
use sc_journal::Journal;
use sc_replay::{Settings, read_settings};
use sc_rounds::{Core, Turning};
use sc_servlets::Catalogue;
use sc_switch::{Ran, Status, Switch};
use sc_terms::Within;
use sc_value::NoMemory;
use std::alloc::Global;

/// A server that took no step.
#[derive(Drop)]
pub struct Begun {
    pub server: Server,
    /// So many workers the settings ask for.
    pub workers: Within<1, 32>,
}

/// A server with the settings that the words name.
///
/// # Errors
///
/// How the call ends where there is none.
pub fn begin<F: Shelf>(
    alloc: Global,
    words: &[String],
    shelf: &mut F,
    apps: &Catalogue,
) -> Result<Begun, Ran>
    ensures new { IfOk result (λ begun. IsNew begun.server) }
    ensures right { IfOk result (λ begun. IsSetup begun.server.core.switch.setup) }
    ensures asked { IfOk result
        (λ begun.
        IsAsked (served_names (map string_bytes words.now)) apps.now.names
        (map
        (λ k.
        both_charters (stated (k.servlet.vtable, k.servlet.value))
        (option_map (λ l. listens (l.vtable, l.value)) k.listener)) apps.now.kinds)
        (λ name. F.holds shelf.old name) begun.server.core.switch.setup) }
    ensures unserved { IfErr result
        (λ ran.
        (edge : EdgeState) (told : Told) (sources : Sources)
        → ServesWords (served_names (map string_bytes words.now)) apps.now.names
        (map
        (λ k.
        both_charters (stated (k.servlet.vtable, k.servlet.value))
        (option_map (λ l. listens (l.vtable, l.value)) k.listener)) apps.now.kinds)
        (λ name. F.holds shelf.old name) (Rose (F.faults shelf.old) (F.faults shelf.new)) edge
        edge told told sources sources ran) }
{
    match served_names(words) {
        Some((config, dar)) => begin_named(alloc, config, dar, shelf, apps),
        None => Err(without_journal(Status::Usage)),
    }
}

/// A server with the settings of these names.
fn begin_named<F: Shelf>(
    alloc: Global,
    config: &String,
    dar: &String,
    shelf: &mut F,
    apps: &Catalogue,
) -> Result<Begun, Ran>
    ensures new { IfOk result (λ begun. IsNew begun.server) }
    ensures right { IfOk result (λ begun. IsSetup begun.server.core.switch.setup) }
    ensures set { IfOk result
        (λ begun.
        IsSetUp apps.now.names
        (map
        (λ k.
        both_charters (stated (k.servlet.vtable, k.servlet.value))
        (option_map (λ l. listens (l.vtable, l.value)) k.listener)) apps.now.kinds)
        (F.holds shelf.old (string_bytes config.now)) (F.holds shelf.old (string_bytes dar.now))
        begun.server.core.switch.setup) }
    ensures unserved { IfErr result
        (λ ran.
        (edge : EdgeState) (told : Told) (sources : Sources)
        → Serves apps.now.names
        (map
        (λ k.
        both_charters (stated (k.servlet.vtable, k.servlet.value))
        (option_map (λ l. listens (l.vtable, l.value)) k.listener)) apps.now.kinds)
        (F.holds shelf.old (string_bytes config.now))
        (F.holds shelf.old (string_bytes dar.now))
        (Rose (F.faults shelf.old) (F.faults shelf.new)) edge edge told told sources sources
        ran ran.journal) }
{
    match read_settings(alloc, config, dar, shelf, apps.names()) {
        Ok(settings) => begin_over(alloc, settings, apps),
        Err(status) => Err(without_journal(status)),
    }
}

/// A server with these settings.
fn begin_over(alloc: Global, settings: Settings, apps: &Catalogue) -> Result<Begun, Ran>
    requires { IsSetup
        (record {
          config = settings.config;
          dar = settings.dar;
          kinds = map
              (λ k.
              both_charters (stated (k.servlet.vtable, k.servlet.value))
              (option_map (λ l. listens (l.vtable, l.value)) k.listener)) apps.now.kinds;
        }) }
    ensures new { IfOk result (λ begun. IsNew begun.server) }
    ensures setup { IfOk result
        (λ begun.
        begun.server.core.switch.setup
        ≡ record {
          config = settings.config;
          dar = settings.dar;
          kinds = map
              (λ k.
              both_charters (stated (k.servlet.vtable, k.servlet.value))
              (option_map (λ l. listens (l.vtable, l.value)) k.listener)) apps.now.kinds;
        }) }
    ensures unserved { IfErr result
        (λ ran.
        (edge : EdgeState) (told : Told)
        → IsServed
        (record {
          setup = record {
            config = settings.config;
            dar = settings.dar;
            kinds = map
                (λ k.
                both_charters (stated (k.servlet.vtable, k.servlet.value))
                (option_map (λ l. listens (l.vtable, l.value)) k.listener)) apps.now.kinds;
          };
          told = told;
          edge = edge;
          moments = [];
          orders = [];
        }) edge told ran) }
{
    let turning = Turning {
        epoch_steps: Within::of(settings.config.epoch_steps.get()),
        parts: settings.config.journal_parts,
        recording: settings.config.recording.is_some(),
    };
    let stop_after = settings.config.stop_after.get();
    let workers = Within::of(settings.config.workers.get());
    let Settings { config, dar } = settings;
    match Switch::new(alloc, config, dar, apps) {
        Ok(switch) => {
            let server = Server::new(alloc, Core::new(alloc, turning, switch), stop_after);
            Ok(Begun { server, workers })
        }
        Err(NoMemory) => Err(not_started(alloc)),
    }
}

/// The end of a run for which no switch could be made: its journal is empty.
fn not_started(alloc: Global) -> Ran
    ensures status { result.status ≡ Status.NoMemory }
    ensures epoch { result.epoch ≡ 0 }
    ensures began { result.began ≡ 0 }
    ensures journal { HasItems result.journal [] }
{
    Ran {
        status: Status::NoMemory,
        epoch: 0,
        began: 0,
        journal: Some(Journal::new(alloc, 1_000_000, 67_108_864)),
    }
}

/// The end of a call whose words or settings were not accepted.
fn without_journal(status: Status) -> Ran
    ensures status { result.status ≡ status }
    ensures journal { result.journal ≡ None }
{
    Ran {
        status,
        epoch: 0,
        began: 0,
        journal: None,
    }
}
