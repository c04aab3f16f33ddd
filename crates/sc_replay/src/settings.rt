//! Reading the configuration and the routing table.

ghost use Rattle.std.specs.Prelude.{◌≡◌, ◌≤◌, ◌++◌, ℕ, List, [], Option, Some, IfOk, IfErr, OnOk, length, map, string_bytes};
ghost use Rattle.std.specs.List.{All};
ghost use Rattle.sc_edge.specs.Faults.{Rose};
ghost use Rattle.sc_edge.specs.Shelving.{GivesAll};
ghost use Rattle.sc_replay.specs.Replaying.{TellsConfig, TellsTable, IsUnset, app_names};
ghost use Rattle.sc_replay.specs.Running.{IsConfigUnread, IsTableUnread};

use crate::reading::read_text;
use sc_config::ConfigRefused;
use sc_dar::DarRefused;
use sc_edge::{Shelf, Shelved};
use sc_switch::Status;
use sc_terms::{AppEntry, Config, Dar};
use sc_value::{List, NoMemory, Text};
use std::alloc::Global;

/// The most bytes of a configuration, and of a routing table.
const LONGEST: usize = 65_536;

/// The settings that a run is set up with.
#[derive(Drop)]
pub struct Settings {
    pub config: Config,
    pub dar: Dar,
}

/// The settings that the shelf holds under the names of a configuration and a routing table.
/// `kinds` are the names of the kinds of applications.
///
/// # Errors
///
/// `Config` only where the configuration's text is refused so; else `Dar` only where the routing
/// table's text is refused so for its applications; `Read` only where the shelf counted a fault;
/// and
/// `NoMemory`.
pub fn read_settings<F: Shelf>(
    alloc: Global,
    config: &String,
    dar: &String,
    shelf: &mut F,
    kinds: &List<Text>,
) -> Result<Settings, Status>
    ensures config { IfOk result
        (λ settings.
        TellsConfig kinds.now (F.holds shelf.old (string_bytes config.now)) settings.config) }
    ensures table { IfOk result
        (λ settings.
        TellsTable (app_names settings.config) (F.holds shelf.old (string_bytes dar.now))
        settings.dar) }
    ensures lists { IfOk result (λ settings. length settings.dar.lists ≤ 65537) }
    ensures tuples { IfOk result
        (λ settings. All (λ list. length list.tuples ≤ 64) settings.dar.lists) }
    ensures unset { IfErr result
        (λ status.
        IsUnset kinds.now (F.holds shelf.old (string_bytes config.now))
        (F.holds shelf.old (string_bytes dar.now))
        (Rose (F.faults shelf.old) (F.faults shelf.new)) status) }
    ensures same { (n : List ℕ) → F.holds shelf.new n ≡ F.holds shelf.old n }
    ensures later { F.faults shelf.old ≤ F.faults shelf.new }
{
    match read_config(alloc, config, shelf, kinds) {
        Ok(config) => with_table(alloc, config, dar, shelf),
        Err(status) => Err(status),
    }
}

/// The settings of a configuration's and a routing table's text. `kinds` are the names of the kinds
/// of applications.
///
/// # Errors
///
/// `Config` where the configuration's text is refused so; else `Dar` where the routing table's text
/// is refused so for its applications; and `NoMemory`.
pub fn settings_of(
    alloc: Global,
    config: &Text,
    dar: &Text,
    kinds: &List<Text>,
) -> Result<Settings, Status>
    ensures config { IfOk result
        (λ settings. TellsConfig kinds.now (Some config.now) settings.config) }
    ensures table { IfOk result
        (λ settings. TellsTable (app_names settings.config) (Some dar.now) settings.dar) }
    ensures unset { IfErr result
        (λ status. IsUnset kinds.now (Some config.now) (Some dar.now) ⊥ status) }
{
    match config_of(alloc, config, kinds) {
        Ok(config) => with_table_of(alloc, config, dar),
        Err(status) => Err(status),
    }
}

/// The settings of this configuration and of the routing table of this text.
fn with_table_of(alloc: Global, config: Config, text: &Text) -> Result<Settings, Status>
    ensures config { IfOk result (λ settings. settings.config ≡ config) }
    ensures table { IfOk result
        (λ settings. TellsTable (app_names config) (Some text.now) settings.dar) }
    ensures unread { IfErr result
        (λ status. IsTableUnread (app_names config) (Some text.now) ⊥ status) }
{
    match table_of(alloc, text, config.app.as_slice()) {
        Ok(dar) => Ok(Settings { config, dar }),
        Err(status) => {
            drop(config);
            Err(status)
        }
    }
}

/// The settings of this configuration and of the routing table of this name.
fn with_table<F: Shelf>(
    alloc: Global,
    config: Config,
    name: &String,
    shelf: &mut F,
) -> Result<Settings, Status>
    ensures config { IfOk result (λ settings. settings.config ≡ config) }
    ensures table { IfOk result
        (λ settings.
        TellsTable (app_names config) (F.holds shelf.old (string_bytes name.now)) settings.dar) }
    ensures lists { IfOk result (λ settings. length settings.dar.lists ≤ 65537) }
    ensures tuples { IfOk result
        (λ settings. All (λ list. length list.tuples ≤ 64) settings.dar.lists) }
    ensures unread { IfErr result
        (λ status.
        IsTableUnread (app_names config) (F.holds shelf.old (string_bytes name.now))
        (Rose (F.faults shelf.old) (F.faults shelf.new)) status) }
    ensures same { (n : List ℕ) → F.holds shelf.new n ≡ F.holds shelf.old n }
    ensures later { F.faults shelf.old ≤ F.faults shelf.new }
{
    match read_table(alloc, name, shelf, config.app.as_slice()) {
        Ok(dar) => Ok(Settings { config, dar }),
        Err(status) => {
            drop(config);
            Err(status)
        }
    }
}

/// The configuration of this name.
#[tactic(auto, unfolding(crate::specs::Running::IsConfigUnread), using(crate::proofs::Settled::config_longer))]
fn read_config<F: Shelf>(
    alloc: Global,
    name: &String,
    shelf: &mut F,
    kinds: &List<Text>,
) -> Result<Config, Status>
    ensures found { IfOk result
        (λ config. TellsConfig kinds.now (F.holds shelf.old (string_bytes name.now)) config) }
    ensures unread { IfErr result
        (λ status.
        IsConfigUnread kinds.now (F.holds shelf.old (string_bytes name.now))
        (Rose (F.faults shelf.old) (F.faults shelf.new)) status) }
    ensures same { (n : List ℕ) → F.holds shelf.new n ≡ F.holds shelf.old n }
    ensures later { F.faults shelf.old ≤ F.faults shelf.new }
{
    match read_text(alloc, name, LONGEST, shelf) {
        Shelved::Got(text) => config_of(alloc, &text, kinds),
        Shelved::Long => Err(config_long(alloc)),
        Shelved::Failed => Err(Status::Read),
        Shelved::NoMemory => Err(Status::NoMemory),
    }
}

/// The configuration of a text.
#[tactic(auto, unfolding(crate::specs::Running::IsConfigUnread, sc_config::specs::ReadSettings::fault_told), using(crate::proofs::Settled::config_fault))]
fn config_of(alloc: Global, text: &Text, kinds: &List<Text>) -> Result<Config, Status>
    ensures found { (told : Option (List ℕ)) → GivesAll text.now told
        → IfOk result (λ config. TellsConfig kinds.now told config) }
    ensures unread { (told : Option (List ℕ)) → GivesAll text.now told
        → IfErr result (λ status. IsConfigUnread kinds.now told ⊥ status) }
{
    match sc_config::read(alloc, text.as_bytes(), kinds) {
        Ok(config) => Ok(config),
        Err(ConfigRefused::Refused { kind, key }) => Err(Status::Config { kind, key }),
        Err(ConfigRefused::NoMemory) => Err(Status::NoMemory),
    }
}

/// The refusal of a configuration of more bytes than are read.
fn config_long(alloc: Global) -> Status
    ensures { result ≡ Status.Config 6 [] }
{
    Status::Config {
        kind: 6,
        key: Text::new(alloc),
    }
}

/// The routing table of this name, for these applications.
#[tactic(auto, unfolding(crate::specs::Running::IsTableUnread), using(crate::proofs::Settled::table_longer))]
fn read_table<F: Shelf>(
    alloc: Global,
    name: &String,
    shelf: &mut F,
    apps: &[AppEntry],
) -> Result<Dar, Status>
    ensures found { IfOk result
        (λ dar.
        TellsTable (map (λ app. app.name) apps.now) (F.holds shelf.old (string_bytes name.now))
        dar) }
    ensures lists { IfOk result (λ dar. length dar.lists ≤ 65537) }
    ensures tuples { IfOk result (λ dar. All (λ list. length list.tuples ≤ 64) dar.lists) }
    ensures unread { IfErr result
        (λ status.
        IsTableUnread (map (λ app. app.name) apps.now) (F.holds shelf.old (string_bytes name.now))
        (Rose (F.faults shelf.old) (F.faults shelf.new)) status) }
    ensures same { (n : List ℕ) → F.holds shelf.new n ≡ F.holds shelf.old n }
    ensures later { F.faults shelf.old ≤ F.faults shelf.new }
{
    match read_text(alloc, name, LONGEST, shelf) {
        Shelved::Got(text) => table_of(alloc, &text, apps),
        Shelved::Long => Err(Status::Dar { line: 0, kind: 8 }),
        Shelved::Failed => Err(Status::Read),
        Shelved::NoMemory => Err(Status::NoMemory),
    }
}

/// The routing table of a text, for these applications.
#[tactic(auto, unfolding(crate::specs::Running::IsTableUnread))]
fn table_of(alloc: Global, text: &Text, apps: &[AppEntry]) -> Result<Dar, Status>
    ensures found { (told : Option (List ℕ)) → GivesAll text.now told
        → IfOk result (λ dar. TellsTable (map (λ app. app.name) apps.now) told dar) }
    ensures lists { IfOk result (λ dar. length dar.lists ≤ 65537) }
    ensures tuples { IfOk result (λ dar. All (λ list. length list.tuples ≤ 64) dar.lists) }
    ensures unread { (told : Option (List ℕ)) → GivesAll text.now told
        → IfErr result (λ status. IsTableUnread (map (λ app. app.name) apps.now) told ⊥ status) }
{
    match names_of(alloc, apps) {
        Ok(names) => table_for(alloc, text, &names),
        Err(NoMemory) => Err(Status::NoMemory),
    }
}

/// The routing table of a text, for applications of these names.
#[tactic(auto, unfolding(crate::specs::Running::IsTableUnread), using(crate::proofs::Settled::table_fault, crate::proofs::TableLengths::few_lists))]
fn table_for(alloc: Global, text: &Text, names: &List<Text>) -> Result<Dar, Status>
    ensures found { (told : Option (List ℕ)) → GivesAll text.now told
        → IfOk result (λ dar. TellsTable names.now told dar) }
    ensures lists { IfOk result (λ dar. length dar.lists ≤ 65537) }
    ensures tuples { IfOk result (λ dar. All (λ list. length list.tuples ≤ 64) dar.lists) }
    ensures unread { (told : Option (List ℕ)) → GivesAll text.now told
        → IfErr result (λ status. IsTableUnread names.now told ⊥ status) }
{
    match sc_dar::read(alloc, text.as_bytes(), names) {
        Ok(dar) => Ok(dar),
        Err(DarRefused::Refused { line, kind }) => Err(Status::Dar { line, kind }),
        Err(DarRefused::NoMemory) => Err(Status::NoMemory),
    }
}

/// The names of applications.
fn names_of(alloc: Global, apps: &[AppEntry]) -> Result<List<Text>, NoMemory>
    ensures { IfOk result (λ names. names ≡ map (λ app. app.name) apps.now) }
{
    let mut names = List::new(alloc);
    add_names(alloc, apps, &mut names)?;
    Ok(names)
}

fn add_names(alloc: Global, apps: &[AppEntry], names: &mut List<Text>) -> Result<(), NoMemory>
    ensures { OnOk result (names.new ≡ names.old ++ map (λ app. app.name) apps.now) }
{
    for app in apps {
        names.push(Text::from_slice(alloc, app.name.as_bytes())?)?;
    }
    Ok(())
}
