//! A switch with two applications of one kind.

ghost use Rattle.std.specs.Prelude.{◌<◌, ◌≤◌, IfOk, IsTrue, length};
ghost use Rattle.std.specs.List.{All};

use sc_servlets::{Catalogue, SipServlet};
use sc_switch::Switch;
use sc_terms::{AppEntry, Config, Dar, Within};
use sc_value::{List, NoMemory, Text};
use std::alloc::Global;

// The only parameter of the first application is `given`. Each text stands in a function, whose
// value no proof goes into.
fn settings_text() -> &'static [u8] {
    b"listen = \"127.0.0.1:5060\"\ndomain = \"home.test\"\nsalt = \"s1\"\n\n[[app]]\nname = \"a0\"\nkind = \"tried\"\nparams = [\"given\"]\n\n[[app]]\nname = \"a1\"\nkind = \"tried\"\n"
}

// The first application has INVITE and OPTIONS, the second PUBLISH.
fn table_text() -> &'static [u8] {
    b"INVITE: (\"a0\", \"DAR:From\", \"NEUTRAL\", \"\", \"NO_ROUTE\", \"0\")\nOPTIONS: (\"a0\", \"DAR:From\", \"NEUTRAL\", \"\", \"NO_ROUTE\", \"0\")\nPUBLISH: (\"a1\", \"DAR:From\", \"NEUTRAL\", \"\", \"NO_ROUTE\", \"0\")\n"
}

/// The catalogue of one kind, `tried`.
pub fn catalogue(alloc: Global, servlet: Box<dyn SipServlet>) -> Result<Catalogue, NoMemory> {
    match Text::from_slice(alloc, b"tried") {
        Ok(name) => catalogue_of(alloc, name, servlet),
        Err(NoMemory) => {
            drop(servlet);
            Err(NoMemory)
        }
    }
}

fn catalogue_of(
    alloc: Global,
    name: Text,
    servlet: Box<dyn SipServlet>,
) -> Result<Catalogue, NoMemory> {
    let mut apps = Catalogue::new(alloc);
    match apps.add(name, servlet, None) {
        Ok(()) => Ok(apps),
        Err(_) => Err(NoMemory),
    }
}

fn names(alloc: Global) -> Result<List<Text>, NoMemory> {
    let mut names = List::new(alloc);
    names.push(Text::from_slice(alloc, b"a0")?)?;
    names.push(Text::from_slice(alloc, b"a1")?)?;
    Ok(names)
}

/// The switch whose applications are of the kind `tried`, with this limit of steps. Settings that
/// are refused are told as want of memory, which a case then sees.
pub fn switch_over(alloc: Global, steps: u64, apps: &Catalogue) -> Result<Switch, NoMemory> {
    let names = names(alloc)?;
    match config_of(alloc, steps, apps.names()) {
        Ok(config) => switch_named(alloc, config, &names, apps),
        Err(NoMemory) => Err(NoMemory),
    }
}

fn switch_named(
    alloc: Global,
    config: Config,
    names: &List<Text>,
    apps: &Catalogue,
) -> Result<Switch, NoMemory> {
    if config.app.len() > 64
        || config.app.len() != names.len()
        || !are_of(config.app.as_slice(), apps.kinds.len())
    {
        drop(config);
        return Err(NoMemory);
    }
    match table_of(alloc, names) {
        Ok(dar) => switch_of(alloc, config, dar, apps),
        Err(NoMemory) => {
            drop(config);
            Err(NoMemory)
        }
    }
}

fn config_of(alloc: Global, steps: u64, kinds: &List<Text>) -> Result<Config, NoMemory> {
    match sc_config::read(alloc, settings_text(), kinds) {
        Ok(config) => Ok(with_steps(config, steps)),
        Err(_) => Err(NoMemory),
    }
}

// The settings with this limit of steps, where there can be such a one.
fn with_steps(config: Config, steps: u64) -> Config {
    let mut config = config;
    if let Some(limit) = Within::new(steps) {
        config.journal_steps = limit;
    }
    config
}

// Whether each application has one of so many kinds.
fn are_of(apps: &[AppEntry], kinds: usize) -> bool
    ensures { IsTrue result → All (λ app. app.kind < kinds) apps.now }
{
    apps.iter().all(|app| app.kind < kinds)
}

fn table_of(alloc: Global, names: &List<Text>) -> Result<Dar, NoMemory>
    ensures { IfOk result
        (λ dar. All (λ list. All (λ tuple. tuple.app < length names.now) list.tuples) dar.lists) }
{
    match sc_dar::read(alloc, table_text(), names) {
        Ok(dar) => Ok(dar),
        Err(_) => Err(NoMemory),
    }
}

fn numbers_in_range(config: &Config)
    ensures steps { config.now.journal_steps ≤ 1000000 }
    ensures bytes { config.now.journal_bytes ≤ 67108864 }
{
    let _ = config.journal_steps.get();
    let _ = config.journal_bytes.get();
}

#[tactic(auto, using(crate::proofs::Setups::is_setup))]
fn switch_of(alloc: Global, config: Config, dar: Dar, apps: &Catalogue) -> Result<Switch, NoMemory>
    requires apps { length config.app ≤ 64 }
    requires kinds { All (λ app. app.kind < length apps.now.kinds) config.app }
    requires table { All (λ list. All (λ tuple. tuple.app < length config.app) list.tuples)
        dar.lists }
{
    numbers_in_range(&config);
    Switch::new(alloc, config, dar, apps)
}
