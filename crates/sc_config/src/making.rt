//! The settings of a document without fault.

ghost use Rattle.std.specs.Prelude.{◌≡◌, ◌++◌, [], true, map, codes, position, IfOk, OnOk};
ghost use Rattle.std.specs.Option.{option_map, option_map_or, option_and_then, unwrap_or};
ghost use Rattle.sc_tokens.specs.Names.{same_bytes};
ghost use Rattle.toml.specs.Data.{as_str, as_table, get_member};
ghost use Rattle.toml.specs.View.{view, table_view};
ghost use Rattle.sc_terms.specs.Ranges.{are_few};
ghost use Rattle.sc_config.specs.Faults.{app_text, apps_in};
ghost use Rattle.sc_config.specs.Documents.{elements};
ghost use Rattle.sc_config.specs.KeyValues.{is_salt};
ghost use Rattle.sc_config.specs.ReadSettings.{param_text, params_in, kind_place, app_value, app_entry, host_entry, host_entries, hosts_in, number_at, flag_at, top_text, config_of};

use crate::faults::{app_text, apps_in};
use crate::values::{
    elements, expires_in, flag_in, host_ip, listen_in, number_in, text_at, value_at,
};
use sc_terms::{AppEntry, Apps, Config, Expires, HostEntry, Port, Within};
use sc_value::{List, NoMemory, Text, Token};
use std::alloc::Global;
use toml::{Table, Value};

fn param_text(value: &Value) -> &[u8]
    ensures { result.now ≡ param_text (view value.now) }
{
    match value.as_str() {
        Some(text) => text.as_bytes(),
        None => b"",
    }
}

fn add_params(alloc: Global, values: &[Value], params: &mut List<Text>) -> Result<(), NoMemory>
    ensures { OnOk result (params.new ≡ params.old ++ map (λ v. param_text (view v)) values.now) }
{
    for value in values {
        params.push(Text::from_slice(alloc, param_text(value))?)?;
    }
    Ok(())
}

fn items_of<'a>(value: Option<&'a Value>) -> &'a [Value]
    ensures { map view result.now
        ≡ option_map_or elements (option_map (λ v. view v.now) value.entry) [] }
{
    match value {
        Some(value) => elements(value),
        None => &[],
    }
}

/// The place of a kind among the kinds.
#[tactic(auto, unfolding(crate::specs::ReadSettings::kind_place))]
fn kind_place(kinds: &[Text], name: &[u8]) -> usize
    ensures { result ≡ kind_place kinds.now name.now }
{
    place_of(kinds, name).unwrap_or(0)
}

fn place_of(kinds: &[Text], name: &[u8]) -> Option<usize>
    ensures { result ≡ position (λ kind. same_bytes kind name.now) kinds.now }
{
    kinds.iter().position(|kind| kind.as_bytes() == name)
}

#[tactic(auto, unfolding(crate::specs::ReadSettings::app_value))]
fn app_value<'a>(app: &'a Value, key: &str) -> Option<&'a Value>
    ensures { option_map (λ v. view v.now) result ≡ app_value key.now (view app.now) }
{
    match app.as_table() {
        Some(table) => value_at(table, key),
        None => None,
    }
}

#[tactic(auto, unfolding(crate::specs::ReadSettings::host_entry))]
fn host_entry(alloc: Global, name: &str, value: &Value) -> Result<HostEntry, NoMemory>
    ensures { IfOk result (λ h. h ≡ host_entry name.now (view value.now)) }
{
    let name = Text::from_slice(alloc, name.as_bytes())?;
    let ip = host_ip(value).unwrap_or([0, 0, 0, 0]);
    Ok(HostEntry { name, ip })
}

/// The number of a key, the standard one where the key is absent.
#[tactic(auto, unfolding(crate::specs::ReadSettings::number_at))]
fn number_at<const LOW: u64, const HIGH: u64>(
    standard: Within<LOW, HIGH>,
    key: &str,
    top: &Table,
) -> Within<LOW, HIGH>
    ensures { result ≡ number_at LOW HIGH standard.entry key.now (table_view top.now) }
{
    number_in(standard, value_at(top, key)).unwrap_or(standard)
}

/// Whether a key is true.
#[tactic(auto, unfolding(crate::specs::ReadSettings::flag_at))]
fn flag_at(key: &str, top: &Table) -> bool
    ensures { result ≡ flag_at key.now (table_view top.now) }
{
    flag_in(value_at(top, key)).unwrap_or(false)
}

#[tactic(auto, unfolding(crate::specs::ReadSettings::top_text))]
fn top_text(alloc: Global, key: &str, top: &Table) -> Result<Text, NoMemory>
    ensures { IfOk result (λ t. t ≡ top_text key.now (table_view top.now)) }
{
    match text_at(top, key) {
        Some(text) => Text::from_slice(alloc, text.as_bytes()),
        None => Ok(Text::new(alloc)),
    }
}

/// The name of the file of `record`, where the key is there.
fn recording_of(alloc: Global, top: &Table) -> Result<Option<Text>, NoMemory>
    ensures { IfOk result
        (λ name. name ≡ option_and_then as_str (get_member (codes "record") (table_view top.now))) }
{
    match text_at(top, "record") {
        Some(text) => Ok(Some(Text::from_slice(alloc, text.as_bytes())?)),
        None => Ok(None),
    }
}

/// The parameters of an application.
#[tactic(auto, unfolding(crate::specs::ReadSettings::params_in), using(crate::proofs::DocumentLaws::map_view))]
fn params_in(alloc: Global, value: Option<&Value>) -> Result<List<Text>, NoMemory>
    ensures { IfOk result
        (λ params. params ≡ params_in (option_map (λ v. view v.now) value.entry)) }
{
    let mut params = List::new(alloc);
    add_params(alloc, items_of(value), &mut params)?;
    Ok(params)
}

#[tactic(auto, unfolding(crate::specs::ReadSettings::app_entry, sc_terms::specs::Ranges::is_expiry))]
fn app_entry(alloc: Global, kinds: &[Text], app: &Value) -> Result<AppEntry, NoMemory>
    ensures { IfOk result (λ e. e ≡ app_entry kinds.now (view app.now)) }
{
    let name = Text::from_slice(alloc, app_text(app, "name"))?;
    let params = params_in(alloc, app_value(app, "params"))?;
    let kind = kind_place(kinds, app_text(app, "kind"));
    let expires = expires_in(app_value(app, "expires")).unwrap_or(Expires::of(3));
    Ok(AppEntry {
        name,
        kind,
        params,
        expires,
    })
}

fn add_apps(
    alloc: Global,
    kinds: &[Text],
    apps: &[Value],
    entries: &mut List<AppEntry>,
) -> Result<(), NoMemory>
    ensures { OnOk result
        (entries.new ≡ entries.old ++ map (λ v. app_entry kinds.now (view v)) apps.now) }
{
    for app in apps {
        entries.push(app_entry(alloc, kinds, app)?)?;
    }
    Ok(())
}

#[tactic(auto, using(crate::proofs::DocumentLaws::map_view))]
fn app_entries(alloc: Global, kinds: &[Text], top: &Table) -> Result<List<AppEntry>, NoMemory>
    ensures { IfOk result
        (λ entries. entries ≡ map (app_entry kinds.now) (apps_in (table_view top.now))) }
{
    let mut entries = List::new(alloc);
    add_apps(alloc, kinds, apps_in(top), &mut entries)?;
    Ok(entries)
}

// The applications of a document that has 1 to 64 of them.
#[tactic(auto, using(crate::proofs::DocumentLaws::few_entries))]
fn apps_of(alloc: Global, kinds: &[Text], top: &Table) -> Result<Apps, NoMemory>
    requires { are_few (apps_in (table_view top.now)) ≡ true }
    ensures { IfOk result
        (λ apps. apps ≡ map (app_entry kinds.now) (apps_in (table_view top.now))) }
{
    match Apps::new(app_entries(alloc, kinds, top)?) {
        Some(apps) => Ok(apps),
        None => unreachable!(),
    }
}

#[tactic(auto, unfolding(crate::specs::ReadSettings::host_entries))]
fn add_hosts(alloc: Global, hosts: &Table, entries: &mut List<HostEntry>) -> Result<(), NoMemory>
    ensures { OnOk result (entries.new ≡ entries.old ++ host_entries (table_view hosts.now)) }
{
    'hosts: for (name, value) in hosts.iter() {
        entries.push(host_entry(alloc, name.as_str(), value)?)?;
    }
    Ok(())
}

#[tactic(auto, unfolding(crate::specs::ReadSettings::hosts_in))]
fn hosts_in(alloc: Global, value: Option<&Value>) -> Result<List<HostEntry>, NoMemory>
    ensures { IfOk result (λ hosts. hosts ≡ hosts_in (option_map (λ v. view v.now) value.entry)) }
{
    let mut entries = List::new(alloc);
    if let Some(value) = value {
        if let Some(hosts) = value.as_table() {
            add_hosts(alloc, hosts, &mut entries)?;
        }
    }
    Ok(entries)
}

#[tactic(auto, using(crate::proofs::SaltLaws::salt_is_token))]
fn salt_of(alloc: Global, top: &Table) -> Result<Token, NoMemory>
    requires { is_salt (top_text (codes "salt") (table_view top.now)) ≡ true }
    ensures { IfOk result (λ salt. salt ≡ top_text (codes "salt") (table_view top.now)) }
{
    let text = top_text(alloc, "salt", top)?;
    Ok(Token::from_text(text))
}

/// The settings of a document without fault.
#[tactic(auto, unfolding(crate::specs::ReadSettings::config_of))]
pub(crate) fn config_of(alloc: Global, kinds: &[Text], top: &Table) -> Result<Config, NoMemory>
    requires few { are_few (apps_in (table_view top.now)) ≡ true }
    requires salt { is_salt (top_text (codes "salt") (table_view top.now)) ≡ true }
    ensures { IfOk result (λ config. config ≡ config_of kinds.now (table_view top.now)) }
{
    let domain = top_text(alloc, "domain", top)?;
    let salt = salt_of(alloc, top)?;
    let recording = recording_of(alloc, top)?;
    let hosts = hosts_in(alloc, value_at(top, "hosts"))?;
    let app = apps_of(alloc, kinds, top)?;
    Ok(Config {
        listen: listen_in(value_at(top, "listen")).unwrap_or(([0, 0, 0, 0], Port::of(5060))),
        domain,
        salt,
        workers: number_at(Within::of(2), "workers", top),
        stop_after: number_at(Within::of(0), "stop_after", top),
        journal_steps: number_at(Within::of(1_000_000), "journal_steps", top),
        journal_bytes: number_at(Within::of(67_108_864), "journal_bytes", top),
        epoch_steps: number_at(Within::of(0), "epoch_steps", top),
        journal_parts: flag_at("journal_parts", top),
        reuse: flag_at("reuse", top),
        recording,
        hosts,
        app,
    })
}
