//! What is refused of a configuration.

ghost use Rattle.std.specs.Prelude.{◌≡◌, ◌≤◌, not, map, position, is_some, codes};
ghost use Rattle.std.specs.List.{list_all, list_any};
ghost use Rattle.std.specs.Option.{option_map, option_copied, is_none};
ghost use Rattle.toml.specs.Data.{as_str, as_table, get_member};
ghost use Rattle.sc_tokens.specs.Names.{same_bytes};
ghost use Rattle.toml.specs.View.{view, table_view};
ghost use Rattle.sc_config.specs.Faults.{app_fault, app_text, apps_fault, apps_in, are_some_tables, double_name, fault_if, first_fault, first_refusal, is_any, is_app_key, is_kind, is_top_key, is_wrong, item_fault, missing, table_fault, top_fault, unknown_kind, wrong_apps, wrong_expires, wrong_flag, wrong_flags, wrong_hosts, wrong_listen, wrong_number, wrong_numbers, wrong_params, wrong_record, wrong_text};
ghost use Rattle.sc_config.specs.KeyValues.{is_wrong_host, is_salt, is_app_name, listen_in, is_file, is_params};
ghost use Rattle.sc_tokens.specs.Hosts.{is_host};
ghost use Rattle.sc_config.specs.declared.faults.Check.TheVariants.{UnknownKeys, Missing, Range};
ghost use Rattle.sc_config.specs.Documents.{first_key, first_given};

use crate::config_refused::{DOUBLE_NAME, MISSING, RANGE, UNKNOWN_KEY, UNKNOWN_KIND};
use crate::texts::{is_app_name, is_salt};
use crate::values::{
    elements, expires_in, flag_in, host_ip, is_file, is_params, listen_in, number_in, text_at,
    value_at,
};
use sc_terms::Within;
use sc_uri_text::is_host;
use sc_value::Text;
use std::marker::Model;
use toml::{Table, Value};

/// What is looked for in the tables.
#[derive(Clone, Copy)]
pub(crate) enum Check {
    UnknownKeys,
    Missing,
    Range,
}

/// Which entries of a table are wrong.
#[derive(Clone, Copy)]
pub(crate) enum Wrong {
    /// A key that the container hasn't.
    TopKey,
    /// A key that an application hasn't.
    AppKey,
    /// What is no host with an IPv4 address.
    Host,
}

/// A kind of refusal with the key at fault.
#[derive(Drop)]
pub(crate) struct Fault<'a> {
    pub(crate) kind: u8,
    pub(crate) key: &'a [u8],
}

impl<'a> Model for Fault<'a> {
    ghost use Rattle.std.specs.Prelude.{List, ℕ};

    ghost Value = { ℕ × List ℕ };

    ghost view = { λ f. (f.kind, f.key.now) };
}

fn fault_if(holds: bool, kind: u8, key: &str) -> Option<Fault<'_>>
    ensures { result ≡ fault_if holds kind key.now }
{
    if holds {
        return Some(Fault {
            kind,
            key: key.as_bytes(),
        });
    }
    None
}

#[tactic(auto, unfolding(crate::specs::Faults::missing))]
fn missing<'a>(key: &'a str, table: &Table) -> Option<Fault<'a>>
    ensures { result ≡ missing key.now (table_view table.now) }
{
    fault_if(value_at(table, key).is_none(), MISSING, key)
}

#[tactic(auto, unfolding(crate::specs::Faults::wrong_number))]
fn wrong_number<'a, const LOW: u64, const HIGH: u64>(
    key: &'a str,
    table: &Table,
) -> Option<Fault<'a>>
    requires { LOW ≤ HIGH }
    ensures { result ≡ wrong_number LOW HIGH key.now (table_view table.now) }
{
    let number = number_in::<LOW, HIGH>(Within::of(LOW), value_at(table, key));
    fault_if(number.is_none(), RANGE, key)
}

#[tactic(auto, unfolding(crate::specs::Faults::wrong_flag))]
fn wrong_flag<'a>(key: &'a str, table: &Table) -> Option<Fault<'a>>
    ensures { result ≡ wrong_flag key.now (table_view table.now) }
{
    fault_if(flag_in(value_at(table, key)).is_none(), RANGE, key)
}

#[tactic(auto, unfolding(crate::specs::Faults::wrong_expires))]
fn wrong_expires(table: &Table) -> Option<Fault<'_>>
    ensures { result ≡ wrong_expires (table_view table.now) }
{
    let expires = expires_in(value_at(table, "expires"));
    fault_if(expires.is_none(), RANGE, "expires")
}

#[tactic(auto, unfolding(crate::specs::Faults::wrong_text))]
fn wrong_domain(table: &Table) -> Option<Fault<'_>>
    ensures { result ≡ wrong_text is_host (codes "domain") (table_view table.now) }
{
    match text_at(table, "domain") {
        Some(text) => fault_if(!is_host(text.as_bytes()), RANGE, "domain"),
        None => fault_if(true, RANGE, "domain"),
    }
}

#[tactic(auto, unfolding(crate::specs::Faults::wrong_text))]
fn wrong_salt(table: &Table) -> Option<Fault<'_>>
    ensures { result ≡ wrong_text is_salt (codes "salt") (table_view table.now) }
{
    match text_at(table, "salt") {
        Some(text) => fault_if(!is_salt(text.as_bytes()), RANGE, "salt"),
        None => fault_if(true, RANGE, "salt"),
    }
}

#[tactic(auto, unfolding(crate::specs::Faults::wrong_text))]
fn wrong_name(table: &Table) -> Option<Fault<'_>>
    ensures { result ≡ wrong_text is_app_name (codes "name") (table_view table.now) }
{
    match text_at(table, "name") {
        Some(text) => fault_if(!is_app_name(text.as_bytes()), RANGE, "name"),
        None => fault_if(true, RANGE, "name"),
    }
}

#[tactic(auto, unfolding(crate::specs::Faults::wrong_text))]
fn wrong_kind(table: &Table) -> Option<Fault<'_>>
    ensures { result ≡ wrong_text is_any (codes "kind") (table_view table.now) }
{
    fault_if(text_at(table, "kind").is_none(), RANGE, "kind")
}

#[tactic(auto, unfolding(crate::specs::Faults::wrong_params))]
fn wrong_params(table: &Table) -> Option<Fault<'_>>
    ensures { result ≡ wrong_params (table_view table.now) }
{
    fault_if(!is_params(value_at(table, "params")), RANGE, "params")
}

#[tactic(auto, unfolding(crate::specs::Faults::wrong_listen, crate::specs::KeyValues::listen_in))]
fn wrong_listen(table: &Table) -> Option<Fault<'_>>
    ensures { result ≡ wrong_listen (table_view table.now) }
{
    fault_if(
        listen_in(value_at(table, "listen")).is_none(),
        RANGE,
        "listen",
    )
}

#[tactic(auto, unfolding(crate::specs::Faults::first_fault, crate::specs::Faults::app_fault))]
fn missing_in_app(table: &Table) -> Option<Fault<'_>>
    ensures { result ≡ app_fault Missing (table_view table.now) }
{
    if let Some(fault) = missing("name", table) {
        return Some(fault);
    }
    missing("kind", table)
}

#[tactic(auto, unfolding(crate::specs::Faults::first_fault, crate::specs::Faults::app_fault))]
fn range_in_app(table: &Table) -> Option<Fault<'_>>
    ensures { result ≡ app_fault Range (table_view table.now) }
{
    if let Some(fault) = wrong_name(table) {
        return Some(fault);
    }
    if let Some(fault) = wrong_kind(table) {
        return Some(fault);
    }
    if let Some(fault) = wrong_params(table) {
        return Some(fault);
    }
    wrong_expires(table)
}

#[tactic(auto, unfolding(crate::specs::Faults::is_top_key))]
fn is_top_key(key: &str) -> bool
    ensures { result ≡ is_top_key key.now }
{
    key == "listen"
        || key == "domain"
        || key == "salt"
        || key == "workers"
        || key == "stop_after"
        || key == "journal_steps"
        || key == "journal_bytes"
        || key == "epoch_steps"
        || key == "journal_parts"
        || key == "reuse"
        || key == "record"
        || key == "hosts"
        || key == "app"
}

#[tactic(auto, unfolding(crate::specs::Faults::is_app_key))]
fn is_app_key(key: &str) -> bool
    ensures { result ≡ is_app_key key.now }
{
    key == "name" || key == "kind" || key == "params" || key == "expires"
}

#[tactic(auto, unfolding(crate::specs::KeyValues::is_wrong_host))]
fn is_wrong_host(name: &str, value: &Value) -> bool
    ensures { result ≡ is_wrong_host name.now (view value.now) }
{
    !(is_host(name.as_bytes()) && host_ip(value).is_some())
}

#[tactic(auto, unfolding(crate::specs::Faults::is_wrong))]
fn is_wrong(wrong: Wrong, key: &str, value: &Value) -> bool
    ensures { result ≡ is_wrong wrong key.now (view value.now) }
{
    match wrong {
        Wrong::TopKey => !is_top_key(key),
        Wrong::AppKey => !is_app_key(key),
        Wrong::Host => is_wrong_host(key, value),
    }
}

/// The first key, in byte order, whose entry is wrong.
#[tactic(auto, unfolding(crate::specs::Documents::first_key))]
fn first_wrong(wrong: Wrong, table: &Table) -> Option<&[u8]>
    ensures { option_copied result ≡ first_key (is_wrong wrong) (table_view table.now) }
{
    'entries: for (key, value) in table.iter() {
        if is_wrong(wrong, key.as_str(), value) {
            return Some(key.as_bytes());
        }
    }
    None
}

fn fault_at(kind: u8, key: Option<&[u8]>) -> Option<Fault<'_>>
    ensures { result ≡ option_map (λ k. (kind, k)) (option_copied key.entry) }
{
    match key {
        Some(key) => Some(Fault { kind, key }),
        None => None,
    }
}

#[tactic(auto, unfolding(crate::specs::Faults::app_fault))]
fn app_fault(check: Check, table: &Table) -> Option<Fault<'_>>
    ensures { result ≡ app_fault check (table_view table.now) }
{
    match check {
        Check::UnknownKeys => fault_at(UNKNOWN_KEY, first_wrong(Wrong::AppKey, table)),
        Check::Missing => missing_in_app(table),
        Check::Range => range_in_app(table),
    }
}

fn item_fault(check: Check, value: &Value) -> Option<Fault<'_>>
    ensures { result ≡ item_fault check (view value.now) }
{
    match value.as_table() {
        Some(table) => app_fault(check, table),
        None => None,
    }
}

fn faulty_item(check: Check, apps: &[Value]) -> Option<usize>
    ensures { result ≡ position (λ v. is_some (item_fault check (view v))) apps.now }
{
    apps.iter().position(|app| item_fault(check, app).is_some())
}

#[tactic(auto, using(crate::proofs::DocumentLaws::first_given_at, crate::proofs::DocumentLaws::first_given_none))]
fn items_fault(check: Check, apps: &[Value]) -> Option<Fault<'_>>
    ensures { result ≡ first_given (item_fault check) (map view apps.now) }
{
    match faulty_item(check, apps) {
        Some(at) => item_fault(check, &apps[at]),
        None => None,
    }
}

pub(crate) fn apps_in(table: &Table) -> &[Value]
    ensures { map view result.now ≡ apps_in (table_view table.now) }
{
    match value_at(table, "app") {
        Some(value) => elements(value),
        None => &[],
    }
}

#[tactic(auto, unfolding(crate::specs::Faults::apps_fault))]
fn apps_fault(check: Check, table: &Table) -> Option<Fault<'_>>
    ensures { result ≡ apps_fault check (table_view table.now) }
{
    items_fault(check, apps_in(table))
}

fn are_tables(values: &[Value]) -> bool
    ensures { result ≡ list_all (λ v. is_some (as_table (view v))) values.now }
{
    values.iter().all(|value| value.is_table())
}

#[tactic(auto, unfolding(sc_terms::specs::Ranges::are_few), using(crate::proofs::DocumentLaws::tables_view, crate::proofs::DocumentLaws::length_view))]
fn are_some_tables(values: &[Value]) -> bool
    ensures { result ≡ are_some_tables (map view values.now) }
{
    if values.is_empty() || values.len() > 64 {
        return false;
    }
    are_tables(values)
}

#[tactic(auto, unfolding(crate::specs::Faults::wrong_apps))]
fn wrong_apps(table: &Table) -> Option<Fault<'_>>
    ensures { result ≡ wrong_apps (table_view table.now) }
{
    fault_if(!are_some_tables(apps_in(table)), RANGE, "app")
}

#[tactic(auto, unfolding(crate::specs::Faults::wrong_hosts, crate::specs::Faults::wrong_host_in))]
fn wrong_hosts(table: &Table) -> Option<Fault<'_>>
    ensures { result ≡ wrong_hosts (get_member (codes "hosts") (table_view table.now)) }
{
    match value_at(table, "hosts") {
        Some(value) => match value.as_table() {
            Some(hosts) => fault_at(RANGE, first_wrong(Wrong::Host, hosts)),
            None => fault_if(true, RANGE, "hosts"),
        },
        None => None,
    }
}

#[tactic(auto, unfolding(crate::specs::Faults::first_fault, crate::specs::Faults::top_fault))]
fn missing_at_top(table: &Table) -> Option<Fault<'_>>
    ensures { result ≡ top_fault Missing (table_view table.now) }
{
    if let Some(fault) = missing("listen", table) {
        return Some(fault);
    }
    if let Some(fault) = missing("domain", table) {
        return Some(fault);
    }
    if let Some(fault) = missing("salt", table) {
        return Some(fault);
    }
    missing("app", table)
}

#[tactic(auto, unfolding(crate::specs::Faults::first_fault, crate::specs::Faults::top_fault))]
fn range_at_top(table: &Table) -> Option<Fault<'_>>
    ensures { result ≡ top_fault Range (table_view table.now) }
{
    if let Some(fault) = wrong_listen(table) {
        return Some(fault);
    }
    if let Some(fault) = wrong_domain(table) {
        return Some(fault);
    }
    if let Some(fault) = wrong_salt(table) {
        return Some(fault);
    }
    if let Some(fault) = wrong_numbers(table) {
        return Some(fault);
    }
    if let Some(fault) = wrong_flags(table) {
        return Some(fault);
    }
    if let Some(fault) = wrong_record(table) {
        return Some(fault);
    }
    if let Some(fault) = wrong_hosts(table) {
        return Some(fault);
    }
    wrong_apps(table)
}

#[tactic(auto, unfolding(crate::specs::Faults::wrong_record))]
fn wrong_record(table: &Table) -> Option<Fault<'_>>
    ensures { result ≡ wrong_record (table_view table.now) }
{
    fault_if(!is_file(value_at(table, "record")), RANGE, "record")
}

#[tactic(auto, unfolding(crate::specs::Faults::first_fault, crate::specs::Faults::wrong_flags))]
fn wrong_flags(table: &Table) -> Option<Fault<'_>>
    ensures { result ≡ wrong_flags (table_view table.now) }
{
    if let Some(fault) = wrong_flag("journal_parts", table) {
        return Some(fault);
    }
    wrong_flag("reuse", table)
}

#[tactic(auto, unfolding(crate::specs::Faults::first_fault, crate::specs::Faults::wrong_numbers))]
fn wrong_numbers(table: &Table) -> Option<Fault<'_>>
    ensures { result ≡ wrong_numbers (table_view table.now) }
{
    if let Some(fault) = wrong_number::<1, 32>("workers", table) {
        return Some(fault);
    }
    if let Some(fault) = wrong_number::<0, 1_000_000>("stop_after", table) {
        return Some(fault);
    }
    if let Some(fault) = wrong_number::<1, 1_000_000>("journal_steps", table) {
        return Some(fault);
    }
    if let Some(fault) = wrong_number::<1, 67_108_864>("journal_bytes", table) {
        return Some(fault);
    }
    wrong_number::<0, 1_000_000>("epoch_steps", table)
}

#[tactic(auto, unfolding(crate::specs::Faults::top_fault))]
fn top_fault(check: Check, table: &Table) -> Option<Fault<'_>>
    ensures { result ≡ top_fault check (table_view table.now) }
{
    match check {
        Check::UnknownKeys => fault_at(UNKNOWN_KEY, first_wrong(Wrong::TopKey, table)),
        Check::Missing => missing_at_top(table),
        Check::Range => range_at_top(table),
    }
}

#[tactic(auto, unfolding(crate::specs::Faults::first_fault, crate::specs::Faults::table_fault))]
fn table_fault(check: Check, table: &Table) -> Option<Fault<'_>>
    ensures { result ≡ table_fault check (table_view table.now) }
{
    if let Some(fault) = top_fault(check, table) {
        return Some(fault);
    }
    apps_fault(check, table)
}

/// The text of an application's key, empty where there is none.
#[tactic(auto, unfolding(crate::specs::Faults::app_text))]
pub(crate) fn app_text<'a>(app: &'a Value, key: &str) -> &'a [u8]
    ensures { result.now ≡ app_text key.now (view app.now) }
{
    match app.as_table() {
        Some(table) => match text_at(table, key) {
            Some(text) => text.as_bytes(),
            None => b"",
        },
        None => b"",
    }
}

fn has_name(apps: &[Value], name: &[u8]) -> bool
    ensures { result
        ≡ list_any (λ v. same_bytes (app_text (codes "name") (view v)) name.now) apps.now }
{
    apps.iter().any(|app| app_text(app, "name") == name)
}

/// Whether one of the kinds has this name.
fn is_kind(kinds: &[Text], name: &[u8]) -> bool
    ensures { result ≡ is_kind kinds.now name.now }
{
    kinds.iter().any(|kind| kind.as_bytes() == name)
}

fn kindless_app(kinds: &[Text], apps: &[Value]) -> Option<usize>
    ensures { result
        ≡ position (λ v. not (is_kind kinds.now (app_text (codes "kind") (view v)))) apps.now }
{
    apps.iter()
        .position(|app| !is_kind(kinds, app_text(app, "kind")))
}

#[tactic(auto, unfolding(crate::specs::Faults::unknown_kind), using(crate::proofs::DocumentLaws::find_view_at, crate::proofs::DocumentLaws::find_view_none))]
fn unknown_kind<'a>(kinds: &[Text], apps: &'a [Value]) -> Option<Fault<'a>>
    ensures { result ≡ unknown_kind kinds.now (map view apps.now) }
{
    match kindless_app(kinds, apps) {
        Some(at) => Some(Fault {
            kind: UNKNOWN_KIND,
            key: app_text(&apps[at], "kind"),
        }),
        None => None,
    }
}

/// The first name that an application before has.
fn double_name(apps: &[Value]) -> Option<Fault<'_>>
    ensures { result ≡ double_name (map view apps.now) }
{
    'apps: for at in 0..apps.len() {
        let name = app_text(&apps[at], "name");
        if has_name(&apps[..at], name) {
            return Some(Fault {
                kind: DOUBLE_NAME,
                key: name,
            });
        }
    }
    None
}

/// The first fault of a document, in the order of kinds and keys.
#[tactic(auto, unfolding(crate::specs::Faults::first_fault, crate::specs::Faults::first_refusal))]
pub(crate) fn first_refusal<'a>(kinds: &[Text], table: &'a Table) -> Option<Fault<'a>>
    ensures { result ≡ first_refusal kinds.now (table_view table.now) }
{
    if let Some(fault) = table_fault(Check::UnknownKeys, table) {
        return Some(fault);
    }
    if let Some(fault) = table_fault(Check::Missing, table) {
        return Some(fault);
    }
    if let Some(fault) = table_fault(Check::Range, table) {
        return Some(fault);
    }
    let apps = apps_in(table);
    if let Some(fault) = double_name(apps) {
        return Some(fault);
    }
    unknown_kind(kinds, apps)
}
