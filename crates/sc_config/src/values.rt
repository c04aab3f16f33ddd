//! The values of single keys.

ghost use Rattle.std.specs.Prelude.{◌≡◌, map, Some, is_some};
ghost use Rattle.std.specs.Option.{option_map, option_copied, option_and_then};
ghost use Rattle.toml.specs.Data.{as_str, as_integer, as_bool, get_member};
ghost use Rattle.toml.specs.View.{view, table_view};
ghost use Rattle.sc_config.specs.KeyValues.{number_within, number_in, flag_in, expires_in, expiry_of};
ghost use Rattle.sc_config.specs.KeyValues.{host_ip, ip_of, is_file, is_file_name, is_params, listen_in};
ghost use Rattle.sc_config.specs.Documents.{elements};
ghost use Rattle.std.specs.List.{list_all};

use crate::addresses::{ip_of, listen_of};
use crate::texts::is_file_name;
use sc_terms::{Expires, Port, Within};
use toml::{Table, Value};

/// The value of a key.
pub(crate) fn value_at<'a>(table: &'a Table, key: &str) -> Option<&'a Value>
    ensures { option_map (λ v. view v.now) result ≡ get_member key.now (table_view table.now) }
{
    table.get(key)
}

/// The number that the integer is, where it is in the range.
#[tactic(auto, unfolding(crate::specs::KeyValues::number_within))]
fn number_within<const LOW: u64, const HIGH: u64>(integer: i64) -> Option<Within<LOW, HIGH>>
    ensures { result ≡ number_within LOW HIGH integer }
{
    match u64::try_from(integer) {
        Ok(n) => Within::new(n),
        Err(_) => None,
    }
}

/// The number of a key, or the standard one where the key is absent.
#[tactic(auto, unfolding(crate::specs::KeyValues::number_in))]
pub(crate) fn number_in<const LOW: u64, const HIGH: u64>(
    standard: Within<LOW, HIGH>,
    value: Option<&Value>,
) -> Option<Within<LOW, HIGH>>
    ensures { result
        ≡ number_in LOW HIGH standard.entry (option_map (λ v. view v.now) value.entry) }
{
    match value {
        Some(value) => match value.as_integer() {
            Some(integer) => number_within(integer),
            None => None,
        },
        None => Some(standard),
    }
}

/// Whether a key is set, not where it is absent.
#[tactic(auto, unfolding(crate::specs::KeyValues::flag_in))]
pub(crate) fn flag_in(value: Option<&Value>) -> Option<bool>
    ensures { result ≡ flag_in (option_map (λ v. view v.now) value.entry) }
{
    match value {
        Some(value) => value.as_bool(),
        None => Some(false),
    }
}

/// The minutes after which a session expires, 3 where the key is absent.
#[tactic(auto, unfolding(crate::specs::KeyValues::expires_in, sc_terms::specs::Ranges::is_expiry))]
pub(crate) fn expires_in(value: Option<&Value>) -> Option<Expires>
    ensures { result ≡ expires_in (option_map (λ v. view v.now) value.entry) }
{
    match value {
        Some(value) => match value.as_integer() {
            Some(minutes) => expiry_of(minutes),
            None => None,
        },
        None => Some(Expires::of(3)),
    }
}

#[tactic(auto, unfolding(crate::specs::KeyValues::expiry_of, sc_terms::specs::Ranges::is_expiry))]
fn expiry_of(integer: i64) -> Option<Expires>
    ensures { result ≡ expiry_of integer }
{
    match i32::try_from(integer) {
        Ok(minutes) => Expires::new(minutes),
        Err(_) => None,
    }
}

/// The text of a key, where it has one.
pub(crate) fn text_at<'a>(table: &'a Table, key: &str) -> Option<&'a str>
    ensures { option_copied result
        ≡ option_and_then as_str (get_member key.now (table_view table.now)) }
{
    match value_at(table, key) {
        Some(value) => value.as_str(),
        None => None,
    }
}

/// The address and the port of `listen`.
#[tactic(auto, unfolding(crate::specs::KeyValues::listen_in))]
pub(crate) fn listen_in(value: Option<&Value>) -> Option<([u8; 4], Port)>
    ensures { result ≡ listen_in (option_map (λ v. view v.now) value.entry) }
{
    match value {
        Some(value) => match value.as_str() {
            Some(text) => listen_of(text),
            None => None,
        },
        None => None,
    }
}

/// Whether the value can be that of `record`: the name of a file, or nothing.
#[tactic(auto, unfolding(crate::specs::KeyValues::is_file))]
pub(crate) fn is_file(value: Option<&Value>) -> bool
    ensures { result ≡ is_file (option_map (λ v. view v.now) value.entry) }
{
    match value {
        Some(value) => match value.as_str() {
            Some(name) => is_file_name(name.as_bytes()),
            None => false,
        },
        None => true,
    }
}

/// Whether the value can be the parameters of an application: an array of texts, or nothing.
#[tactic(auto, unfolding(crate::specs::KeyValues::is_params))]
pub(crate) fn is_params(value: Option<&Value>) -> bool
    ensures { result ≡ is_params (option_map (λ v. view v.now) value.entry) }
{
    match value {
        Some(value) => match value.as_array() {
            Some(items) => are_texts(items.as_slice()),
            None => false,
        },
        None => true,
    }
}

fn are_texts(values: &[Value]) -> bool
    ensures { result ≡ list_all (λ v. is_some (as_str (view v))) values.now }
{
    values.iter().all(|value| value.is_str())
}

/// The address of an entry of `hosts`.
#[tactic(auto, unfolding(crate::specs::KeyValues::host_ip))]
pub(crate) fn host_ip(value: &Value) -> Option<[u8; 4]>
    ensures { result ≡ host_ip (view value.now) }
{
    match value.as_str() {
        Some(text) => ip_of(text),
        None => None,
    }
}

/// The items of an array, none of what is no array.
#[tactic(auto, using(crate::proofs::DocumentLaws::elements_view))]
pub(crate) fn elements(value: &Value) -> &[Value]
    ensures { map view result.now ≡ elements (view value.now) }
{
    match value.as_array() {
        Some(items) => items.as_slice(),
        None => &[],
    }
}
