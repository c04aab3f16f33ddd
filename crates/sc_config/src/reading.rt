ghost use Rattle.std.specs.Prelude.{◌≡◌, [], Some, None, Ok, Err, IsTrue, IfOk, IfErr, IfSome};
ghost use Rattle.toml.specs.View.{table_view};
ghost use Rattle.sc_config.specs.ReadSettings.{settings_of, settings_in, fault_told};

use crate::ConfigRefused;
use crate::config_refused::{LONG, SYNTAX};
use crate::faults::first_refusal;
use crate::making::config_of;
use sc_terms::Config;
use sc_value::{List, Text};
use std::alloc::Global;
use toml::Table;

/// The settings that a TOML text of at most 65,536 bytes gives. `kinds` are the names of the kinds
/// of applications, by their places in the catalogue.
///
/// The keys are `listen` (`a.b.c.d:port`), `domain` (a host's name, or an IPv6 literal in brackets)
/// and
/// `salt`, which are required; `workers` (1 to 32, else 2), `stop_after` and `epoch_steps` (0 to
/// 1,000,000, else 0), `journal_steps` (1 to 1,000,000, the default) and `journal_bytes` (1 to
/// 67,108,864, the default); `journal_parts` and `reuse` (true or false, the default); `record`
/// (the name of a file, 1 to 4,096 bytes without 0, else none); the table `hosts` from names to
/// IPv4 addresses; and the array `app` of 1 to 64 tables with `name` and `kind`, which are
/// required, `params`, an array of texts, and `expires`, -1 to 10,080 minutes, else 3.
///
/// # Errors
///
/// `Refused` exactly where the text gives no settings, with the first fault: by kinds in the order 6,
/// 1, 7, 2, 3, 4, 5, and within one kind by keys in the order above. Unknown keys come in byte
/// order, and those of applications after all others. `NoMemory` for want of memory.
#[tactic(auto, unfolding(crate::specs::ReadSettings::settings_of, crate::specs::ReadSettings::settings_in), using(crate::proofs::DocumentLaws::document_some, crate::proofs::DocumentLaws::document_none))]
pub fn read(alloc: Global, bytes: &[u8], kinds: &List<Text>) -> Result<Config, ConfigRefused>
    ensures ok { IfOk result (λ config. settings_of bytes.now kinds.now ≡ Ok config) }
    ensures refused { IfErr result
        (λ e. IfSome (fault_told e) (λ fault. settings_of bytes.now kinds.now ≡ Err fault)) }
{
    if bytes.len() > 65_536 {
        return Err(refused(alloc, LONG, b""));
    }
    match toml::table_from_slice(alloc, bytes) {
        Ok(top) => settings_in(alloc, kinds.as_slice(), &top),
        Err(cause) => Err(unread(alloc, cause.is_memory())),
    }
}

#[tactic(auto, unfolding(crate::specs::ReadSettings::fault_told))]
fn unread(alloc: Global, is_memory: bool) -> ConfigRefused
    ensures told { IfSome (fault_told result) (λ fault. fault ≡ (1, [])) }
    ensures memory { IsTrue is_memory → fault_told result ≡ None }
{
    if is_memory {
        return ConfigRefused::NoMemory;
    }
    refused(alloc, SYNTAX, b"")
}

#[tactic(auto, unfolding(crate::specs::ReadSettings::settings_in, crate::specs::ReadSettings::unless_refused, crate::specs::ReadSettings::fault_told), using(crate::proofs::RangeLaws::few_apps, crate::proofs::SaltLaws::salt_in_range))]
fn settings_in(alloc: Global, kinds: &[Text], top: &Table) -> Result<Config, ConfigRefused>
    ensures ok { IfOk result
        (λ config. settings_in (Some (table_view top.now)) kinds.now ≡ Ok config) }
    ensures refused { IfErr result
        (λ e.
        IfSome (fault_told e)
        (λ fault. settings_in (Some (table_view top.now)) kinds.now ≡ Err fault)) }
{
    match first_refusal(kinds, top) {
        Some(fault) => Err(refused(alloc, fault.kind, fault.key)),
        None => match config_of(alloc, kinds, top) {
            Ok(config) => Ok(config),
            Err(_) => Err(ConfigRefused::NoMemory),
        },
    }
}

#[tactic(auto, unfolding(crate::specs::ReadSettings::fault_told))]
fn refused(alloc: Global, kind: u8, key: &[u8]) -> ConfigRefused
    ensures { IfSome (fault_told result) (λ fault. fault ≡ (kind, key.now)) }
{
    match Text::from_slice(alloc, key) {
        Ok(key) => ConfigRefused::Refused { kind, key },
        Err(_) => ConfigRefused::NoMemory,
    }
}
