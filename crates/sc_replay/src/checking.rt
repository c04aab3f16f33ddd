//! The command `check`.

ghost use Rattle.std.specs.Prelude.{◌≡◌, ◌≤◌, ◌++◌, OnOk, length, map, string_bytes};
ghost use Rattle.std.specs.List.{All};
ghost use Rattle.std.specs.Option.{option_map};
ghost use Rattle.sc_edge.specs.Faults.{Rose};
ghost use Rattle.sc_replay.specs.Checking.{ChecksWords, Checks, HasNoSteps, checked_names, ok_line, ok_word, tuple_count};
ghost use Rattle.sc_replay.specs.Putting.{IsPut};

use crate::commanding::settled_names;
use crate::putting::{ended, put_whole};
use crate::settings::{Settings, read_settings};
use sc_edge::{Shelf, Sink};
use sc_journal::Journal;
use sc_servlets::Catalogue;
use sc_switch::{Ran, Status};
use sc_terms::MethodList;
use sc_value::{NoMemory, Text, write_u64};
use std::alloc::Global;

/// Reads a configuration and a routing table, and puts the line `ok A T`: the number of
/// applications, and of the tuples of all methods. The words are `check CONFIG DAR`, the names of
/// two texts on the shelf.
///
/// The status says how it ended:
///
/// - `Done`: both were accepted, and the line was put.
/// - `Usage`: the words have another form.
/// - `Config`, `Dar`: the configuration is refused; it is accepted, and the routing table is
///   refused.
/// - `Read`, `Write`: only where the shelf's, the sink's count of faults rose in this call.
/// - `NoMemory`: want of memory, at any place.
///
/// The journal is there exactly where both were accepted, and it is empty; else nothing was put. At
/// `Write` and `NoMemory` a part from the front of the line was put.
pub fn check<F: Shelf, K: Sink>(
    alloc: Global,
    words: &[String],
    shelf: &mut F,
    apps: &Catalogue,
    out: &mut K,
) -> Ran
    ensures checks { ChecksWords (checked_names (map string_bytes words.now)) apps.now.names
        (λ name. F.holds shelf.old name) (Rose (F.faults shelf.old) (F.faults shelf.new))
        (Rose (K.faults out.old) (K.faults out.new)) (K.took out.old) (K.took out.new) result }
    ensures epoch { result.epoch ≡ 0 }
    ensures began { result.began ≡ 0 }
{
    match checked_names(words) {
        Some((config, dar)) => check_named(alloc, config, dar, shelf, apps, out),
        None => ended(Status::Usage),
    }
}

/// The names of the configuration and of the routing table, None exactly where the words are not
/// `check CONFIG DAR`.
fn checked_names(words: &[String]) -> Option<(&String, &String)>
    ensures { option_map (λ p. (string_bytes p.0.now, string_bytes p.1.now)) result
        ≡ checked_names (map string_bytes words.now) }
{
    settled_names(b"check", words)
}

/// Checks the two texts of these names.
fn check_named<F: Shelf, K: Sink>(
    alloc: Global,
    config: &String,
    dar: &String,
    shelf: &mut F,
    apps: &Catalogue,
    out: &mut K,
) -> Ran
    ensures checks { Checks apps.now.names (F.holds shelf.old (string_bytes config.now))
        (F.holds shelf.old (string_bytes dar.now)) (Rose (F.faults shelf.old) (F.faults shelf.new))
        (Rose (K.faults out.old) (K.faults out.new)) (K.took out.old) (K.took out.new) result.status
        result.journal }
    ensures epoch { result.epoch ≡ 0 }
    ensures began { result.began ≡ 0 }
{
    match read_settings(alloc, config, dar, shelf, apps.names()) {
        Ok(settings) => accepted(alloc, put_settings(alloc, &settings, out)),
        Err(status) => ended(status),
    }
}

/// The end of a call whose settings were accepted: its journal is empty.
#[tactic(auto, unfolding(crate::specs::Checking::HasNoSteps))]
fn accepted(alloc: Global, status: Status) -> Ran
    ensures status { result.status ≡ status }
    ensures journal { HasNoSteps result.journal }
    ensures epoch { result.epoch ≡ 0 }
    ensures began { result.began ≡ 0 }
{
    Ran {
        status,
        epoch: 0,
        began: 0,
        journal: Some(Journal::new(alloc, 1_000_000, 67_108_864)),
    }
}

/// Puts the line of these settings.
fn put_settings<K: Sink>(alloc: Global, settings: &Settings, out: &mut K) -> Status
    requires lists { length settings.now.dar.lists ≤ 65537 }
    requires tuples { All (λ list. length list.tuples ≤ 64) settings.now.dar.lists }
    ensures { IsPut (Rose (K.faults out.old) (K.faults out.new)) (K.took out.old) (K.took out.new)
        (ok_line (length settings.now.config.app) (tuple_count settings.now.dar.lists)) result }
{
    put_ok(
        alloc,
        settings.config.app.len(),
        settings.dar.lists.as_slice(),
        out,
    )
}

/// Puts the line of so many applications and of these lists.
#[tactic(auto, unfolding(crate::specs::Putting::IsPut))]
fn put_ok<K: Sink>(alloc: Global, apps: usize, lists: &[MethodList], out: &mut K) -> Status
    requires lists { length lists.now ≤ 65537 }
    requires tuples { All (λ list. length list.tuples ≤ 64) lists.now }
    ensures { IsPut (Rose (K.faults out.old) (K.faults out.new)) (K.took out.old) (K.took out.new)
        (ok_line apps (tuple_count lists.now)) result }
{
    let mut text = Text::new(alloc);
    match write_ok(apps as u64, tuple_count(lists), &mut text) {
        Ok(()) => put_whole(&text, out),
        Err(NoMemory) => Status::NoMemory,
    }
}

#[tactic(auto, unfolding(crate::specs::Checking::ok_line, crate::specs::Checking::ok_word))]
fn write_ok(apps: u64, tuples: u64, out: &mut Text) -> Result<(), NoMemory>
    ensures { OnOk result (out.new ≡ out.old ++ ok_line apps tuples) }
{
    out.append(b"ok ")?;
    write_u64(apps, out)?;
    out.append(b" ")?;
    write_u64(tuples, out)?;
    out.append(b"\n")
}

/// How many tuples the lists have.
#[tactic(auto, using(crate::proofs::TableLengths::few_tuples))]
fn tuple_count(lists: &[MethodList]) -> u64
    requires lists { length lists.now ≤ 65537 }
    requires tuples { All (λ list. length list.tuples ≤ 64) lists.now }
    ensures { result ≡ tuple_count lists.now }
{
    let mut count: u64 = 0;
    for list in lists {
        count += list.tuples.len() as u64;
    }
    count
}
