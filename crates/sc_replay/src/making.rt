//! The command `make`.

ghost use Rattle.std.specs.Prelude.{◌≡◌, ◌≤◌, None, map, string_bytes};
ghost use Rattle.sc_edge.specs.Faults.{Rose};
ghost use Rattle.sc_model.specs.Generated.{generated_text};
ghost use Rattle.sc_replay.specs.Making.{Makes, made_count};
ghost use Rattle.sc_replay.specs.Putting.{IsPut};

use crate::commanding::counted;
use crate::putting::{ended, put_whole};
use sc_edge::Sink;
use sc_make::script;
use sc_switch::{Ran, Status};
use sc_value::{NoMemory, Text};
use std::alloc::Global;

/// Writes the script of N calls. The words are `make N`, N a decimal from 1 to 1,000 without
/// leading zero.
///
/// The status says how it ended:
///
/// - `Done`: the whole script was put.
/// - `Usage`: the words have another form; nothing was put.
/// - `Write`: only where the sink's count of faults rose in this call; a part from the front was
///   put.
/// - `NoMemory`: want of memory; a part from the front was put.
///
/// There is no journal.
#[tactic(auto, unfolding(crate::specs::Making::Makes))]
pub fn make<K: Sink>(alloc: Global, words: &[String], out: &mut K) -> Ran
    ensures makes { Makes (made_count (map string_bytes words.now))
        (Rose (K.faults out.old) (K.faults out.new)) (K.took out.old) (K.took out.new)
        result.status }
    ensures journal { result.journal ≡ None }
    ensures epoch { result.epoch ≡ 0 }
    ensures began { result.began ≡ 0 }
{
    match counted(b"make", words) {
        Some(count) => ended(put_script(alloc, count, out)),
        None => ended(Status::Usage),
    }
}

/// Puts the script of n calls.
#[tactic(auto, unfolding(crate::specs::Putting::IsPut))]
fn put_script<K: Sink>(alloc: Global, n: u32, out: &mut K) -> Status
    requires least { 1 ≤ n }
    requires most { n ≤ 1000 }
    ensures { IsPut (Rose (K.faults out.old) (K.faults out.new)) (K.took out.old) (K.took out.new)
        (generated_text n) result }
{
    let mut text = Text::new(alloc);
    match script(alloc, n, &mut text) {
        Ok(()) => put_whole(&text, out),
        Err(NoMemory) => Status::NoMemory,
    }
}
