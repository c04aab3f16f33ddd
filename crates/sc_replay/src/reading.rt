//! Reading the script.

ghost use Rattle.std.specs.Prelude.{◌≡◌, ◌≤◌, ℕ, List, Option, IfOk, IfErr, string_bytes};
ghost use Rattle.sc_edge.specs.Faults.{Rose};
ghost use Rattle.sc_edge.specs.Shelving.{Gives, GivesAll};
ghost use Rattle.sc_replay.specs.Replaying.{TellsScript};
ghost use Rattle.sc_replay.specs.Running.{IsUnread};

use sc_edge::{Shelf, Shelved};
use sc_script::{ScriptRefused, read_lines};
use sc_terms::Line;
use sc_value::{List, NoMemory, Text};
use std::alloc::Global;

/// The most bytes of a script.
const LONGEST: usize = 67_108_864;

/// Why there are no lines of a script.
#[derive(Clone, Copy, Debug, PartialEq, Eq)]
pub enum ScriptUnread {
    /// The shelf failed.
    Failed,
    /// The text is no script: the first fault, by its place and kind.
    Refused { at: usize, kind: u8 },
    /// Want of memory.
    NoMemory,
}

/// What the shelf answers for a name, asked for at most this many bytes.
pub fn read_text<F: Shelf>(alloc: Global, name: &String, max: usize, shelf: &mut F) -> Shelved
    ensures same { (n : List ℕ) → F.holds shelf.new n ≡ F.holds shelf.old n }
    ensures later { F.faults shelf.old ≤ F.faults shelf.new }
    ensures gives { Gives result (F.holds shelf.old (string_bytes name.now)) max
        (Rose (F.faults shelf.old) (F.faults shelf.new)) }
{
    match Text::from_slice(alloc, name.as_bytes()) {
        Ok(name) => shelf.read(&name, max),
        Err(NoMemory) => Shelved::NoMemory,
    }
}

/// The lines of the script that the shelf holds under a name.
///
/// # Errors
///
/// `Failed` only where the shelf counted a fault; `Refused` with the first fault of its text; and
/// `NoMemory`.
#[tactic(auto, unfolding(crate::specs::Running::IsUnread), using(crate::proofs::Readings::told_longer))]
pub fn read_script<F: Shelf>(
    alloc: Global,
    name: &String,
    shelf: &mut F,
) -> Result<List<Line>, ScriptUnread>
    ensures later { F.faults shelf.old ≤ F.faults shelf.new }
    ensures found { IfOk result
        (λ lines. TellsScript (F.holds shelf.old (string_bytes name.now)) lines) }
    ensures unread { IfErr result
        (λ cause.
        IsUnread (F.holds shelf.old (string_bytes name.now))
        (Rose (F.faults shelf.old) (F.faults shelf.new)) cause) }
{
    match read_text(alloc, name, LONGEST, shelf) {
        Shelved::Got(text) => lines_of(alloc, &text),
        Shelved::Long => Err(ScriptUnread::Refused {
            at: LONGEST,
            kind: 7,
        }),
        Shelved::Failed => Err(ScriptUnread::Failed),
        Shelved::NoMemory => Err(ScriptUnread::NoMemory),
    }
}

/// The lines of a script's text.
#[tactic(auto, unfolding(crate::specs::Running::IsUnread, sc_script::specs::Reading::Gives), using(crate::proofs::Readings::told_lines, crate::proofs::Readings::told_fault))]
fn lines_of(alloc: Global, text: &Text) -> Result<List<Line>, ScriptUnread>
    ensures found { (told : Option (List ℕ)) → GivesAll text.now told
        → IfOk result (λ lines. TellsScript told lines) }
    ensures unread { (told : Option (List ℕ)) → GivesAll text.now told
        → IfErr result (λ cause. IsUnread told ⊥ cause) }
{
    match read_lines(alloc, text.as_bytes()) {
        Ok(lines) => Ok(lines),
        Err(ScriptRefused::Refused { at, kind }) => Err(ScriptUnread::Refused { at, kind }),
        Err(ScriptRefused::NoMemory) => Err(ScriptUnread::NoMemory),
    }
}
