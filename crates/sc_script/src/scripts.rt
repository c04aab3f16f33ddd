//! The lines of whole scripts.

ghost use Rattle.std.specs.Prelude.{◌≡◌, ◌≤◌, ◌<◌, ◌+◌, ℕ, [], ◌∷◌, ◌++◌, Result, drop, length, IfOk, OnOk};
ghost use Rattle.sc_terms.specs.declared.steps.Line.{Line};
ghost use Rattle.sc_script.specs.ScriptTexts.{is_end, lines_in, moment_after, row_at, row_by, row_with, script_of};
ghost use Rattle.sc_script.specs.Reading.{Says, Gives, Adds};

use crate::cuts::cut;
use crate::refused::ScriptRefused;
use crate::rows::{RowRefused, line_of};
use sc_terms::Line;
use sc_value::{List, NoMemory};
use std::alloc::Global;

// What can be wrong with a text beside its lines, by its number.
const NO_END: u8 = 6;

const LONG: u8 = 7;

/// The lines that a script says.
///
/// # Errors
///
/// `Refused` with the first line that is wrong: the place of its first byte, and the lowest kind of
/// what is wrong with it: 1 it has the words of no row, 2 a word is no number of its range, 3 or no
/// place, 4 too few bytes follow an `in`, or no line feed after them, 5 a `tick` is below an
/// earlier one. Kind 6: the text ends without `end`, at its length, or goes on after it, at the
/// first byte there. Kind 7, before all others: it has more than 67,108,864 bytes, at that place.
/// `NoMemory` says nothing of the text.
#[tactic(auto, unfolding(crate::specs::ScriptTexts::script_of, crate::specs::Reading::Gives, crate::specs::Reading::Adds))]
pub fn read_lines(alloc: Global, bytes: &[u8]) -> Result<List<Line>, ScriptRefused>
    ensures { Gives result (script_of bytes.now) }
{
    if 67_108_864 < bytes.len() {
        return Err(ScriptRefused::Refused {
            at: 67_108_864,
            kind: LONG,
        });
    }
    let mut lines = List::new(alloc);
    match add_lines(alloc, bytes, &mut lines) {
        Ok(()) => Ok(lines),
        Err(cause) => {
            drop(lines);
            Err(cause)
        }
    }
}

// Puts the lines of a text into a list that has none.
fn add_lines(alloc: Global, bytes: &[u8], lines: &mut List<Line>) -> Result<(), ScriptRefused>
    requires empty { lines.old ≡ [] }
    requires short { length bytes.now ≤ 67108864 }
    ensures { Adds result lines.new (lines_in 0 0 0 bytes.now) }
{
    let mut at: usize = 0;
    let mut since: u64 = 0;
    while at < bytes.len() {
        let (line, size) = match row_at(alloc, at, since, rest_of(bytes, at)) {
            Ok(row) => row,
            Err(cause) => return Err(cause),
        };
        since = moment_after(since, &line);
        let last = is_end(&line);
        match put_line(line, lines) {
            Ok(()) => {}
            Err(NoMemory) => return Err(ScriptRefused::NoMemory),
        }
        if last {
            return Ok(());
        }
        at += size;
    }
    Err(ScriptRefused::Refused {
        at: bytes.len(),
        kind: NO_END,
    })
}

// Puts a line at the end of a list.
fn put_line(line: Line, lines: &mut List<Line>) -> Result<(), NoMemory>
    ensures { OnOk result (lines.new ≡ lines.old ++ line ∷ []) }
{
    lines.push(line)?;
    Ok(())
}

fn rest_of(bytes: &[u8], at: usize) -> &[u8]
    requires { at ≤ length bytes.now }
    ensures { result.now ≡ drop at bytes.now }
{
    &bytes[at..]
}

// The line that begins at this place, and how many bytes it has with its own bytes.
#[tactic(auto, unfolding(crate::specs::ScriptTexts::row_at, crate::specs::ScriptTexts::row_by, crate::specs::Reading::Gives))]
fn row_at(alloc: Global, at: usize, since: u64, text: &[u8]) -> Result<(Line, usize), ScriptRefused>
    requires { at + length text.now ≤ 67108864 }
    ensures gives { Gives result (row_at at since text.now) }
    ensures some { IfOk result (λ row. 0 < row.1) }
    ensures within { IfOk result (λ row. row.1 ≤ length text.now) }
{
    let (line, after) = cut(text, b'\n');
    match after {
        Some(after) => {
            let said = line_of(alloc, since, after, line);
            row_with(at, line.len() + 1, after, said)
        }
        None => Err(ScriptRefused::Refused {
            at: at + line.len(),
            kind: NO_END,
        }),
    }
}

#[tactic(auto, unfolding(crate::specs::ScriptTexts::row_with, crate::specs::Reading::Says, crate::specs::Reading::Gives))]
fn row_with(
    at: usize,
    len: usize,
    after: &[u8],
    said: Result<(Line, usize), RowRefused>,
) -> Result<(Line, usize), ScriptRefused>
    requires short { at + len + length after.now ≤ 67108864 }
    requires own { IfOk said (λ row. row.1 ≤ length after.now) }
    ensures gives { (row : Result (Line × ℕ) ℕ) → Says said row
        → Gives result (row_with at len after.now row) }
    ensures some { IfOk result (λ row. len ≤ row.1) }
    ensures within { IfOk result (λ row. row.1 ≤ len + length after.now) }
{
    match said {
        Ok((line, more)) => {
            if is_end(&line) && !after.is_empty() {
                drop(line);
                return Err(ScriptRefused::Refused {
                    at: at + len,
                    kind: NO_END,
                });
            }
            Ok((line, len + more))
        }
        Err(RowRefused::Wrong(kind)) => Err(ScriptRefused::Refused { at, kind }),
        Err(RowRefused::NoMemory) => Err(ScriptRefused::NoMemory),
    }
}

#[tactic(auto, unfolding(crate::specs::ScriptTexts::is_end))]
fn is_end(line: &Line) -> bool
    ensures { result ≡ is_end line.now }
{
    match line {
        Line::End => true,
        _ => false,
    }
}

#[tactic(auto, unfolding(crate::specs::ScriptTexts::moment_after))]
fn moment_after(since: u64, line: &Line) -> u64
    ensures { result ≡ moment_after since line.now }
{
    match line {
        Line::Tick(now) => *now,
        _ => since,
    }
}
