ghost use Rattle.std.specs.Prelude.{◌≡◌, true, IfOk};
ghost use Rattle.sc_desk.specs.Desks.{IsOf, view_of};
ghost use Rattle.sc_console.specs.Consoles.{Answers, Writes};
ghost use Rattle.sc_console.specs.Lines.{asked_of};
ghost use Rattle.sc_console.specs.declared.asked.Asked.TheVariants as asks;

use crate::Console;
use crate::asked::{Asked, asked_of};
use crate::listed::write_listing;
use sc_desk::{Desk, DeskPass};
use sc_edge::Order;
use sc_value::{AppId, NoMemory, Text};
use sc_watch::Reading;
use std::sync::Wait;

/// Answers a line, which is without its line feed, and appends what it writes to `out`:
///
/// - `list`: `list EPOCH STEPS LIVE WAITING`, and for each live session `app H S`, each with a line
///   feed, from one listing;
/// - `drop H S`: `posted`, where an order of the listing's epoch was posted, or `full`, only where
///   the desk was full at that step. Whether the session lives isn't asked;
/// - any other line: `?`.
///
/// It may wait. The pass is a poster's of the desk.
///
/// # Errors
///
/// `NoMemory` for want of memory. An order may have been posted then.
#[tactic(auto, unfolding(crate::specs::Consoles::Answers))]
pub fn console<R: Wait>(
    rt: &R,
    line: &[u8],
    reading: &mut Reading,
    desk: &Desk,
    pass: &mut DeskPass,
    out: &mut Text,
) -> Result<Console, NoMemory>
    requires pass { IsOf desk.now pass.old × ((view_of pass.old).posts ≡ true) }
    ensures pass { IsOf desk.now pass.new × ((view_of pass.new).posts ≡ true) }
    ensures answers { IfOk result
        (λ answer.
        Answers (asked_of line.now) desk.now
        (record { floor = reading.old.floor; view = view_of pass.old; out = out.old })
        (record { floor = reading.new.floor; view = view_of pass.new; out = out.new }) answer) }
{
    match asked_of(line) {
        Asked::List => list(rt, reading, out),
        Asked::Drop(app) => order(rt, app, reading, desk, pass, out),
        Asked::Nothing => {
            out.append(b"?\n")?;
            Ok(Console::Unknown)
        }
    }
}

/// Answers `list`.
fn list<R: Wait>(rt: &R, reading: &mut Reading, out: &mut Text) -> Result<Console, NoMemory>
    ensures { IfOk result
        (λ answer.
        (answer ≡ Console.Listed) × Writes reading.old.floor reading.new.floor out.old out.new) }
{
    let listing = reading.read(rt)?;
    write_listing(&listing, out)?;
    Ok(Console::Listed)
}

/// Answers `drop` of a session.
#[tactic(auto, unfolding(crate::specs::Consoles::Answers))]
fn order<R: Wait>(
    rt: &R,
    app: AppId,
    reading: &mut Reading,
    desk: &Desk,
    pass: &mut DeskPass,
    out: &mut Text,
) -> Result<Console, NoMemory>
    requires pass { IsOf desk.now pass.old × ((view_of pass.old).posts ≡ true) }
    ensures pass { IsOf desk.now pass.new × ((view_of pass.new).posts ≡ true) }
    ensures answers { IfOk result
        (λ answer.
        Answers (asks.Drop app) desk.now
        (record { floor = reading.old.floor; view = view_of pass.old; out = out.old })
        (record { floor = reading.new.floor; view = view_of pass.new; out = out.new }) answer) }
{
    let epoch = reading.read(rt)?.epoch;
    match desk.post_as(rt, pass, Order { epoch, app }) {
        Ok(()) => {
            out.append(b"posted\n")?;
            Ok(Console::Posted)
        }
        Err(_) => {
            out.append(b"full\n")?;
            Ok(Console::Full)
        }
    }
}
