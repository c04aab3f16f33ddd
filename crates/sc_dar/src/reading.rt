//! The table of a text.

ghost use Rattle.std.specs.Prelude.{◌≡◌, ◌≤◌, ◌++◌, ◌∷◌, ◌<◌, [], Err, IfOk, OnOk, length};
ghost use Rattle.std.specs.List.{All};
ghost use Rattle.sc_dar.specs.Lines.{lines};
ghost use Rattle.sc_dar.specs.Tables.{lists_with, table_of};
ghost use Rattle.sc_dar.specs.Answers.{IsJudged, IsAtLine};

use crate::DarRefused;
use crate::lines::{FirstLine, first_line};
use crate::lists::list_of_line;
use crate::unread::{LONG, Unread};
use sc_terms::{Dar, MethodList};
use sc_value::{List, NoMemory, Text};
use std::alloc::Global;

/// The table that a text of at most 65,536 bytes gives for the applications of these names (JSR 289
/// appendix C). A name's place is the tuple's `app`, where several have it the first.
///
/// Lines end with LF, or CR LF. A line that ends with a backslash is joined with the next one,
/// whose leading blanks are dropped. Blank lines are comments, and so are lines whose first byte
/// past blanks is `#` or `!`. Every other line is a method, `:` or `=`, and tuples with commas
/// between them, as `INVITE: ("alarm", "DAR:From", "NEUTRAL", "", "NO_ROUTE", "0")`: the
/// application, the subscriber, the region, the route, the modifier, and the tuple's order in its
/// method, from 0. Blanks, spaces and tabs, are allowed round each sign, and none before the
/// method.
///
/// # Errors
///
/// `Refused` exactly where the text gives no table, with the number of the first line at fault and
/// the kind of its first fault; `NoMemory` for want of memory.
#[tactic(auto, using(crate::proofs::Kept::named_if_ok, crate::proofs::Kept::few_if_ok))]
pub fn read(alloc: Global, b: &[u8], apps: &List<Text>) -> Result<Dar, DarRefused>
    ensures exact { IsJudged result (table_of b.now apps.now) }
    ensures named { IfOk result
        (λ dar. All (λ list. All (λ tuple. tuple.app < length apps.now) list.tuples) dar.lists) }
    ensures few { IfOk result (λ dar. All (λ list. length list.tuples ≤ 64) dar.lists) }
{
    table_of(alloc, b, apps.as_slice())
}

#[tactic(auto, unfolding(crate::specs::Tables::table_of, crate::specs::Tables::table_with), using(crate::proofs::KeptRules::lists_kept))]
fn table_of(alloc: Global, text: &[u8], apps: &[Text]) -> Result<Dar, DarRefused>
    ensures { IsJudged result (table_of text.now apps.now) }
{
    if text.len() > 65_536 {
        return Err(DarRefused::Refused {
            line: 0,
            kind: LONG,
        });
    }
    let lists = lists_in(alloc, text, apps)?;
    Ok(Dar { lists })
}

fn put_last(lists: &mut List<MethodList>, list: MethodList) -> Result<(), NoMemory>
    ensures { OnOk result (lists.new ≡ lists.old ++ list ∷ []) }
{
    match lists.push(list) {
        Ok(()) => Ok(()),
        Err(_) => Err(NoMemory),
    }
}

// The refusal of a line of this number.
fn at_line(cause: Unread, line: u64) -> DarRefused
    ensures { IsAtLine cause line result }
{
    match cause {
        Unread::Fault { kind } => DarRefused::Refused { line, kind },
        Unread::NoMemory => DarRefused::NoMemory,
    }
}

// The lists of all lines.
#[tactic(auto, using(crate::proofs::LineSteps::line_on, crate::proofs::LineSteps::comment_on, crate::proofs::LineSteps::line_fault, crate::proofs::LineSteps::all_read))]
fn lists_in(alloc: Global, text: &[u8], apps: &[Text]) -> Result<List<MethodList>, DarRefused>
    requires { length text.now ≤ 65536 }
    ensures { IsJudged result (lists_with apps.now 1 [] (lines text.now)) }
{
    let mut lists = List::new(alloc);
    let mut rest = text;
    let mut number: u64 = 1;
    while !rest.is_empty() {
        let line = first_line(alloc, rest)?;
        match list_of_line(alloc, apps, lists.as_slice(), line.front, line.last) {
            Ok(Some(list)) => put_last(&mut lists, list)?,
            Ok(None) => (),
            Err(cause) => return Err(at_line(cause, number)),
        }
        number += line.height;
        rest = line.rest;
    }
    Ok(lists)
}
